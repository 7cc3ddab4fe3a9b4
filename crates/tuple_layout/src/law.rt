//! What holds of tuples alone.

ghost use Rattle.std.specs.Prelude.{◌≡◌, ◌≤◌, List, length, Some};
ghost use Rattle.tuple_layout.specs.declared.Storage.{Storage};
ghost use Rattle.tuple_layout.specs.declared.cell.Stored.{Stored};
ghost use Rattle.tuple_layout.specs.StoredRows.{stored_in};
ghost use Rattle.tuple_layout.specs.Tuples.{HasTuple, tuple};

/// Each stored row of at most 8 columns is found in the bytes of its tuple.
pub fn stored_in_tuple()
    ensures { (schema : List Storage) (stored : Stored) → length schema ≤ 8 → HasTuple schema stored → stored_in schema (tuple schema stored) ≡ Some stored }
{}
