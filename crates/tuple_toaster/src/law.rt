//! What holds of sizes alone.

ghost use Rattle.std.specs.Prelude.{◌≡◌, ◌≤◌, ◌||◌, ℕ, Bool, true, List, length, nat_eq};
ghost use Rattle.std.specs.List.{All, AllZip, IsDistinct};
ghost use Rattle.tuple_layout.specs.declared.Storage.{Storage};
ghost use Rattle.tuple_layout.specs.Places.{Row};
ghost use Rattle.tuple_layout.specs.declared.cell.Cell.{Cell};
ghost use Rattle.tuple_layout.specs.Sizes.{Width, all_out_size, is_eligible_column, size, widths};
ghost use Rattle.tuple_layout.specs.Tuples.{cell_widths};
ghost use Rattle.tuple_toaster.specs.Kept.{IsCellOf, MayGo, is_out_column};
ghost use Rattle.tuple_toaster.specs.Pushed.{all_moved_size, is_among, moved, pushed};

/// The tuple of a row is smallest with every value out of line that may be. So whether a row is too
/// large for a page does not depend on what is stored out of line.
pub fn least_size()
    ensures { (schema : List Storage) (row : Row) (out : ℕ → Bool) → ((column : ℕ) → out column ≡ true → is_eligible_column schema row column ≡ true) → all_out_size schema row ≤ size schema (widths row out) }
{}

/// A row has one size with every value out of line that may be, whatever was out of line before: that
/// of the plain store's test for rows that are too large.
pub fn one_all_out_size()
    ensures { (schema : List Storage) (row : Row) (kept : ℕ → Bool) → length row ≡ length schema → ((column : ℕ) → kept column ≡ true → is_eligible_column schema row column ≡ true) → all_moved_size schema (widths row kept) ≡ all_out_size schema row }
{}

/// What goes out are columns of the row, each EXTERNAL and inline with at least 21 bytes, and no column
/// twice.
pub fn pushed_may_go()
    ensures each { (schema : List Storage) (ws : List Width) (target : ℕ) → All (MayGo schema ws) (pushed schema ws target) }
    ensures once { (schema : List Storage) (ws : List Width) (target : ℕ) → IsDistinct nat_eq (pushed schema ws target) }
{}

/// The widths of a stored row's cells are those of its values with the columns out of line that have a
/// pointer.
pub fn cells_widths()
    ensures { (cells : List Cell) (row : Row) → AllZip IsCellOf cells row → cell_widths cells ≡ widths row (is_out_column cells) }
{}

/// And once more columns go out, they are those with both the kept columns and these out of line.
pub fn pushed_widths()
    ensures { (schema : List Storage) (row : Row) (kept : ℕ → Bool) (target : ℕ) → moved (pushed schema (widths row kept) target) (widths row kept) ≡ widths row (λ column. kept column || is_among (pushed schema (widths row kept) target) column) }
{}
