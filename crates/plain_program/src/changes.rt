//! Changes of one row.
//!
//! Keys go by reference into functions of their own, whose proofs then know their range.

ghost use Rattle.std.specs.Prelude.{◌≡◌};

use command_set::Row;
use command_set::state::Change;

/// A new row at a place.
pub fn insertion(table: &u16, key: &i64, row: Row) -> Change
    ensures { result ≡ Change.Insert table.now key.now row }
{
    Change::Insert {
        table: *table,
        key: *key,
        row,
    }
}

/// A row in the place of the one that was there.
pub fn replacement(table: &u16, key: &i64, row: Row) -> Change
    ensures { result ≡ Change.Update table.now key.now row }
{
    Change::Update {
        table: *table,
        key: *key,
        row,
    }
}

/// A row that goes to another place.
pub fn movement(table: &u16, from: &i64, to: &i64, row: Row) -> Change
    ensures { result ≡ Change.Move table.now from.now to.now row }
{
    Change::Move {
        table: *table,
        from: *from,
        to: *to,
        row,
    }
}

/// A row that is taken away.
pub fn removal(table: &u16, key: &i64) -> Change
    ensures { result ≡ Change.Remove table.now key.now }
{
    Change::Remove {
        table: *table,
        key: *key,
    }
}
