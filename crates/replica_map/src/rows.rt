//! Rows by their places, in a tree.

ghost use Rattle.std.specs.Prelude.{◌≡◌, OnErr, OnOk, is_some, slice_get};
ghost use Rattle.std.specs.Option.{option_copied, option_map};
ghost use Rattle.std.specs.FinMap as finite;
ghost use Rattle.std.specs.BTreeMap.{IsOrdered};
ghost use Rattle.std.specs.Map.Iter.{deref_pair};
ghost use Rattle.tuple_layout.specs.Places.{place_cmp};
ghost use Rattle.replica_map.specs.States.{row_of, rows_of};

use std::alloc::AllocError;
use std::collections::BTreeMap;
use tuple_layout::{Place, Row};

pub(crate) type Tree = BTreeMap<Place, Row>;

/// The row at a place.
pub(crate) fn row_at<'a>(rows: &'a Tree, at: &Place) -> Option<&'a Row>
    ensures { option_copied result ≡ finite.get (rows_of rows.now.entries) at.now }
{
    rows.get(at)
}

/// Whether a row is at a place.
pub(crate) fn is_there(rows: &Tree, at: &Place) -> bool
    ensures { result ≡ is_some (finite.get (rows_of rows.now.entries) at.now) }
{
    rows.contains_key(at)
}

/// Puts a row at a place. Where there is no memory, all stays.
pub(crate) fn put(rows: &mut Tree, at: Place, row: Row) -> Result<(), AllocError>
    ensures ok { OnOk result (rows_of rows.new.entries ≡ finite.insert (rows_of rows.old.entries) at row) }
    ensures err { OnErr result (rows.new.entries ≡ rows.old.entries) }
{
    let _ = rows.insert(at, row)?;
    Ok(())
}

/// Takes the row at a place away.
pub(crate) fn take_away(rows: &mut Tree, at: &Place)
    ensures { rows_of rows.new.entries ≡ finite.remove (rows_of rows.old.entries) at.now }
{
    let _ = rows.remove(at);
}

/// The number of rows.
pub(crate) fn count(rows: &Tree) -> usize
    ensures { result ≡ finite.len (rows_of rows.now.entries) }
{
    rows.len()
}

/// The entry at a position, in the order of table and then key.
fn entry_at(rows: &Tree, n: usize) -> Option<(&Place, &Row)>
    ensures entry { option_map deref_pair result ≡ slice_get rows.now.entries n }
    ensures ordered { IsOrdered place_cmp rows.now }
{
    rows.iter().nth(n)
}

// A key goes by reference into a function of its own, whose proof then knows its range.
fn with_place<'a>(at: &Place, row: &'a Row) -> (u16, i64, &'a Row)
    ensures { row_of result ≡ (at.now, row.now) }
{
    (at.table, at.key, row)
}

/// The row at a position, in the order of table and then key, with both.
pub(crate) fn nth_row(rows: &Tree, n: usize) -> Option<(u16, i64, &Row)>
    ensures { option_map row_of result ≡ slice_get (finite.entries (rows_of rows.now.entries)) n }
{
    let (at, row) = entry_at(rows, n)?;
    Some(with_place(at, row))
}
