//! Changes of rows, made one after another, and the places that they name.

ghost use Rattle.command_set.specs.Changes.{fold_changes, is_named, keys_of, made, place, places_of};
ghost use Rattle.std.specs.List.{list_any};
ghost use Rattle.std.specs.Prelude.{◌≡◌, ◌++◌, IfOk, OnOk};

use crate::rows::{RowMap, is_same};
use crate::state::{Change, PlaceList};
use std::alloc::AllocError;
use tuple_layout::{Place, Row};

/// The place of a key in a table.
// Keys go by reference into functions of their own, whose proofs then know their range.
pub fn place_of(table: &u16, key: &i64) -> Place
    ensures { result ≡ place table.now key.now }
{
    Place {
        table: *table,
        key: *key,
    }
}

impl RowMap {
    // Puts a copy of a row at a key's place.
    fn put_at(&mut self, table: &u16, key: &i64, row: &Row) -> Result<(), AllocError>
        ensures { OnOk result (self.new ≡ made (Change.Insert table.now key.now row.now) self.old) }
    {
        let row = row.clone()?;
        self.put(place_of(table, key), row)?;
        Ok(())
    }

    // Makes a change.
    fn make(&mut self, change: &Change) -> Result<(), AllocError>
        ensures { OnOk result (self.new ≡ made change.now self.old) }
    {
        match change {
            Change::Insert { table, key, row } => {
                self.put_at(table, key, row)?;
                Ok(())
            }
            Change::Update { table, key, row } => {
                self.put_at(table, key, row)?;
                Ok(())
            }
            Change::Move {
                table,
                from,
                to,
                row,
            } => {
                self.take_away(place_of(table, from))?;
                self.put_at(table, to, row)?;
                Ok(())
            }
            Change::Remove { table, key } => {
                self.take_away(place_of(table, key))?;
                Ok(())
            }
        }
    }

    /// The rows after these changes, made in order.
    pub fn with_changes(self, changes: &[Change]) -> Result<RowMap, AllocError>
        ensures { IfOk result (λ rows. rows ≡ fold_changes changes.now self) }
    {
        let mut rows = self;
        for change in changes {
            rows.make(change)?;
        }
        Ok(rows)
    }
}

/// Whether a place is one of these.
pub fn is_among(places: &[Place], place: &Place) -> bool
    ensures { result ≡ is_named places.now place.now }
{
    places.iter().any(|other| is_same(place, other))
}

// Adds the places that a change names.
fn add_places(places: &mut PlaceList, change: &Change) -> Result<(), AllocError>
    ensures { OnOk result (places.new ≡ places.old ++ places_of change.now) }
{
    match change {
        Change::Insert { table, key, row: _ } => {
            places.push(place_of(table, key))?;
            Ok(())
        }
        Change::Update { table, key, row: _ } => {
            places.push(place_of(table, key))?;
            Ok(())
        }
        Change::Move {
            table,
            from,
            to,
            row: _,
        } => {
            places.push(place_of(table, from))?;
            places.push(place_of(table, to))?;
            Ok(())
        }
        Change::Remove { table, key } => {
            places.push(place_of(table, key))?;
            Ok(())
        }
    }
}

/// These places, and then those that these changes name, in order.
pub fn with_keys(places: PlaceList, changes: &[Change]) -> Result<PlaceList, AllocError>
    ensures { IfOk result (λ all. all ≡ places ++ keys_of changes.now) }
{
    let mut all = places;
    for change in changes {
        add_places(&mut all, change)?;
    }
    Ok(all)
}

// Whether a change names a place.
fn is_named_by(change: &Change, place: &Place) -> bool
    ensures { result ≡ is_named (places_of change.now) place.now }
{
    match change {
        Change::Insert { table, key, row: _ } => is_same(place, &place_of(table, key)),
        Change::Update { table, key, row: _ } => is_same(place, &place_of(table, key)),
        Change::Move {
            table,
            from,
            to,
            row: _,
        } => is_same(place, &place_of(table, from)) || is_same(place, &place_of(table, to)),
        Change::Remove { table, key } => is_same(place, &place_of(table, key)),
    }
}

// Whether one of these changes names a place.
fn is_named_by_any(changes: &[Change], place: &Place) -> bool
    ensures { result ≡ list_any (λ change. is_named (places_of change) place.now) changes.now }
{
    changes.iter().any(|change| is_named_by(change, place))
}

/// Whether these changes name a place.
pub fn names_place(changes: &[Change], place: &Place) -> bool
    ensures { result ≡ is_named (keys_of changes.now) place.now }
{
    is_named_by_any(changes, place)
}
