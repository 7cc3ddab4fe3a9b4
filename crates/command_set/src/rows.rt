//! Finite maps as logs of edits, the newest first: slow to read, and simple.

ghost use Rattle.std.specs.FinMap as map;
ghost use Rattle.command_set.specs.Logs.{newest, newest_value};
ghost use Rattle.command_set.specs.Plain.{row_at};
ghost use Rattle.tuple_layout.specs.Places.{same_place};
ghost use Rattle.std.specs.Option.{option_copied};
ghost use Rattle.std.specs.Prelude.{◌≡◌, IfOk, OnErr, OnOk, Some, None};

use list_facts::ListOf;
use std::alloc::{AllocError, Global};
use std::collections::VecDeque;
use std::marker::Model;
use tuple_layout::{Bytes, Place, Row};

// A row was put at a place, or the row there was taken away.
#[derive(Drop)]
struct RowEdit {
    place: Place,
    row: Option<Row>,
}

impl Clone for RowEdit {
    ghost is_clone = { λ edit copy. copy ≡ edit };

    fn clone(&self) -> Result<Self, AllocError> {
        let place = self.place;
        let row = self.row.clone()?;
        Ok(RowEdit { place, row })
    }
}

/// Whether two places are one.
pub fn is_same(place: &Place, other: &Place) -> bool
    ensures { result ≡ same_place place.now other.now }
{
    *place == *other
}

/// Rows by their places.
#[derive(Drop)]
pub struct RowMap {
    log: VecDeque<RowEdit>,
}

impl Model for RowMap {
    ghost use Rattle.std.specs.FinMap as map;
    ghost use Rattle.tuple_layout.specs.Places.{Rows};
    ghost use Rattle.command_set.specs.Logs.{place_code, row_code, rows_of};

    ghost Value = { Rows };

    ghost coded = { map.code place_code row_code };

    ghost view = { λ rows. rows_of rows.log.items };
}

// What the newest edit of a place left there.
fn newest_row<'a>(log: &'a VecDeque<RowEdit>, place: &Place) -> Option<&'a Row>
    ensures { option_copied result ≡ newest log.now.items place.now }
{
    for edit in log {
        if is_same(place, &edit.place) {
            return edit.row.as_ref();
        }
    }
    None
}

// What the newest edit of a name left there.
fn newest_bytes(log: &VecDeque<(u16, Option<Bytes>)>, handle: u16) -> Option<&Bytes>
    ensures { option_copied result ≡ newest_value log.now.items handle }
{
    for edit in log {
        if handle == edit.0 {
            return edit.1.as_ref();
        }
    }
    None
}

impl RowMap {
    /// No rows. It takes no memory.
    pub fn new(alloc: Global) -> RowMap
        ensures { result ≡ map.empty }
    {
        RowMap {
            log: VecDeque::new(alloc),
        }
    }

    /// The row at a place, if there is one.
    pub fn get(&self, place: &Place) -> Option<&Row>
        ensures { option_copied result ≡ map.get self.now place.now }
    {
        newest_row(&self.log, place)
    }

    /// Puts a row at a place.
    pub fn put(&mut self, place: Place, row: Row) -> Result<(), AllocError>
        ensures ok { OnOk result (self.new ≡ map.insert self.old place row) }
        ensures err { OnErr result (self.new ≡ self.old) }
    {
        self.log.push_front(RowEdit {
            place,
            row: Some(row),
        })?;
        Ok(())
    }

    /// Takes the row at a place away, if there is one.
    pub fn take_away(&mut self, place: Place) -> Result<(), AllocError>
        ensures ok { OnOk result (self.new ≡ map.remove self.old place) }
        ensures err { OnErr result (self.new ≡ self.old) }
    {
        self.log.push_front(RowEdit { place, row: None })?;
        Ok(())
    }

    /// A copy of the row at a place, which is empty where there is none.
    pub fn row_at(&self, alloc: Global, place: &Place) -> Result<Row, AllocError>
        ensures { IfOk result (λ row. row ≡ row_at self.now place.now) }
    {
        match self.get(place) {
            Some(row) => {
                let row = row.clone()?;
                Ok(row)
            }
            None => Ok(ListOf::new(alloc)),
        }
    }
}

impl Clone for RowMap {
    ghost is_clone = { λ rows copy. copy ≡ rows };

    fn clone(&self) -> Result<Self, AllocError> {
        let log = self.log.clone()?;
        Ok(RowMap { log })
    }
}

/// Values by the names under which they are kept.
#[derive(Drop)]
pub struct HandleMap {
    log: VecDeque<(u16, Option<Bytes>)>,
}

impl Model for HandleMap {
    ghost use Rattle.std.specs.Coded.{coded_ℕ};
    ghost use Rattle.std.specs.FinMap as map;
    ghost use Rattle.command_set.specs.Logs.{Handles, bytes_code, handles_of};

    ghost Value = { Handles };

    ghost coded = { map.code coded_ℕ bytes_code };

    ghost view = { λ handles. handles_of handles.log.items };
}

impl HandleMap {
    /// No values. It takes no memory.
    pub fn new(alloc: Global) -> HandleMap
        ensures { result ≡ map.empty }
    {
        HandleMap {
            log: VecDeque::new(alloc),
        }
    }

    /// The value kept under a name, if there is one.
    pub fn get(&self, handle: u16) -> Option<&Bytes>
        ensures { option_copied result ≡ map.get self.now handle }
    {
        newest_bytes(&self.log, handle)
    }

    /// Keeps a value under a name.
    pub fn put(&mut self, handle: u16, bytes: Bytes) -> Result<(), AllocError>
        ensures ok { OnOk result (self.new ≡ map.insert self.old handle bytes) }
        ensures err { OnErr result (self.new ≡ self.old) }
    {
        self.log.push_front((handle, Some(bytes)))?;
        Ok(())
    }

    /// Gives a name up.
    pub fn take_away(&mut self, handle: u16) -> Result<(), AllocError>
        ensures ok { OnOk result (self.new ≡ map.remove self.old handle) }
        ensures err { OnErr result (self.new ≡ self.old) }
    {
        self.log.push_front((handle, None))?;
        Ok(())
    }
}
