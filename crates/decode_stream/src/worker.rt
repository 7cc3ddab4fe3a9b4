//! What one of several workers decodes of a log: the transactions of its xids.

ghost use Rattle.std.specs.Prelude.{◌≡◌, ◌≤◌, ◌<◌, [], ℕ, List, true, false, cond, nat_eq, IfOk, None, OnOk, Some};
ghost use Rattle.change_log.specs.declared.entry.LogEntry.{LogEntry};
ghost use Rattle.decode_stream.specs.Decoding.{xid_of};
ghost use Rattle.decode_stream.specs.States.{AreOpen, Fits, IsDecodable, found_of, open_at};
ghost use Rattle.decode_stream.specs.Parts.{IsFaulty, IsPart, IsTold, TakesIn, Visits, is_own, told_at, worker_at};

use crate::fault::DecodeFault;
use crate::table::{Table, xid_of_entry};
use crate::transaction::MessageList;
use change_log::{Log, LogEntry};
use indexmap::IndexMap;
use std::alloc::{AllocError, Global};
use std::marker::Model;

/// What an entry tells: the changes that it commits, or its fault.
pub(crate) type Told = Result<MessageList, DecodeFault>;

/// What the entries of a worker's transactions tell, by their places in the log, from 0.
#[derive(Drop)]
pub(crate) struct Part {
    told: IndexMap<usize, Told>,
}

impl Model for Part {
    ghost use Rattle.decode_stream.specs.Parts.{ToldList};

    ghost Value = { ToldList };

    ghost view = { λ part. part.told.entries };
}

impl Part {
    fn new(alloc: Global) -> Part
        ensures { result ≡ [] }
    {
        Part {
            told: IndexMap::new(alloc),
        }
    }

    /// Notes what the entry at a place tells.
    fn note(&mut self, n: usize, told: Told) -> Result<(), AllocError>
        ensures { OnOk result ((q : ℕ) → told_at self.new q ≡ cond (nat_eq n q) (Some told) (told_at self.old q)) }
    {
        let _ = self.told.insert(n, told)?;
        Ok(())
    }

    /// Takes what the entry at a place tells.
    pub(crate) fn take(&mut self, n: usize) -> Option<Told>
        ensures told { result ≡ told_at self.old n }
        ensures left { (q : ℕ) → told_at self.new q ≡ cond (nat_eq n q) None (told_at self.old q) }
    {
        self.told.swap_remove(&n)
    }
}

/// The worker that decodes an entry.
pub(crate) fn worker_of(e: &LogEntry, workers: usize) -> usize
    requires { 1 ≤ workers }
    ensures worker { result ≡ worker_at workers e.now }
    ensures within { result < workers }
{
    (xid_of_entry(e) % workers as u64) as usize
}

/// Takes an entry of the worker, and notes what it tells; then whether it has no fault.
fn take_own(table: &mut Table, part: &mut Part, n: usize, e: &LogEntry) -> Result<bool, AllocError>
    requires fits { Fits (found_of (open_at table.old (xid_of e.now))) e.now }
    requires free { told_at part.old n ≡ None }
    ensures told { OnOk result ((log : List LogEntry) → AreOpen table.old log → IsTold (told_at part.new n) (log, e.now)) }
    ensures others { OnOk result ((q : ℕ) → nat_eq n q ≡ false → told_at part.new q ≡ told_at part.old q) }
    ensures goes { IfOk result (λ goes. goes ≡ true → TakesIn table.old table.new e.now) }
    ensures stops { IfOk result (λ goes. goes ≡ false → IsFaulty table.old e.now) }
{
    match table.take(e) {
        Ok(None) => Ok(true),
        Ok(Some(changes)) => {
            part.note(n, Ok(changes))?;
            Ok(true)
        }
        Err(DecodeFault::Memory) => Err(AllocError),
        Err(fault) => {
            part.note(n, Err(fault))?;
            Ok(false)
        }
    }
}

/// Visits the entry at a place, and takes it if it is the worker's; then whether the worker goes on.
fn visit(
    table: &mut Table,
    part: &mut Part,
    share: (usize, usize),
    n: usize,
    e: &LogEntry,
) -> Result<bool, AllocError>
    requires workers { 1 ≤ share.0 }
    requires fits { is_own share.0 share.1 e.now ≡ true → Fits (found_of (open_at table.old (xid_of e.now))) e.now }
    requires free { told_at part.old n ≡ None }
    ensures { IfOk result (Visits share n e.now table.old part.old table.new part.new) }
{
    let (workers, worker) = share;
    if worker_of(e, workers) != worker {
        return Ok(true);
    }
    take_own(table, part, n, e)
}

/// A worker's part of a log.
pub(crate) fn decode_part(
    alloc: Global,
    log: &Log,
    workers: usize,
    worker: usize,
) -> Result<Part, AllocError>
    requires workers { 1 ≤ workers }
    requires log { IsDecodable log.now.entries }
    ensures { IfOk result (λ part. IsPart log.now.entries workers worker part) }
{
    let mut table = Table::new(alloc)?;
    let mut part = Part::new(alloc);
    for n in 0..log.len() {
        let Some(e) = log.at(n) else {
            unreachable!();
        };
        if !visit(&mut table, &mut part, (workers, worker), n, e)? {
            return Ok(part);
        }
    }
    Ok(part)
}
