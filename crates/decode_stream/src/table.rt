//! The transactions that have not ended.

ghost use Rattle.std.specs.Prelude.{◌≡◌, ◌≢◌, ℕ, ◌++◌, ◌∷◌, [], List, cond, false, nat_eq, IfOk, IfSome, None, OnErr, OnOk, Some};
ghost use Rattle.std.specs.List.{All};
ghost use Rattle.indexmap.specs.IndexMap.{get};
ghost use Rattle.stream_wire.specs.Spelling.{IsInRange};
ghost use Rattle.change_log.specs.declared.entry.LogEntry.{LogEntry};
ghost use Rattle.decode_stream.specs.Decoding.{commit_at, fault_at, fault_of, is_end, xid_of};
ghost use Rattle.decode_stream.specs.States.{AreOpen, Fits, IsOpen, found_of, open_at};
ghost use Rattle.decode_stream.specs.Steps.{Starts, Tells, ended};

use crate::fault::DecodeFault;
use crate::open::Open;
use crate::transaction::MessageList;
use change_log::LogEntry;
use indexmap::IndexMap;
use std::alloc::{AllocError, Global};
use std::marker::Model;

/// The transactions that have not ended, by their xids.
#[derive(Drop)]
pub(crate) struct Table {
    alloc: Global,
    transactions: IndexMap<u64, Open>,
}

impl Model for Table {
    ghost use Rattle.decode_stream.specs.States.{OpenList};

    ghost Value = { OpenList };

    ghost view = { λ table. table.transactions.entries };
}

/// The transaction that an entry belongs to.
pub(crate) fn xid_of_entry(e: &LogEntry) -> u64
    ensures { result ≡ xid_of e.now }
{
    match e {
        LogEntry::Chunk { xid, .. }
        | LogEntry::Insert { xid, .. }
        | LogEntry::Update { xid, .. }
        | LogEntry::Delete { xid, .. }
        | LogEntry::Commit { xid }
        | LogEntry::Abort { xid } => *xid,
    }
}

/// Puts a transaction at its xid. Where there is no memory, all is as before.
fn put(table: &mut IndexMap<u64, Open>, xid: u64, transaction: Open) -> Result<(), AllocError>
    ensures ok { OnOk result ((q : ℕ) → get nat_eq table.new q ≡ cond (nat_eq xid q) (Some transaction) (get nat_eq table.old q)) }
    ensures err { OnErr result (table.new.entries ≡ table.old.entries) }
{
    let _ = table.insert(xid, transaction)?;
    Ok(())
}

/// A transaction with its first entry, which does not end it.
fn first_of(alloc: Global, e: &LogEntry) -> Result<Open, DecodeFault>
    requires inside { is_end e.now ≡ false }
    requires fits { Fits (found_of None) e.now }
    ensures ok { IfOk result (λ transaction. IsOpen transaction (e.now ∷ [])) }
    ensures fault { Tells (fault_of (found_of None) e.now) result }
{
    let mut transaction = Open::new(alloc);
    transaction.take_in(alloc, e)?;
    Ok(transaction)
}

impl Table {
    /// A table of no transactions.
    pub(crate) fn new(alloc: Global) -> Result<Table, AllocError>
        ensures { IfOk result (λ table. table ≡ []) }
    {
        let transactions = IndexMap::with_capacity(alloc, 8)?;
        Ok(Table {
            alloc,
            transactions,
        })
    }

    /// Takes in the first entry of a transaction, which does not end it.
    fn start(&mut self, xid: u64, e: &LogEntry) -> Result<(), DecodeFault>
        requires inside { is_end e.now ≡ false }
        requires fits { Fits (found_of None) e.now }
        ensures ok { OnOk result (Starts self.old self.new xid e.now) }
        ensures fault { Tells (fault_of (found_of None) e.now) result }
        ensures err { OnErr result (self.new ≡ self.old) }
    {
        let transaction = first_of(self.alloc, e)?;
        put(&mut self.transactions, xid, transaction)?;
        Ok(())
    }

    /// Takes in an entry that does not end its transaction.
    fn take_in(&mut self, e: &LogEntry) -> Result<(), DecodeFault>
        requires inside { is_end e.now ≡ false }
        requires fits { Fits (found_of (open_at self.old (xid_of e.now))) e.now }
        ensures ok { OnOk result ((log : List LogEntry) → AreOpen self.old log → AreOpen self.new (log ++ e.now ∷ [])) }
        ensures fault { Tells (fault_of (found_of (open_at self.old (xid_of e.now))) e.now) result }
        ensures err { OnErr result (self.new ≡ self.old) }
    {
        let xid = xid_of_entry(e);
        let Some(transaction) = self.transactions.get_mut(&xid) else {
            return self.start(xid, e);
        };
        transaction.take_in(self.alloc, e)
    }

    /// Ends a transaction, of which nothing is left: its changes, if it has any.
    fn end(&mut self, xid: u64) -> Option<MessageList>
        ensures changes { result ≡ ended (open_at self.old xid) }
        ensures left { (q : ℕ) → open_at self.new q ≡ cond (nat_eq xid q) None (open_at self.old q) }
        ensures some { IfSome result (λ changes. (changes ≢ []) × All IsInRange changes) }
    {
        let Some(transaction) = self.transactions.swap_remove(&xid) else {
            return None;
        };
        let changes = transaction.into_changes();
        if changes.is_empty() {
            None
        } else {
            Some(changes)
        }
    }

    /// Takes an entry, and answers the changes that it commits, if there are any. Where it is refused
    /// or there is no memory, all is as before.
    pub(crate) fn take(&mut self, e: &LogEntry) -> Result<Option<MessageList>, DecodeFault>
        requires { Fits (found_of (open_at self.old (xid_of e.now))) e.now }
        ensures ok { OnOk result ((log : List LogEntry) → AreOpen self.old log → AreOpen self.new (log ++ e.now ∷ [])) }
        ensures commit { IfOk result (λ changes. (log : List LogEntry) → AreOpen self.old log → changes ≡ commit_at (log, e.now)) }
        ensures some { IfOk result (λ changes. IfSome changes (λ all. (all ≢ []) × All IsInRange all)) }
        ensures fault { (log : List LogEntry) → AreOpen self.old log → Tells (fault_at (log, e.now)) result }
        ensures err { OnErr result (self.new ≡ self.old) }
    {
        match e {
            LogEntry::Commit { xid } => Ok(self.end(*xid)),
            LogEntry::Abort { xid } => {
                let _ = self.end(*xid);
                Ok(None)
            }
            _ => {
                self.take_in(e)?;
                Ok(None)
            }
        }
    }
}
