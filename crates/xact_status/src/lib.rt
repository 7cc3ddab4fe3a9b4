//! The status of each transaction: which xids were given, to which session, and how each has ended.
//!
//! A transaction has its number (xid) from its first write on. Xids count up from 3 and are never
//! given twice. Commits are numbered from 1 in the order in which they are made, which need not be
//! the order of the xids.
//! Documentation: "Transaction Processing, Transactions and Identifiers".
#![tactic(auto)]

ghost use Rattle.std.specs.Prelude.{◌≡◌, ◌+◌, ◌++◌, ◌-◌, ◌<◌, ◌∷◌, ◌↔◌, ℕ, [], Contains, IfOk, IsTrue, OnErr, OnOk, slice_set, vec_capacity, vec_len};
ghost use Rattle.std.specs.List.Sorted.{IsStrictlyIncreasing};
ghost use Rattle.xact_status.specs.Versions.{IsStampAssigned, counts_for, is_current};
ghost use Rattle.xact_status.specs.Xacts.{IsAssigned, IsNumbered, after_abort, after_assign, after_commit, commit_count, first_xid, is_aborted, is_committed, is_running, next_xid, running_xids, session_of, state_of, status};

use std::alloc::{AllocError, Global};
use std::marker::Model;

/// The first xid that is given. 0, 1 and 2 have meanings of their own in PostgreSQL
/// ("Routine Vacuuming, Preventing Transaction ID Wraparound Failures").
const FIRST_XID: u64 = 3;

/// How a transaction stands.
#[derive(Clone, Copy, Debug, PartialEq, Eq)]
pub enum XactState {
    Running,
    /// It has committed, as the `number`-th of all commits, counted from 1.
    Committed { number: u64 },
    Aborted,
}

/// A transaction as the table keeps it: how it stands, and while it runs also its session.
#[derive(Clone, Copy, Debug, PartialEq, Eq)]
pub enum Xact {
    Running { session: u16 },
    Committed { number: u64 },
    Aborted,
}

impl Xact {
    fn state(self) -> XactState
        ensures { result ≡ state_of self }
    {
        match self {
            Xact::Running { .. } => XactState::Running,
            Xact::Committed { number } => XactState::Committed { number },
            Xact::Aborted => XactState::Aborted,
        }
    }
}

/// The transactions that a version of a row, or a chunk, names: the one that put it and the one that ended
/// it, if any.
#[derive(Clone, Copy, Debug, PartialEq, Eq)]
pub struct Stamp {
    pub inserter: u64,
    pub ender: Option<u64>,
}

/// The status of every xid that was given.
///
/// Contracts see the list of the transactions in the order of their xids.
#[derive(Debug, Drop)]
pub struct XactTable {
    // The transaction with xid `FIRST_XID + i` stands at place i.
    xacts: Vec<Xact>,
    // The xids that run, ascending, so that a snapshot need not look at those that have ended.
    running: Vec<u64>,
    commits: u64,
}

impl Model for XactTable {
    ghost use Rattle.std.specs.Prelude.{List};
    ghost use Rattle.xact_status.specs.declared.Xact.{Xact};
    ghost use Rattle.xact_status.specs.Xacts.{IsKept};

    ghost Value = { List Xact };

    ghost view = { λ table. table.xacts.items };

    ghost invariant = { λ table. IsKept table.xacts.items table.running.items table.commits };
}

impl XactTable {
    /// A table with no transaction, which takes no memory yet.
    pub fn new(alloc: Global) -> Self
        ensures none { result ≡ [] }
        ensures numbered { IsNumbered result }
    {
        XactTable {
            xacts: Vec::new(alloc),
            running: Vec::new(alloc),
            commits: 0,
        }
    }

    /// Gives the next xid to a session's transaction, which then runs.
    ///
    /// Its end takes no memory. Where there is no memory now, the table stays.
    pub fn assign(&mut self, session: u16) -> Result<u64, AllocError>
        ensures xid { IfOk result (λ xid. xid ≡ next_xid self.old) }
        ensures ok { OnOk result (self.new ≡ after_assign self.old session) }
        ensures err { OnErr result (self.new ≡ self.old) }
        ensures numbered { IsNumbered self.new }
    {
        let xid = self.next();
        self.running.reserve(1)?;
        self.xacts.push(Xact::Running { session })?;
        push_reserved(&mut self.running, xid);
        Ok(xid)
    }

    /// Commits a transaction that runs, and answers the number of this commit: one more than that
    /// of the commit before, 1 for the first.
    pub fn commit(&mut self, xid: u64) -> u64
        requires { IsTrue (is_running self.old xid) }
        ensures number { result ≡ commit_count self.old + 1 }
        ensures after { self.new ≡ after_commit self.old xid }
        ensures numbered { IsNumbered self.new }
    {
        let number = self.commits + 1;
        self.commits = number;
        end(
            &mut self.xacts,
            &mut self.running,
            xid,
            Xact::Committed { number },
        );
        number
    }

    /// Aborts a transaction that runs.
    pub fn abort(&mut self, xid: u64)
        requires { IsTrue (is_running self.old xid) }
        ensures after { self.new ≡ after_abort self.old xid }
        ensures numbered { IsNumbered self.new }
    {
        end(&mut self.xacts, &mut self.running, xid, Xact::Aborted);
    }

    /// How the transaction with this xid stands.
    pub fn status(&self, xid: u64) -> XactState
        requires { IsAssigned self.now xid }
        ensures { status self.now xid ≡ Some result }
    {
        self.xacts[(xid - FIRST_XID) as usize].state()
    }

    /// Whether the transaction with this xid has committed.
    pub fn has_committed(&self, xid: u64) -> bool
        requires { IsAssigned self.now xid }
        ensures { result ≡ is_committed self.now xid }
    {
        matches!(self.status(xid), XactState::Committed { .. })
    }

    /// Whether the transaction with this xid has aborted.
    pub fn has_aborted(&self, xid: u64) -> bool
        requires { IsAssigned self.now xid }
        ensures { result ≡ is_aborted self.now xid }
    {
        matches!(self.status(xid), XactState::Aborted)
    }

    /// Whether the change of a transaction counts at this moment for one with the xid `own`, or for one
    /// without an xid: it is its own, or has committed.
    fn counts_for(&self, own: Option<u64>, xid: u64) -> bool
        requires { IsAssigned self.now xid }
        ensures { result ≡ counts_for self.now own xid }
    {
        own == Some(xid) || self.has_committed(xid)
    }

    /// Whether what bears a stamp is there at this moment for a transaction with the xid `own`, or for one
    /// without an xid: its inserter is that xid or has committed, and its ender neither.
    pub fn is_current(&self, stamp: Stamp, own: Option<u64>) -> bool
        requires { IsStampAssigned self.now stamp }
        ensures { result ≡ is_current self.now own stamp }
    {
        if !self.counts_for(own, stamp.inserter) {
            return false;
        }
        match stamp.ender {
            Some(ender) => !self.counts_for(own, ender),
            None => true,
        }
    }

    /// The xid that is given next. All that were given are below it.
    pub fn next(&self) -> u64
        ensures next { result ≡ next_xid self.now }
        ensures numbered { IsNumbered self.now }
    {
        FIRST_XID + self.xacts.len() as u64
    }

    /// The xids that run, ascending.
    pub fn running(&self) -> &[u64]
        ensures all { result.now ≡ running_xids self.now }
        ensures ascending { IsStrictlyIncreasing result.now }
        ensures members { (xid : ℕ) → Contains result.now xid ↔ IsTrue (is_running self.now xid) }
    {
        &self.running
    }
}

// Adds an xid where room for it is kept.
fn push_reserved(xids: &mut Vec<u64>, xid: u64)
    requires { vec_len xids.old < vec_capacity xids.old }
    ensures { xids.new.items ≡ xids.old.items ++ xid ∷ [] }
{
    match xids.push(xid) {
        Ok(()) => {}
        Err(_) => unreachable!(),
    }
}

// Puts how a running transaction has ended in its place, and takes its xid from those that run.
fn end(xacts: &mut Vec<Xact>, running: &mut Vec<u64>, xid: u64, ended: Xact)
    requires runs { IsTrue (is_running xacts.old.items xid) }
    requires kept { running.old.items ≡ running_xids xacts.old.items }
    requires over { session_of ended ≡ None }
    ensures ended { xacts.new.items ≡ slice_set xacts.old.items (xid - first_xid) ended }
    ensures kept { running.new.items ≡ running_xids xacts.new.items }
{
    xacts[(xid - FIRST_XID) as usize] = ended;
    match running.binary_search(&xid) {
        Ok(at) => {
            let _ended = running.remove(at);
        }
        Err(_) => unreachable!(),
    }
}

#[cfg(test)]
mod tests {
    use super::{Stamp, XactState, XactTable};
    use std::alloc::AllocError;

    #[test]
    fn commits_are_numbered_in_their_order(rt: HostRuntime) -> Result<(), AllocError> {
        let mut table = XactTable::new(rt.alloc());
        assert_eq!(rt; table.next(), 3);
        let first = table.assign(7)?;
        let second = table.assign(8)?;
        let third = table.assign(7)?;
        assert_eq!(rt; table.running(), [3, 4, 5].as_slice());
        assert_eq!(rt; table.commit(third), 1);
        table.abort(first);
        assert_eq!(rt; table.running(), [4].as_slice());
        assert_eq!(rt; table.status(second), XactState::Running);
        assert_eq!(rt; table.commit(second), 2);
        assert_eq!(rt; table.status(first), XactState::Aborted);
        assert_eq!(rt; table.status(second), XactState::Committed { number: 2 });
        assert_eq!(rt; table.status(third), XactState::Committed { number: 1 });
        assert_eq!(rt; table.next(), 6);
        let stamp = Stamp {
            inserter: third,
            ender: Some(first),
        };
        assert!(rt; table.is_current(stamp, None) && table.has_committed(third));
        assert!(rt; !table.is_current(stamp, Some(first)) && table.has_aborted(first));
        Ok(())
    }
}
