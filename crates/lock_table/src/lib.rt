//! Locks: what each session has locked, a table or a row, and which session is in the way of another.
//!
//! Nobody waits: a lock that is in another session's way is refused with that session's number. A
//! session is never in its own way. Documentation: "Explicit Locking, Table-Level Locks" and
//! "Row-Level Locks".
#![tactic(auto)]

mod fault;
mod held;
mod lock;
mod locks;

pub use fault::{ClaimFault, LockFault};
pub use held::{RowSet, SessionLocks};
pub use lock::{Lock, LockMode, RowKey, TableLock, Upkeep};
pub use locks::Locks;

#[cfg(test)]
mod tests;
