//! The rows of a table as its versions give them, without code: worlds, and what each event keeps of
//! them.
//!
//! A world is a test of xids, whose changes are there: all that has committed, that and a running
//! transaction's own, or what a registered snapshot shows. A version is in a world where its inserter
//! passes the test and its ender, if it has one, does not.
//! Documentation: PostgreSQL, "Concurrency Control, Transaction Isolation".
#![tactic(auto)]

pub mod laws;
