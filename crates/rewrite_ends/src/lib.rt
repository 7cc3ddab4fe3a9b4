//! What follows from what holds of a rewrite of a table: that starts and ends of transactions and snapshots keep it,
//! and that at its end the new relations are a table in which every world has the rows that it had.
//!
//! Documentation: "VACUUM" (FULL); "Transaction Isolation"; "Routine Vacuuming, Recovering Disk Space"; "TOAST".
#![tactic(auto)]

pub mod laws;
