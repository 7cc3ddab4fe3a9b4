//! A store that threads share: each turn of its hub is made by whoever has the hub, and a pass tells
//! its holder what it has seen of the one journal, and which entries of it are its own.
#![tactic(auto)]

pub mod laws;
mod run;
mod store;

pub use run::run_threads;
pub use store::{Shared, SharedStore};

#[cfg(test)]
mod tests;
