//! The store's core: sessions over tables, each command in steps of one event.
//!
//! Documentation: "Concurrency Control"; "Transaction Processing"; "TOAST".
#![tactic(auto)]

mod events;
mod moments;
mod store;

pub use core_parts::Setup;
pub use core_state::advance::{Advance, Under};
pub use store::Core;
