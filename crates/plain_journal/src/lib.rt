//! What the plain store answers to a journal's entries, one after another: the printed lines, and which journals
//! are legal and complete. Slow and simple, as the plain program on which it stands.
#![tactic(auto)]

pub mod entries;
pub mod legality;
pub mod runs;

pub use legality::{is_complete, is_legal};
pub use runs::{plain_lines, run_of};
