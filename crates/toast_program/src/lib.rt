//! The program's calls: what each command of the command line does, and the one that takes the words.
#![tactic(auto)]

mod make;
mod run;
#[cfg(test)]
mod tests;
mod top;

pub use make::toast_make;
pub use session_shell::{Bytes, BytesList, Hub, Status};
pub use top::toast_main;
