//! What a session's uses and look-ups of a core come to beside the plain store, the reply of each
//! moment, and the moments of refusals and commits: definitions, and laws over them.
//!
//! Documentation: "Concurrency Control"; "Transaction Processing".
#![tactic(auto)]

pub mod laws;
