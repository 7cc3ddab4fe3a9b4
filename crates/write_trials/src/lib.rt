//! Tests of writes, step by step, by their public calls.
//!
//! There are tests alone here, so that `write_steps` is proved once.
#![tactic(auto)]

#[cfg(test)]
mod writes;
#[cfg(test)]
mod written;
