//! Tests of reads, step by step, by their public calls.
//!
//! There are tests alone here, so that `read_steps` is proved once.
#![tactic(auto)]

#[cfg(test)]
mod reads;
