//! Tests of the change stream by its public calls: messages as bytes, what a log decodes to, the replica,
//! and what the plain program streams.
//!
//! There are tests alone here, so that each of these crates is proved once.
#![tactic(auto)]

#[cfg(test)]
mod decodings;
#[cfg(test)]
mod replicas;
#[cfg(test)]
mod streams;
#[cfg(test)]
mod wires;
