//! Tests of a table's rows by their public calls: who sees a version, how versions come and go, and what a
//! table's look-ups find.
//!
//! There are tests alone here, so that each of these crates is proved once.
#![tactic(auto)]

#[cfg(test)]
mod shots;
#[cfg(test)]
mod tables;
#[cfg(test)]
mod versions;
