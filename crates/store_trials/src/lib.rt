//! Tests of the store of values by its public calls: the index of chunks, saves, fetches and marks, and
//! vacuums.
//!
//! There are tests alone here, so that each of these crates is proved once.
#![tactic(auto)]

#[cfg(test)]
mod fetches;
#[cfg(test)]
mod indexes;
#[cfg(test)]
mod reuses;
#[cfg(test)]
mod saves;
#[cfg(test)]
mod vacuums;
