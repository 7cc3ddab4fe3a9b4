//! Tests of commands and scripts by their public calls: claims and look-ups, the plain program, what is
//! legal and complete of a journal, and the words and lines of a script.
//!
//! There are tests alone here, so that each of these crates is proved once.
#![tactic(auto)]

#[cfg(test)]
mod commands;
#[cfg(test)]
mod journals;
#[cfg(test)]
mod programs;
#[cfg(test)]
mod scripts;
#[cfg(test)]
mod words;
