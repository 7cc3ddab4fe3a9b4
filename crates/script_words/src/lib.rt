//! The words of a script: how its bytes are cut into lines and words, and how numbers, names, values and the
//! items of a schedule are spelled.
#![tactic(auto)]

pub mod fault;
pub mod items;
pub mod lines;
pub mod names;
pub mod numbers;
pub mod sets;
pub mod values;
pub mod words;
