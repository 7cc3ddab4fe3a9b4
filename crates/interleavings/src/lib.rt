//! Small scripts in every order of their sessions' turns: what is printed is what the plain program answers.
//!
//! There are tests alone here. The shell's contract says the same of every script and every order.
#![tactic(auto)]

#[cfg(test)]
mod shell;
#[cfg(test)]
mod tests;
#[cfg(test)]
mod worked;
