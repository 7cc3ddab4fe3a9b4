//! Which of a row's values go out of line so that its tuple fits on a page.
//!
//! Source: the PostgreSQL 17 documentation, "Database Physical Storage", "TOAST".
#![tactic(auto)]

mod choice;
mod columns;
mod largest;
mod law;

pub use choice::{RowTooBig, TUPLE_TARGET, all_moved_size, plan};
pub use columns::OutColumns;
pub use law::{cells_widths, least_size, one_all_out_size, pushed_may_go, pushed_widths};

#[cfg(test)]
mod tests;
