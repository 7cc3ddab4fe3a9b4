//! The pages of a relation: slots of a page with an item each, and the bytes that they take, as
//! PostgreSQL lays out a page of a table ("Database Page Layout").
#![tactic(auto)]

mod line;
mod page;
mod page_list;
mod search;
#[cfg(test)]
mod tests;

pub use line::{LinePointer, Slot, Tid, TidList};
pub use page::{NoRoom, Page};
pub use page_list::PageList;
pub use search::is_listed;
