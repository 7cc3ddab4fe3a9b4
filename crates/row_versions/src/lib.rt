//! The rows of a table: pages of slots, each slot with one version of a row, and a map from keys to
//! the versions of each.
//!
//! A version is in the relation from its put until its page is pruned after its transaction has
//! aborted, or after the one that ended it has committed and no reader can see it any more. Its slot is
//! then dead until no entry of the key map names it, and free after that.
//! Documentation: "Concurrency Control"; "Database Page Layout"; "Routine Vacuuming, Recovering Disk
//! Space".
#![tactic(auto)]

mod keys;
mod reads;
mod relation;
mod version;

pub use keys::KeyEntry;
pub use relation::RowVersions;
pub use slot_page::TidList;
pub use version::Version;
