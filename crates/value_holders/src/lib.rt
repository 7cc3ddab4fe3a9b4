//! The holders of a value: the versions of a table's rows that point to it, and why vacuum spares
//! each of its chunks that a reader may still ask for.
//!
//! A version and a chunk are known here by their stamps alone: the xid that inserted it and the xid
//! that ended it, if any. Versions of one row may share a value, since an update that does not change
//! a column keeps its pointer, and the chunks of a value are ended only when the last version is.
//! The order that counts is that of commits: a chunk's ender is no earlier than the enders of the
//! versions that hold its value, though its xid may be the lower one.
//! Documentation: "TOAST"; "Routine Vacuuming, Recovering Disk Space".
#![tactic(auto)]

pub mod laws;
