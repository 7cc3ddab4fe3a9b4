//! What a pointer says, and where.
//!
//! Its 18 bytes are the header of an external datum, a tag, and four numbers of four bytes, low byte
//! first. At byte 2 stands the value's length with a header of four bytes; at byte 6 the size word, with
//! the stored length in its low 30 bits and the compression method above them; at byte 10 the value's
//! id; at byte 14 the id of its chunk relation.

/// The header of an external datum.
pub(crate) const EXTERNAL: u8 = 1;

/// The tag of a pointer on disk.
pub(crate) const ON_DISK: u8 = 18;

/// How many bytes a pointer takes.
pub(crate) const POINTER_SIZE: usize = 18;

/// A pointer to a value that is stored out of line and not compressed.
///
/// PostgreSQL documentation, "Database Physical Storage", "TOAST".
#[derive(Clone, Copy, Debug, PartialEq, Eq, Hash)]
pub struct Pointer {
    /// The value's length in bytes, without a header: at most 1,073,741,819.
    pub size: u32,
    /// The value's id in its chunk relation.
    pub value_id: u32,
    /// The id of that chunk relation.
    pub toast_rel: u32,
}
