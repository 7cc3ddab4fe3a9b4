//! A datum as it lies in a buffer.

/// A datum of variable length, with its payload where it lies.
///
/// PostgreSQL documentation, "Database Physical Storage", "TOAST".
#[derive(Clone, Copy, Debug, PartialEq, Eq)]
pub enum Form<'a> {
    /// A header of one byte, and a payload of 0 to 126 bytes.
    Short(&'a [u8]),
    /// A header of four bytes, and a payload of 0 to 1,073,741,819 bytes.
    Plain(&'a [u8]),
    /// A header of four bytes with the mark of compression, and the compressed bytes after it.
    Compressed(&'a [u8]),
    /// A pointer to a value that is stored out of line: all of its 18 bytes.
    External(&'a [u8]),
}
