//! Why bytes are no pointer.

use thiserror::Error;

/// The first check that fails.
#[derive(Clone, Copy, Debug, PartialEq, Eq, Error)]
pub enum PointerFault {
    /// The bytes are not 18.
    #[error("a pointer has 18 bytes and {have} are there")]
    WrongLength {
        /// How many bytes there are.
        have: usize,
    },
    /// The first byte is not 1, the header of an external datum.
    #[error("a pointer has the header {byte} in place of 1")]
    BadHeader {
        /// The first byte.
        byte: u8,
    },
    /// The second byte is not 18, the tag of a pointer on disk.
    #[error("a pointer has the tag {tag} in place of 18")]
    BadTag {
        /// The second byte.
        tag: u8,
    },
    /// The value is compressed: it is stored in fewer bytes than it has.
    #[error("a value of {raw_size} bytes with its header is compressed, its size word is {ext_info}")]
    Compressed {
        /// The value's length in bytes, with a header of four bytes.
        raw_size: u32,
        /// The stored length in bytes in the low 30 bits, and the compression method above them.
        ext_info: u32,
    },
    /// The two sizes name no value that is stored as it is.
    #[error("a value of {raw_size} bytes with its header has the size word {ext_info}")]
    BadSize {
        /// The value's length in bytes, with a header of four bytes.
        raw_size: u32,
        /// The stored length in bytes in the low 30 bits, and the compression method above them.
        ext_info: u32,
    },
}
