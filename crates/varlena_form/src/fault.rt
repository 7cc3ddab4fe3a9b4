//! Why bytes do not begin with a datum.

use thiserror::Error;

/// The first check that fails at the front of the bytes.
#[derive(Clone, Copy, Debug, PartialEq, Eq, Error)]
pub enum FormFault {
    /// The bytes end too early.
    #[error("{need} bytes are needed and {have} are there")]
    Truncated {
        /// How many bytes are needed, as far as the ones that are there tell.
        need: usize,
        /// How many bytes are there.
        have: usize,
    },
    /// The datum is external, and its tag is not 18, that of a pointer on disk.
    #[error("an external datum has the tag {tag} in place of 18")]
    BadTag {
        /// The byte after the header.
        tag: u8,
    },
    /// The length in a header of four bytes does not count the header.
    #[error("a header of 4 bytes has the length {length}")]
    BadLength {
        /// That length, in bytes.
        length: u32,
    },
}
