//! A chunk, and what it tells of itself.

ghost use Rattle.std.specs.Prelude.{◌≡◌};

use heap_prune::Stamped;
use toast_io::Bytes;
use xact_status::Stamp;

/// A piece of a value, as its slot holds it.
#[derive(Debug, Drop)]
pub struct Chunk {
    pub value_id: u32,
    /// Which piece of the value it is, counted from 0.
    pub seq: u32,
    /// The transaction that put it.
    pub inserter: u64,
    /// The transaction that ended it, if any.
    pub ender: Option<u64>,
    pub bytes: Bytes,
}

/// A chunk as it is shown, with its bytes in place.
#[derive(Clone, Copy, Debug, PartialEq, Eq)]
pub struct ChunkView<'a> {
    pub value_id: u32,
    /// Which piece of the value it is, counted from 0.
    pub seq: u32,
    /// The transaction that put it.
    pub inserter: u64,
    /// The transaction that ended it, if any.
    pub ender: Option<u64>,
    pub bytes: &'a [u8],
}

impl Chunk {
    ghost use Rattle.chunk_relation.specs.Chunks.{chunk_shown};

    pub(crate) fn view(&self) -> ChunkView<'_>
        ensures { chunk_shown result ≡ self.now }
    {
        ChunkView {
            value_id: self.value_id,
            seq: self.seq,
            inserter: self.inserter,
            ender: self.ender,
            bytes: self.bytes.as_slice(),
        }
    }
}

impl Stamped for Chunk {
    ghost use Rattle.chunk_relation.specs.Chunks.{chunk_stamp};

    ghost stamp_of = { chunk_stamp };

    fn stamp(&self) -> Stamp {
        Stamp {
            inserter: self.inserter,
            ender: self.ender,
        }
    }
}
