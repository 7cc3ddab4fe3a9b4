//! Putting and indexing a value's pieces.

ghost use Rattle.std.specs.Prelude.{◌≡◌, ◌≤◌, ◌<◌, IfSome, OnErr, OnOk, length};
ghost use Rattle.slice_fetch.specs.Spans.{piece, chunk_size};
ghost use Rattle.external_pointer.specs.Spelling.{IsInRange};
ghost use Rattle.toast_store.specs.Stores.{IsStore};
ghost use Rattle.toast_store.specs.Values.{piece_count};
ghost use Rattle.toast_store.specs.PieceJobs.{IsLaying, IsPieceJob, IsPieceStage, PiecesStand, PiecesStep, is_laid, new_pieces, pointer_to, seq_to_put, stage_passed};

use crate::store::ToastStore;
use chunk_index::Entry;
use external_pointer::Pointer;
use slice_fetch::CHUNK_SIZE;
use slot_page::Tid;
use std::alloc::AllocError;
use std::marker::Model;
use tuple_layout::Bytes;

/// How far the pieces of a value are: what the next step does.
#[derive(Clone, Copy, Debug, PartialEq, Eq)]
pub enum PieceStage {
    /// It puts the piece with this number.
    Putting { seq: u32 },
    /// It adds the entry of the piece with this number, which is put at the tid.
    Indexing { seq: u32, tid: Tid },
    /// Nothing: each piece is put and indexed.
    Over,
}

/// The putting and indexing of a value's pieces under an id by a transaction, one event a step: each piece
/// is put as a chunk, and then indexed. Whose id it is, and what is logged, is its owner's business.
#[derive(Debug, Drop)]
pub struct PieceJob {
    xid: u64,
    value_id: u32,
    value: Bytes,
    stage: PieceStage,
}

impl Model for PieceJob {
    ghost use Rattle.toast_store.specs.PieceJobs.{IsPieceJob, Piecing};

    ghost Value = { Piecing };

    ghost view = { λ job. record { xid = job.xid; value_id = job.value_id; value = job.value; stage = job.stage } };

    ghost invariant = { λ job. IsPieceJob (record { xid = job.xid; value_id = job.value_id; value = job.value; stage = job.stage }) };
}

impl PieceJob {
    /// The pieces of a value, of 1 to 65,536 bytes, which the transaction with this xid puts under the id.
    pub fn new(xid: u64, value_id: u32, value: Bytes) -> Self
        requires least { 1 ≤ length value }
        requires most { length value ≤ 65536 }
        ensures job { result ≡ new_pieces xid value_id value }
        ensures own { IsPieceJob result }
    {
        PieceJob {
            xid,
            value_id,
            value,
            stage: PieceStage::Putting { seq: 0 },
        }
    }

    /// The transaction that puts the pieces.
    pub fn xid(&self) -> u64
        ensures { result ≡ self.now.xid }
    {
        self.xid
    }

    /// The id that they are put under.
    pub fn value_id(&self) -> u32
        ensures { result ≡ self.now.value_id }
    {
        self.value_id
    }

    /// Whether each piece is put and indexed.
    pub fn is_over(&self) -> bool
        ensures over { result ≡ is_laid self.now.stage }
        ensures own { IsPieceJob self.now }
    {
        self.stage == PieceStage::Over
    }

    /// The number of the piece that the next step puts, if it puts one.
    pub fn seq_to_put(&self) -> Option<u32>
        ensures seq { result ≡ seq_to_put self.now.stage }
        ensures within { IfSome result (λ seq. seq < piece_count (length self.now.value)) }
    {
        match self.stage {
            PieceStage::Putting { seq } => Some(seq),
            PieceStage::Indexing { .. } | PieceStage::Over => None,
        }
    }

    /// The piece of the value with a number.
    pub fn piece(&self, seq: u32) -> &[u8]
        requires { seq < piece_count (length self.now.value) }
        ensures { result.now ≡ piece self.now.value seq }
    {
        piece_of(self.value.as_slice(), seq)
    }

    /// The pointer of the value, with the id of its toast relation.
    pub fn pointer(&self, toast_rel: u32) -> Pointer
        ensures pointer { result ≡ pointer_to self.now toast_rel }
        ensures in_range { IsInRange result }
    {
        pointer_of(self.value.len() as u32, self.value_id, toast_rel)
    }

    /// Makes one step: puts a piece, or adds a piece's entry to the index. Where there is no memory, all is
    /// as before.
    ///
    /// Before each step the chunks under the id are those of the pieces indexed so far, as they were put,
    /// and a chunk that is put and not yet indexed is in its slot, which no entry names.
    pub fn step(&mut self, store: &mut ToastStore) -> Result<(), AllocError>
        requires laying { IsLaying self.old.stage }
        requires stands { PiecesStand store.old self.old }

        // What a step does that finds memory, and what stays where it finds none.
        ensures ok { OnOk result (PiecesStep store.old self.old store.new self.new) }
        ensures job_stays { OnErr result (self.new ≡ self.old) }
        ensures store_stays { OnErr result (store.new ≡ store.old) }

        // What a caller needs to go on.
        ensures own { IsPieceJob self.new }
        ensures sound { IsStore store.new }
    {
        store.facts();
        match self.stage {
            PieceStage::Putting { seq } => {
                let piece = piece_of(self.value.as_slice(), seq);
                let tid = store.put_chunk(self.value_id, seq, self.xid, piece)?;
                self.stage = PieceStage::Indexing { seq, tid };
                Ok(())
            }
            PieceStage::Indexing { seq, tid } => {
                store.insert(Entry {
                    value_id: self.value_id,
                    seq,
                    tid,
                })?;
                self.stage = stage_passed(self.value.as_slice(), seq);
                Ok(())
            }
            PieceStage::Over => unreachable!(),
        }
    }
}

/// The pointer of a value of this size, under an id in a toast relation.
fn pointer_of(size: u32, value_id: u32, toast_rel: u32) -> Pointer
    requires { size ≤ 65536 }
    ensures pointer { result ≡ record { size = size; value_id = value_id; toast_rel = toast_rel } }
    ensures in_range { IsInRange result }
{
    Pointer {
        size,
        value_id,
        toast_rel,
    }
}

/// How far the pieces of a value are once this one is indexed: at the next one, or at their end.
fn stage_passed(value: &[u8], seq: u32) -> PieceStage
    requires most { length value.now ≤ 65536 }
    requires within { seq < piece_count (length value.now) }
    ensures stage { result ≡ stage_passed value.now seq }
    ensures one { IsPieceStage value.now result }
{
    if seq + 1 < piece_count(value.len()) {
        PieceStage::Putting { seq: seq + 1 }
    } else {
        PieceStage::Over
    }
}

/// How many pieces a value of this many bytes has.
fn piece_count(size: usize) -> u32
    requires { size ≤ 65536 }
    ensures { result ≡ piece_count size }
{
    (size as u32 + (CHUNK_SIZE - 1)) / CHUNK_SIZE
}

/// The piece of a value with this number.
fn piece_of(value: &[u8], seq: u32) -> &[u8]
    requires most { length value.now ≤ 65536 }
    requires within { seq < piece_count (length value.now) }
    ensures piece { result.now ≡ piece value.now seq }
    ensures least { 1 ≤ length result.now }
    ensures longest { length result.now ≤ chunk_size }
{
    let from = seq as usize * CHUNK_SIZE as usize;
    let rest = &value[from..];
    &rest[..rest.len().min(CHUNK_SIZE as usize)]
}
