//! Fetching a part of a value.

ghost use Rattle.std.specs.Prelude.{◌≡◌, ℕ, ◌-◌, ◌*◌, ◌≤◌, ◌<◌, IfErr, IfOk, IfSome, OnErr, OnOk, List, ◌∷◌, Ok, Err, Some, None, length, min};
ghost use Rattle.std.specs.List.{cons_option};
ghost use Rattle.std.specs.Option.{option_and_then, option_map};
ghost use Rattle.slot_page.specs.Pages.{item_in};
ghost use Rattle.chunk_relation.specs.declared.chunk.Chunk.{Chunk};
ghost use Rattle.chunk_relation.specs.Chunks.{chunk_shown};
ghost use Rattle.chunk_index.specs.declared.entry.Entry.{Entry};
ghost use Rattle.slice_fetch.specs.declared.Span.{Span};
ghost use Rattle.slice_fetch.specs.Spans.{chunk_size};
ghost use Rattle.toast_store.specs.Stores.{IsStore};
ghost use Rattle.toast_store.specs.Values.{piece_size};
ghost use Rattle.toast_store.specs.Walks.{CanStep, IsBatchHeld, IsStage, IsUnderWay, MayAsk, index_walked, steps_left};
ghost use Rattle.toast_store.specs.Fetches.{FetchFails, FetchSteps, FetchesWhole, IsFetch, IsFetchAfter, IsFetchCause, Fetching, answer_by, answer_due, compared, comparison, end_of, fetch_after, first_of, new_fetch, next_chunk, outcome, part_of, refusal, store_after_fault, with_chunk};

use crate::fault::FetchFault;
use crate::store::ToastStore;
use crate::walk::Walk;
use chunk_relation::ChunkView;
use external_pointer::Pointer;
use slice_fetch::{CHUNK_SIZE, Span, chunk_range};
use slot_page::Tid;
use std::alloc::{AllocError, Global};
use std::marker::Model;
use std::mem;
use tuple_layout::Bytes;

/// What a step of a fetch answers.
#[derive(Debug, Drop)]
pub enum FetchStep {
    /// Steps are left.
    More,
    /// These are the bytes of the span.
    Done(Bytes),
}

/// The fetching of a span's bytes of a value, whose chunks are read one a step.
#[derive(Debug, Drop)]
pub struct Fetch {
    alloc: Global,
    size: u32,
    span: Span,
    /// The bytes of the span that were read so far; there is memory for all of them.
    got: Bytes,
    /// The number of the next piece.
    next: u32,
    walk: Walk,
}

impl Model for Fetch {
    ghost use Rattle.toast_store.specs.Fetches.{Fetching, IsFetch};

    ghost Value = { Fetching };

    ghost view = { λ fetch. record { size = fetch.size; span = fetch.span; got = fetch.got; next = fetch.next; walk = fetch.walk } };

    ghost invariant = { λ fetch. IsFetch (record { size = fetch.size; span = fetch.span; got = fetch.got; next = fetch.next; walk = fetch.walk }) };
}

/// The numbers of the first piece of a span, and of the one after its last.
fn pieces_of(span: Span) -> (u32, u32)
    requires { span.start ≤ span.end }
    ensures { result ≡ (first_of span, end_of span) }
{
    match chunk_range(span) {
        Some((first, last)) => (first, last + 1),
        None => (span.start / CHUNK_SIZE, span.start / CHUNK_SIZE),
    }
}

/// How many bytes the piece with this number has in a value of this many bytes.
fn piece_size(size: u32, seq: u32) -> u32
    ensures { result ≡ piece_size size seq }
{
    u64::from(size)
        .saturating_sub(u64::from(CHUNK_SIZE) * u64::from(seq))
        .min(u64::from(CHUNK_SIZE)) as u32
}

/// A place in a value, as a place in the piece with this number, which has so many bytes.
fn place_in(place: u32, seq: u32, len: usize) -> usize
    ensures { result ≡ min (place - chunk_size * seq) len }
{
    let place = u64::from(place).saturating_sub(u64::from(CHUNK_SIZE) * u64::from(seq));
    (place as usize).min(len)
}

/// The part of a span that lies in the piece with this number, in place.
fn part_of<'a>(span: Span, seq: u32, piece: &'a [u8]) -> &'a [u8]
    requires { span.start ≤ span.end }
    ensures { result.now ≡ part_of span seq piece.now }
{
    let start = place_in(span.start, seq, piece.len());
    let end = place_in(span.end, seq, piece.len());
    &piece[start..end]
}

/// The chunk at a tid, if there is one.
fn chunk_at(store: &ToastStore, tid: Tid) -> Option<ChunkView<'_>>
    ensures chunk { option_map chunk_shown result ≡ item_in store.now.rel.pages tid }
    ensures least { IfSome result (λ chunk. 1 ≤ length chunk.bytes.now) }
    ensures most { IfSome result (λ chunk. length chunk.bytes.now ≤ chunk_size) }
{
    store.rel().chunk_at(tid)
}

/// Refuses a chunk that is not the piece with the wanted number of a value of this size.
fn check(size: u32, wanted: u32, chunk: &ChunkView<'_>) -> Result<(), FetchFault>
    requires { length chunk.now.bytes.now ≤ chunk_size }
    ensures number { OnOk result (chunk.now.seq ≡ wanted) }
    ensures size { OnOk result (length chunk.now.bytes.now ≡ piece_size size wanted) }
    ensures taken { OnOk result (refusal size wanted (chunk_shown chunk.now) ≡ None) }
    ensures refused { IfErr result (λ fault. refusal size wanted (chunk_shown chunk.now) ≡ Some fault) }
    ensures fault { IfErr result (λ fault. (end : ℕ) (span : Span) (got : List ℕ) (chunks : List Chunk) → compared size end span wanted got (chunk_shown chunk.now ∷ chunks) ≡ Err fault) }
{
    if chunk.seq != wanted {
        return Err(FetchFault::UnexpectedChunk {
            got: chunk.seq,
            wanted,
        });
    }
    let got = chunk.bytes.len() as u32;
    let piece = piece_size(size, wanted);
    if got != piece {
        return Err(FetchFault::ChunkSize { got, wanted: piece });
    }
    Ok(())
}

impl Fetch {
    /// The fetching of a span of a pointer's value, with memory for its bytes. The span's places are in
    /// bytes, from 0; its start is at most its end, and its end at most the pointer's size. The error is for
    /// want of memory.
    pub fn new(alloc: Global, p: Pointer, span: Span, session: u16) -> Result<Self, AllocError>
        requires ordered { span.start ≤ span.end }
        requires within { span.end ≤ p.size }
        ensures fetch { IfOk result (λ fetch. fetch ≡ new_fetch p span session) }
        ensures own { IfOk result IsFetch }
        ensures whole { IfOk result (FetchesWhole p span) }
        ensures batch { IfOk result (λ fetch. (entries : List Entry) → IsBatchHeld entries fetch.walk) }
    {
        let (first, end) = pieces_of(span);
        let mut got = Bytes::new(alloc);
        got.reserve((span.end - span.start) as usize)?;
        Ok(Fetch {
            alloc,
            size: p.size,
            span,
            got,
            next: first,
            walk: Walk::new(p.value_id, first, end, session),
        })
    }

    /// Reads the chunk at a tid, if there is one. After an error all is as before.
    fn read(&mut self, store: &ToastStore, tid: Tid) -> Result<(), FetchFault>
        ensures read { OnOk result (self.new ≡ with_chunk self.old (item_in store.now.rel.pages tid)) }
        ensures same { OnOk result ((chunks : List Chunk) → comparison self.new chunks ≡ comparison self.old (cons_option (item_in store.now.rel.pages tid) chunks)) }
        ensures cause { IfErr result (λ fault. (chunks : List Chunk) → IsFetchCause (comparison self.old (cons_option (item_in store.now.rel.pages tid) chunks)) fault) }
        ensures taken { OnOk result (option_and_then (refusal self.old.size self.old.next) (item_in store.now.rel.pages tid) ≡ None) }
        ensures refused { IfErr result (λ fault. (after : Fetching) → IsFetchCause (answer_by after (option_and_then (refusal self.old.size self.old.next) (item_in store.now.rel.pages tid))) fault) }
        ensures unchanged { OnErr result (self.new ≡ self.old) }
    {
        let Some(chunk) = chunk_at(store, tid) else {
            return Ok(());
        };
        check(self.size, self.next, &chunk)?;
        self.got
            .extend_from_slice(part_of(self.span, self.next, chunk.bytes))?;
        self.next += 1;
        Ok(())
    }

    /// Takes the entry of a step and reads its chunk, or asks for a batch. After an error all is as before.
    fn take(&mut self, store: &mut ToastStore) -> Result<(), FetchFault>
        requires sound { IsStore store.old }
        requires under_way { IsUnderWay self.old.walk.stage }
        requires pin { MayAsk store.old.index self.old.walk.session self.old.walk.stage }
        ensures stage { IsStage self.old.walk.first self.old.walk.end self.old.walk.stage }
        ensures fetch { OnOk result (self.new ≡ fetch_after store.old self.old) }
        ensures store { OnOk result (store.new ≡ record store.old { index = index_walked store.old.index self.old.walk }) }
        ensures same { OnOk result (outcome store.new self.new ≡ outcome store.old self.old) }
        ensures left { OnOk result (steps_left store.new.index.entries self.new.walk < steps_left store.old.index.entries self.old.walk) }
        ensures cause { IfErr result (IsFetchCause (outcome store.old self.old)) }
        ensures taken { OnOk result (option_and_then (refusal self.old.size self.old.next) (next_chunk store.old self.old.walk) ≡ None) }
        ensures refused { IfErr result (IsFetchCause (answer_due store.old self.old)) }
        ensures fetch_stays { OnErr result (self.new ≡ self.old) }
        ensures store_stays { OnErr result (store.new ≡ store.old) }
        ensures sound { IsStore store.new }
    {
        match self.walk.entry() {
            Some(entry) => {
                self.read(store, entry.tid)?;
                self.walk.pass(store);
            }
            None => self.walk.ask(store)?,
        }
        Ok(())
    }

    /// Ends it before its time, unless there was only no memory.
    fn give_up(&mut self, store: &mut ToastStore, fault: FetchFault) -> FetchFault
        requires { IsStore store.old }
        ensures fault { result ≡ fault }
        ensures fetch { IsFetchAfter fault self.old self.new }
        ensures store { store.new ≡ store_after_fault store.old self.old.walk.session fault }
        ensures sound { IsStore store.new }
    {
        if fault != FetchFault::Memory {
            self.walk.stop(store);
        }
        fault
    }

    /// Makes one step: asks for a batch of entries, or reads the chunk that an entry names. An entry whose
    /// slot has no chunk is passed over. The last entry of a batch drops the pin.
    ///
    /// Until it is over, the session holds no pin in the store but that of the batch.
    ///
    /// # Errors
    /// The first fault of the chunks in range, in the order of their entries, against the value's pieces
    /// there: `UnexpectedChunk` for another number and `ChunkSize` for another length, in the step that
    /// reads the chunk; `MissingChunk` where they end too early, in the step that ends the value. The pin is
    /// then dropped and the fetch over. After `Memory` all is as before.
    pub fn step(&mut self, store: &mut ToastStore) -> Result<FetchStep, FetchFault>
        requires { CanStep store.old.index self.old.walk }

        // What a step does, and how one ends in a fault.
        ensures ok { IfOk result (FetchSteps store.old self.old store.new self.new) }
        ensures err { IfErr result (FetchFails store.old self.old store.new self.new) }

        // What is true of each fetch and of each store.
        ensures own { OnOk result (IsFetch self.new) }
        ensures sound { IsStore store.new }
    {
        store.facts();
        if let Err(fault) = self.take(store) {
            return Err(self.give_up(store, fault));
        }
        if !self.walk.is_over() {
            return Ok(FetchStep::More);
        }
        if self.next < self.walk.end() {
            let fault = FetchFault::MissingChunk { seq: self.next };
            return Err(self.give_up(store, fault));
        }
        Ok(FetchStep::Done(mem::replace(&mut self.got, Bytes::new(self.alloc))))
    }
}
