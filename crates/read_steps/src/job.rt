//! The read of a row, or of a part of a value.

ghost use Rattle.std.specs.Prelude.{◌≡◌, ◌≤◌, ◌<◌, [], Ok, Some, IfOk, IfSome, OnErr, OnOk, IsSome, is_some, length, vec_capacity};
ghost use Rattle.std.specs.Option.{option_map};
ghost use Rattle.toast_store.specs.Begun.{IsOverSome};
ghost use Rattle.toast_store.specs.Walks.{CanStep};
ghost use Rattle.toast_store.specs.Fetches.{Fetching, IsFetchLeft, answer_due, fetch_after, new_fetch};
ghost use Rattle.read_steps.specs.Columns.{LiesIn, next_out, row_in};
ghost use Rattle.read_steps.specs.Reads.{CanHold, CanRead, CanWant, Leaves, answer_of, bytes_of, held_read, needs_store, new_read, part_begun, part_fetch, read_after, reply_of, row_begun, row_fetch, row_left, store_fetched, store_read, whole_fetch};
ghost use Rattle.read_steps.specs.Sound.{IsFetchOf, IsReadStage, columns_begun};
ghost use Rattle.read_steps.specs.Fetched.{BeginsFetch, BeginsPart, FetchGoesOn, FetchLeaves};

use crate::columns::{is_out, next_out, part_of, row_in};
use crate::stage::{ReadStage, ReadStep};
use crate::wanted::{Held, Wanted};
use command_set::Reply;
use slice_fetch::Span;
use std::alloc::{AllocError, Global};
use std::marker::Model;
use std::mem;
use toast_store::{Fetch, FetchFault, FetchStep, ToastStore};
use tuple_layout::{Bytes, Cell, CellList, Pointer, Stored};

/// The read of a row, of a part of one of its columns, or of a part of a kept value.
///
/// Contracts see whose it is and how far it is.
#[derive(Debug, Drop)]
pub struct ReadJob {
    alloc: Global,
    session: u16,
    /// For the values of a row; it is empty, and while a value of the row is fetched there is room for all.
    room: Vec<Option<Bytes>>,
    stage: ReadStage,
}

impl Model for ReadJob {
    ghost use Rattle.std.specs.Prelude.{◌≡◌, ◌≤◌, [], vec_capacity};
    ghost use Rattle.read_steps.specs.Reads.{Reading};
    ghost use Rattle.read_steps.specs.Sound.{IsReadStage, columns_begun};

    ghost Value = { Reading };

    ghost view = { λ job. record { session = job.session; stage = job.stage } };

    ghost invariant = { λ job. (job.room.items ≡ []) × (columns_begun job.stage ≤ vec_capacity job.room) × IsReadStage job.session job.stage };
}

/// Makes a step of a fetch that comes to its bytes.
fn fetch_on(fetch: &mut Fetch, toast: &mut ToastStore) -> Result<FetchStep, AllocError>
    requires some { IsOverSome fetch.old.walk.stage }
    requires can { CanStep toast.old.index fetch.old.walk }
    requires comes { IsSome (bytes_of toast.old fetch.old) }

    // The answer, and what the step makes of the fetch and of the store.
    ensures told { IfOk result (λ step. answer_due toast.old fetch.old ≡ Ok step) }
    ensures fetch { IfOk result (IsFetchLeft (fetch_after toast.old fetch.old) fetch.new) }
    ensures toast { OnOk result (toast.new ≡ store_fetched toast.old (Some fetch.old)) }

    // What the next step needs, or what the bytes are.
    ensures leaves { IfOk result (FetchLeaves toast.old fetch.old toast.new fetch.new) }

    // After want of memory all is as before.
    ensures fetch_stays { OnErr result (fetch.new ≡ fetch.old) }
    ensures toast_stays { OnErr result (toast.new ≡ toast.old) }
{
    match fetch.step(toast) {
        Ok(step) => Ok(step),
        Err(FetchFault::Memory) => Err(AllocError),
        Err(FetchFault::MissingChunk { .. }) => unreachable!(),
        Err(FetchFault::UnexpectedChunk { .. }) => unreachable!(),
        Err(FetchFault::ChunkSize { .. }) => unreachable!(),
    }
}

/// Makes the first step of the fetch of a span that is not empty.
fn fetch_first(
    alloc: Global,
    pointer: Pointer,
    span: Span,
    session: u16,
    toast: &mut ToastStore,
) -> Result<Fetch, AllocError>
    requires some { span.start < span.end }
    requires within { span.end ≤ pointer.size }
    requires can { CanStep toast.old.index (Fetching.walk (new_fetch pointer span session)) }
    requires comes { IsSome (bytes_of toast.old (new_fetch pointer span session)) }
    ensures fetch { IfOk result (λ fetch. fetch ≡ fetch_after toast.old (new_fetch pointer span session)) }
    ensures toast { OnOk result (toast.new ≡ store_fetched toast.old (Some (new_fetch pointer span session))) }
    ensures goes { IfOk result (FetchGoesOn toast.old (new_fetch pointer span session) toast.new) }
    ensures own { IfOk result (IsFetchOf session) }
    ensures toast_stays { OnErr result (toast.new ≡ toast.old) }
{
    let mut fetch = Fetch::new(alloc, pointer, span, session)?;
    match fetch_on(&mut fetch, toast)? {
        FetchStep::More => Ok(fetch),
        FetchStep::Done(_) => unreachable!(),
    }
}

/// A row, with its cells taken out of where it stood.
fn taken(alloc: Global, stored: &mut Stored) -> Stored
    ensures { result ≡ stored.old }
{
    Stored {
        key: stored.key,
        cells: mem::replace(&mut stored.cells, CellList::new(alloc)),
    }
}

/// The reply of a row with no value out of line that has bytes, where there is room for its values.
fn row_reply(alloc: Global, stored: Stored, room: Vec<Option<Bytes>>) -> Reply
    requires empty { room.items ≡ [] }
    requires room { length stored.cells ≤ vec_capacity room }
    ensures { result ≡ Reply.Row stored.key (row_in stored.cells) }
{
    Reply::Row {
        key: stored.key,
        row: row_in(alloc, stored.cells, room),
    }
}

/// Where the read of a row stands that is not fetching a value, and what it answers: the row once each
/// value is in hand, where there is room for them.
fn row_left(alloc: Global, stored: Stored, room: Vec<Option<Bytes>>) -> (ReadStage, ReadStep)
    requires empty { room.items ≡ [] }
    requires room { length stored.cells ≤ vec_capacity room }
    ensures { result ≡ row_left stored }
{
    if next_out(stored.cells.as_slice()).is_some() {
        return (ReadStage::Row { stored }, ReadStep::More);
    }
    let reply = row_reply(alloc, stored, room);
    (ReadStage::Over, ReadStep::Done(reply))
}

/// Begins to fetch a row's first value out of line, or answers the row where it has none.
fn begin_row(
    alloc: Global,
    session: u16,
    stored: &mut Stored,
    room: &mut Vec<Option<Bytes>>,
    toast: &mut ToastStore,
) -> Result<(ReadStage, ReadStep), AllocError>
    requires empty { room.old.items ≡ [] }
    requires can { IfSome (row_fetch stored.old.cells session) (λ fetch. CanStep toast.old.index fetch.walk) }
    requires comes { IfSome (row_fetch stored.old.cells session) (λ fetch. IsSome (bytes_of toast.old fetch)) }

    // Where the read stands then and what it answers, what the step makes of the store and leaves.
    ensures begun { IfOk result (λ begun. begun ≡ row_begun toast.old session stored.old (next_out stored.old.cells)) }
    ensures toast { OnOk result (toast.new ≡ store_fetched toast.old (row_fetch stored.old.cells session)) }
    ensures goes { OnOk result (BeginsFetch toast.old session (next_out stored.old.cells) toast.new) }
    ensures own { IfOk result (λ begun. IsReadStage session begun.0) }

    // Room for the row, where a value is being fetched.
    ensures empty { room.new.items ≡ [] }
    ensures room { IfOk result (λ begun. columns_begun begun.0 ≤ vec_capacity room.new) }

    // After want of memory all is as before.
    ensures stored_stays { OnErr result (stored.new ≡ stored.old) }
    ensures toast_stays { OnErr result (toast.new ≡ toast.old) }
{
    room.reserve(stored.cells.len())?;
    let Some((at, pointer)) = next_out(stored.cells.as_slice()) else {
        let reply = row_reply(
            alloc,
            taken(alloc, stored),
            mem::replace(room, Vec::new(alloc)),
        );
        return Ok((ReadStage::Over, ReadStep::Done(reply)));
    };
    let span = Span {
        start: 0,
        end: pointer.size,
    };
    let fetch = fetch_first(alloc, pointer, span, session, toast)?;
    let stored = taken(alloc, stored);
    Ok((ReadStage::RowValue { stored, at, fetch }, ReadStep::More))
}

/// Begins to fetch a part of a column's value, or answers that where it takes no chunk.
fn begin_part(
    alloc: Global,
    session: u16,
    cell: &Cell,
    span: Span,
    toast: &mut ToastStore,
) -> Result<(ReadStage, ReadStep), AllocError>
    requires lies { LiesIn span cell.now }
    requires can { IfSome (part_fetch session span cell.now) (λ fetch. CanStep toast.old.index fetch.walk) }
    requires comes { IfSome (part_fetch session span cell.now) (λ fetch. IsSome (bytes_of toast.old fetch)) }

    // Where the read stands then and what it answers, what the step makes of the store and leaves.
    ensures begun { IfOk result (λ begun. begun ≡ part_begun toast.old session span cell.now) }
    ensures toast { OnOk result (toast.new ≡ store_fetched toast.old (part_fetch session span cell.now)) }
    ensures goes { OnOk result (IfSome (part_fetch session span cell.now) (BeginsPart toast.old toast.new)) }
    ensures own { IfOk result (λ begun. IsReadStage session begun.0) }

    // After want of memory all is as before.
    ensures toast_stays { OnErr result (toast.new ≡ toast.old) }
{
    let reply = match cell {
        Cell::Null => Reply::Null,
        Cell::Inline(value) => Reply::Bytes(Bytes::from_slice(alloc, part_of(value, span))?),
        Cell::Out(pointer) if span.start < span.end => {
            let fetch = fetch_first(alloc, *pointer, span, session, toast)?;
            return Ok((ReadStage::PartValue { fetch }, ReadStep::More));
        }
        Cell::Out(_) => Reply::Bytes(Bytes::new(alloc)),
    };
    Ok((ReadStage::Over, ReadStep::Done(reply)))
}

impl ReadJob {
    /// The read of a stored row, or of a part of one of its columns, for a session. A span's places are in
    /// bytes, from 0; it lies in the column's value, if that is not null. Nothing is fetched yet.
    pub fn start(alloc: Global, stored: Stored, wanted: Wanted, session: u16) -> Self
        requires { CanWant stored wanted }
        ensures { result ≡ new_read stored wanted session }
    {
        let stage = match wanted {
            Wanted::Row => ReadStage::Row { stored },
            Wanted::Part { column, span } => ReadStage::Part {
                cell: stored.cells.into_vec().swap_remove(usize::from(column) - 1),
                span,
            },
        };
        ReadJob {
            alloc,
            session,
            room: Vec::new(alloc),
            stage,
        }
    }

    /// The read of a part of a kept value, for a session. The span lies in the value. What is wanted of
    /// bytes in hand is copied; nothing is fetched yet. The error is for want of memory.
    pub fn held(alloc: Global, value: &Held, span: Span, session: u16) -> Result<Self, AllocError>
        requires { CanHold value.now span }
        ensures { IfOk result (λ job. job ≡ held_read value.now span session) }
    {
        let stage = match value {
            Held::Inline(bytes) => ReadStage::Ready {
                bytes: Bytes::from_slice(alloc, part_of(bytes, span))?,
            },
            Held::Out(pointer) => ReadStage::Part {
                cell: Cell::Out(*pointer),
                span,
            },
        };
        Ok(ReadJob {
            alloc,
            session,
            room: Vec::new(alloc),
            stage,
        })
    }

    /// Whether an entry of a batch, or a batch, is still to be taken. Where it is not, the next step answers
    /// and touches nothing.
    pub fn needs_store(&self) -> bool
        ensures { result ≡ needs_store self.now }
    {
        match &self.stage {
            ReadStage::Row { stored } => next_out(stored.cells.as_slice()).is_some(),
            ReadStage::Part { cell, span } => is_out(cell) && span.start < span.end,
            ReadStage::RowValue { .. } | ReadStage::PartValue { .. } => true,
            ReadStage::Ready { .. } | ReadStage::Over => false,
        }
    }

    /// Makes one step: asks for a batch of entries of the value that is being fetched, or reads the chunk
    /// that an entry names. The step that fetches the last of what is wanted answers the reply, and so does
    /// the first one where all of it is in hand, which touches nothing of the store.
    ///
    /// Until the read is over, its session holds no pin in the store but that of its batch. Each value that
    /// it still reads comes to its bytes there.
    ///
    /// # Errors
    /// For want of memory alone; all is as before then.
    pub fn step(&mut self, toast: &mut ToastStore) -> Result<ReadStep, AllocError>
        requires can { CanRead toast.old self.old }
        requires comes { IsSome (reply_of toast.old self.old) }

        // The answer, and what the step makes of the read and of the store.
        ensures told { IfOk result (λ step. step ≡ answer_of toast.old self.old) }
        ensures read { OnOk result (self.new ≡ read_after toast.old self.old) }
        ensures store { OnOk result (toast.new ≡ store_read toast.old self.old) }

        // After want of memory all is as before.
        ensures read_stays { OnErr result (self.new ≡ self.old) }
        ensures store_stays { OnErr result (toast.new ≡ toast.old) }

        // What the next step needs, or what the reply is.
        ensures leaves { IfOk result (Leaves toast.old self.old toast.new self.new) }

        // What its type told of it before the step.
        ensures stage { IsReadStage self.old.session self.old.stage }
    {
        match &mut self.stage {
            ReadStage::Row { stored } => {
                let room = &mut self.room;
                let (stage, step) = begin_row(self.alloc, self.session, stored, room, toast)?;
                self.stage = stage;
                Ok(step)
            }
            ReadStage::RowValue { stored, at, fetch } => {
                let FetchStep::Done(bytes) = fetch_on(fetch, toast)? else {
                    return Ok(ReadStep::More);
                };
                let mut stored = taken(self.alloc, stored);
                stored.cells.set(*at, Cell::Inline(bytes));
                let room = mem::replace(&mut self.room, Vec::new(self.alloc));
                let (stage, step) = row_left(self.alloc, stored, room);
                self.stage = stage;
                Ok(step)
            }
            ReadStage::Part { cell, span } => {
                let (stage, step) = begin_part(self.alloc, self.session, cell, *span, toast)?;
                self.stage = stage;
                Ok(step)
            }
            ReadStage::PartValue { fetch } => {
                let FetchStep::Done(bytes) = fetch_on(fetch, toast)? else {
                    return Ok(ReadStep::More);
                };
                self.stage = ReadStage::Over;
                Ok(ReadStep::Done(Reply::Bytes(bytes)))
            }
            ReadStage::Ready { bytes } => {
                let bytes = mem::replace(bytes, Bytes::new(self.alloc));
                self.stage = ReadStage::Over;
                Ok(ReadStep::Done(Reply::Bytes(bytes)))
            }
            ReadStage::Over => unreachable!(),
        }
    }
}
