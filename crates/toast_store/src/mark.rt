//! Marking a dropped value.

ghost use Rattle.std.specs.Prelude.{◌≡◌, ◌≤◌, ◌<◌, IfOk, OnErr, OnOk, if◌then◌else◌, is_some};
ghost use Rattle.slot_page.specs.Pages.{item_in};
ghost use Rattle.chunk_relation.specs.Relations.{with_ended};
ghost use Rattle.toast_store.specs.Stores.{IsStore, Store};
ghost use Rattle.toast_store.specs.Walks.{CanStep, IsBatchHeld, IsStage, IsUnderWay, MayAsk, steps_left, walk_after};
ghost use Rattle.toast_store.specs.Marks.{IsMarking, MarkSteps, new_mark, store_marked};

use crate::store::ToastStore;
use crate::walk::Walk;
use external_pointer::Pointer;
use slice_fetch::CHUNK_SIZE;
use slot_page::Tid;
use std::alloc::AllocError;
use std::marker::Model;

/// What a step of a mark answers.
#[derive(Clone, Copy, Debug, PartialEq, Eq)]
pub enum MarkStep {
    /// Steps are left.
    More,
    /// Each chunk of the value is ended.
    Done,
}

/// The marking of a dropped value's chunks as ended by a transaction, one a step.
#[derive(Debug, Drop)]
pub struct Mark {
    xid: u64,
    walk: Walk,
}

impl Model for Mark {
    ghost use Rattle.toast_store.specs.Marks.{Marking};

    ghost Value = { Marking };

    ghost view = { λ mark. record { xid = mark.xid; walk = mark.walk } };
}

/// Marks the chunk at a tid, if there is one, as ended by a transaction.
pub(crate) fn end_chunk(store: &mut ToastStore, tid: Tid, xid: u64)
    ensures ended { store.new ≡ record store.old { rel = record store.old.rel { pages = (if is_some (item_in store.old.rel.pages tid) then with_ended xid store.old.rel.pages tid else store.old.rel.pages) } } }
    ensures sound { IsStore store.new }
{
    if store.rel().chunk_at(tid).is_some() {
        store.set_ender(tid, xid);
    }
}

impl Mark {
    /// The marking of a pointer's value by the transaction with this xid. It covers the chunks under the
    /// pointer's id whose numbers are those of the pieces of a value of its size, from 0 on.
    pub fn new(p: Pointer, xid: u64, session: u16) -> Self
        ensures mark { result ≡ new_mark p xid session }
        ensures marking { (store : Store) → IsMarking store result }
        ensures batch { (store : Store) → IsBatchHeld store.index.entries result.walk }
    {
        Mark {
            xid,
            walk: Walk::new(p.value_id, 0, p.size.div_ceil(CHUNK_SIZE), session),
        }
    }

    /// Takes the entry of a step and ends its chunk, or asks for a batch. Where there is no memory, all is
    /// as before.
    fn take(&mut self, store: &mut ToastStore) -> Result<(), AllocError>
        requires sound { IsStore store.old }
        requires under_way { IsUnderWay self.old.walk.stage }
        requires pin { MayAsk store.old.index self.old.walk.session self.old.walk.stage }
        ensures stage { IsStage self.old.walk.first self.old.walk.end self.old.walk.stage }
        ensures mark { OnOk result (self.new ≡ record self.old { walk = walk_after store.old.index self.old.walk }) }
        ensures store { OnOk result (store.new ≡ store_marked store.old self.old) }
        ensures marking { IsMarking store.old self.old → OnOk result (IsMarking store.new self.new) }
        ensures left { OnOk result (steps_left store.new.index.entries self.new.walk < steps_left store.old.index.entries self.old.walk) }
        ensures mark_stays { OnErr result (self.new ≡ self.old) }
        ensures store_stays { OnErr result (store.new ≡ store.old) }
        ensures sound { IsStore store.new }
    {
        match self.walk.entry() {
            Some(entry) => {
                end_chunk(store, entry.tid, self.xid);
                self.walk.pass(store);
            }
            None => self.walk.ask(store)?,
        }
        Ok(())
    }

    /// Makes one step: asks for a batch of entries, or ends the chunk that an entry names. An entry whose
    /// slot has no chunk is passed over. The last entry of a batch drops the pin.
    ///
    /// Until it is over, the session holds no pin in the store but that of the batch. Where there is no
    /// memory, all is as before.
    pub fn step(&mut self, store: &mut ToastStore) -> Result<MarkStep, AllocError>
        requires { CanStep store.old.index self.old.walk }

        // What a step does that finds memory, and what stays where it finds none.
        ensures ok { IfOk result (MarkSteps store.old self.old store.new self.new) }
        ensures mark_stays { OnErr result (self.new ≡ self.old) }
        ensures store_stays { OnErr result (store.new ≡ store.old) }

        // What is true of each store.
        ensures sound { IsStore store.new }
    {
        store.facts();
        self.take(store)?;
        if self.walk.is_over() {
            return Ok(MarkStep::Done);
        }
        Ok(MarkStep::More)
    }
}
