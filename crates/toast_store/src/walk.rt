//! A walk through the entries of a value, one batch or one entry a step.

ghost use Rattle.std.specs.Prelude.{◌≡◌, ◌≤◌, ◌<◌, Some, None, MatchOption, OnErr, OnOk};
ghost use Rattle.toast_store.specs.Stores.{IsStore};
ghost use Rattle.toast_store.specs.Walks.{IsAsking, IsReading, IsStage, IsUnderWay, MayAsk, entry_at, index_walked, is_over, new_walk, walk_after};
ghost use Rattle.chunk_index.specs.Pinned.{without_pin};
ghost use Rattle.toast_store.specs.declared.walk.WalkStage.TheVariants.{Over};

use crate::store::ToastStore;
use chunk_index::{Batch, Entry};
use std::alloc::AllocError;
use std::marker::Model;

/// How far a walk is.
#[derive(Debug, Drop)]
pub enum WalkStage {
    /// There is no number to ask for: the next step ends it.
    Empty,
    /// A batch is to be asked for, of entries beyond this one.
    Asking { after: Option<Entry> },
    /// The entry at this place of a batch is to be taken; the batch's leaf is pinned.
    Reading { batch: Batch, at: usize },
    /// It has ended.
    Over,
}

/// A walk through the entries of a value whose numbers are from `first` up to, and without, `end`.
#[derive(Debug, Drop)]
pub struct Walk {
    value_id: u32,
    first: u32,
    end: u32,
    session: u16,
    stage: WalkStage,
}

impl Model for Walk {
    ghost use Rattle.toast_store.specs.Walks.{IsStage, Walking};

    ghost Value = { Walking };

    ghost view = { λ walk. record { value_id = walk.value_id; first = walk.first; end = walk.end; session = walk.session; stage = walk.stage } };

    ghost invariant = { λ walk. IsStage walk.first walk.end walk.stage };
}

impl Walk {
    /// A walk before its first step.
    pub(crate) fn new(value_id: u32, first: u32, end: u32, session: u16) -> Self
        requires { first ≤ end }
        ensures { result ≡ new_walk value_id first end session }
    {
        let stage = if first < end {
            WalkStage::Asking { after: None }
        } else {
            WalkStage::Empty
        };
        Walk {
            value_id,
            first,
            end,
            session,
            stage,
        }
    }

    /// The number of the first piece that it does not go to.
    pub(crate) fn end(&self) -> u32
        ensures { result ≡ self.now.end }
    {
        self.end
    }

    /// Whether it has ended.
    pub(crate) fn is_over(&self) -> bool
        ensures over { result ≡ is_over self.now.stage }
        ensures sound { IsStage self.now.first self.now.end self.now.stage }
    {
        matches!(self.stage, WalkStage::Over)
    }

    /// The entry that the next step takes, if it takes one.
    pub(crate) fn entry(&self) -> Option<Entry>
        ensures entry { result ≡ entry_at self.now.stage }
        ensures stage { MatchOption result (IsUnderWay self.now.stage → IsAsking self.now.stage) (λ _. IsReading self.now.stage) }
        ensures sound { IsStage self.now.first self.now.end self.now.stage }
    {
        match &self.stage {
            WalkStage::Reading { batch, at } => batch.entries.get(*at).copied(),
            WalkStage::Empty | WalkStage::Asking { .. } | WalkStage::Over => None,
        }
    }

    /// Makes a step that takes no entry: asks for a batch, and ends where there is none. Where there is no
    /// memory, all is as before.
    pub(crate) fn ask(&mut self, store: &mut ToastStore) -> Result<(), AllocError>
        requires sound { IsStore store.old }
        requires asking { IsAsking self.old.stage }
        requires pin { MayAsk store.old.index self.old.session self.old.stage }
        ensures walk { OnOk result (self.new ≡ walk_after store.old.index self.old) }
        ensures store { OnOk result (store.new ≡ record store.old { index = index_walked store.old.index self.old }) }
        ensures walk_stays { OnErr result (self.new ≡ self.old) }
        ensures store_stays { OnErr result (store.new ≡ store.old) }
        ensures sound { IsStore store.new }
    {
        let WalkStage::Asking { after } = self.stage else {
            self.stage = WalkStage::Over;
            return Ok(());
        };
        let batch = store.batch(self.value_id, self.first, self.end - 1, after, self.session)?;
        self.stage = if batch.entries.is_empty() {
            WalkStage::Over
        } else {
            WalkStage::Reading { batch, at: 0 }
        };
        Ok(())
    }

    /// Makes a step that takes an entry: goes on to the next one, and after a batch's last one drops the pin.
    pub(crate) fn pass(&mut self, store: &mut ToastStore)
        requires sound { IsStore store.old }
        requires reading { IsReading self.old.stage }
        ensures walk { self.new ≡ walk_after store.old.index self.old }
        ensures store { store.new ≡ record store.old { index = index_walked store.old.index self.old } }
        ensures sound { IsStore store.new }
    {
        match &mut self.stage {
            WalkStage::Reading { batch, at } if batch.entries.len() > *at + 1 => *at += 1,
            WalkStage::Reading { batch, at } if batch.more => {
                let after = batch.entries.get(*at).copied();
                self.stage = WalkStage::Asking { after };
                store.unpin(self.session);
            }
            _ => self.stop(store),
        }
    }

    /// Ends it before its time, without its pin.
    pub(crate) fn stop(&mut self, store: &mut ToastStore)
        ensures walk { self.new ≡ record self.old { stage = Over } }
        ensures store { store.new ≡ record store.old { index = record store.old.index { pins = without_pin store.old.index.pins self.old.session } } }
        ensures sound { IsStore store.new }
    {
        self.stage = WalkStage::Over;
        store.unpin(self.session);
    }
}
