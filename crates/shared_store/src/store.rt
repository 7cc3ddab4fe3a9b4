//! A hub in a hall.
ghost use Rattle.std.specs.Prelude.{◌≡◌, [], false, true, IfOk};
ghost use mathlib.Core.List.{IsPrefix};
ghost use Rattle.session_shell.specs.declared.hub.Turn.{Turn as AnyTurn};
ghost use Rattle.session_shell.specs.History.{history_of};
ghost use Rattle.session_shell.specs.Hubs.{IsScript, IsSessionOf};
ghost use Rattle.turn_hall.specs.Passes.{ArePlaces, Continues, IsPassOf, Missed, first_pass, joined_with, split_off};
ghost use Rattle.shared_store.specs.Shares.{IsPassFor, SharesTurn, TriedOnce};

use command_set::Script;
use session_shell::{Hub, Turn};
use std::alloc::{AllocError, Global};
use std::marker::Model;
use std::sync::Wait;
use turn_hall::{Hall, Pass};

/// What a try at a turn has come to.
#[derive(Clone, Copy, Debug, PartialEq, Eq)]
pub enum Shared {
    /// The hub was away: another caller was making a turn.
    Away,
    /// A turn was made, and came to this.
    Made(Turn),
}

/// A hub that threads share. A caller makes a turn of it with a pass, which the store gave.
#[derive(Drop)]
pub struct SharedStore {
    hall: Hall<Hub>,
}

impl Model for SharedStore {
    ghost use Rattle.command_set.specs.declared.Script.{Script as AnyScript};
    ghost use Rattle.session_shell.specs.Hubs.{IsScript};
    ghost use Rattle.turn_hall.specs.Passes.{HallModel};

    ghost Value = { HallModel AnyScript };

    ghost view = { λ store. store.hall };

    ghost invariant = { λ store. IsScript store.hall.fixed };
}

impl SharedStore {
    /// A store whose sessions have begun nothing, and its first pass.
    pub fn new(alloc: Global, script: Script) -> Result<(SharedStore, Pass<Hub>), AllocError>
        requires { IsScript script }
        ensures fixed { IfOk result (λ r. r.0.fixed ≡ script) }
        ensures pass { IfOk result (λ r. r.1 ≡ first_pass r.0 []) }
        ensures own { IfOk result (λ r. IsPassFor r.0 r.1) }
    {
        let hub = Hub::new(alloc, script)?;
        let (hall, pass) = Hall::new(alloc, hub)?;
        Ok((SharedStore { hall }, pass))
    }

    /// Makes a turn of a session, if the hub is at home at the first step on the hall's word. This waits
    /// for nobody.
    pub fn try_advance(&self, pass: &mut Pass<Hub>, session: u16) -> Shared
        requires own { IsPassFor self.now pass.old }
        requires session { IsSessionOf self.now.fixed session }
        ensures own { IsPassFor self.now pass.new }
        ensures away { result ≡ Shared.Away → Missed pass.old pass.new }
        ensures made { (turn : AnyTurn) → result ≡ Shared.Made turn → SharesTurn self.now.fixed pass.old session pass.new turn }
        ensures tried { (turn : AnyTurn) → result ≡ Shared.Made turn → TriedOnce pass.old pass.new }
    {
        match self.hall.try_take(pass) {
            Some(hub) => Shared::Made(self.make(pass, hub, session)),
            None => Shared::Away,
        }
    }

    /// Makes a turn of a session, once the hub is at home. This may wait without end.
    pub fn call<R: Wait>(&self, rt: &R, pass: &mut Pass<Hub>, session: u16) -> Turn
        requires own { IsPassFor self.now pass.old }
        requires session { IsSessionOf self.now.fixed session }
        ensures own { IsPassFor self.now pass.new }
        ensures made { SharesTurn self.now.fixed pass.old session pass.new result }
    {
        let hub = self.hall.take(rt, pass);
        self.make(pass, hub, session)
    }

    /// Makes a turn of the hub that the pass took, and gives the hub back.
    fn make(&self, pass: &mut Pass<Hub>, hub: Hub, session: u16) -> Turn
        requires own { IsPassOf self.now pass.old }
        requires holds { pass.old.turn ≡ true }
        requires seen { pass.old.seen ≡ history_of hub.journal }
        requires script { hub.script ≡ self.now.fixed }
        requires session { IsSessionOf self.now.fixed session }
        ensures own { IsPassFor self.now pass.new }
        ensures made { SharesTurn self.now.fixed pass.old session pass.new result }
        ensures tries { pass.new.tries ≡ pass.old.tries }
    {
        let mut hub = hub;
        let turn = hub.turn(session);
        self.hall.give(pass, hub);
        turn
    }

    /// A new pass that has seen as much as this one and has no entries.
    pub fn split(&self, pass: &mut Pass<Hub>) -> Pass<Hub>
        requires { IsPassFor self.now pass.old }
        ensures same { pass.new ≡ pass.old }
        ensures new { result ≡ split_off pass.old }
        ensures own { IsPassFor self.now result }
    {
        self.hall.split_pass(pass)
    }

    /// Makes one pass of two: it has seen what either had seen, and has the entries of both.
    pub fn join(&self, pass: &mut Pass<Hub>, other: Pass<Hub>)
        requires pass { IsPassFor self.now pass.old }
        requires other { IsPassFor self.now other }
        ensures pass { pass.new ≡ joined_with pass.old other }
        ensures seen { IsPrefix pass.old.seen pass.new.seen × IsPrefix other.seen pass.new.seen }
        ensures places { ArePlaces pass.new.mine pass.new.seen }
        ensures own { IsPassFor self.now pass.new }
    {
        self.hall.join_pass(pass, other);
    }

    /// Takes the hub and ends the store. This may wait without end.
    pub fn close<R: Wait>(self, rt: &R, pass: Pass<Hub>) -> Hub
        requires { IsPassFor self pass }
        ensures script { result.script ≡ self.fixed }
        ensures history { Continues pass (history_of result.journal) }
    {
        self.hall.close(rt, pass)
    }
}
