//! One thread for each session.
ghost use Rattle.std.specs.Prelude.{◌≡◌, ◌≤◌, ◌+◌, ◌^◌, length};
ghost use denote.Param.Send.{IsSync};
ghost use mathlib.Core.List.{IsPrefix};
ghost use Rattle.session_shell.specs.Hubs.{IsSessionOf};
ghost use Rattle.turn_hall.specs.Passes.{ArePlaces};
ghost use Rattle.shared_store.specs.Shares.{AreDone, AreDoneFrom, IsDone, IsPassFor};

use crate::SharedStore;
use session_shell::{Hub, Turn};
use std::sync::Wait;
use std::thread::{Threads, join};
use toast_io::Gate;
use turn_hall::Pass;

/// Makes the turns of all sessions, each session's in a thread of its own, until none has a command left.
/// Where a thread cannot be had, the caller makes its turns. This may wait without end.
///
/// Each thread passes the gate before each of its turns. `sessions` is the number of the script's sessions.
pub fn run_threads<R: Threads + Wait + Sync, G: Gate + Sync>(
    rt: &R,
    store: &SharedStore,
    pass: &mut Pass<Hub>,
    sessions: u16,
    gate: &G,
)
    requires own { IsPassFor store.now pass.old }
    requires sessions { sessions ≡ length store.now.fixed.sessions }
    ensures own { IsPassFor store.now pass.new }
    ensures seen { IsPrefix pass.old.seen pass.new.seen }
    ensures places { ArePlaces pass.new.mine pass.new.seen }
    ensures done { AreDone store.now.fixed pass.new.seen }
{
    let other = store.split(pass);
    let other = run_sessions(rt, store, other, 1, sessions, gate);
    store.join(pass, other);
}

/// Makes the turns of so many sessions, from this one on: of half of them in another thread.
fn run_sessions<R: Threads + Wait + Sync, G: Gate + Sync>(
    rt: &R,
    store: &SharedStore,
    pass: Pass<Hub>,
    from: u16,
    count: u16,
    gate: &G,
) -> Pass<Hub>
    requires own { IsPassFor store.now pass }
    requires from { 1 ≤ from }
    requires within { from + count ≤ length store.now.fixed.sessions + 1 }
    requires fits { from + count ≤ 2 ^ 16 }
    ensures own { IsPassFor store.now result }
    ensures seen { IsPrefix pass.seen result.seen }
    ensures done { AreDoneFrom store.now.fixed from count result.seen }
{
    if count == 0 {
        return pass;
    }
    if count == 1 {
        return run_session(rt, store, pass, from, gate);
    }
    let low = count / 2;
    let high = count - low;
    let up = from + low;
    let mut pass = pass;
    let other = store.split(&mut pass);
    let front = move || -> Pass<Hub>
        requires { IsSync R.row × IsSync G.row × IsPassFor store.now pass × (1 ≤ from) × (from + low ≤ length store.now.fixed.sessions + 1) × (from + low ≤ 2 ^ 16) }
        ensures { IsPassFor store.entry.now result × IsPrefix pass.seen result.seen × AreDoneFrom store.entry.now.fixed from low result.seen }
    { run_sessions(rt, store, pass, from, low, gate) };
    let back = move || -> Pass<Hub>
        requires { IsSync R.row × IsSync G.row × IsPassFor store.now other × (1 ≤ up) × (up + high ≤ length store.now.fixed.sessions + 1) × (up + high ≤ 2 ^ 16) }
        ensures { IsPassFor store.entry.now result × IsPrefix other.seen result.seen × AreDoneFrom store.entry.now.fixed up high result.seen }
    { run_sessions(rt, store, other, up, high, gate) };
    let (mut pass, other) = join(rt, front, back);
    store.join(&mut pass, other);
    pass
}

/// Makes the turns of one session until it has no command left.
fn run_session<R: Wait, G: Gate>(
    rt: &R,
    store: &SharedStore,
    pass: Pass<Hub>,
    session: u16,
    gate: &G,
) -> Pass<Hub>
    requires own { IsPassFor store.now pass }
    requires session { IsSessionOf store.now.fixed session }
    ensures own { IsPassFor store.now result }
    ensures seen { IsPrefix pass.seen result.seen }
    ensures done { IsDone store.now.fixed session result.seen }
{
    let mut pass = pass;
    let mut turn = 1;
    for _ in rt.forever() {
        gate.before(session, turn);
        if let Turn::Nothing = store.call(rt, &mut pass, session) {
            return pass;
        }
        turn = turn.saturating_add(1);
    }
    unreachable!()
}
