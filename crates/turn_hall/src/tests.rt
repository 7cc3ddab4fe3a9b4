ghost use Rattle.std.specs.Prelude.{◌≡◌, ◌≤◌, [], length, false, IfOk};
ghost use Rattle.turn_hall.specs.Passes.{Extends, IsPassOf};

use super::*;
use std::alloc::{AllocError, Global};
use std::process::Abort;
use std::sync::Wait;
use std::test::Fail;
use std::thread::{Threads, join};

/// Who wrote what, under a name. It has room for a thousand entries.
#[derive(Drop)]
struct Log {
    name: u64,
    entries: Vec<(u64, u64, u64)>,
    ghost short: { length entries.items ≤ 1000 },
}

impl Counted for Log {
    type Fixed = u64;

    ghost entries = { λ log. log.entries.items };

    ghost fixed = { λ log. log.name };

    fn count(&self) -> u64 {
        self.entries.len() as u64
    }
}

impl Log {
    fn new(alloc: Global, name: u64) -> Log
        ensures { (result.name ≡ name) × (result.entries.items ≡ []) }
    {
        Log {
            name,
            entries: Vec::new(alloc),
        }
    }

    /// Where there is no room or no memory the log stays as it is.
    fn add(&mut self, by: u64, number: u64)
        ensures entries { Extends self.old.entries.items self.new.entries.items }
        ensures name { self.new.name ≡ self.old.name }
    {
        if self.entries.len() < 1000 {
            let _ = self.entries.push((by, number, 0));
        }
    }
}

#[test]
fn one_holds_the_value(rt: HostRuntime) -> Result<(), Fail> {
    let (hall, mut pass) = Hall::new(rt.alloc(), Log::new(rt.alloc(), 7))?;
    let mut other = hall.split_pass(&mut pass);
    let Some(log) = hall.try_take(&mut pass) else {
        panic!(rt; "the value is at home")
    };
    assert!(rt; hall.try_take(&mut other).is_none());
    assert!(rt; hall.try_take(&mut pass).is_none());
    hall.give(&mut pass, log);
    let Some(log) = hall.try_take(&mut pass) else {
        panic!(rt; "the value is at home again")
    };
    assert_eq!(rt; log.name, 7);
    Ok(())
}

fn add_hundred<R: Wait>(rt: &R, hall: &Hall<Log>, mut pass: Pass<Log>, by: u64) -> Pass<Log>
    requires own { IsPassOf hall.now pass }
    requires idle { pass.turn ≡ false }
    ensures own { IsPassOf hall.now result }
    ensures idle { result.turn ≡ false }
{
    for number in 0..100 {
        let mut log = hall.take(rt, &mut pass);
        log.add(by, number);
        hall.give(&mut pass, log);
    }
    pass
}

// The log after a hundred turns in each of two threads.
fn two_hundred<R: Threads + Wait + Sync>(rt: &R, alloc: Global) -> Result<Log, AllocError>
    ensures { IfOk result (λ log. log.name ≡ 7) }
{
    let (hall, mut pass) = Hall::new(alloc, Log::new(alloc, 7))?;
    let other = hall.split_pass(&mut pass);
    let shared = &hall;
    let (mut pass, other) = join(
        rt,
        move || -> Pass<Log>
            requires { IsPassOf shared.now pass × (pass.turn ≡ false) }
            ensures { IsPassOf shared.entry.now result × (result.turn ≡ false) }
        { add_hundred(rt, shared, pass, 1) },
        move || -> Pass<Log>
            requires { IsPassOf shared.now other × (other.turn ≡ false) }
            ensures { IsPassOf shared.entry.now result × (result.turn ≡ false) }
        { add_hundred(rt, shared, other, 2) },
    );
    hall.join_pass(&mut pass, other);
    Ok(hall.close(rt, pass))
}

#[test]
fn both_threads_write_in_their_order(rt: HostRuntime) -> Result<(), Fail> {
    let log = two_hundred(&rt, rt.alloc())?;
    assert_eq!(rt; log.entries.len(), 200);
    for by in [1, 2] {
        let mut numbers = Vec::new(rt.alloc());
        for entry in &log.entries {
            if entry.0 == by {
                numbers.push(entry.1)?;
            }
        }
        assert!(rt; numbers.iter().copied().eq(0..100), "in the turns of {by}");
    }
    Ok(())
}

// A turn that adds nothing.
fn idle_turn<V: Counted, R: Wait>(rt: &R, hall: &Hall<V>, mut pass: Pass<V>) -> Pass<V>
    requires own { IsPassOf hall.now pass }
    requires idle { pass.turn ≡ false }
    ensures own { IsPassOf hall.now result }
    ensures idle { result.turn ≡ false }
{
    let value = hall.take(rt, &mut pass);
    hall.give(&mut pass, value);
    pass
}

// A hall is shared, a pass moves and a hall moves between threads for each value that may.
fn crosses<V: Counted + Send, R: Threads + Wait + Sync>(
    rt: &R,
    hall: Hall<V>,
    left: Pass<V>,
    right: Pass<V>,
) -> V
    requires own { IsPassOf hall left × IsPassOf hall right }
    requires idle { (left.turn ≡ false) × (right.turn ≡ false) }
    ensures { V.fixed result ≡ hall.fixed }
{
    let shared = &hall;
    let (mut left, right) = join(
        rt,
        move || -> Pass<V>
            requires { IsPassOf shared.now left × (left.turn ≡ false) }
            ensures { IsPassOf shared.entry.now result × (result.turn ≡ false) }
        { idle_turn(rt, shared, left) },
        move || -> Pass<V>
            requires { IsPassOf shared.now right × (right.turn ≡ false) }
            ensures { IsPassOf shared.entry.now result × (result.turn ≡ false) }
        { idle_turn(rt, shared, right) },
    );
    hall.join_pass(&mut left, right);
    let (value, ()) = join(
        rt,
        move || -> V
            requires { IsPassOf hall left × (left.turn ≡ false) }
            ensures { V.fixed result ≡ hall.fixed }
        { hall.close(rt, left) },
        || (),
    );
    value
}

#[test]
fn a_hall_crosses_threads(rt: HostRuntime) -> Result<(), Fail> {
    let (hall, mut pass) = Hall::new(rt.alloc(), Log::new(rt.alloc(), 7))?;
    let other = hall.split_pass(&mut pass);
    let log = crosses(&rt, hall, pass, other);
    assert!(rt; log.name == 7 && log.entries.is_empty());
    Ok(())
}
