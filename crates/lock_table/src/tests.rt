use crate::{ClaimFault, LockFault, Locks, Upkeep};
use std::alloc::Global;

/// Locks table 1 for session 1 as the first of two modes says and asks for the second for session 2.
/// No upkeep is a use.
fn asks_beside(
    alloc: Global,
    held: Option<Upkeep>,
    asked: Option<Upkeep>,
) -> Result<(), LockFault> {
    let mut locks = Locks::new(alloc);
    lock(&mut locks, 1, held)?;
    lock(&mut locks, 2, asked)
}

fn lock(locks: &mut Locks, session: u16, mode: Option<Upkeep>) -> Result<(), LockFault> {
    match mode {
        Some(kind) => locks.start(session, 1, kind),
        None => locks.use_table(session, 1),
    }
}

#[test]
fn a_row_is_claimed_by_one_session(rt: HostRuntime) {
    let mut locks = Locks::new(rt.alloc());
    assert!(rt; locks.claim(1, 1, 5) == Ok(()));
    assert!(rt; locks.claim(2, 1, 5) == Err(ClaimFault::Busy { session: 1 }));
    assert!(rt; locks.claim(1, 1, 5) == Ok(()));
    assert!(rt; locks.claim(2, 2, 5) == Ok(()));
    locks.end(1);
    assert!(rt; locks.claim(2, 1, 5) == Ok(()));
    assert!(rt; locks.claim(1, 2, 5) == Err(ClaimFault::Busy { session: 2 }));
}

#[test]
fn sessions_with_and_without_a_place(rt: HostRuntime) -> Result<(), std::alloc::AllocError> {
    let mut locks = Locks::for_sessions(rt.alloc(), 2)?;
    assert!(rt; locks.claim(2, 1, 5) == Ok(()));
    assert!(rt; locks.claim(3, 1, 5) == Err(ClaimFault::Busy { session: 2 }));
    locks.end(2);
    assert!(rt; locks.claim(3, 1, 5) == Ok(()));
    assert!(rt; locks.claim(1, 1, 5) == Err(ClaimFault::Busy { session: 3 }));
    Ok(())
}

#[test]
fn keys_at_both_ends(rt: HostRuntime) {
    let mut locks = Locks::new(rt.alloc());
    for (session, key) in [(1, i64::MIN), (2, i64::MAX), (3, 0), (4, -1)] {
        assert!(rt; locks.claim(session, 1, key) == Ok(()));
    }
    for (session, key) in [(1, i64::MIN), (2, i64::MAX), (3, 0), (4, -1)] {
        assert!(rt; locks.claim(9, 1, key) == Err(ClaimFault::Busy { session }));
    }
    assert!(rt; locks.claim(9, 1, i64::MIN + 1) == Ok(()));
}

#[test]
fn a_rewrite_waits_for_the_uses(rt: HostRuntime) {
    let mut locks = Locks::new(rt.alloc());
    assert!(rt; locks.use_table(1, 1) == Ok(()));
    assert!(rt; locks.start(2, 1, Upkeep::Rewrite) == Err(LockFault::Locked { session: 1 }));
    locks.end(1);
    assert!(rt; locks.start(2, 1, Upkeep::Rewrite) == Ok(()));
    assert!(rt; locks.use_table(1, 1) == Err(LockFault::Locked { session: 2 }));
    assert!(rt; locks.use_table(2, 1) == Ok(()) && locks.use_table(1, 2) == Ok(()));
}

#[test]
fn each_pair_of_modes(rt: HostRuntime) {
    let modes = [
        None,
        Some(Upkeep::Main),
        Some(Upkeep::Toast),
        Some(Upkeep::Rewrite),
    ];
    let granted = [
        [true, true, true, false],
        [true, false, true, false],
        [true, true, false, false],
        [false, false, false, false],
    ];
    for (held, row) in modes.iter().zip(&granted) {
        for (asked, granted) in modes.iter().zip(row) {
            let wanted = match granted {
                true => Ok(()),
                false => Err(LockFault::Locked { session: 1 }),
            };
            assert!(rt; asks_beside(rt.alloc(), *held, *asked) == wanted);
        }
    }
}

#[test]
fn the_least_session_in_the_way_is_named(rt: HostRuntime) {
    let mut locks = Locks::new(rt.alloc());
    for session in [7, 3, 5] {
        assert!(rt; locks.use_table(session, 1) == Ok(()));
    }
    assert!(rt; locks.start(9, 1, Upkeep::Rewrite) == Err(LockFault::Locked { session: 3 }));
    assert!(rt; locks.start(3, 1, Upkeep::Rewrite) == Err(LockFault::Locked { session: 5 }));
    locks.end(3);
    locks.end(5);
    locks.end(65535);
    assert!(rt; locks.start(9, 1, Upkeep::Rewrite) == Err(LockFault::Locked { session: 7 }));
}
