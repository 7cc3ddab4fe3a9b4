use crate::{DrawFault, IdPool, IdTest};

/// Ids that are used, as a list.
#[derive(Clone, Copy)]
struct Used<'a>(&'a [u32]);

impl IdTest for Used<'_> {
    ghost use Rattle.std.specs.List.{list_any};
    ghost use Rattle.std.specs.Prelude.{◌==◌};

    ghost is_used = { λ used id. list_any (λ x. x == id) used.0.now };

    fn used(&self, id: u32) -> bool {
        self.0.iter().any(|x| *x == id)
    }
}

#[test]
fn ids_are_drawn_in_turn_and_given_up(rt: HostRuntime) {
    let none = Used(&[]);
    let mut pool = IdPool::new(rt.alloc(), 16384, 16385);
    assert!(rt; pool.draw(1, 1, &none) == Ok(16384));
    assert!(rt; pool.draw(1, 1, &none) == Ok(16385));
    assert!(rt; pool.draw(1, 1, &none) == Err(DrawFault::NoValueId { in_use: 2 }));
    pool.release(1);
    assert!(rt; pool.draw(1, 1, &none) == Ok(16384));
}

#[test]
fn an_id_is_in_hand_for_its_table_alone(rt: HostRuntime) {
    let none = Used(&[]);
    let mut pool = IdPool::new(rt.alloc(), 16384, 16385);
    assert!(rt; pool.draw(1, 1, &none) == Ok(16384));
    assert!(rt; pool.draw(1, 1, &none) == Ok(16385));
    // No other session draws it for the table, and for another table it is free.
    assert!(rt; pool.draw(1, 2, &none) == Err(DrawFault::NoValueId { in_use: 2 }));
    assert!(rt; pool.draw(2, 2, &none) == Ok(16384));
    // A session gives up its own ids, and leaves those of others in hand.
    pool.release(1);
    assert!(rt; pool.draw(2, 1, &none) == Ok(16385));
    assert!(rt; pool.draw(2, 1, &none) == Err(DrawFault::NoValueId { in_use: 2 }));
    assert!(rt; pool.draw(1, 1, &none) == Ok(16384));
}

#[test]
fn a_used_id_is_passed_over(rt: HostRuntime) {
    let used = Used(&[16384, 16386]);
    let mut pool = IdPool::new(rt.alloc(), 16384, 16386);
    assert!(rt; pool.draw(1, 1, &used) == Ok(16385));
    pool.release(1);
    assert!(rt; pool.draw(1, 1, &used) == Ok(16385));
    assert!(rt; pool.draw(1, 1, &used) == Err(DrawFault::NoValueId { in_use: 3 }));
}

#[test]
fn the_greatest_id_is_followed_by_the_least(rt: HostRuntime) {
    let none = Used(&[]);
    let mut pool = IdPool::new(rt.alloc(), 4294967294, 4294967295);
    for id in [4294967294, 4294967295, 4294967294] {
        assert!(rt; pool.draw(1, 1, &none) == Ok(id));
        pool.release(1);
    }
}
