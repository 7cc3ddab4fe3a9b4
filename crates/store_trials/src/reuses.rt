//! A test of an id that is drawn again while entries of it name dead slots.

use crate::fetches::{MARKER, VALUE, ender, fetched, mark, two_committed};
use crate::saves::{finish, saved};
use change_log::Log;
use std::test::Fail;
use toast_store::{Save, TidList, ToastStore};
use tuple_layout::Bytes;
use value_ids::{IdPool, IdTest};

#[test]
fn an_id_whose_chunks_are_dead_is_used_again(rt: HostRuntime) -> Result<(), Fail> {
    let alloc = rt.alloc();
    let xacts = two_committed(&rt, alloc)?;
    let mut store = ToastStore::new(alloc, 8193)?;
    let mut ids = IdPool::new(alloc, VALUE, VALUE);
    let mut log = Log::new(alloc);
    let old = saved(alloc, &mut store, &mut ids, &mut log, 2500)?;
    ids.release(1);
    mark(&rt, &mut store, old, 4)?;
    assert!(rt; store.used(VALUE) && store.rel().pages() == 1);
    let mut dead = TidList::new(alloc);
    assert!(rt; store.prune_page(0, &xacts, 5, &mut dead)? == 2);
    // The entries stand, and their slots have no chunk.
    assert!(rt; !store.used(VALUE) && store.index().nth_of(VALUE, 1).is_some());
    let value = Bytes::from_slice(alloc, &[7; 3000])?;
    let new = finish(
        &mut Save::new(alloc, 1, 1, 4, value),
        &mut store,
        &mut ids,
        &mut log,
    )?;
    assert!(rt; new.value_id == VALUE && store.used(VALUE));
    let bytes = fetched(&rt, alloc, &mut store, new, 0, 3000)?;
    assert!(rt; bytes.as_slice() == &[7; 3000][..]);
    mark(&rt, &mut store, new, MARKER)?;
    let ended = [None, Some(Some(MARKER)), None, Some(Some(MARKER))];
    for (n, expected) in ended.iter().enumerate() {
        assert!(rt; store.index().nth_of(VALUE, n).is_some());
        assert!(rt; ender(&store, VALUE, n) == *expected);
    }
    assert!(rt; store.index().nth_of(VALUE, 4).is_none());
    Ok(())
}
