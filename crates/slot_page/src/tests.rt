use crate::{NoRoom, Page, PageList, Slot, Tid, is_listed};
use std::alloc::{AllocError, Global};
use std::process::Abort;

/// A page on which items of 24 bytes, 0 and up, were put until it was full.
fn full_page(alloc: Global) -> Result<Page<u32>, AllocError> {
    let mut page = Page::new(alloc)?;
    for item in 0..300 {
        let _ = page.put(24, item);
    }
    Ok(page)
}

/// Takes the item out of a slot that has one.
fn take<T: Drop>(page: &mut Page<T>, slot: u16) -> Option<T> {
    match page.state(slot) {
        Slot::Normal => Some(page.make_dead(slot)),
        Slot::Dead | Slot::Unused => None,
    }
}

/// Frees a slot that is dead.
fn free<T: Drop>(page: &mut Page<T>, slot: u16) {
    if page.state(slot) == Slot::Dead {
        page.make_unused(slot);
    }
}

#[test]
fn four_items_of_2032_bytes_fill_a_page(rt: HostRuntime) -> Result<(), AllocError> {
    let mut page = Page::new(rt.alloc())?;
    for item in 0..4u16 {
        assert!(rt; page.put(2032, item).is_ok_and(|slot| slot == item));
    }
    assert!(rt; page.put(2032, 9).is_err_and(|NoRoom { item }| item == 9));
    assert!(rt; page.put(24, 8).is_err());
    assert!(rt; page.len() == 4);
    Ok(())
}

/// With two line pointers the largest item leaves no byte of the page; a third one would not fit.
#[test]
fn the_largest_item_fits_beside_two_line_pointers(rt: HostRuntime) -> Result<(), AllocError> {
    let mut page = Page::new(rt.alloc())?;
    assert!(rt; page.put(8160, 'a').is_ok_and(|slot| slot == 0));
    assert!(rt; page.put(24, 'b').is_err() && take(&mut page, 0) == Some('a'));
    assert!(rt; page.put(8160, 'c').is_ok_and(|slot| slot == 1));
    assert!(rt; take(&mut page, 1) == Some('c') && page.put(8160, 'd').is_err());
    free(&mut page, 0);
    assert!(rt; page.put(8160, 'e').is_ok_and(|slot| slot == 0));
    Ok(())
}

#[test]
fn items_of_24_bytes_fill_291_slots(rt: HostRuntime) -> Result<(), AllocError> {
    let page = full_page(rt.alloc())?;
    assert!(rt; page.len() == 291);
    assert!(rt; page.get(290).is_some_and(|item| *item == 290));
    assert!(rt; page.state(290) == Slot::Normal && page.state(291) == Slot::Unused);
    Ok(())
}

/// A dead slot gives its bytes free and takes no item yet; there are no slots beyond 291.
#[test]
fn a_full_page_takes_an_item_where_a_slot_was_freed(rt: HostRuntime) -> Result<(), AllocError> {
    let mut page = full_page(rt.alloc())?;
    assert!(rt; take(&mut page, 100) == Some(100) && page.get(100).is_none());
    assert!(rt; page.state(100) == Slot::Dead && page.put(24, 1000).is_err());
    free(&mut page, 100);
    assert!(rt; page.state(100) == Slot::Unused);
    assert!(rt; page.put(24, 1000).is_ok_and(|slot| slot == 100));
    assert!(rt; page.get(100).is_some_and(|item| *item == 1000) && page.len() == 291);
    Ok(())
}

#[test]
fn an_item_is_written_in_place(rt: HostRuntime) -> Result<(), AllocError> {
    let mut page = full_page(rt.alloc())?;
    if let Some(item) = page.get_mut(1) {
        *item = 7;
    }
    assert!(rt; page.get_mut(291).is_none());
    assert!(rt; page.get(0).is_some_and(|item| *item == 0));
    assert!(rt; page.get(1).is_some_and(|item| *item == 7));
    Ok(())
}

/// Puts items, each its own size, and looks where they lie.
fn put_each(
    rt: &impl Abort,
    pages: &mut PageList<u16>,
    puts: &[(u16, Tid)],
) -> Result<(), AllocError> {
    for (size, tid) in puts {
        assert!(rt; 24 <= *size);
        assert!(rt; *size <= 8160);
        assert_eq!(rt; pages.put(*size, *size)?, *tid);
    }
    Ok(())
}

fn at(page: u64, slot: u16) -> Tid {
    Tid { page, slot }
}

#[test]
fn an_item_goes_on_the_lowest_page_with_room(rt: HostRuntime) -> Result<(), AllocError> {
    let mut pages = PageList::new(rt.alloc());
    let puts = [
        (8160, at(0, 0)),
        (24, at(1, 0)),
        (8160, at(2, 0)),
        (4000, at(1, 1)),
        (4000, at(1, 2)),
        (4000, at(3, 0)),
        (24, at(1, 3)),
    ];
    put_each(&rt, &mut pages, &puts)?;
    assert!(rt; pages.len() == 4 && pages.page(1).len() == 4);
    // Where a page has room again, later puts find it.
    let page = pages.page_mut(0);
    assert!(rt; take(page, 0) == Some(8160));
    free(page, 0);
    put_each(
        &rt,
        &mut pages,
        &[(4000, at(0, 0)), (4000, at(0, 1)), (4000, at(3, 1))],
    )
}

#[test]
fn an_item_is_written_at_its_tid(rt: HostRuntime) -> Result<(), AllocError> {
    let mut pages = PageList::new(rt.alloc());
    put_each(&rt, &mut pages, &[(8160, at(0, 0)), (24, at(1, 0))])?;
    if let Some(item) = pages.get_mut(at(1, 0)) {
        *item = 7;
    }
    assert!(rt; pages.get(at(1, 0)) == Some(&7) && pages.get(at(0, 0)) == Some(&8160));
    assert!(rt; pages.get_mut(at(2, 0)).is_none() && pages.get(at(0, 1)).is_none());
    Ok(())
}

#[test]
fn items_are_walked_by_page_and_slot(rt: HostRuntime) -> Result<(), AllocError> {
    let mut pages = PageList::new(rt.alloc());
    put_each(
        &rt,
        &mut pages,
        &[(8160, at(0, 0)), (24, at(1, 0)), (24, at(1, 1))],
    )?;
    let nexts = [
        (at(0, 0), Some(at(0, 0))),
        (at(0, 1), Some(at(1, 0))),
        (at(1, 1), Some(at(1, 1))),
        (at(1, 2), None),
        (at(9, 0), None),
    ];
    for (from, next) in &nexts {
        assert!(rt; pages.next_item(*from) == *next);
    }
    Ok(())
}

#[test]
fn tids_go_by_page_and_then_by_slot(rt: HostRuntime) {
    let first = Tid { page: 0, slot: 9 };
    let second = Tid { page: 1, slot: 2 };
    assert!(rt;
        first < second && first < Tid { page: 0, slot: 10 } && second == Tid { page: 1, slot: 2 }
    );
}

#[test]
fn a_tid_is_looked_up_in_a_list_in_order(rt: HostRuntime) {
    let tids = [Tid { page: 0, slot: 9 }, Tid { page: 1, slot: 2 }];
    assert!(rt; is_listed(&tids, &tids[0]) && is_listed(&tids, &tids[1]));
    assert!(rt; !is_listed(&tids, &Tid { page: 0, slot: 2 }) && !is_listed(&[], &tids[0]));
}
