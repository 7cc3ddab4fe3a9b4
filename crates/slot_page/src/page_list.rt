//! The pages of a relation.

ghost use Rattle.std.specs.Prelude.{◌≡◌, ℕ, ◌+◌, ◌/◌, ◌≤◌, ◌<◌, [], false, length, map, min, slice_index, vec_len, IfErr, IfNone, IfOk, IfSome, OnErr, OnOk, option_copied};
ghost use Rattle.std.specs.Option.{option_map};
ghost use Rattle.std.specs.Borrow.{sem};
ghost use Rattle.slot_page.specs.Slots.{fits, largest_item, with_put};
ghost use Rattle.slot_page.specs.Pages.{item_in, page_at, put_tid, with_put_on};
ghost use Rattle.slot_page.specs.Marks.{class_of};
ghost use Rattle.slot_page.specs.NextItems.{IsEmptyFrom, IsNextItem};

use crate::line::{LinePointer, Tid};
use crate::page::{NoRoom, Page};
use std::alloc::{AllocError, Global};
use std::marker::Model;

/// The pages of a relation. A put does not look for room from the first page on: for each class of sizes
/// that has been put, there is a mark below which no page has room for it.
///
/// Contracts see the list of the pages, each as the list of its slots with what stands in them.
#[derive(Debug, Drop)]
pub struct PageList<T> {
    pages: Vec<Page<T>>,
    /// By class: a page below which no page has room for its sizes. A class past the end has the first
    /// page.
    lowest: Vec<u64>,
}

impl<T> Model for PageList<T> {
    ghost use Rattle.std.specs.Prelude.{List};
    ghost use Rattle.slot_page.specs.declared.line.LinePointer.{LinePointer};
    ghost use Rattle.slot_page.specs.Marks.{IsKept};

    ghost Value = { List (List (LinePointer T)) };

    ghost view = { λ pages. pages.pages.items };

    ghost invariant = { λ pages. IsKept pages.pages.items pages.lowest.items };
}

/// The class of a size: an item takes its size rounded up to 8, so items of one class fit on the same pages.
fn class_of(size: u16) -> usize
    requires { size ≤ largest_item }
    ensures { result ≡ class_of size }
{
    (size as usize + 7) / 8
}

/// Sees to it that a class has a mark of its own.
fn make_mark(lowest: &mut Vec<u64>, class: usize) -> Result<(), AllocError>
    requires { class ≤ 1020 }
    ensures made { OnOk result (class < vec_len lowest.new) }
    ensures kept { (other : ℕ) → slice_index lowest.new.items other ≡ slice_index lowest.old.items other }
{
    if class < lowest.len() {
        return Ok(());
    }
    lowest.resize(class + 1, 0)
}

/// Notes that a page may have room again: no search for room begins above it.
fn note_room(lowest: &mut [u64], page: u64)
    ensures { lowest.new ≡ map (λ first. min first page) lowest.old }
{
    for first in lowest.iter_mut() {
        *first = (*first).min(page);
    }
}

/// Puts an item on the lowest page where it fits, of those from `from` on; it fits on none below.
fn put_from<T: Drop>(
    pages: &mut [Page<T>],
    from: usize,
    size: u16,
    item: T,
) -> Result<Tid, NoRoom<T>>
    requires least { 24 ≤ size }
    requires most { size ≤ largest_item }
    requires from { from ≤ length pages.old }
    requires full_below { (page : ℕ) → page < from → fits size (page_at pages.old page) ≡ false }
    ensures tid { IfOk result (λ tid. tid ≡ put_tid size pages.old) }
    ensures put { OnOk result (pages.new ≡ with_put_on size item pages.old) }
    ensures full { OnErr result ((page : ℕ) → page < length pages.old → fits size (page_at pages.old page) ≡ false) }
    ensures handed_back { IfErr result (λ none. none.item ≡ item) }
    ensures unchanged { OnErr result (pages.new ≡ pages.old) }
{
    let mut held = item;
    for page in from..pages.len() {
        match pages[page].put(size, held) {
            Ok(slot) => {
                return Ok(Tid {
                    page: page as u64,
                    slot,
                });
            }
            Err(NoRoom { item }) => held = item,
        }
    }
    Err(NoRoom { item: held })
}

/// A page with one item.
fn page_with<T: Drop>(alloc: Global, size: u16, item: T) -> Result<Page<T>, AllocError>
    requires least { 24 ≤ size }
    requires most { size ≤ largest_item }
    ensures { IfOk result (λ page. page ≡ with_put size item []) }
{
    let mut page = Page::new(alloc)?;
    match page.put(size, item) {
        Ok(_) => Ok(page),
        Err(_) => unreachable!(),
    }
}

/// Puts an item on a new page; it fits on none that is there.
fn put_after<T: Drop>(pages: &mut Vec<Page<T>>, size: u16, item: T) -> Result<Tid, AllocError>
    requires least { 24 ≤ size }
    requires most { size ≤ largest_item }
    requires full { (page : ℕ) → page < length pages.old.items → fits size (page_at pages.old.items page) ≡ false }
    ensures tid { IfOk result (λ tid. tid ≡ put_tid size pages.old.items) }
    ensures put { OnOk result (pages.new.items ≡ with_put_on size item pages.old.items) }
    ensures unchanged { OnErr result (pages.new.items ≡ pages.old.items) }
{
    let alloc = *pages.allocator();
    let tid = Tid {
        page: pages.len() as u64,
        slot: 0,
    };
    let page = page_with(alloc, size, item)?;
    pages.push(page)?;
    Ok(tid)
}

/// Puts an item on the lowest page where it fits, else on a new one; it fits on none below `from`.
fn put_on<T: Drop>(
    pages: &mut Vec<Page<T>>,
    from: usize,
    size: u16,
    item: T,
) -> Result<Tid, AllocError>
    requires least { 24 ≤ size }
    requires most { size ≤ largest_item }
    requires from { from ≤ length pages.old.items }
    requires full_below { (page : ℕ) → page < from → fits size (page_at pages.old.items page) ≡ false }
    ensures tid { IfOk result (λ tid. tid ≡ put_tid size pages.old.items) }
    ensures put { OnOk result (pages.new.items ≡ with_put_on size item pages.old.items) }
    ensures unchanged { OnErr result (pages.new.items ≡ pages.old.items) }
{
    match put_from(pages, from, size, item) {
        Ok(tid) => Ok(tid),
        Err(NoRoom { item }) => put_after(pages, size, item),
    }
}

impl<T: Drop> PageList<T> {
    ghost use Rattle.slot_page.specs.Lends.{lends_item_in, lends_page};

    /// No page, which takes no memory yet.
    pub fn new(alloc: Global) -> PageList<T>
        ensures { result ≡ [] }
    {
        PageList {
            pages: Vec::new(alloc),
            lowest: Vec::new(alloc),
        }
    }

    /// Where the pages have their memory from.
    pub fn allocator(&self) -> Global {
        *self.pages.allocator()
    }

    /// The number of pages.
    pub fn len(&self) -> u64
        ensures { result ≡ length self.now }
    {
        self.pages.len() as u64
    }

    /// A page.
    pub fn page(&self, page: u64) -> &Page<T>
        requires { page < length self.now }
        ensures { result.now ≡ page_at self.now page }
    {
        &self.pages[page as usize]
    }

    /// A page for any change. Later puts look for room from this page on at the latest.
    pub fn page_mut(&mut self, page: u64) -> &mut Page<T>
        requires { page < length self.old }
        ensures* writes_back { sem 𝓛 (lends_page T.row self.entry page result) }
        ensures page { result.now ≡ page_at self.old page }
    {
        note_room(&mut self.lowest, page);
        &mut self.pages[page as usize]
    }

    /// The item at a tid, if there is one.
    pub fn get(&self, tid: Tid) -> Option<&T>
        ensures { option_copied result ≡ item_in self.now tid }
    {
        self.pages.get(tid.page as usize)?.get(tid.slot)
    }

    /// The first tid from one on, by page and then by slot, that has an item, if there is one. It looks at
    /// no slot before that one.
    pub fn next_item(&self, from: Tid) -> Option<Tid>
        ensures found { IfSome result (IsNextItem self.now from) }
        ensures none { IfNone result (IsEmptyFrom self.now from) }
    {
        let mut first = from.slot;
        for page in from.page..self.len() {
            if let Some(slot) = self.page(page).next_item(first) {
                return Some(Tid { page, slot });
            }
            first = 0;
        }
        None
    }

    /// The item at a tid for writing, if there is one; its size stays.
    pub fn get_mut(&mut self, tid: Tid) -> Option<&mut T>
        ensures* writes_back { sem 𝓛 (lends_item_in T.row self.entry tid result) }
        ensures item { option_map (λ item. item.now) result ≡ item_in self.old tid }
    {
        self.pages.get_mut(tid.page as usize)?.get_mut(tid.slot)
    }

    /// Puts an item of 24 to 8,160 bytes on the lowest page where it fits, else on a new one, and answers
    /// its tid. Where there is no memory, the pages stay.
    pub fn put(&mut self, size: u16, item: T) -> Result<Tid, AllocError>
        requires least { 24 ≤ size }
        requires most { size ≤ largest_item }
        ensures tid { IfOk result (λ tid. tid ≡ put_tid size self.old) }
        ensures put { OnOk result (self.new ≡ with_put_on size item self.old) }
        ensures unchanged { OnErr result (self.new ≡ self.old) }
    {
        let class = class_of(size);
        make_mark(&mut self.lowest, class)?;
        let tid = put_on(&mut self.pages, self.lowest[class] as usize, size, item)?;
        self.lowest[class] = tid.page;
        Ok(tid)
    }
}
