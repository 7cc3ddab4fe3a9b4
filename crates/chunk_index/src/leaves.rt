//! The leaves in their order, and where an entry lies among them.

ghost use Rattle.std.specs.Prelude.{◌≡◌, ◌==◌, ◌<◌, ◌≤◌, ◌+◌, [], Contains, None, Some, if◌then◌else◌, length, suc, drop, nat_lt, count_by, slice_get, IfOk, IfSome, OnErr, OnOk};
ghost use Rattle.std.specs.Option.{option_copied};
ghost use Rattle.std.specs.List.{slice_index_or};
ghost use Rattle.std.specs.List.Sorted.{IsSorted};
ghost use Rattle.slot_page.specs.Tids.{tid_cmp};
ghost use Rattle.chunk_index.specs.Entries.{comes_before, of_id, wanted_of, with_entry};
ghost use Rattle.chunk_index.specs.Leaves.{leaf_at, next_bound};
ghost use Rattle.chunk_index.specs.Nodes.{AreLeaves, Node, entries_in, first_bound};
ghost use Rattle.chunk_index.specs.Indexes.{batch_of, bounds_with, is_swept};
ghost use Rattle.chunk_index.specs.Places.{CanTake, IsContent, IsParting, IsPlaceOf, IsSweepPlace, added, changed, first_leaf, kept, left_by, reaches_on, split, swept_content};

use crate::TidList;
use crate::entry::{Batch, Entry, EntryList, LEAF_ENTRIES};
use crate::node::LeafNode;
use crate::wanted::Wanted;
use std::alloc::{AllocError, Global};
use std::marker::Model;

/// The leaves of an index, found by halves.
///
/// Contracts see the entries of all, in order, and the bounds of those after the first.
#[derive(Debug, Drop)]
pub(crate) struct Leaves {
    nodes: Vec<LeafNode>,
    /// How many entries they have together.
    count: usize,
}

impl Model for Leaves {
    ghost use Rattle.std.specs.Prelude.{◌≡◌, length};
    ghost use Rattle.chunk_index.specs.Nodes.{AreLeaves, Content, content_of, entries_in};

    ghost Value = { Content };

    ghost view = { λ leaves. content_of leaves.nodes.items };

    ghost invariant = { λ leaves. AreLeaves leaves.nodes.items × (leaves.count ≡ length (entries_in leaves.nodes.items)) };
}

/// The leaf at a place, if there is one.
fn node_at(nodes: &[LeafNode], at: usize) -> Option<&LeafNode>
    ensures { option_copied result ≡ slice_get nodes.now at }
{
    nodes.get(at)
}

/// The leaves from a place on.
fn from_place(nodes: &[LeafNode], at: usize) -> &[LeafNode]
    requires { at ≤ length nodes.now }
    ensures { result.now ≡ drop at nodes.now }
{
    &nodes[at..]
}

/// The bound of the leaf after the one at a place, if there is one.
fn next_of(nodes: &[LeafNode], at: usize) -> Option<Entry>
    requires { at < length nodes.now }
    ensures { result ≡ first_bound (drop (suc at) nodes.now) None }
{
    match node_at(nodes, at + 1) {
        Some(node) => node.bound(),
        None => None,
    }
}

/// One more, where it can be counted.
fn one_more(count: usize) -> Result<usize, AllocError>
    ensures { IfOk result (λ more. more ≡ count + 1) }
{
    match count.checked_add(1) {
        Some(more) => Ok(more),
        None => Err(AllocError),
    }
}

/// The place of the leaf that an entry lies in. It takes time logarithmic in the number of leaves.
fn place_of(nodes: &[LeafNode], e: &Entry) -> usize
    requires { AreLeaves nodes.now }
    ensures { IsPlaceOf nodes.now e.now result }
{
    nodes.partition_point(|node| node.begins_by(e)) - 1
}

/// The place of the leaf that a sweep begins at: that of an entry, or the first.
fn place_at(nodes: &[LeafNode], from: &Option<Entry>) -> usize
    requires { AreLeaves nodes.now }
    ensures { IsSweepPlace nodes.now from.now result }
{
    match from {
        Some(e) => place_of(nodes, e),
        None => 0,
    }
}

/// How many leaves lie wholly before what is wanted. It takes time logarithmic in the number of leaves.
fn passed(nodes: &[LeafNode], wanted: &Wanted) -> usize
    requires { AreLeaves nodes.now }
    ensures { IsParting (comes_before wanted.now.value_id wanted.now.from wanted.now.after) nodes.now result }
{
    nodes.partition_point(|node| node.is_passed(wanted))
}

/// An entry, if it is one of a value.
fn of_value(entry: Entry, value_id: u32) -> Option<Entry>
    ensures { result ≡ (if entry.value_id == value_id then Some entry else None) }
{
    if entry.value_id == value_id {
        Some(entry)
    } else {
        None
    }
}

/// Whether the first of some leaves reaches what is wanted.
fn goes_on(nodes: &[LeafNode], wanted: &Wanted) -> bool
    ensures { result ≡ reaches_on wanted.now.value_id wanted.now.to nodes.now }
{
    match nodes.first() {
        Some(node) => node.is_reached(wanted),
        None => false,
    }
}

/// The n-th of the entries of some leaves, counted from 0. It reads the length of each leaf on the way.
fn entry_at(nodes: &[LeafNode], n: usize) -> Option<Entry>
    ensures { result ≡ slice_get (entries_in nodes.now) n }
{
    let mut left = n;
    for node in nodes {
        if left < node.len() {
            return node.get(left);
        }
        left -= node.len();
    }
    None
}

/// Splits the leaf at a place, which an entry comes to. Where there is no memory, the leaves stay.
fn split_at(nodes: &mut Vec<LeafNode>, at: usize, e: Entry) -> Result<(), AllocError>
    requires takes { CanTake nodes.old.items e at }
    requires full { (d : Node) → LEAF_ENTRIES ≤ length (Node.entries (slice_index_or nodes.old.items at d)) }
    ensures split { OnOk result (nodes.new.items ≡ changed (λ node. split node.bound (with_entry node.entries e)) nodes.old.items at) }
    ensures unchanged { OnErr result (nodes.new.items ≡ nodes.old.items) }
{
    let (lower, upper) = nodes[at].split(e)?;
    nodes.insert(at + 1, upper)?;
    nodes[at] = lower;
    Ok(())
}

/// Adds an entry to the leaf at a place, and splits it where it is full. Where there is no memory, the
/// leaves stay.
fn add_at(nodes: &mut Vec<LeafNode>, at: usize, e: Entry) -> Result<(), AllocError>
    requires { CanTake nodes.old.items e at }
    ensures added { OnOk result (nodes.new.items ≡ changed (added e) nodes.old.items at) }
    ensures unchanged { OnErr result (nodes.new.items ≡ nodes.old.items) }
{
    if nodes[at].len() >= LEAF_ENTRIES {
        return split_at(nodes, at, e);
    }
    let node = &mut nodes[at];
    node.insert(e)
}

/// Takes the listed entries from the leaf at a place, and the leaf itself where it is left empty and has a
/// bound. It says how many entries went.
fn sweep_at(nodes: &mut Vec<LeafNode>, at: usize, dead: &TidList) -> usize
    requires place { at < length nodes.old.items }
    requires sorted { IsSorted tid_cmp dead.now }
    ensures swept { nodes.new.items ≡ changed (λ node. kept (left_by dead.now node)) nodes.old.items at }
    ensures counted { (d : Node) → result + length (Node.entries (left_by dead.now (slice_index_or nodes.old.items at d))) ≡ length (Node.entries (slice_index_or nodes.old.items at d)) }
{
    let node = &mut nodes[at];
    let removed = node.sweep(dead);
    if node.is_gone() {
        nodes.remove(at);
    }
    removed
}

impl Leaves {
    /// One leaf, with no entry.
    pub(crate) fn new(alloc: Global) -> Result<Self, AllocError>
        ensures empty { IfOk result (λ leaves. leaves ≡ record { entries = []; bounds = [] }) }
    {
        let mut nodes = Vec::new(alloc);
        nodes.push(LeafNode::first(alloc)?)?;
        Ok(Leaves { nodes, count: 0 })
    }

    /// Adds an entry that is not there. Where there is no memory, or too many entries to be counted, the
    /// leaves stay.
    pub(crate) fn insert(&mut self, e: Entry) -> Result<(), AllocError>
        requires { Contains self.old.entries e → ⊥ }
        ensures entries { OnOk result (self.new.entries ≡ with_entry self.old.entries e) }
        ensures bounds { OnOk result (self.new.bounds ≡ bounds_with self.old.bounds self.old.entries e) }
        ensures unchanged { OnErr result (self.new ≡ self.old) }
        ensures sound { OnOk result (IsContent self.new) }
    {
        let count = one_more(self.count)?;
        let at = place_of(&self.nodes, &e);
        add_at(&mut self.nodes, at, e)?;
        self.count = count;
        Ok(())
    }

    /// Of what is wanted, all that lies in the first leaf with any of it, and the bound of that leaf.
    pub(crate) fn batch(&self, wanted: &Wanted) -> Result<(Batch, Option<Entry>), AllocError>
        ensures entries { IfOk result (λ found. found.0.entries ≡ batch_of self.now.bounds (wanted_of wanted.now.value_id wanted.now.from wanted.now.to wanted.now.after self.now.entries)) }
        ensures more { IfOk result (λ found. found.0.more ≡ nat_lt (length found.0.entries) (length (wanted_of wanted.now.value_id wanted.now.from wanted.now.to wanted.now.after self.now.entries))) }
        ensures none { IfOk result (λ found. found.0.entries ≡ [] → wanted_of wanted.now.value_id wanted.now.from wanted.now.to wanted.now.after self.now.entries ≡ []) }
        ensures leaf { IfOk result (λ found. found.1 ≡ first_leaf self.now.bounds (wanted_of wanted.now.value_id wanted.now.from wanted.now.to wanted.now.after self.now.entries)) }
    {
        let alloc = *self.nodes.allocator();
        let at = passed(&self.nodes, wanted);
        let Some(node) = node_at(&self.nodes, at) else {
            return Ok((Batch::none(alloc), None));
        };
        let own = wanted.among(node.entries());
        if own.is_empty() {
            return Ok((Batch::none(alloc), None));
        }
        let batch = Batch {
            entries: EntryList::from_slice(alloc, own)?,
            more: goes_on(from_place(&self.nodes, at + 1), wanted),
        };
        Ok((batch, node.bound()))
    }

    /// The n-th entry of a value, counted from 0.
    pub(crate) fn nth_of(&self, value_id: u32, n: usize) -> Option<Entry>
        ensures entry { result ≡ slice_get (of_id value_id self.now.entries) n }
        ensures within { IfSome result (λ _. n < usize.MAX) }
    {
        if n >= self.count {
            return None;
        }
        let wanted = Wanted::all_of(value_id);
        let at = passed(&self.nodes, &wanted);
        let node = node_at(&self.nodes, at)?;
        let place = wanted.start(node.entries()).checked_add(n)?;
        let entry = entry_at(from_place(&self.nodes, at), place)?;
        of_value(entry, value_id)
    }

    /// The bound of the leaf that a sweep begins at: that of an entry, or the first.
    pub(crate) fn leaf_at(&self, from: &Option<Entry>) -> Option<Entry>
        ensures { result ≡ leaf_at self.now.bounds from.now }
    {
        let at = place_at(&self.nodes, from);
        self.nodes[at].bound()
    }

    /// Takes the listed entries from the leaf that a sweep begins at. It says how many went, and the bound of
    /// the leaf that follows, if any.
    pub(crate) fn sweep(&mut self, from: &Option<Entry>, dead: &TidList) -> (usize, Option<Entry>)
        requires { IsSorted tid_cmp dead.now }
        ensures counted { result.0 ≡ count_by (is_swept self.old.bounds (leaf_at self.old.bounds from.now) dead.now) self.old.entries }
        ensures next { result.1 ≡ next_bound self.old.bounds (leaf_at self.old.bounds from.now) }
        ensures swept { self.new ≡ swept_content self.old (leaf_at self.old.bounds from.now) dead.now }
        ensures sound { IsContent self.new }
    {
        let at = place_at(&self.nodes, from);
        let next = next_of(&self.nodes, at);
        let removed = sweep_at(&mut self.nodes, at, dead);
        self.count -= removed;
        (removed, next)
    }
}
