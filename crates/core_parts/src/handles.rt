//! A session's handles.

ghost use Rattle.std.specs.Prelude.{◌≡◌, ◌<◌, ◌≤◌, [], None, IfOk, OnErr, OnOk, length, nat_lt, vec_capacity, vec_len};
ghost use Rattle.std.specs.List.{insert, position_from, position_or_len};
ghost use Rattle.std.specs.List.Sorted.{IsStrictlySortedBy};
ghost use Rattle.std.specs.Option.{option_copied};
ghost use Rattle.std.specs.Ordering.{nat_cmp};
ghost use Rattle.core_state.specs.Lines.{with_handle as one_more};
ghost use Rattle.core_state.specs.State.{handle_of as named};
ghost use Rattle.core_state.specs.declared.seat.Handle.{Handle as AnyHandle};
ghost use Rattle.core_parts.specs.Found.{without_handle as one_less};

use core_state::seat::{Handle, HandleList};
use std::alloc::{AllocError, Global};
use std::mem;

/// The handle of a name, if it is open.
pub fn handle_of(handles: &[Handle], name: u16) -> Option<&Handle>
    ensures { option_copied result ≡ named handles.now name }
{
    handles.iter().find(|handle| handle.name == name)
}

/// The handles, taken out of where they stood, with room for one more. Where there is no memory, they stay.
pub fn taken_handles(alloc: Global, handles: &mut HandleList) -> Result<Vec<Handle>, AllocError>
    ensures taken { IfOk result (λ taken. taken.items ≡ handles.old) }
    ensures room { IfOk result (λ taken. vec_len taken < vec_capacity taken) }
    ensures none { OnOk result (handles.new ≡ []) }
    ensures err { OnErr result (handles.new ≡ handles.old) }
{
    let mut taken = mem::replace(handles, HandleList::new(alloc)).into_vec();
    if let Err(fault) = taken.reserve(1) {
        *handles = HandleList::from_vec(taken);
        return Err(fault);
    }
    Ok(taken)
}

/// Where the first handle with a greater name stands, if there is one.
fn first_after(handles: &[Handle], name: u16) -> Option<usize>
    ensures { result ≡ position_from (λ other. nat_lt name other.name) 0 handles.now }
{
    handles.iter().position(|other| name < other.name)
}

/// Where a handle of this name goes: before the first one with a greater name.
fn place_of(handles: &[Handle], name: u16) -> usize
    ensures place { result ≡ position_or_len (λ other. nat_lt name other.name) handles.now }
    ensures within { result ≤ length handles.now }
{
    first_after(handles, name).unwrap_or(handles.len())
}

/// Puts a handle at a place, where there is room for it.
fn insert_kept(handles: &mut Vec<Handle>, place: usize, handle: Handle)
    requires room { vec_len handles.old < vec_capacity handles.old }
    requires within { place ≤ vec_len handles.old }
    ensures { handles.new.items ≡ insert handles.old.items place handle }
{
    match handles.insert(place, handle) {
        Ok(()) => {}
        Err(_) => unreachable!(),
    }
}

/// The handles with one more, which is put in its place by name. There is room for it.
pub fn with_handle(mut handles: Vec<Handle>, handle: Handle) -> HandleList
    requires room { vec_len handles < vec_capacity handles }
    requires named { IsStrictlySortedBy (λ (a b : AnyHandle). nat_cmp a.name b.name) handles.items }
    requires new { named handles.items handle.name ≡ None }
    ensures { result ≡ one_more handles.items handle }
{
    let place = place_of(handles.as_slice(), handle.name);
    insert_kept(&mut handles, place, handle);
    HandleList::from_vec(handles)
}

/// Takes away the handle of a name.
fn take_away(handles: &mut Vec<Handle>, name: u16)
    ensures { handles.new.items ≡ one_less handles.old.items name }
{
    handles.retain(|handle| handle.name != name);
}

/// The handles without the one of a name.
pub fn without_handle(handles: HandleList, name: u16) -> HandleList
    ensures { result ≡ one_less handles name }
{
    let mut handles = handles.into_vec();
    take_away(&mut handles, name);
    HandleList::from_vec(handles)
}
