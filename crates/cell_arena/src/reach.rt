//! The way from a place in memory to the value that lies there: all that touches a raw pointer.
ghost use Rattle.std.specs.Prelude.{◌≡◌, ◌<◌, ◌^◌, slice_index_or};
ghost use denote.RawPtr.{InBlock};
ghost use types.Logic.{sem};
ghost use Rattle.core.specs.Ptr.{array_size};
ghost use Rattle.std_alloc.specs.Vec.{vec_follows_item, vec_len, vec_ptr};
ghost use Rattle.cell_arena.specs.Places.{IsPlaceOf, number_at, place_at};

use std::alloc::Allocator;

/// Lends the value that lies at `p`, a place of the list.
pub(crate) fn at_mut<T, A: Allocator>(values: &mut Vec<T, A>, p: *mut T) -> &mut T
    requires { IsPlaceOf T.row (vec_ptr values.old) (vec_len values.old) p }
    ensures* writes_back { sem 𝓛 (vec_follows_item T.row A.row A.Allocator values.entry (number_at T.row (vec_ptr values.old) p) result) }
    ensures value { result.now ≡ slice_index_or values.old.items (number_at T.row (vec_ptr values.old) p) result.now }
{
    unsafe { &mut *p }
}

/// Where the value with the number `i` lies, counted from `base`.
pub(crate) fn place<T>(base: *mut T, i: usize) -> *mut T
    requires { InBlock base × (array_size T.row i < 2 ^ 63) × (array_size T.row 1 < 2 ^ 63) }
    ensures { result ≡ place_at T.row i base }
{
    unsafe { base.add(i) }
}

/// Tells that the list's values lie in a block of memory, so that places there can be computed. It
/// does nothing.
pub(crate) fn has_places<T, A: Allocator>(values: &mut Vec<T, A>)
    ensures { InBlock (vec_ptr values.old) × (values.new ≡ values.old) }
{}
