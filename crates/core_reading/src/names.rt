//! How many handles there can be: a handle's name has 16 bits.

ghost use Rattle.std.specs.Prelude.{◌≡◌, ◌≤◌, ◌<◌, length};
ghost use Rattle.core_reading.specs.Handles.{AreFew, AreNamed};

use core_state::seat::{Handle, Seat};

/// A name as a number.
fn number_of(name: &u16) -> usize
    ensures is { result ≡ name.now }
    ensures fits { name.now < 65536 }
{
    usize::from(*name)
}

/// A session has at most as many handles as there are names, told by the last of them.
fn handles_fit(handles: &[Handle])
    ensures { AreNamed handles.now → length handles.now ≤ 65536 }
{
    if let Some(handle) = handles.last() {
        let _ = number_of(&handle.name);
    }
}

/// So does each session, told where a proof counts the uses of a snapshot.
pub(crate) fn seats_fit(seats: &[Seat])
    ensures { AreFew seats.now }
{
    for seat in seats {
        handles_fit(seat.handles.as_slice());
    }
}
