//! The part of a value that a slice names.

ghost use Rattle.std.specs.Prelude.{◌≡◌, ◌≤◌};
ghost use Rattle.core_parts.specs.Found.{size_found};
ghost use Rattle.core_reading.specs.Spans.{HasColumn, span_due};
ghost use Rattle.read_steps.specs.Reads.{cell_of};

use core_parts::rows::size_of_cell;
use slice_fetch::{BadOffset, Span, slice_span};
use tuple_layout::Stored;

/// How many bytes the value of a column has, from 1; none where it is null.
pub(crate) fn size_at(stored: &Stored, column: u16) -> Option<u32>
    requires { HasColumn stored.now column }
    ensures { result ≡ size_found (cell_of stored.now.cells column) }
{
    size_of_cell(&stored.cells.as_slice()[usize::from(column) - 1])
}

/// The span of a slice of a value of so many bytes; none where the offset is negative.
pub(crate) fn span_of(size: u32, offset: &i32, length: &i32) -> Option<Span>
    requires { size ≤ 65536 }
    ensures { result ≡ span_due size offset.now length.now }
{
    match slice_span(size, *offset, *length) {
        Ok(span) => Some(span),
        Err(BadOffset) => None,
    }
}
