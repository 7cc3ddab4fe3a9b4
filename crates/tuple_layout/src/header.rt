//! The header of a tuple: the bytes before its data.

ghost use Rattle.std.specs.Prelude.{◌≡◌, ◌≤◌, ◌<◌, ◌+◌, length, take};
ghost use Rattle.std.specs.List.{list_any};
ghost use Rattle.tuple_layout.specs.Sizes.{is_missing};
ghost use Rattle.tuple_layout.specs.Tuples.{cell_widths, data_start, flags, header, is_outside, is_there, present_bits};

use crate::cell::Cell;
use crate::size::header_size;

/// The longest header, that of a row of 9 columns with a null.
const LONGEST_HEADER: usize = 32;

/// Where the number of columns stands, in two bytes of which the second is 0.
pub(crate) const COLUMNS_AT: usize = 18;

/// Where the flags stand, in two bytes of which the second is 0.
pub(crate) const FLAGS_AT: usize = 20;

/// Where the place of the data stands.
pub(crate) const DATA_START_AT: usize = 22;

/// Where the bitmap stands, if a column is null.
pub(crate) const BITMAP_AT: usize = 23;

/// Whether a column is null.
pub(crate) fn has_null(cells: &[Cell]) -> bool
    ensures { result ≡ list_any is_missing (cell_widths cells.now) }
{
    cells.iter().any(|cell| cell.is_null())
}

/// Whether a column is not null.
fn has_value(cells: &[Cell]) -> bool
    ensures { result ≡ list_any is_there (cell_widths cells.now) }
{
    cells.iter().any(|cell| !cell.is_null())
}

/// Whether a column is out of line.
fn has_pointer(cells: &[Cell]) -> bool
    ensures { result ≡ list_any is_outside (cell_widths cells.now) }
{
    cells.iter().any(|cell| cell.is_out())
}

/// The flags of the header.
fn flags(cells: &[Cell]) -> u8
    ensures { result ≡ flags (cell_widths cells.now) }
{
    u8::from(has_null(cells)) + 2 * u8::from(has_value(cells)) + 4 * u8::from(has_pointer(cells))
}

/// A bit for the key and for each column, the lowest first, set where it is not null.
fn present_bits(cells: &[Cell]) -> u16
    requires { length cells.now ≤ 8 }
    ensures { result ≡ present_bits (cell_widths cells.now) }
{
    let mut bits = 1;
    let mut bit = 2;
    for cell in cells {
        bits += bit * u16::from(!cell.is_null());
        bit *= 2;
    }
    bits
}

/// The header of a row with these cells, of which there are at most 8, and how many bytes it takes.
pub(crate) fn header_of(cells: &[Cell]) -> ([u8; LONGEST_HEADER], usize)
    requires { length cells.now ≤ 8 }
    ensures header { take result.1 result.0 ≡ header (cell_widths cells.now) }
    ensures size { result.1 ≡ data_start (cell_widths cells.now) }
    ensures within { result.1 ≤ 32 }
{
    let has_null = has_null(cells);
    let size = header_size(cells.len() + 1, has_null);
    let mut bytes = [0; LONGEST_HEADER];
    bytes[COLUMNS_AT] = cells.len() as u8 + 1;
    bytes[FLAGS_AT] = flags(cells);
    bytes[DATA_START_AT] = size as u8;
    if has_null {
        let [low, high] = present_bits(cells).to_le_bytes();
        bytes[BITMAP_AT] = low;
        bytes[BITMAP_AT + 1] = high;
    }
    (bytes, size)
}
