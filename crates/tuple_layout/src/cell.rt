//! What stands in a stored row's columns.

ghost use Rattle.std.specs.Prelude.{◌≡◌};
ghost use Rattle.tuple_layout.specs.Sizes.{is_missing};
ghost use Rattle.tuple_layout.specs.Tuples.{cell_width, is_outside};

use external_pointer::Pointer;
use list_facts::ListOf;
use toast_io::Bytes;

/// The value of a column as a stored row holds it.
#[derive(Debug, Drop, Clone, PartialEq)]
pub enum Cell {
    /// A null.
    Null,
    /// The value's bytes.
    Inline(Bytes),
    /// The pointer to a value that is stored out of line.
    Out(Pointer),
}

impl Cell {
    /// Whether this is a null.
    pub(crate) fn is_null(&self) -> bool
        ensures { result ≡ is_missing (cell_width self.now) }
    {
        matches!(self, Cell::Null)
    }

    /// Whether this is a pointer to a value out of line.
    pub(crate) fn is_out(&self) -> bool
        ensures { result ≡ is_outside (cell_width self.now) }
    {
        matches!(self, Cell::Out(_))
    }
}

/// The cells of a row's byte-string columns, in order.
pub type CellList = ListOf<Cell>;

/// A row as it is stored: its key, and a cell for each byte-string column.
#[derive(Debug, Drop, Clone, PartialEq)]
pub struct Stored {
    pub key: i64,
    pub cells: CellList,
}
