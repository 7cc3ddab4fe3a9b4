//! The columns that go out of line.

ghost use Rattle.std.specs.Prelude.{◌≡◌, ◌<◌, ◌≤◌, ◌++◌, ◌∷◌, [], length};
ghost use Rattle.tuple_toaster.specs.Pushed.{is_among};

use std::marker::Model;

/// The most columns of a row beside its key.
const MOST_COLUMNS: usize = 8;

/// The columns that go out of line, in the order in which they were chosen; at most 8, and held in
/// place.
#[derive(Debug, Drop)]
pub struct OutColumns {
    columns: [u16; MOST_COLUMNS],
    len: usize,
}

impl Model for OutColumns {
    ghost use Rattle.std.specs.Prelude.{List, ℕ, take, ◌≤◌};

    ghost Value = { List ℕ };

    ghost view = { λ out. take out.len out.columns };

    ghost invariant = { λ out. out.len ≤ 8 };
}

impl OutColumns {
    /// No column, as where a row is taken away.
    pub fn new() -> OutColumns
        ensures { result ≡ [] }
    {
        OutColumns {
            columns: [0; MOST_COLUMNS],
            len: 0,
        }
    }

    /// The columns, numbered from 1.
    pub fn as_slice(&self) -> &[u16]
        ensures all { result.now ≡ self.now }
        ensures few { length self.now ≤ 8 }
    {
        &self.columns[..self.len]
    }

    /// Whether a column is one of them.
    pub fn contains(&self, column: u16) -> bool
        ensures { result ≡ is_among self.now column }
    {
        self.as_slice().contains(&column)
    }

    /// Adds a column, if there is room for it.
    pub(crate) fn push(&mut self, column: u16)
        requires { length self.old < 8 }
        ensures { self.new ≡ self.old ++ column ∷ [] }
    {
        self.columns[self.len] = column;
        self.len += 1;
    }
}
