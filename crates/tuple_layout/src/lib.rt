//! Rows and their places, the storages of a table's columns, and how large a row's tuple is.
#![tactic(auto)]

ghost use Rattle.std.specs.Prelude.{◌≡◌, ℕ, length, IsOk, IsErrOf, IfOk};
ghost use Rattle.tuple_layout.specs.Schemas.{HasColumns};

mod cell;
mod fault;
mod form;
mod header;
mod law;
mod read;
mod read_cell;
mod size;

pub use cell::{Cell, CellList, Stored};
pub use external_pointer::Pointer;
pub use fault::TupleFault;
pub use form::form_tuple;
pub use law::stored_in_tuple;
use list_facts::ListOf;
pub use read::read_tuple;
pub use size::{
    KEY_SIZE, LARGEST_TUPLE, POINTER_SIZE, column_end, header_size, is_short, may_go_out, row_size,
};
use std::alloc::{AllocError, Global};
use std::marker::Model;
use thiserror::Error;
pub use toast_io::Bytes;

/// A row's byte strings in the order of their columns, each of at most 65,536 bytes; `None` is null.
pub type Row = ListOf<Option<Bytes>>;

/// The place of a row: its table's number, from 1, and its key.
#[derive(Clone, Copy, Debug, PartialEq, Eq, PartialOrd, Ord)]
pub struct Place {
    pub table: u16,
    pub key: i64,
}

/// How a column's values may be stored (PostgreSQL's storage strategies, in "TOAST").
#[derive(Clone, Copy, Debug, PartialEq, Eq)]
pub enum Storage {
    /// In the tuple, always.
    Plain,
    /// In the tuple, or as chunks with a pointer in the tuple.
    External,
}

/// A table's columns: the storages of its byte-string columns, of which there are 1 to 8.
#[derive(Debug, Drop)]
pub struct Schema {
    storages: ListOf<Storage>,
}

/// The schemas of tables, the first being table 1's.
pub type SchemaList = ListOf<Schema>;

impl Model for Schema {
    ghost use Rattle.std.specs.Prelude.{length};
    ghost use Rattle.tuple_layout.specs.Schemas.{HasColumns, TableSchema};

    ghost Value = { TableSchema };

    ghost view = { λ schema. record { storages = schema.storages } };

    ghost invariant = { λ schema. HasColumns (length schema.storages) };
}

/// Why a list of storages makes no schema.
#[derive(Clone, Copy, Debug, PartialEq, Eq, Error)]
pub enum SchemaFault {
    /// There are none, or more than 8.
    #[error("a table has 1 to 8 columns, not {got}")]
    Count { got: usize },
    /// No memory was left.
    #[error("out of memory")]
    Memory,
}

impl From<AllocError> for SchemaFault {
    ghost use Rattle.tuple_layout.specs.declared.SchemaFault.TheVariants.{Memory};

    ghost from_gives = { λ _ fault. fault ≡ Memory };

    fn from(_: AllocError) -> Self {
        SchemaFault::Memory
    }
}

impl Schema {
    /// A table's schema, with its columns in this order.
    pub fn new(alloc: Global, storages: &[Storage]) -> Result<Schema, SchemaFault>
        ensures ok { IfOk result (λ schema. schema ≡ record { storages = storages.now }) }
        ensures columns { IsOk result → HasColumns (length storages.now) }
        ensures count { (got : ℕ) → IsErrOf result (SchemaFault.Count got) → (got ≡ length storages.now) × ¬ (HasColumns got) }
        ensures memory { IsErrOf result SchemaFault.Memory → HasColumns (length storages.now) }
    {
        let got = storages.len();
        if got < 1 || got > 8 {
            return Err(SchemaFault::Count { got });
        }
        let storages = ListOf::from_slice(alloc, storages)?;
        Ok(Schema { storages })
    }

    /// The storages, in the order of the columns.
    pub fn storages(&self) -> &[Storage]
        ensures all { result.now ≡ self.now.storages }
        ensures columns { HasColumns (length self.now.storages) }
    {
        self.storages.as_slice()
    }

    /// The same schema once more, in memory of its own.
    pub fn copy(&self, alloc: Global) -> Result<Schema, AllocError>
        ensures { IfOk result (λ copy. copy ≡ self.now) }
    {
        let storages = ListOf::from_slice(alloc, self.storages.as_slice())?;
        Ok(Schema { storages })
    }
}

/// The same schemas once more, in memory of their own.
pub fn copy_of_schemas(alloc: Global, schemas: &SchemaList) -> Result<SchemaList, AllocError>
    ensures { IfOk result (λ copy. copy ≡ schemas.now) }
{
    let mut copies = SchemaList::new(alloc);
    for schema in schemas.as_slice() {
        copies.push(schema.copy(alloc)?)?;
    }
    Ok(copies)
}

#[cfg(test)]
mod tests;
