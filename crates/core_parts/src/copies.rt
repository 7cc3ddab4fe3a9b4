//! Copies of commands and of values.

ghost use Rattle.std.specs.Prelude.{◌≡◌, false, IfOk, IfSome, None, OnErr, true};
ghost use Rattle.command_set.specs.Journals.{takes_no_memory};
ghost use Rattle.core_parts.specs.Copies.{has_values, is_read};

use command_set::{Command, Row, Set, SetList};
use std::alloc::{AllocError, Global};
use tuple_layout::{Bytes, Cell};

/// A copy of a value.
pub fn copy_of_value(value: &Option<Bytes>) -> Result<Option<Bytes>, AllocError>
    ensures { IfOk result (λ copy. copy ≡ value.now) }
{
    let copy = value.clone()?;
    Ok(copy)
}

/// A copy of a cell.
pub fn copy_of_cell(cell: &Cell) -> Result<Cell, AllocError>
    ensures { IfOk result (λ copy. copy ≡ cell.now) }
{
    let copy = cell.clone()?;
    Ok(copy)
}

/// A copy of a row.
fn copy_of_row(row: &Row) -> Result<Row, AllocError>
    ensures { IfOk result (λ copy. copy ≡ row.now) }
{
    let copy = row.clone()?;
    Ok(copy)
}

/// A copy of what an update sets a column to.
fn copy_of_set(set: &Set) -> Result<Set, AllocError>
    ensures { IfOk result (λ copy. copy ≡ set.now) }
{
    let value = copy_of_value(&set.value)?;
    Ok(Set {
        column: set.column,
        value,
    })
}

/// A copy of what an update sets.
fn copy_of_sets(alloc: Global, sets: &SetList) -> Result<SetList, AllocError>
    ensures { IfOk result (λ copy. copy ≡ sets.now) }
{
    let mut copy = SetList::new(alloc);
    for set in sets.as_slice() {
        copy.push(copy_of_set(set)?)?;
    }
    Ok(copy)
}

/// A copy of a command that reads a row or a value, if it is one.
// Numbers go by reference into functions of their own, whose proofs then know their range.
fn copy_of_read(command: &Command) -> Option<Command>
    ensures copy { IfSome result (λ copy. copy ≡ command.now) }
    ensures other { result ≡ None → is_read command.now ≡ false }
{
    match command {
        Command::Get { table, key } => Some(Command::Get {
            table: *table,
            key: *key,
        }),
        Command::Part {
            table,
            key,
            column,
            offset,
            length,
        } => Some(Command::Part {
            table: *table,
            key: *key,
            column: *column,
            offset: *offset,
            length: *length,
        }),
        Command::Fetch {
            handle,
            offset,
            length,
        } => Some(Command::Fetch {
            handle: *handle,
            offset: *offset,
            length: *length,
        }),
        _ => None,
    }
}

/// A copy of a command that holds no values.
fn copy_of_plain(command: &Command) -> Command
    requires { has_values command.now ≡ false }
    ensures { result ≡ command.now }
{
    if let Some(copy) = copy_of_read(command) {
        return copy;
    }
    match command {
        Command::Begin { level } => Command::Begin { level: *level },
        Command::Commit => Command::Commit,
        Command::Rollback => Command::Rollback,
        Command::Open {
            handle,
            table,
            key,
            column,
        } => Command::Open {
            handle: *handle,
            table: *table,
            key: *key,
            column: *column,
        },
        Command::Close { handle } => Command::Close { handle: *handle },
        Command::Delete { table, key } => Command::Delete {
            table: *table,
            key: *key,
        },
        Command::VacuumMain { table } => Command::VacuumMain { table: *table },
        Command::VacuumToast { table } => Command::VacuumToast { table: *table },
        Command::Rewrite { table } => Command::Rewrite { table: *table },
        _ => unreachable!(),
    }
}

/// A copy of a command. Begin, commit and rollback take no memory.
pub fn copy_of_command(alloc: Global, command: &Command) -> Result<Command, AllocError>
    ensures ok { IfOk result (λ copy. copy ≡ command.now) }
    ensures wanted { OnErr result (takes_no_memory command.now ≡ false) }
{
    match command {
        Command::Insert { table, key, row } => {
            let row = copy_of_row(row)?;
            Ok(Command::Insert {
                table: *table,
                key: *key,
                row,
            })
        }
        Command::Update { table, key, sets } => {
            let sets = copy_of_sets(alloc, sets)?;
            Ok(Command::Update {
                table: *table,
                key: *key,
                sets,
            })
        }
        Command::Rekey {
            table,
            from,
            to,
            sets,
        } => {
            let sets = copy_of_sets(alloc, sets)?;
            Ok(Command::Rekey {
                table: *table,
                from: *from,
                to: *to,
                sets,
            })
        }
        _ => Ok(copy_of_plain(command)),
    }
}
