//! The names of tables, columns, handles and storages, and the places of rows.

ghost use Rattle.std.specs.Prelude.{◌≡◌, ◌≤◌, length};
ghost use Rattle.script_words.specs.Lines.{words};
ghost use Rattle.script_words.specs.Names.{column_in, columns_of, handle_in, ordinal_in, place_in, storage_in, storages_in, table_in};
ghost use Rattle.script_words.specs.Reading.{Gives};

use crate::fault::{LineFault, Refusal};
use crate::lines::next_word;
use crate::numbers::{key, number};
use command_set::values::nth;
use list_facts::ListOf;
use std::alloc::Global;
use tuple_layout::{Place, Schema, Storage};

/// The number of one of so many things, which count from 1.
///
/// # Errors
/// A bad name.
#[tactic(auto, unfolding(crate::specs::Names::ordinal_in))]
pub(crate) fn ordinal(word: &[u8], most: usize) -> Result<u16, LineFault>
    requires { most ≤ 64 }
    ensures { result ≡ ordinal_in most word.now }
{
    match number(word, 1, most as u64) {
        Some(ordinal) => Ok(ordinal as u16),
        None => Err(LineFault::BadName),
    }
}

/// The number of a table that is there.
///
/// # Errors
/// A bad name.
#[tactic(auto, unfolding(crate::specs::Names::lettered_in))]
pub fn table(schemas: &[Schema], word: &[u8]) -> Result<u16, LineFault>
    requires { length schemas.now ≤ 16 }
    ensures { result ≡ table_in schemas.now word.now }
{
    match word.strip_prefix(b"t") {
        Some(digits) => ordinal(digits, schemas.len()),
        None => Err(LineFault::BadName),
    }
}

/// A handle's name.
///
/// # Errors
/// A bad name.
#[tactic(auto, unfolding(crate::specs::Names::lettered_in))]
pub fn handle(word: &[u8]) -> Result<u16, LineFault>
    ensures { result ≡ handle_in word.now }
{
    match word.strip_prefix(b"h") {
        Some(digits) => ordinal(digits, 64),
        None => Err(LineFault::BadName),
    }
}

/// How many columns a table has.
pub fn columns(schemas: &[Schema], table: u16) -> usize
    ensures value { result ≡ columns_of schemas.now table }
    ensures few { result ≤ 8 }
{
    match nth(schemas, usize::from(table)) {
        Some(schema) => schema.storages().len(),
        None => 0,
    }
}

/// The number of a column of a table.
///
/// # Errors
/// A bad name.
pub fn column(schemas: &[Schema], table: u16, word: &[u8]) -> Result<u16, LineFault>
    ensures { result ≡ column_in schemas.now table word.now }
{
    ordinal(word, columns(schemas, table))
}

/// A table and a key.
///
/// # Errors
/// A bad name for the table, and else a bad number for the key.
#[tactic(auto, unfolding(crate::specs::Names::place_in))]
pub fn place(schemas: &[Schema], first: &[u8], second: &[u8]) -> Result<Place, LineFault>
    requires { length schemas.now ≤ 16 }
    ensures { result ≡ place_in schemas.now first.now second.now }
{
    let table = table(schemas, first)?;
    let key = key(second)?;
    Ok(Place { table, key })
}

// The storage that a word names.
#[tactic(auto, unfolding(crate::specs::Names::storage_in))]
fn storage(word: &[u8]) -> Result<Storage, LineFault>
    ensures { result ≡ storage_in word.now }
{
    if word == b"p".as_slice() {
        Ok(Storage::Plain)
    } else if word == b"e".as_slice() {
        Ok(Storage::External)
    } else {
        Err(LineFault::BadName)
    }
}

/// The storages that the words of a text name.
///
/// # Errors
/// The first bad name, and want of memory.
pub fn storages(alloc: Global, text: &[u8]) -> Result<ListOf<Storage>, Refusal>
    ensures { Gives result (storages_in (words text.now)) }
{
    let mut storages = ListOf::new(alloc);
    let mut rest = text;
    'words: while let Some((word, others)) = next_word(rest) {
        let found = storage(word)?;
        storages.push(found)?;
        rest = others;
    }
    Ok(storages)
}
