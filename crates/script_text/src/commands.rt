//! The forms of commands, and what their lines say.

ghost use Rattle.std.specs.Prelude.{◌≡◌, ◌≤◌, length};
ghost use Rattle.script_text.specs.Commands.{bare_line, begin_line, close_line, command_form_in, command_in, delete_line, fetch_line, get_line, insert_line, level_in, open_line, part_line, rekey_line, update_line};
ghost use Rattle.script_words.specs.Lines.{words};
ghost use Rattle.script_words.specs.Reading.{Gives};

use command_set::{Command, Level};
use script_words::fault::{LineFault, Refusal};
use script_words::names::{column, columns, handle, place, table};
use script_words::numbers::{self, key};
use script_words::sets::sets;
use script_words::values::values;
use script_words::words::{first_word, first_word_of, leading_words, no_words, words_of};
use std::alloc::Global;
use tuple_layout::Schema;

/// The forms of commands, by their first words.
#[derive(Clone, Copy, Debug, PartialEq, Eq)]
pub enum CommandForm {
    Begin,
    Commit,
    Rollback,
    Get,
    Part,
    Open,
    Fetch,
    Close,
    Insert,
    Update,
    Delete,
    Rekey,
}

/// The form of command that a first word begins.
#[tactic(auto, unfolding(crate::specs::Commands::command_form_in))]
pub fn command_form_of(word: &[u8]) -> Option<CommandForm>
    ensures { result ≡ command_form_in word.now }
{
    if word == b"begin".as_slice() {
        Some(CommandForm::Begin)
    } else if word == b"commit".as_slice() {
        Some(CommandForm::Commit)
    } else if word == b"rollback".as_slice() {
        Some(CommandForm::Rollback)
    } else if word == b"get".as_slice() {
        Some(CommandForm::Get)
    } else if word == b"part".as_slice() {
        Some(CommandForm::Part)
    } else if word == b"open".as_slice() {
        Some(CommandForm::Open)
    } else if word == b"fetch".as_slice() {
        Some(CommandForm::Fetch)
    } else if word == b"close".as_slice() {
        Some(CommandForm::Close)
    } else if word == b"insert".as_slice() {
        Some(CommandForm::Insert)
    } else if word == b"update".as_slice() {
        Some(CommandForm::Update)
    } else if word == b"delete".as_slice() {
        Some(CommandForm::Delete)
    } else if word == b"rekey".as_slice() {
        Some(CommandForm::Rekey)
    } else {
        None
    }
}

// The level of isolation that a word names.
#[tactic(auto, unfolding(crate::specs::Commands::level_in))]
fn level(word: &[u8]) -> Result<Level, LineFault>
    ensures { result ≡ level_in word.now }
{
    if word == b"rc".as_slice() {
        Ok(Level::Rc)
    } else if word == b"rr".as_slice() {
        Ok(Level::Rr)
    } else {
        Err(LineFault::BadName)
    }
}

// What follows `begin`.
#[tactic(auto, unfolding(crate::specs::Commands::begin_line))]
fn begin(text: &[u8]) -> Result<Command, LineFault>
    ensures { result ≡ begin_line (words text.now) }
{
    let found = words_of(text, 1)?;
    let level = level(found.at(0))?;
    Ok(Command::Begin { level })
}

// What follows `commit`.
#[tactic(auto, unfolding(crate::specs::Commands::bare_line))]
fn commit(text: &[u8]) -> Result<Command, LineFault>
    ensures { result ≡ bare_line Command.Commit (words text.now) }
{
    no_words(text)?;
    Ok(Command::Commit)
}

// What follows `rollback`.
#[tactic(auto, unfolding(crate::specs::Commands::bare_line))]
fn rollback(text: &[u8]) -> Result<Command, LineFault>
    ensures { result ≡ bare_line Command.Rollback (words text.now) }
{
    no_words(text)?;
    Ok(Command::Rollback)
}

// What follows `get`.
#[tactic(auto, unfolding(crate::specs::Commands::get_line))]
fn get(schemas: &[Schema], text: &[u8]) -> Result<Command, LineFault>
    requires { length schemas.now ≤ 16 }
    ensures { result ≡ get_line schemas.now (words text.now) }
{
    let found = words_of(text, 2)?;
    let place = place(schemas, found.at(0), found.at(1))?;
    Ok(Command::Get {
        table: place.table,
        key: place.key,
    })
}

// What follows `delete`.
#[tactic(auto, unfolding(crate::specs::Commands::delete_line))]
fn delete(schemas: &[Schema], text: &[u8]) -> Result<Command, LineFault>
    requires { length schemas.now ≤ 16 }
    ensures { result ≡ delete_line schemas.now (words text.now) }
{
    let found = words_of(text, 2)?;
    let place = place(schemas, found.at(0), found.at(1))?;
    Ok(Command::Delete {
        table: place.table,
        key: place.key,
    })
}

// What follows `part`.
#[tactic(auto, unfolding(crate::specs::Commands::part_line))]
fn part(schemas: &[Schema], text: &[u8]) -> Result<Command, LineFault>
    requires { length schemas.now ≤ 16 }
    ensures { result ≡ part_line schemas.now (words text.now) }
{
    let found = words_of(text, 5)?;
    let place = place(schemas, found.at(0), found.at(1))?;
    let column = column(schemas, place.table, found.at(2))?;
    let offset = numbers::offset(found.at(3))?;
    let length = numbers::offset(found.at(4))?;
    Ok(Command::Part {
        table: place.table,
        key: place.key,
        column,
        offset,
        length,
    })
}

// What follows `open`.
#[tactic(auto, unfolding(crate::specs::Commands::open_line))]
fn open(schemas: &[Schema], text: &[u8]) -> Result<Command, LineFault>
    requires { length schemas.now ≤ 16 }
    ensures { result ≡ open_line schemas.now (words text.now) }
{
    let found = words_of(text, 4)?;
    let handle = handle(found.at(0))?;
    let place = place(schemas, found.at(1), found.at(2))?;
    let column = column(schemas, place.table, found.at(3))?;
    Ok(Command::Open {
        handle,
        table: place.table,
        key: place.key,
        column,
    })
}

// What follows `fetch`.
#[tactic(auto, unfolding(crate::specs::Commands::fetch_line))]
fn fetch(text: &[u8]) -> Result<Command, LineFault>
    ensures { result ≡ fetch_line (words text.now) }
{
    let found = words_of(text, 3)?;
    let handle = handle(found.at(0))?;
    let offset = numbers::offset(found.at(1))?;
    let length = numbers::offset(found.at(2))?;
    Ok(Command::Fetch {
        handle,
        offset,
        length,
    })
}

// What follows `close`.
#[tactic(auto, unfolding(crate::specs::Commands::close_line))]
fn close(text: &[u8]) -> Result<Command, LineFault>
    ensures { result ≡ close_line (words text.now) }
{
    let found = words_of(text, 1)?;
    let handle = handle(found.at(0))?;
    Ok(Command::Close { handle })
}

// What follows `insert`.
#[tactic(auto, unfolding(crate::specs::Commands::insert_line))]
fn insert(alloc: Global, schemas: &[Schema], text: &[u8]) -> Result<Command, Refusal>
    requires { length schemas.now ≤ 16 }
    ensures { Gives result (insert_line schemas.now (words text.now)) }
{
    let (first, rest) = first_word(text)?;
    let table = table(schemas, first)?;
    let (second, rest) = first_word_of(rest, 1 + columns(schemas, table))?;
    let key = key(second)?;
    let row = values(alloc, rest)?;
    Ok(Command::Insert { table, key, row })
}

// What follows `update`.
#[tactic(auto, unfolding(crate::specs::Commands::update_line))]
fn update(alloc: Global, schemas: &[Schema], text: &[u8]) -> Result<Command, Refusal>
    requires { length schemas.now ≤ 16 }
    ensures { Gives result (update_line schemas.now (words text.now)) }
{
    let (found, rest) = leading_words(text, 2)?;
    first_word(rest)?;
    let place = place(schemas, found.at(0), found.at(1))?;
    let sets = sets(alloc, columns(schemas, place.table), rest)?;
    Ok(Command::Update {
        table: place.table,
        key: place.key,
        sets,
    })
}

// What follows `rekey`.
#[tactic(auto, unfolding(crate::specs::Commands::rekey_line))]
fn rekey(alloc: Global, schemas: &[Schema], text: &[u8]) -> Result<Command, Refusal>
    requires { length schemas.now ≤ 16 }
    ensures { Gives result (rekey_line schemas.now (words text.now)) }
{
    let (found, rest) = leading_words(text, 3)?;
    let place = place(schemas, found.at(0), found.at(1))?;
    let to = key(found.at(2))?;
    let sets = sets(alloc, columns(schemas, place.table), rest)?;
    Ok(Command::Rekey {
        table: place.table,
        from: place.key,
        to,
        sets,
    })
}

/// The command that a line of this form gives, by the text behind its first word.
#[tactic(auto, unfolding(crate::specs::Commands::command_in))]
pub fn command(
    alloc: Global,
    schemas: &[Schema],
    form: CommandForm,
    text: &[u8],
) -> Result<Command, Refusal>
    requires { length schemas.now ≤ 16 }
    ensures { Gives result (command_in schemas.now form (words text.now)) }
{
    match form {
        CommandForm::Begin => Ok(begin(text)?),
        CommandForm::Commit => Ok(commit(text)?),
        CommandForm::Rollback => Ok(rollback(text)?),
        CommandForm::Get => Ok(get(schemas, text)?),
        CommandForm::Part => Ok(part(schemas, text)?),
        CommandForm::Open => Ok(open(schemas, text)?),
        CommandForm::Fetch => Ok(fetch(text)?),
        CommandForm::Close => Ok(close(text)?),
        CommandForm::Insert => insert(alloc, schemas, text),
        CommandForm::Update => update(alloc, schemas, text),
        CommandForm::Delete => Ok(delete(schemas, text)?),
        CommandForm::Rekey => rekey(alloc, schemas, text),
    }
}
