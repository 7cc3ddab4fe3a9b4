//! The forms of lines.

ghost use Rattle.std.specs.Prelude.{◌≡◌, ◌≤◌};
ghost use Rattle.script_text.specs.Forms.{form_in, go_line, ids_line, loop_line, table_line};
ghost use Rattle.script_text.specs.Scripts.{part_of, place_of};
ghost use Rattle.script_words.specs.Lines.{words};
ghost use Rattle.script_words.specs.Reading.{Gives};

use crate::commands::{CommandForm, command_form_of};
use command_set::{Command, Passage};
use script_words::fault::{LineFault, Refusal};
use script_words::items::items;
use script_words::lines::word_count;
use script_words::names::storages;
use script_words::numbers::number;
use script_words::words::{first_word, words_of};
use std::alloc::Global;
use tuple_layout::{Schema, SchemaFault};

/// The least value id, and the greatest: the range of a script without an `ids` line.
pub const LOWEST_ID: u32 = 16_384;

pub const HIGHEST_ID: u32 = 4_294_967_295;

/// The parts of a script, in their order.
#[derive(Clone, Copy, Debug, PartialEq, Eq)]
pub enum Part {
    /// The range of value ids.
    Range,
    Tables,
    Sessions,
    Schedule,
}

impl Part {
    /// The place of the part in a script, from 0.
    pub fn place(self) -> u8
        ensures { result ≡ place_of self }
    {
        match self {
            Part::Range => 0,
            Part::Tables => 1,
            Part::Sessions => 2,
            Part::Schedule => 3,
        }
    }
}

/// The forms of lines, by their first words.
#[derive(Clone, Copy, Debug, PartialEq, Eq)]
pub enum Form {
    Ids,
    Table,
    Session,
    Command(CommandForm),
    Go,
    Loop,
}

impl Form {
    /// The part that a line of this form belongs to.
    pub fn part(self) -> Part
        ensures { result ≡ part_of self }
    {
        match self {
            Form::Ids => Part::Range,
            Form::Table => Part::Tables,
            Form::Session | Form::Command(_) => Part::Sessions,
            Form::Go | Form::Loop => Part::Schedule,
        }
    }
}

/// What a line says.
#[derive(Debug, Drop)]
pub enum Line {
    /// The range of value ids.
    Ids { low: u32, high: u32 },
    /// The next table.
    Table(Schema),
    /// The next session.
    Session,
    /// The next command of the last session.
    Command(Command),
    /// The next passage of the schedule.
    Passage(Passage),
}

/// The form that a first word begins.
#[tactic(auto, unfolding(crate::specs::Forms::form_in))]
pub fn form_of(word: &[u8]) -> Option<Form>
    ensures { result ≡ form_in word.now }
{
    if word == b"ids".as_slice() {
        Some(Form::Ids)
    } else if word == b"table".as_slice() {
        Some(Form::Table)
    } else if word == b"session".as_slice() {
        Some(Form::Session)
    } else if word == b"go".as_slice() {
        Some(Form::Go)
    } else if word == b"loop".as_slice() {
        Some(Form::Loop)
    } else {
        match command_form_of(word) {
            Some(command) => Some(Form::Command(command)),
            None => None,
        }
    }
}

/// The range of value ids that an `ids` line gives.
#[tactic(auto, unfolding(crate::specs::Forms::ids_line))]
pub fn ids(text: &[u8]) -> Result<(u32, u32), LineFault>
    ensures { result ≡ ids_line (words text.now) }
{
    let found = words_of(text, 2)?;
    let Some(low) = number(found.at(0), u64::from(LOWEST_ID), u64::from(HIGHEST_ID)) else {
        return Err(LineFault::BadNumber);
    };
    let Some(high) = number(found.at(1), low, u64::from(HIGHEST_ID)) else {
        return Err(LineFault::BadNumber);
    };
    Ok((low as u32, high as u32))
}

/// The table that a `table` line gives.
#[tactic(auto, unfolding(crate::specs::Forms::table_line))]
pub fn table_of(alloc: Global, text: &[u8]) -> Result<Schema, Refusal>
    ensures { Gives result (table_line (words text.now)) }
{
    let columns = word_count(text);
    if columns < 1 || columns > 8 {
        return Err(Refusal::Fault(LineFault::WordCount));
    }
    let storages = storages(alloc, text)?;
    match Schema::new(alloc, storages.as_slice()) {
        Ok(schema) => Ok(schema),
        Err(SchemaFault::Count { .. }) => Err(Refusal::Fault(LineFault::WordCount)),
        Err(SchemaFault::Memory) => Err(Refusal::Memory),
    }
}

/// The passage that a `go` line gives.
#[tactic(auto, unfolding(crate::specs::Forms::go_line))]
pub fn go(alloc: Global, sessions: usize, text: &[u8]) -> Result<Passage, Refusal>
    requires { sessions ≤ 64 }
    ensures { Gives result (go_line sessions (words text.now)) }
{
    first_word(text)?;
    let items = items(alloc, sessions, text)?;
    Ok(Passage { count: 1, items })
}

/// The passage that a `loop` line gives.
#[tactic(auto, unfolding(crate::specs::Forms::loop_line))]
pub fn repeat(alloc: Global, sessions: usize, text: &[u8]) -> Result<Passage, Refusal>
    requires { sessions ≤ 64 }
    ensures { Gives result (loop_line sessions (words text.now)) }
{
    let (word, rest) = first_word(text)?;
    first_word(rest)?;
    match number(word, 1, 100_000) {
        Some(count) => {
            let items = items(alloc, sessions, rest)?;
            Ok(Passage {
                count: count as u32,
                items,
            })
        }
        None => Err(Refusal::Fault(LineFault::BadNumber)),
    }
}
