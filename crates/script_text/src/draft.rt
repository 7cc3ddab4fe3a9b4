//! The script that the lines so far make.

ghost use Rattle.std.specs.Prelude.{◌≡◌, ◌<◌, ◌≤◌, ◌^◌, length, sum_by, OnOk, vec_len};
ghost use Rattle.script_text.specs.Drafts.{Counts, HasRoom, Leaves, script_of};
ghost use Rattle.script_words.specs.Items.{passage_turns, turns_of};
ghost use Rattle.script_words.specs.Lines.{words};
ghost use Rattle.script_words.specs.Numbers.{up_to};
ghost use Rattle.script_words.specs.Reading.{Gives};
ghost use Rattle.script_text.specs.Scripts.{command_bytes, empty_script, limited, line_in, set_bytes as bytes_set, value_bytes, with_command, with_line};

use crate::commands::command;
use crate::forms::{self, Form, HIGHEST_ID, LOWEST_ID, Line};
use command_set::{
    Bytes, Command, CommandList, Item, Passage, PassageList, SchemaList, Script, SessionList, Set,
};
use script_words::fault::{LineFault, Refusal};
use script_words::words::no_words;
use std::alloc::{AllocError, Global};
use tuple_layout::Schema;

const MOST_TABLES: usize = 16;

const MOST_SESSIONS: usize = 64;

const MOST_COMMANDS: usize = 10_000;

const MOST_BYTES: usize = 67_108_864;

const MOST_TURNS: u64 = 10_000_000;

/// The parts of a script, and how many commands, bytes of values and turns are in them.
#[derive(Debug, Drop)]
pub struct Draft {
    pub low: u32,
    pub high: u32,
    pub schemas: SchemaList,
    pub sessions: Vec<CommandList>,
    pub schedule: PassageList,
    pub commands: usize,
    pub bytes: usize,
    pub turns: u64,
}

impl Draft {
    /// The script of no lines. It takes no memory.
    pub fn new(alloc: Global) -> Draft
        ensures script { script_of result ≡ empty_script }
        ensures counts { Counts result }
    {
        Draft {
            low: LOWEST_ID,
            high: HIGHEST_ID,
            schemas: SchemaList::new(alloc),
            sessions: Vec::new(alloc),
            schedule: PassageList::new(alloc),
            commands: 0,
            bytes: 0,
            turns: 0,
        }
    }

    /// The script.
    pub fn into_script(self) -> Script
        ensures { result ≡ script_of self }
    {
        Script {
            low: self.low,
            high: self.high,
            schemas: self.schemas,
            sessions: SessionList::from_vec(self.sessions),
            schedule: self.schedule,
        }
    }

    /// What a line of this form says.
    #[tactic(auto, unfolding(crate::specs::Scripts::line_in))]
    pub fn line(&self, alloc: Global, form: Form, text: &[u8]) -> Result<Line, Refusal>
        requires { Counts self.now }
        ensures { Gives result (line_in (script_of self.now) form (words text.now)) }
    {
        let schemas = self.schemas.as_slice();
        let sessions = self.sessions.len();
        match form {
            Form::Ids => {
                let (low, high) = forms::ids(text)?;
                Ok(Line::Ids { low, high })
            }
            Form::Table => Ok(Line::Table(forms::table_of(alloc, text)?)),
            Form::Session => {
                no_words(text)?;
                Ok(Line::Session)
            }
            Form::Command(form) => Ok(Line::Command(command(alloc, schemas, form, text)?)),
            Form::Go => Ok(Line::Passage(forms::go(alloc, sessions, text)?)),
            Form::Loop => Ok(Line::Passage(forms::repeat(alloc, sessions, text)?)),
        }
    }

    /// Adds what a line says.
    pub fn add(&mut self, line: Line) -> Result<(), Refusal>
        requires counts { Counts self.old }
        requires placed { HasRoom (script_of self.old) line }
        ensures { Leaves self.new result (limited (with_line (script_of self.old) line)) }
    {
        match line {
            Line::Ids { low, high } => {
                self.low = low;
                self.high = high;
                Ok(())
            }
            Line::Table(schema) => self.add_table(schema),
            Line::Session => self.add_session(),
            Line::Command(command) => self.add_command(command),
            Line::Passage(passage) => self.add_passage(passage),
        }
    }

    // Adds a table.
    fn add_table(&mut self, schema: Schema) -> Result<(), Refusal>
        requires { Counts self.old }
        ensures { Leaves self.new result (limited (with_line (script_of self.old) (Line.Table schema))) }
    {
        if self.schemas.len() == MOST_TABLES {
            return Err(Refusal::Fault(LineFault::TooMany));
        }
        self.schemas.push(schema)?;
        Ok(())
    }

    // Adds a session.
    fn add_session(&mut self) -> Result<(), Refusal>
        requires { Counts self.old }
        ensures { Leaves self.new result (limited (with_line (script_of self.old) Line.Session)) }
    {
        if self.sessions.len() == MOST_SESSIONS {
            return Err(Refusal::Fault(LineFault::TooMany));
        }
        let commands = CommandList::new(*self.sessions.allocator());
        self.sessions.push(commands)?;
        Ok(())
    }

    // Adds a command to the last session.
    fn add_command(&mut self, command: Command) -> Result<(), Refusal>
        requires counts { Counts self.old }
        requires session { 0 < vec_len self.old.sessions }
        ensures { Leaves self.new result (limited (with_line (script_of self.old) (Line.Command command))) }
    {
        let Some(bytes) = bytes_of(&command, MOST_BYTES - self.bytes) else {
            return Err(Refusal::Fault(LineFault::TooMany));
        };
        if self.commands == MOST_COMMANDS {
            return Err(Refusal::Fault(LineFault::TooMany));
        }
        push_last(&mut self.sessions, command)?;
        self.commands += 1;
        self.bytes += bytes;
        Ok(())
    }

    // Adds a passage of the schedule.
    fn add_passage(&mut self, passage: Passage) -> Result<(), Refusal>
        requires { Counts self.old }
        ensures { Leaves self.new result (limited (with_line (script_of self.old) (Line.Passage passage))) }
    {
        let Some(turns) = turns_in(&passage, MOST_TURNS - self.turns) else {
            return Err(Refusal::Fault(LineFault::TooMany));
        };
        self.schedule.push(passage)?;
        self.turns += turns;
        Ok(())
    }
}

// Adds a command to the last session.
fn push_last(sessions: &mut Vec<CommandList>, command: Command) -> Result<(), AllocError>
    requires { 0 < vec_len sessions.old }
    ensures { OnOk result (sessions.new.items ≡ with_command command sessions.old.items) }
{
    let last = sessions.len() - 1;
    sessions[last].push(command)
}

// How many bytes the values of a command have, if they are at most `most`.
fn bytes_of(command: &Command, most: usize) -> Option<usize>
    requires { most ≤ 67108864 }
    ensures { result ≡ up_to most (command_bytes command.now) }
{
    match command {
        Command::Insert { row, .. } => row_bytes(row.as_slice(), most),
        Command::Update { sets, .. } | Command::Rekey { sets, .. } => {
            set_bytes(sets.as_slice(), most)
        }
        Command::Begin { .. }
        | Command::Commit
        | Command::Rollback
        | Command::Get { .. }
        | Command::Part { .. }
        | Command::Open { .. }
        | Command::Fetch { .. }
        | Command::Close { .. }
        | Command::Delete { .. }
        | Command::VacuumMain { .. }
        | Command::VacuumToast { .. }
        | Command::Rewrite { .. } => Some(0),
    }
}

// How many bytes the values of a row have, if they are at most `most`.
fn row_bytes(row: &[Option<Bytes>], most: usize) -> Option<usize>
    requires { most ≤ 67108864 }
    ensures { result ≡ up_to most (sum_by value_bytes row.now) }
{
    let mut room = most;
    for value in row {
        room = room.checked_sub(value_len(value))?;
    }
    Some(most - room)
}

// How many bytes the values have that an update sets, if they are at most `most`.
fn set_bytes(sets: &[Set], most: usize) -> Option<usize>
    requires { most ≤ 67108864 }
    ensures { result ≡ up_to most (sum_by bytes_set sets.now) }
{
    let mut room = most;
    for set in sets {
        room = room.checked_sub(value_len(&set.value))?;
    }
    Some(most - room)
}

// How many bytes a value has.
fn value_len(value: &Option<Bytes>) -> usize
    ensures { result ≡ value_bytes value.now }
{
    match value {
        Some(bytes) => bytes.len(),
        None => 0,
    }
}

// How many turns a passage counts as, if they are at most `most`.
fn turns_in(passage: &Passage, most: u64) -> Option<u64>
    requires { most ≤ 10000000 }
    ensures { result ≡ up_to most (passage_turns passage.now) }
{
    if passage.count == 0 {
        return Some(0);
    }
    let once = once_through(passage.items.as_slice(), most)?;
    let turns = u64::from(passage.count) * once;
    (turns <= most).then_some(turns)
}

// How many turns items count as, if they are at most `most`.
fn once_through(items: &[Item], most: u64) -> Option<u64>
    requires { most ≤ 10000000 }
    ensures { result ≡ up_to most (sum_by turns_of items.now) }
{
    let mut room = most;
    for item in items {
        room = room.checked_sub(item_turns(*item))?;
    }
    Some(most - room)
}

// How many turns an item counts as.
fn item_turns(item: Item) -> u64
    ensures { result ≡ turns_of item }
{
    match item {
        Item::Once { .. } | Item::Whole { .. } => 1,
        Item::Times { count, .. } => u64::from(count),
    }
}
