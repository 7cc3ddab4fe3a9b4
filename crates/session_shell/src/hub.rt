// A hub: a script, the store that runs it, and the journal of what came of its commands.
ghost use Rattle.std.specs.Prelude.{◌≡◌, ◌+◌, ◌++◌, ◌<◌, ◌≤◌, ◌∷◌, ◌^◌, [], false, length, IfOk, IsTrue, MatchBool, OnErr, OnOk, Some, true, option_and_then, replicate, slice_get, slice_index_or, slice_set, vec_capacity, vec_len, if◌then◌else◌};
ghost use Rattle.std.specs.Option.{option_copied};
ghost use Rattle.command_set.specs.Journals.{command_at, is_complete, is_legal};
ghost use Rattle.script_text.specs.Scripts.{command_count};
ghost use Rattle.core_state.specs.Events.{left};
ghost use Rattle.core_state.specs.State.{seat_of};
ghost use Rattle.session_shell.specs.Hubs.{is_past, with_begun};
ghost use Rattle.session_shell.specs.Lines.{no_line, with_reply};

use crate::print::print_lines;
use crate::steps::{First, Later, first_step, later_step};
use command_set::values::nth;
use command_set::{Command, Item, JournalEntry, Reply, Script};
use core_state::seat::Job;
use line_printer::Printer;
use std::alloc::{AllocError, Global};
use std::marker::Model;
use toast_core::{Core, Setup, Under};
use toast_io::{Failed, Sink};
use tuple_layout::copy_of_schemas;

/// What a turn of a session has come to.
#[derive(Clone, Copy, Debug, PartialEq, Eq)]
pub enum Turn {
    /// No command was under way or left.
    Nothing,
    /// The command goes on.
    More,
    /// The command is over; `entry` is the place of its last entry in the journal, from 0.
    Ended { entry: u32 },
}

/// A printed line: a session, the number of its command, from 1, and the reply. The line of a read under
/// way has no reply yet.
#[derive(Debug, Drop)]
pub struct KeptLine {
    pub session: u16,
    pub number: u32,
    pub reply: Option<Reply>,
}

/// How far a session is: how many of its commands have begun, and where the last of these has its last
/// entry and its line, from 0.
#[derive(Clone, Copy, Debug)]
pub struct Progress {
    pub begun: u32,
    pub entry: u32,
    pub line: u32,
}

/// A script with a store that runs it, and the journal.
#[derive(Debug, Drop)]
pub struct Hub {
    pub(crate) script: Script,
    core: Core,
    pub(crate) journal: Vec<JournalEntry>,
    kept: Vec<KeptLine>,
    progress: Vec<Progress>,
}

impl Model for Hub {
    ghost use Rattle.std.specs.Prelude.{vec_capacity};
    ghost use Rattle.session_shell.specs.Hubs.{HubState, hub_of};
    ghost use Rattle.session_shell.specs.Turns.{Endures};

    ghost Value = { HubState };

    ghost view = { λ hub. hub_of hub.script hub.core hub.journal.items hub.kept.items };

    ghost invariant = { λ hub. Endures (hub_of hub.script hub.core hub.journal.items hub.kept.items)
        hub.progress.items (vec_capacity hub.journal) (vec_capacity hub.kept) };
}

impl Hub {
    ghost use Rattle.session_shell.specs.Hubs.{IsScript, IsSessionOf, LastIsRun, TellsHub, commands_of, session_in};
    ghost use Rattle.session_shell.specs.Turns.{HasTurned, MakesTurn, at_start, first_hub, place_of, places_in};
    ghost use Rattle.session_shell.specs.Text.{text_of};
    ghost use Rattle.std.specs.Io.KnownBytes.{Appends};
    ghost use Rattle.toast_io.specs.Faults.{HasRisen, NeverFalls};
    ghost use Rattle.toast_io.specs.Sink.{AppendsPart};
    ghost use Rattle.line_printer.specs.Carried.{first_printer};
    ghost use Rattle.draw_counts.specs.Drawn.{ReachesIds};
    ghost use Rattle.session_shell.specs.Follows.{EmptiesSession, EndsSession, IsIdle, IsOfTurns, RunsEmptying, RunsEnding, RunsFinish, RunsItem, RunsItems, RunsWhole, items_in, items_of, passage_at};

    /// A hub whose sessions have begun nothing.
    ///
    /// It takes the memory for its journal and its replies now, so that what comes of a command is
    /// recorded where there is no memory left.
    pub fn new(alloc: Global, script: Script) -> Result<Hub, AllocError>
        requires { IsScript script }
        ensures first { IfOk result (λ hub. hub ≡ first_hub script) }
        ensures script { IfOk result (λ hub. hub.script ≡ script) }
        ensures journal { IfOk result (λ hub. hub.journal ≡ []) }
        ensures places { IfOk result (λ hub. places_in hub ≡ replicate (length script.sessions) at_start) }
    {
        let commands = count_commands(&script);
        let journal = Vec::with_capacity(alloc, 3 * commands)?;
        let kept = Vec::with_capacity(alloc, 2 * commands)?;
        let progress = vec![in alloc; Progress {
            begun: 0,
            entry: 0,
            line: 0
        }; script.sessions.len()]?;
        let schemas = copy_of_schemas(alloc, &script.schemas)?;
        let sessions = script.sessions.len() as u16;
        let setup = Setup {
            schemas,
            low: script.low,
            high: script.high,
            sessions,
        };
        let core = Core::new(alloc, &setup)?;
        Ok(Hub {
            script,
            core,
            journal,
            kept,
            progress,
        })
    }

    /// One turn of a session: its next command is submitted if none is under way, and then one event is
    /// made, and no more.
    ///
    /// A draw that finds no value id ends the command, and so does want of memory, as the journal then
    /// tells.
    pub fn turn(&mut self, session: u16) -> Turn
        requires { IsSessionOf self.old.script session }
        ensures made { MakesTurn self.old session self.new result }
        ensures own { TellsHub self.new }
        ensures legal { IsTrue (is_legal self.new.script self.new.journal) }
        ensures cause { result ≡ Turn.More → LastIsRun self.new session }
        ensures left { is_past self.old.core session ≡ true → result ≡ Turn.More → left self.new.core session < left self.old.core session }
        ensures under_way { result ≡ Turn.More → is_past self.new.core session ≡ true }
    {
        match self.core.busy_with(session) {
            Under::Nothing => self.begin_next(session),
            _ => self.go_on(session),
        }
    }

    // A turn of a session with no command under way.
    fn begin_next(&mut self, session: u16) -> Turn
        requires session { IsSessionOf self.old.script session }
        requires idle { (seat_of self.old.core session).job ≡ Job.Idle }
        ensures made { MakesTurn self.old session self.new result }
        ensures own { TellsHub self.new }
        ensures cause { result ≡ Turn.More → LastIsRun self.new session }
        ensures under_way { result ≡ Turn.More → is_past self.new.core session ≡ true }
    {
        let at = (session - 1) as usize;
        let begun = self.progress[at].begun;
        let Some(command) = next_command(&self.script, session, begun) else {
            return Turn::Nothing;
        };
        let first = first_step(&mut self.core, session, command);
        let goes_on = first.goes_on;
        let entry = self.journal.len() as u32;
        record_first(
            &mut self.journal,
            &mut self.kept,
            &mut self.progress,
            session,
            begun + 1,
            first,
        );
        turn_after(goes_on, entry)
    }

    // A turn of a session whose command is under way.
    fn go_on(&mut self, session: u16) -> Turn
        requires session { IsSessionOf self.old.script session }
        requires under_way { is_past self.old.core session ≡ true }
        ensures made { MakesTurn self.old session self.new result }
        ensures own { TellsHub self.new }
        ensures cause { result ≡ Turn.More → LastIsRun self.new session }
        ensures left { result ≡ Turn.More → left self.new.core session < left self.old.core session }
        ensures under_way { result ≡ Turn.More → is_past self.new.core session ≡ true }
    {
        let at = (session - 1) as usize;
        let Progress { begun, entry, line } = self.progress[at];
        match later_step(&mut self.core, session) {
            Later::More => Turn::More,
            Later::Done(reply) => {
                set_reply(&mut self.kept, line, reply);
                Turn::Ended { entry }
            }
            Later::Short(cut) => {
                let entry = self.journal.len() as u32;
                self.progress[at] = Progress { begun, entry, line };
                push_entry(
                    &mut self.journal,
                    JournalEntry {
                        session,
                        number: begun,
                        kind: cut.kind(),
                    },
                );
                set_reply(&mut self.kept, line, cut.reply());
                Turn::Ended { entry }
            }
        }
    }

    /// Goes through the script's schedule, item by item.
    pub fn run_schedule(&mut self)
        ensures { RunsItems self.old self.new (items_of self.old.script.schedule) }
    {
        for passage in 0..self.script.schedule.len() {
            self.run_passage(passage);
        }
    }

    // A passage of the schedule, so often as it says.
    fn run_passage(&mut self, passage: usize)
        requires { passage < length self.old.script.schedule }
        ensures { RunsItems self.old self.new (items_in (passage_at self.old.script passage)) }
    {
        for _round in 0..self.rounds_of(passage) {
            self.run_items(passage);
        }
    }

    // The items of a passage, once.
    fn run_items(&mut self, passage: usize)
        requires { passage < length self.old.script.schedule }
        ensures { RunsItems self.old self.new (passage_at self.old.script passage).items }
    {
        for at in 0..self.items_of(passage) {
            let item = self.item_at(passage, at);
            self.run_item(item);
        }
    }

    // How often the items of a passage are gone through.
    fn rounds_of(&self, passage: usize) -> u32
        requires { passage < length self.now.script.schedule }
        ensures { result ≡ (passage_at self.now.script passage).count }
    {
        self.script.schedule.as_slice()[passage].count
    }

    // The number of a passage's items.
    fn items_of(&self, passage: usize) -> usize
        requires { passage < length self.now.script.schedule }
        ensures { result ≡ length (passage_at self.now.script passage).items }
    {
        self.script.schedule.as_slice()[passage].items.len()
    }

    // An item of a passage.
    fn item_at(&self, passage: usize, at: usize) -> Item
        requires passage { passage < length self.now.script.schedule }
        requires item { at < length (passage_at self.now.script passage).items }
        ensures item { slice_get (passage_at self.now.script passage).items at ≡ Some result }
        ensures session { IsSessionOf self.now.script (session_in result) }
    {
        self.script.schedule.as_slice()[passage].items.as_slice()[at]
    }

    // The turns of an item.
    fn run_item(&mut self, item: Item)
        requires { IsSessionOf self.old.script (session_in item) }
        ensures { RunsItem self.old self.new item }
    {
        match item {
            Item::Once { session } => {
                self.turn(session);
            }
            Item::Times { session, count } => self.turn_times(session, count),
            Item::Whole { session } => self.turn_until_ended(session),
        }
    }

    // So many turns of a session.
    fn turn_times(&mut self, session: u16, count: u32)
        requires { IsSessionOf self.old.script session }
        ensures { RunsItem self.old self.new (Item.Times session count) }
    {
        for _turn in 0..count {
            self.turn(session);
        }
    }

    // Turns of a session until a command of it has ended, or none is left.
    fn turn_until_ended(&mut self, session: u16)
        requires { IsSessionOf self.old.script session }
        ensures { RunsWhole self.old session self.new }
    {
        // What is true of every hub is known where a field is named.
        let _ = &self.core;
        let mut turn = self.turn(session);
        while let Turn::More = turn {
            turn = self.turn(session);
        }
    }

    /// Finishes the commands of all sessions: each session in ascending order ends its command under way,
    /// and then each takes turns until it has no command left.
    pub fn finish(&mut self)
        ensures ran { RunsFinish self.old self.new }
        ensures follows { IsOfTurns self.new.script self.new.journal }
        ensures legal { IsTrue (is_legal self.new.script self.new.journal) }
        ensures complete { IsTrue (is_complete self.new.script self.new.journal) }
        ensures draws { ReachesIds self.new.script self.new.journal }
        ensures idle { IsIdle self.new }
    {
        self.end_all();
        self.empty_all();
    }

    // Each session ends its command under way. No upkeep is.
    fn end_all(&mut self)
        ensures ran { RunsEnding self.old self.new }
        ensures idle { IsIdle self.new }
    {
        for at in 0..self.script.sessions.len() {
            let session = (at + 1) as u16;
            self.end_session(session);
        }
    }

    // A session ends its command under way, if there is one.
    fn end_session(&mut self, session: u16)
        requires { IsSessionOf self.old.script session }
        ensures { EndsSession self.old session self.new }
    {
        match self.core.busy_with(session) {
            Under::Nothing => {}
            _ => self.turn_until_ended(session),
        }
    }

    // Each session takes turns until it has no command left.
    fn empty_all(&mut self)
        requires { IsIdle self.old }
        ensures ran { RunsEmptying self.old self.new }
        ensures follows { IsOfTurns self.new.script self.new.journal }
        ensures idle { IsIdle self.new }
        ensures complete { IsTrue (is_complete self.new.script self.new.journal) }
        ensures draws { ReachesIds self.new.script self.new.journal }
        ensures legal { IsTrue (is_legal self.new.script self.new.journal) }
    {
        for at in 0..self.script.sessions.len() {
            let session = (at + 1) as u16;
            self.empty_session(session);
        }
        // What is true of every hub is known where a field is named.
        let _ = &self.journal;
    }

    // A session takes turns until it has no command left.
    fn empty_session(&mut self, session: u16)
        requires session { IsSessionOf self.old.script session }
        requires idle { (place_of (places_in self.old) session).under_way ≡ false }
        ensures { EmptiesSession self.old session self.new }
    {
        'commands: while self.has_command_left(session) {
            self.turn_until_ended(session);
        }
    }

    // Whether a session has a command left.
    fn has_command_left(&self, session: u16) -> bool
        requires { IsSessionOf self.now.script session }
        ensures { MatchBool result
            ((place_of (places_in self.now) session).begun < length (commands_of self.now.script session))
            ((place_of (places_in self.now) session).begun ≡ length (commands_of self.now.script session)) }
    {
        let at = (session - 1) as usize;
        let begun = self.progress[at].begun as usize;
        begun < self.script.sessions.as_slice()[at].len()
    }

    /// The journal so far: that of the turns that have made the hub.
    pub fn journal(&self) -> &[JournalEntry]
        ensures entries { result.now ≡ self.now.journal }
        ensures own { TellsHub self.now }
        ensures turned { HasTurned self.now }
        ensures follows { IsOfTurns self.now.script self.now.journal }
        ensures draws { ReachesIds self.now.script self.now.journal }
        ensures legal { IsTrue (is_legal self.now.script self.now.journal) }
    {
        &self.journal
    }

    /// Writes the printed lines, where nothing is under way, by way of a new printer. After `Failed` some
    /// first bytes of their text may have been written, and never all.
    pub(crate) fn print<K: Sink>(&self, printer: Printer, sink: &mut K) -> Result<(), Failed>
        requires idle { IsIdle self.now }
        requires first { printer ≡ first_printer }
        ensures ok { OnOk result (Appends (K.written sink.old) (K.written sink.new) (text_of self.now.script self.now.journal)) }
        ensures failed { OnErr result (AppendsPart (K.written sink.old) (K.written sink.new) (text_of self.now.script self.now.journal)) }
        ensures count { NeverFalls (K.faults sink.old) (K.faults sink.new) }
        ensures cause { OnErr result (HasRisen (K.faults sink.old) (K.faults sink.new)) }
    {
        let mut printer = printer;
        print_lines(&mut printer, sink, &self.kept);
        printer.finish(sink)?;
        Ok(())
    }

    /// The reply of a line, from 0, if it is there and known: the journal's lines have it, and that of a read
    /// under way is not known before the read's end.
    pub fn reply(&self, line: u32) -> Option<&Reply>
        ensures own { TellsHub self.now }
        ensures reply { option_copied result ≡ option_and_then (λ line. line.reply) (slice_get self.now.kept line) }
    {
        self.kept.get(line as usize)?.reply.as_ref()
    }
}

// The commands of a script, counted.
fn count_commands(script: &Script) -> usize
    requires { command_count script.now ≤ 10000 }
    ensures { result ≡ command_count script.now }
{
    let mut count = 0;
    for session in script.sessions.as_slice() {
        count += session.len();
    }
    count
}

// The command after those that a session has begun.
fn next_command(script: &Script, session: u16, begun: u32) -> Option<&Command>
    ensures { option_copied result ≡ command_at script.now session (begun + 1) }
{
    let commands = nth(script.sessions.as_slice(), usize::from(session))?;
    nth(commands.as_slice(), begun as usize + 1)
}

// Records the first entry of a command, and its line.
fn record_first(
    journal: &mut Vec<JournalEntry>,
    kept: &mut Vec<KeptLine>,
    progress: &mut Vec<Progress>,
    session: u16,
    number: u32,
    first: First,
)
    requires session { 1 ≤ session }
    requires place { session ≤ vec_len progress.old }
    requires entry { vec_len journal.old < vec_capacity journal.old }
    requires line { vec_len kept.old < vec_capacity kept.old }
    requires entries { vec_len journal.old < 2 ^ 32 }
    requires lines { vec_len kept.old < 2 ^ 32 }
    ensures journal { journal.new.items ≡ journal.old.items ++ record { session = session; number = number; kind = first.kind } ∷ [] }
    ensures kept { kept.new.items ≡ kept.old.items ++ record { session = session; number = number; reply = first.reply } ∷ [] }
    ensures progress { progress.new.items ≡ with_begun progress.old.items session number journal.old.items kept.old.items }
    ensures entries { vec_capacity journal.old ≤ vec_capacity journal.new }
    ensures lines { vec_capacity kept.old ≤ vec_capacity kept.new }
{
    progress[(session - 1) as usize] = Progress {
        begun: number,
        entry: journal.len() as u32,
        line: kept.len() as u32,
    };
    push_entry(
        journal,
        JournalEntry {
            session,
            number,
            kind: first.kind,
        },
    );
    push_line(
        kept,
        KeptLine {
            session,
            number,
            reply: first.reply,
        },
    );
}

// What a turn answers whose command goes on, or has ended with this entry.
fn turn_after(goes_on: bool, entry: u32) -> Turn
    ensures { result ≡ (if goes_on then Turn.More else Turn.Ended entry) }
{
    if goes_on {
        Turn::More
    } else {
        Turn::Ended { entry }
    }
}

// Adds an entry where room for it is kept.
fn push_entry(journal: &mut Vec<JournalEntry>, entry: JournalEntry)
    requires { vec_len journal.old < vec_capacity journal.old }
    ensures items { journal.new.items ≡ journal.old.items ++ entry ∷ [] }
    ensures room { vec_capacity journal.old ≤ vec_capacity journal.new }
{
    match journal.push(entry) {
        Ok(()) => {}
        Err(_) => unreachable!(),
    }
}

// Adds a line where room for it is kept.
fn push_line(kept: &mut Vec<KeptLine>, line: KeptLine)
    requires { vec_len kept.old < vec_capacity kept.old }
    ensures items { kept.new.items ≡ kept.old.items ++ line ∷ [] }
    ensures room { vec_capacity kept.old ≤ vec_capacity kept.new }
{
    match kept.push(line) {
        Ok(()) => {}
        Err(_) => unreachable!(),
    }
}

// Gives a line its reply.
fn set_reply(kept: &mut Vec<KeptLine>, line: u32, reply: Reply)
    requires { line < vec_len kept.old }
    ensures line { kept.new.items ≡ slice_set kept.old.items line (with_reply (slice_index_or kept.old.items line no_line) (Some reply)) }
    ensures room { vec_capacity kept.old ≤ vec_capacity kept.new }
{
    kept[line as usize].reply = Some(reply);
}
