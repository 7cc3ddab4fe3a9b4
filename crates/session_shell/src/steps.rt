// The steps of one command, as the hub records them.
ghost use Rattle.std.specs.Prelude.{◌≡◌, None, OnErr, IfOk, Some, if◌then◌else◌, false, true};
ghost use Rattle.command_set.specs.Journals.{takes_no_memory};
ghost use Rattle.core_state.specs.Commands.{IsFitting};
ghost use Rattle.core_state.specs.Moves.{Falls, OthersStay};
ghost use Rattle.core_state.specs.State.{IsSession, schemas_of, seat_of};
ghost use Rattle.session_shell.specs.Hubs.{is_past, is_read};
ghost use Rattle.toast_core.specs.Cores.{IsCore};
ghost use Rattle.session_shell.specs.Steps.{BeginsBy, HasMade, IsGranted, IsStood, LaterMade, StepsLater, end_by, ended_by, kind_of, said_of};
ghost use Rattle.session_shell.specs.Turns.{EventFirst, FailsFirst, MakesFirst};

use command_set::{Command, Kind, Reply};
use core_state::seat::Job;
use std::alloc::AllocError;
use toast_core::{Advance, Core};

/// What a command's first step has come to.
#[derive(Debug, Drop)]
pub struct First {
    /// The kind of the journal's entry.
    pub kind: Kind,
    /// What the command's line says; a read's says it at the read's end.
    pub reply: Option<Reply>,
    /// Whether the command is under way.
    pub goes_on: bool,
}

/// Why a command ends before its last step.
#[derive(Clone, Copy, Debug, PartialEq, Eq)]
pub enum Cut {
    /// A draw found every value id in use.
    NoValueId,
    /// There was no memory.
    Memory,
}

impl Cut {
    // The kind of the journal's entry.
    pub fn kind(self) -> Kind
        ensures { result ≡ kind_of self }
    {
        match self {
            Cut::NoValueId => Kind::NoValueId,
            Cut::Memory => Kind::Memory,
        }
    }

    // What the command's line then says.
    pub fn reply(self) -> Reply
        ensures { result ≡ said_of self }
    {
        match self {
            Cut::NoValueId => Reply::NoValueId,
            Cut::Memory => Reply::Memory,
        }
    }
}

/// What a later step of a command has come to.
#[derive(Debug, Drop)]
pub enum Later {
    More,
    Done(Reply),
    Short(Cut),
}

// Begins a command, and makes its first step.
pub fn first_step(core: &mut Core, session: u16, command: &Command) -> First
    requires session { IsSession core.old.seats session }
    requires idle { (seat_of core.old session).job ≡ Job.Idle }
    requires fits { IsFitting (schemas_of core.old.tables) command.now }
    requires stood { IsStood core.old session }
    ensures begins { BeginsBy core.old session command.now core.new result }
    ensures event { EventFirst result.kind (end_by result.goes_on) core.old session command.now core.new }
    ensures made { result.kind ≡ Kind.Run → HasMade core.old session command.now core.new }
    ensures apart { OthersStay core.old session core.new }
    ensures kept { IsCore core.new }
{
    match begin(core, session, command) {
        Ok(Advance::Done(reply)) => First {
            kind: Kind::Run,
            reply: Some(reply),
            goes_on: false,
        },
        Ok(Advance::More) => First {
            kind: Kind::Run,
            reply: granted_reply(command),
            goes_on: true,
        },
        Ok(Advance::Idle) => unreachable!(),
        Err(_) => First {
            kind: Kind::Memory,
            reply: Some(Reply::Memory),
            goes_on: false,
        },
    }
}

// Submits a command, and advances it once.
fn begin(core: &mut Core, session: u16, command: &Command) -> Result<Advance, AllocError>
    requires session { IsSession core.old.seats session }
    requires idle { (seat_of core.old session).job ≡ Job.Idle }
    requires fits { IsFitting (schemas_of core.old.tables) command.now }
    ensures ok { IfOk result (MakesFirst core.old session command.now core.new) }
    ensures falls { OnErr result (Falls core.old session core.new) }
    ensures wanted { OnErr result (takes_no_memory command.now ≡ false) }
    ensures failed { OnErr result (FailsFirst core.old session command.now core.new) }
    ensures apart { OthersStay core.old session core.new }
    ensures kept { IsCore core.new }
{
    core.submit(session, command)?;
    let made = core.advance(session)?;
    Ok(made)
}

// What a command's line says while the command, which is granted, goes on.
fn granted_reply(command: &Command) -> Option<Reply>
    ensures { result ≡ (if is_read command.now then None else Some Reply.Okay) }
{
    match command {
        Command::Get { .. } | Command::Part { .. } | Command::Fetch { .. } => None,
        _ => Some(Reply::Okay),
    }
}

// Makes the next step of a command under way.
pub fn later_step(core: &mut Core, session: u16) -> Later
    requires session { IsSession core.old.seats session }
    requires under_way { is_past core.old session ≡ true }
    requires granted { IsGranted core.old session }
    ensures steps { StepsLater core.old session core.new result }
    ensures event { LaterMade core.old session core.new result }
    ensures apart { OthersStay core.old session core.new }
    ensures kept { IsCore core.new }
{
    match core.advance(session) {
        Ok(Advance::More) => Later::More,
        Ok(Advance::Done(reply)) => ended(reply),
        Ok(Advance::Idle) => unreachable!(),
        Err(_) => Later::Short(Cut::Memory),
    }
}

// What a later step that ends its command comes to, by what it says.
fn ended(reply: Reply) -> Later
    ensures { result ≡ ended_by reply }
{
    match reply {
        Reply::NoValueId => Later::Short(Cut::NoValueId),
        reply => Later::Done(reply),
    }
}
