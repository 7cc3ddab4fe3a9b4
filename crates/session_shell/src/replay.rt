// The top call.
ghost use Rattle.std.specs.Prelude.{◌≡◌, ◌≢◌, ◌↔◌, ◌⊎◌, ℕ, List, Err, IfOk, IsErrOf, IsTrue, None, Ok, Some};
ghost use Rattle.command_set.specs.declared.Script.{Script as AnyScript};
ghost use Rattle.script_text.specs.Scripts.{script_in};
ghost use Rattle.script_words.specs.declared.fault.LineFault.{LineFault};
ghost use Rattle.script_text.specs.declared.fault.ScriptFault.TheVariants as scripts;
ghost use Rattle.toast_io.specs.Faults.{HasRisen, NeverFalls};
ghost use Rattle.toast_io.specs.Source.{Takes};
ghost use Rattle.line_printer.specs.Carried.{first_printer};
ghost use Rattle.session_shell.specs.Hubs.{IsScript};
ghost use Rattle.session_shell.specs.Follows.{IsIdle};
ghost use Rattle.session_shell.specs.Replay.{HasRun, PrintsBy, ReadsByAnswer, ReadsNoScript, Replays, TellsWhole, Told, WritesNothing, WritesPart, WritesText, WritesWanting, has_want, is_want, replay_words};

use crate::{Hub, Status};
use command_set::{JournalEntry, Kind, Script};
use command_words::{CommandWords, read_words};
use line_printer::Printer;
use script_text::{ScriptFault, parse_script};
use std::alloc::{AllocError, Global};
use toast_io::{BytesList, Failed, ReadAllFault, Sink, Source, read_all};

// The most bytes of a script.
const LONGEST_SCRIPT: usize = 4_194_304;

/// Does the command that the words name: `replay` reads a script from the source, runs it over a new
/// store, and writes the replies to the sink. The hub that ran the script is left in `kept`.
///
/// First comes `Usage`, then `ReadFault` or `TooLong`, then `BadScript`; nothing is written before the
/// whole script was read and run, and the buffer that the lines go through was made. Where a command
/// wanted memory its line says so, and the status is `Memory`.
pub fn toast_replay<S: Source, K: Sink>(
    alloc: Global,
    words: &BytesList,
    source: &mut S,
    sink: &mut K,
    kept: &mut Option<Hub>,
) -> Status
    requires { kept.old ≡ None }

    // The words alone decide of `Usage`, and then nothing is read.
    ensures usage { (result ≡ Status.Usage) ↔ (words.now ≢ replay_words) }
    ensures unread { result ≡ Status.Usage → source.new ≡ source.old }

    // What is written, and what is kept: the whole text of the run of a script that was read to its end,
    // a part of it, or nothing.
    ensures done { result ≡ Status.Done → WritesText (S.left source.old) (S.left source.new) (K.written sink.old) (K.written sink.new) kept.new }
    ensures write_fault { result ≡ Status.WriteFault → WritesPart (S.left source.old) (S.left source.new) (K.written sink.old) (K.written sink.new) kept.new }
    ensures memory { result ≡ Status.Memory → WritesNothing (K.written sink.old) (K.written sink.new) kept.new ⊎ WritesWanting (S.left source.old) (S.left source.new) (K.written sink.old) (K.written sink.new) kept.new }
    ensures unwritten { result ≢ Status.Done → result ≢ Status.WriteFault → result ≢ Status.Memory → WritesNothing (K.written sink.old) (K.written sink.new) kept.new }
    ensures untouched { kept.new ≡ None → sink.new ≡ sink.old }

    // The causes of the other statuses. Want of memory is free.
    ensures read_cause { result ≡ Status.ReadFault → HasRisen (S.faults source.old) (S.faults source.new) }
    ensures write_cause { result ≡ Status.WriteFault → HasRisen (K.faults sink.old) (K.faults sink.new) }
    ensures too_long { result ≡ Status.TooLong → Takes (S.left source.old) (S.left source.new) 4194305 }
    ensures taken { (bytes : List ℕ) → S.left source.old ≡ Some bytes → Takes (S.left source.old) (S.left source.new) 4194305 → result ≡ Status.TooLong }
    ensures bad_script { (line : ℕ) → result ≡ Status.BadScript line → ReadsNoScript (S.left source.old) (S.left source.new) line }

    // Where bytes are told and no call fails: a script is done, and all else refused, unless memory runs out.
    ensures refuses { (bytes : List ℕ) (line : ℕ) (cause : LineFault) → words.now ≡ replay_words → TellsWhole (S.left source.old) (S.faults source.old) (S.faults source.new) bytes → script_in bytes ≡ Err (scripts.BadScript line cause) → (result ≡ Status.BadScript line) ⊎ (result ≡ Status.Memory) }
    ensures answers { (bytes : List ℕ) (script : AnyScript) → words.now ≡ replay_words → TellsWhole (S.left source.old) (S.faults source.old) (S.faults source.new) bytes → ¬ (HasRisen (K.faults sink.old) (K.faults sink.new)) → script_in bytes ≡ Ok script → (result ≡ Status.Done) ⊎ (result ≡ Status.Memory) }

    ensures source_count { NeverFalls (S.faults source.old) (S.faults source.new) }
    ensures sink_count { NeverFalls (K.faults sink.old) (K.faults sink.new) }
{
    if is_replay(words) {
        replay(alloc, source, sink, kept)
    } else {
        Status::Usage
    }
}

// Whether the words are the one word `replay`.
fn is_replay(words: &BytesList) -> bool
    ensures { IsTrue result ↔ (words.now ≡ replay_words) }
{
    match read_words(words) {
        Some(CommandWords::Replay) => true,
        Some(CommandWords::Run) => false,
        Some(CommandWords::Make(_)) => false,
        None => false,
    }
}

// Reads, runs and prints.
fn replay<S: Source, K: Sink>(
    alloc: Global,
    source: &mut S,
    sink: &mut K,
    kept: &mut Option<Hub>,
) -> Status
    requires { kept.old ≡ None }
    ensures outcome { Replays (record { left = S.left source.old; left' = S.left source.new; reads = S.faults source.old; reads' = S.faults source.new; written = K.written sink.old; written' = K.written sink.new; writes = K.faults sink.old; writes' = K.faults sink.new; kept' = kept.new }) result }
    ensures untouched { kept.new ≡ None → sink.new ≡ sink.old }
    ensures source_count { NeverFalls (S.faults source.old) (S.faults source.new) }
    ensures sink_count { NeverFalls (K.faults sink.old) (K.faults sink.new) }
{
    let script = match read_script(alloc, source) {
        Ok(script) => script,
        Err(status) => return status,
    };
    let printer = match Printer::new(alloc) {
        Ok(printer) => printer,
        Err(_) => return Status::Memory,
    };
    match run_script(alloc, script) {
        Ok(hub) => {
            let status = print_hub(&hub, printer, sink);
            *kept = Some(hub);
            status
        }
        Err(_) => Status::Memory,
    }
}

/// Reads a whole script from the source, which is read to its end unless it has more than 4,194,304 bytes.
///
/// # Errors
///
/// `ReadFault`, `TooLong`, `BadScript` with the first bad line, or `Memory`.
pub fn read_script<S: Source>(alloc: Global, source: &mut S) -> Result<Script, Status>
    ensures reads { ReadsByAnswer (S.left source.old) (S.left source.new) result }
    ensures count { NeverFalls (S.faults source.old) (S.faults source.new) }
    ensures cause { IsErrOf result Status.ReadFault → HasRisen (S.faults source.old) (S.faults source.new) }
{
    let bytes = match read_all(alloc, source, LONGEST_SCRIPT) {
        Ok(bytes) => bytes,
        Err(ReadAllFault::ReadFault) => return Err(Status::ReadFault),
        Err(ReadAllFault::TooLong) => return Err(Status::TooLong),
        Err(ReadAllFault::Memory) => return Err(Status::Memory),
    };
    match parse_script(alloc, bytes.as_slice()) {
        Ok(script) => Ok(script),
        Err(ScriptFault::BadScript { line, cause: _ }) => Err(Status::BadScript { line }),
        Err(ScriptFault::Memory) => Err(Status::Memory),
    }
}

// Runs a script over a new store: its schedule, and then what its sessions have left.
fn run_script(alloc: Global, script: Script) -> Result<Hub, AllocError>
    requires { IsScript script }
    ensures run { IfOk result (HasRun script) }
    ensures idle { IfOk result IsIdle }
{
    let mut hub = Hub::new(alloc, script)?;
    hub.run_schedule();
    hub.finish();
    Ok(hub)
}

/// Writes the lines of a hub with nothing under way, by way of a new printer. The status is `WriteFault` where a
/// write failed, `Memory` where all was written and a command had wanted memory, and else `Done`.
pub fn print_hub<K: Sink>(hub: &Hub, printer: Printer, sink: &mut K) -> Status
    requires idle { IsIdle hub.now }
    requires first { printer ≡ first_printer }
    ensures prints { PrintsBy hub.now (K.written sink.old) (K.written sink.new) (K.faults sink.old) (K.faults sink.new) result }
    ensures count { NeverFalls (K.faults sink.old) (K.faults sink.new) }
{
    match hub.print(printer, sink) {
        Ok(()) => {
            if wants_memory(hub.journal()) {
                Status::Memory
            } else {
                Status::Done
            }
        }
        Err(Failed) => Status::WriteFault,
    }
}

// Whether a command wanted memory.
fn wants_memory(journal: &[JournalEntry]) -> bool
    ensures { result ≡ has_want journal.now }
{
    journal.iter().any(|entry| is_want(entry.kind))
}

fn is_want(kind: Kind) -> bool
    ensures { result ≡ is_want kind }
{
    matches!(kind, Kind::Memory)
}
