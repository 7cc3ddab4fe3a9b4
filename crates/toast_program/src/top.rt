//! The top call.

ghost use Rattle.std.specs.Prelude.{◌≡◌, ◌↔◌, None, false, true};
ghost use Rattle.toast_io.specs.Faults.{NeverFalls};
ghost use Rattle.command_words.specs.Commands.{command_in};
ghost use Rattle.toast_program.specs.Runs.{DoesBy, is_reader};

use crate::make::toast_make;
use crate::run::run;
use command_words::{CommandWords, read_words};
use session_shell::{Hub, Status, toast_replay};
use std::alloc::Global;
use std::sync::Wait;
use std::thread::Threads;
use toast_io::{BytesList, Gate, Sink, Source};

/// Does the command that the words name: `replay` reads a script from the source and runs it by its schedule,
/// `run` lets its sessions take their turns in threads, each of which passes the gate before each turn, and
/// both write the replies to the sink; `make N` writes the made script for N keys. The hub that ran a script is
/// left in `kept`.
///
/// With `run` this may wait without end.
pub fn toast_main<R: Threads + Wait + Sync, S: Source, K: Sink, G: Gate + Sync>(
    rt: &R,
    alloc: Global,
    words: &BytesList,
    source: &mut S,
    sink: &mut K,
    gate: &G,
    kept: &mut Option<Hub>,
) -> Status
    requires { kept.old ≡ None }

    // The words alone decide of `Usage`, and then nothing is read or written.
    ensures usage { (result ≡ Status.Usage) ↔ (command_in words.now ≡ None) }
    ensures unused { result ≡ Status.Usage → sink.new ≡ sink.old }

    // With each word what its call promises.
    ensures outcome { DoesBy (command_in words.now) (record { left = S.left source.old; left' = S.left source.new; reads = S.faults source.old; reads' = S.faults source.new; written = K.written sink.old; written' = K.written sink.new; writes = K.faults sink.old; writes' = K.faults sink.new; kept' = kept.new }) result }

    // Only a command that reads a script touches the source, and it writes only what a hub that it keeps has come to.
    ensures unread { is_reader (command_in words.now) ≡ false → source.new ≡ source.old }
    ensures untouched { is_reader (command_in words.now) ≡ true → kept.new ≡ None → sink.new ≡ sink.old }

    ensures source_count { NeverFalls (S.faults source.old) (S.faults source.new) }
    ensures sink_count { NeverFalls (K.faults sink.old) (K.faults sink.new) }
{
    match read_words(words) {
        Some(CommandWords::Replay) => toast_replay(alloc, words, source, sink, kept),
        Some(CommandWords::Run) => run(rt, alloc, source, sink, gate, kept),
        Some(CommandWords::Make(n)) => toast_make(alloc, n, sink),
        None => Status::Usage,
    }
}
