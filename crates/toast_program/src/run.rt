//! The command `run`.

ghost use Rattle.std.specs.Prelude.{◌≡◌, None, IfOk};
ghost use Rattle.toast_io.specs.Faults.{NeverFalls};
ghost use Rattle.session_shell.specs.Hubs.{IsScript};
ghost use Rattle.session_shell.specs.Follows.{IsIdle};
ghost use Rattle.toast_program.specs.Runs.{HasRunFreely, RunsBy};

use command_set::Script;
use line_printer::Printer;
use session_shell::{Hub, Status, print_hub, read_script};
use shared_store::{SharedStore, run_threads};
use std::alloc::{AllocError, Global};
use std::sync::Wait;
use std::thread::Threads;
use toast_io::{Gate, Sink, Source};

// Reads a script, lets its sessions take their turns in threads, and writes the replies. The hub is left in
// `kept`. The schedule is not looked at.
pub(crate) fn run<R: Threads + Wait + Sync, S: Source, K: Sink, G: Gate + Sync>(
    rt: &R,
    alloc: Global,
    source: &mut S,
    sink: &mut K,
    gate: &G,
    kept: &mut Option<Hub>,
) -> Status
    requires { kept.old ≡ None }
    ensures outcome { RunsBy HasRunFreely (record { left = S.left source.old; left' = S.left source.new; reads = S.faults source.old; reads' = S.faults source.new; written = K.written sink.old; written' = K.written sink.new; writes = K.faults sink.old; writes' = K.faults sink.new; kept' = kept.new }) result }
    ensures untouched { kept.new ≡ None → sink.new ≡ sink.old }
    ensures source_count { NeverFalls (S.faults source.old) (S.faults source.new) }
    ensures sink_count { NeverFalls (K.faults sink.old) (K.faults sink.new) }
{
    let script = match read_script(alloc, source) {
        Ok(script) => script,
        Err(status) => return status,
    };
    let printer = match Printer::new(alloc) {
        Ok(printer) => printer,
        Err(_) => return Status::Memory,
    };
    match run_script(rt, alloc, script, gate) {
        Ok(hub) => {
            let status = print_hub(&hub, printer, sink);
            *kept = Some(hub);
            status
        }
        Err(_) => Status::Memory,
    }
}

// Lets the sessions of a script take their turns in threads, over a new store.
fn run_script<R: Threads + Wait + Sync, G: Gate + Sync>(
    rt: &R,
    alloc: Global,
    script: Script,
    gate: &G,
) -> Result<Hub, AllocError>
    requires { IsScript script }
    ensures run { IfOk result (HasRunFreely script) }
    ensures idle { IfOk result IsIdle }
{
    let sessions = script.sessions.len() as u16;
    let (store, mut pass) = SharedStore::new(alloc, script)?;
    run_threads(rt, &store, &mut pass, sessions, gate);
    let mut hub = store.close(rt, pass);
    // The threads have left no turn, and so this makes none: it tells of the hub that nothing is under way.
    hub.finish();
    Ok(hub)
}
