//! The command `make`.

ghost use Rattle.std.specs.Prelude.{◌≡◌, ◌≤◌, ◌⊎◌};
ghost use Rattle.toast_io.specs.Faults.{HasRisen, NeverFalls};
ghost use Rattle.toast_program.specs.Makes.{MakesBy};

use made_script::make_script;
use session_shell::Status;
use std::alloc::Global;
use toast_io::{Failed, Sink, write_all};

/// Writes the made script for `n` keys, from 1 to 1,000, to the sink. The text is whole in memory before
/// its first byte is written.
///
/// The status is `Done`, `WriteFault` where a write failed, or `Memory`; then the sink was not called.
pub fn toast_make<K: Sink>(alloc: Global, n: u32, sink: &mut K) -> Status
    requires at_least { 1 ≤ n }
    requires at_most { n ≤ 1000 }

    // What is written, by the status, and why a write fault comes. Want of memory is free.
    ensures outcome { MakesBy n (K.written sink.old) (K.written sink.new) (K.faults sink.old) (K.faults sink.new) result }
    ensures untouched { result ≡ Status.Memory → sink.new ≡ sink.old }

    // Where no write failed, the script is written, unless memory runs out.
    ensures answers { ¬ (HasRisen (K.faults sink.old) (K.faults sink.new)) → (result ≡ Status.Done) ⊎ (result ≡ Status.Memory) }

    ensures sink_count { NeverFalls (K.faults sink.old) (K.faults sink.new) }
{
    let text = match make_script(alloc, n) {
        Ok(text) => text,
        Err(_) => return Status::Memory,
    };
    match write_all(sink, text.as_slice()) {
        Ok(()) => Status::Done,
        Err(Failed) => Status::WriteFault,
    }
}
