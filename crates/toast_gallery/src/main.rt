//! The examples, run: each that is named by a word prints exactly what is beside it.
//!
//! `NAME.toast` is a script and `NAME.out` what its replay has to print. One line for each example says
//! whether it did.
#![tactic(auto)]

use session_shell::{Bytes, BytesList, Status, toast_replay};
use std::process::ExitCode;
use std::rt::{Env, Files};
use std::{env, fs, io};
use toast_io::{CallList, MemSink, MemSource};

fn main(rt: HostRuntime) -> ExitCode {
    match run_all(&rt) {
        Ok(true) => ExitCode::SUCCESS,
        Ok(false) | Err(_) => ExitCode::FAILURE,
    }
}

/// Runs each example that is named, and answers whether all print what they should.
fn run_all(rt: &(impl AllocGlobal + Env + Files + Print)) -> io::Result<bool> {
    let mut all = true;
    for name in env::args(rt)?.skip(1) {
        let as_written = is_as_written(rt, name.as_str())?;
        if as_written {
            println!(rt; "{name}: as written")?;
        } else {
            println!(rt; "{name}: DIFFERS")?;
        }
        all = all && as_written;
    }
    Ok(all)
}

/// Whether an example's replay ends well and prints what the file beside it holds.
fn is_as_written(rt: &(impl AllocGlobal + Files), name: &str) -> io::Result<bool> {
    let alloc = rt.alloc();
    let script = fs::read(rt, file(rt, name, ".toast")?)?;
    let replies = fs::read(rt, file(rt, name, ".out")?)?;
    let mut words = BytesList::new(alloc);
    words.push(Bytes::from_slice(alloc, b"replay")?)?;
    let mut source = MemSource::new(alloc, Bytes::from_vec(script), 1000, CallList::new(alloc));
    let mut sink = MemSink::new(alloc, 100_000, CallList::new(alloc))?;
    let mut kept = None;
    let status = toast_replay(alloc, &words, &mut source, &mut sink, &mut kept);
    Ok(status == Status::Done && sink.written() == replies.as_slice())
}

/// The name of an example's file.
fn file(rt: &impl AllocGlobal, name: &str, ending: &str) -> io::Result<String> {
    let mut path = String::new(rt.alloc());
    path.push_str(name)?;
    path.push_str(ending)?;
    Ok(path)
}
