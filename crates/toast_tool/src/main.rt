//! The program: its words, standard input and standard output go to the top call, and a status other than 0
//! is told on standard error.
#![tactic(auto)]

use std::process::ExitCode;
use std::rt::Env;
use std::sync::Wait;
use std::thread::Threads;
use std::{env, io};
use toast_io::{OpenGate, StdSink, StdSource};
use toast_program::{Bytes, BytesList, Status, toast_main};

fn main(rt: HostRuntime) -> ExitCode {
    let status = run(&rt);
    // There is nowhere left to tell that standard error takes nothing.
    let _ = complain(&rt, status);
    ExitCode::from(exit_status(status))
}

fn run(rt: &(impl AllocGlobal + Env + Input + Print + Threads + Wait + Sync)) -> Status {
    let words = match words(rt) {
        Ok(words) => words,
        // A word that is no text is no word of a command.
        Err(error) if error.kind() == io::ErrorKind::InvalidData => return Status::Usage,
        Err(_) => return Status::Memory,
    };
    let mut source = StdSource::new(rt.reader());
    let mut sink = StdSink::new(io::writer(rt));
    let mut kept = None;
    toast_main(
        rt,
        rt.alloc(),
        &words,
        &mut source,
        &mut sink,
        &OpenGate,
        &mut kept,
    )
}

// The words behind the program's name.
fn words(rt: &(impl AllocGlobal + Env)) -> io::Result<BytesList> {
    let mut words = BytesList::new(rt.alloc());
    for word in env::args(rt)?.skip(1) {
        words.push(Bytes::from_slice(rt.alloc(), word.as_bytes())?)?;
    }
    Ok(words)
}

// One line on standard error, but for success.
fn complain(rt: &impl Eprint, status: Status) -> io::Result<()> {
    match status {
        Status::Done => Ok(()),
        Status::Usage => eprintln!(rt; "usage: toast_tool replay | run | make N"),
        Status::BadScript { line } => eprintln!(rt; "toast_tool: bad script, line {line}"),
        Status::ReadFault => eprintln!(rt; "toast_tool: read failed"),
        Status::WriteFault => eprintln!(rt; "toast_tool: write failed"),
        Status::TooLong => eprintln!(rt; "toast_tool: script too long"),
        Status::Memory => eprintln!(rt; "toast_tool: out of memory"),
    }
}

fn exit_status(status: Status) -> u8 {
    match status {
        Status::Done => 0,
        Status::Usage => 2,
        Status::BadScript { line: _ } => 3,
        Status::ReadFault => 4,
        Status::WriteFault => 5,
        Status::TooLong => 6,
        Status::Memory => 7,
    }
}
