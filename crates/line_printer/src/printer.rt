// A printer: bytes on their way to a sink.
ghost use Rattle.std.specs.Prelude.{◌≡◌, ◌≤◌, ◌+◌, ℕ, [], false, length, IfOk, IsTrue, OnErr, OnOk, true};
ghost use Rattle.toast_io.specs.Faults.{NeverFalls};
ghost use Rattle.line_printer.specs.Carried.{Prints, SinkTold, WritesAll, WritesLess, first_printer, told};

use std::alloc::{AllocError, Global};
use std::marker::Model;
use toast_io::{Failed, Sink, write_all};

/// The bytes that a printer holds at most.
const ROOM: usize = 65_536;

/// Bytes on their way to a sink. A write that fails stops it: from then on it takes what it is given, and
/// writes nothing.
#[derive(Debug, Drop)]
pub struct Printer {
    held: Vec<u8>,
    failed: bool,
}

impl Model for Printer {
    ghost use Rattle.std.specs.Prelude.{◌≤◌, length, vec_capacity};
    ghost use Rattle.line_printer.specs.Carried.{PrinterState};

    ghost Value = { PrinterState };

    ghost view = { λ printer. record { held = printer.held.items; failed = printer.failed } };

    ghost invariant = { λ printer. (length printer.held.items ≤ 65536) × (65536 ≤ vec_capacity printer.held) };
}

impl Printer {
    /// A printer that has printed nothing. It takes the memory for its buffer now, and none later.
    pub fn new(alloc: Global) -> Result<Printer, AllocError>
        ensures { IfOk result (λ printer. printer ≡ first_printer) }
    {
        let held = Vec::with_capacity(alloc, ROOM)?;
        Ok(Printer {
            held,
            failed: false,
        })
    }

    /// Whether a write has failed.
    pub fn has_failed(&self) -> bool
        ensures { result ≡ self.now.failed }
    {
        self.failed
    }

    /// Writes what is held, and answers whether all that was printed is written.
    pub fn finish<K: Sink>(self, sink: &mut K) -> Result<(), Failed>
        ensures ok { OnOk result (WritesAll (told K.Sink sink.old) (told K.Sink sink.new) self) }
        ensures err { OnErr result (WritesLess (told K.Sink sink.old) (told K.Sink sink.new) self) }
        ensures count { NeverFalls (K.faults sink.old) (K.faults sink.new) }
    {
        if self.failed {
            return Err(Failed);
        }
        write_all(sink, &self.held)?;
        Ok(())
    }

    /// Prints a piece of at most 128 bytes.
    pub(crate) fn put<K: Sink>(&mut self, sink: &mut K, piece: &[u8])
        requires { length piece.now ≤ 128 }
        ensures { Prints (told K.Sink sink.old) (told K.Sink sink.new) self.old self.new piece.now }
    {
        self.make_room(sink, piece.len());
        self.hold(piece);
    }

    // Makes room for so many bytes.
    fn make_room<K: Sink>(&mut self, sink: &mut K, count: usize)
        requires { count ≤ 128 }
        ensures prints { Prints (told K.Sink sink.old) (told K.Sink sink.new) self.old self.new [] }
        ensures room { self.new.failed ≡ false → length self.new.held + count ≤ 65536 }
    {
        if self.held.len() + count <= ROOM {
            return;
        }
        self.write_held(sink);
    }

    // Writes what is held, unless a write has failed.
    fn write_held<K: Sink>(&mut self, sink: &mut K)
        ensures prints { Prints (told K.Sink sink.old) (told K.Sink sink.new) self.old self.new [] }
        ensures held { self.new.failed ≡ false → self.new.held ≡ [] }
    {
        if self.failed {
            return;
        }
        match write_all(sink, &self.held) {
            Ok(()) => self.held.clear(),
            Err(Failed) => self.failed = true,
        }
    }

    // Holds a piece, for which there is room unless a write has failed.
    fn hold(&mut self, piece: &[u8])
        requires { self.old.failed ≡ false → length self.old.held + length piece.now ≤ 65536 }
        ensures { (sink : SinkTold) → Prints sink sink self.old self.new piece.now }
    {
        if self.failed {
            return;
        }
        match self.held.extend_from_slice(piece) {
            Ok(()) => {}
            Err(_) => unreachable!(),
        }
    }
}
