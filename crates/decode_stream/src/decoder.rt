//! The decoder, one entry at a time.

ghost use Rattle.std.specs.Prelude.{◌≡◌, ◌≢◌, ◌+◌, ◌<◌, ◌^◌, [], List, Err, IfOk, IfSome, None};
ghost use Rattle.std.specs.List.{All};
ghost use Rattle.stream_wire.specs.Spelling.{IsInRange};
ghost use Rattle.change_log.specs.declared.entry.LogEntry.{LogEntry};
ghost use Rattle.decode_stream.specs.Growing.{FitsFed};
ghost use Rattle.decode_stream.specs.States.{Decodes, Feeds, Stays, next_of};
ghost use Rattle.decode_stream.specs.Steps.{given_after, lasting};

use crate::fault::DecodeFault;
use crate::table::Table;
use crate::transaction::{MessageList, Transaction};
use change_log::LogEntry;
use std::alloc::{AllocError, Global};
use std::marker::Model;

/// What is decoded of a log so far: the transactions that are open, how many were given, and the
/// first fault.
#[derive(Drop)]
pub struct Decoder {
    table: Table,
    given: u32,
    fault: Option<DecodeFault>,
}

impl Model for Decoder {
    ghost use Rattle.decode_stream.specs.States.{DecoderState};

    ghost Value = { DecoderState };

    ghost view = { λ decoder. record { table = decoder.table; given = decoder.given; fault = decoder.fault } };
}

/// The fault that a decoder keeps: want of memory may pass.
fn lasting_fault(fault: DecodeFault) -> Option<DecodeFault>
    ensures { result ≡ lasting fault }
{
    match fault {
        DecodeFault::Memory => None,
        _ => Some(fault),
    }
}

impl Decoder {
    /// A decoder that was fed nothing.
    pub fn new(alloc: Global) -> Result<Decoder, AllocError>
        ensures { IfOk result (λ decoder. Decodes decoder []) }
    {
        let table = Table::new(alloc)?;
        Ok(Decoder {
            table,
            given: 0,
            fault: None,
        })
    }

    /// Takes the next entry, and answers the transaction that it commits, if that has a change.
    ///
    /// As long as there was no fault, fewer than 2^32 - 1 transactions were given before, and the
    /// entry is within its ranges after those that were fed: a table from 1 to 16; 1 to 8 cells, of at most 65,536 bytes where
    /// inline, and with pointers that say at most 65,536 bytes; and with a chunk, at most 2^32 - 1
    /// chunks and bytes of its value, of those that its transaction gathered since its last change of
    /// a row. After a fault nothing is asked.
    ///
    /// `ChunkOrder`: a chunk is not the next one of its value. `SizeOf`: a value that was gathered has
    /// another length than its pointer says, at the first such cell of a row. After either fault each
    /// further call answers that fault and changes nothing. `Memory`: no memory was left; all is as
    /// before, and the entry can be fed again.
    pub fn feed(&mut self, e: &LogEntry) -> Result<Option<Transaction>, DecodeFault>
        requires given { self.old.fault ≡ None → self.old.given + 1 < 2 ^ 32 }
        requires fits { self.old.fault ≡ None → FitsFed self.old e.now }
        ensures fed { (log : List LogEntry) → Decodes self.old log → Feeds log e.now self.new result }
        ensures memory { Stays self.old self.new result }
        ensures again { IfSome self.old.fault (λ fault. (result ≡ Err fault) × (self.new ≡ self.old)) }
    {
        if let Some(fault) = self.fault {
            return Err(fault);
        }
        match self.table.take(e) {
            Ok(changes) => Ok(self.give(changes)),
            Err(fault) => {
                self.fault = lasting_fault(fault);
                Err(fault)
            }
        }
    }

    /// The transaction of the next number, of the changes that an entry commits.
    fn give(&mut self, changes: Option<MessageList>) -> Option<Transaction>
        requires given { self.old.given + 1 < 2 ^ 32 }
        requires some { IfSome changes (λ all. (all ≢ []) × All IsInRange all) }
        ensures next { result ≡ next_of self.old.given changes }
        ensures given { self.new ≡ record self.old { given = given_after self.old.given changes } }
    {
        match changes {
            Some(changes) => {
                self.given += 1;
                Some(Transaction::new(self.given, changes))
            }
            None => None,
        }
    }

    /// How many transactions were given so far, from 0 to 2^32 - 1.
    pub fn given(&self) -> u32
        ensures { result ≡ self.now.given }
    {
        self.given
    }
}
