//! A whole log, decoded in order.

ghost use Rattle.std.specs.Prelude.{◌+◌, ◌<◌, ◌^◌, ◌++◌, ◌∷◌, [], List, OnOk};
ghost use Rattle.change_log.specs.declared.entry.LogEntry.{LogEntry};
ghost use Rattle.decode_stream.specs.Decoding.{first_fault};
ghost use Rattle.decode_stream.specs.Growing.{FitsFed};
ghost use Rattle.decode_stream.specs.States.{Decodes, IsDecodable, IsDecoded};
ghost use Rattle.decode_stream.specs.Steps.{Sends, Tells};

use crate::decoder::Decoder;
use crate::fault::DecodeFault;
use crate::transaction::TransactionList;
use change_log::{Log, LogEntry};
use list_facts::ListOf;
use std::alloc::Global;

/// Feeds an entry to the decoder, and adds the transaction that it commits.
fn send_next(
    decoder: &mut Decoder,
    sent: &mut TransactionList,
    e: &LogEntry,
) -> Result<(), DecodeFault>
    requires given { decoder.old.given + 1 < 2 ^ 32 }
    requires fits { FitsFed decoder.old e.now }
    ensures ok { OnOk result (Sends decoder.old sent.old decoder.new sent.new e.now) }
    ensures fault { (log : List LogEntry) → Decodes decoder.old log → Tells (first_fault (log ++ e.now ∷ [])) result }
{
    if let Some(transaction) = decoder.feed(e)? {
        sent.push(transaction)?;
    }
    Ok(())
}

/// The transactions of a log, or its first fault.
///
/// Each entry, after those before it, is within the ranges that `Decoder::feed` asks for, and they
/// give fewer than 2^32 - 1 transactions. The fault is the first that feeding them in order answers;
/// `Memory` can come instead, whatever the log.
///
/// It takes time linear in the log's entries and bytes, on average. A value's bytes are copied from the
/// log and then moved, and copied once more for each further column that points to it.
pub fn decode_log(alloc: Global, log: &Log) -> Result<TransactionList, DecodeFault>
    requires { IsDecodable log.now.entries }
    ensures { IsDecoded log.now.entries result }
{
    let mut decoder = Decoder::new(alloc)?;
    let mut sent = ListOf::new(alloc);
    for n in 0..log.len() {
        let Some(e) = log.at(n) else {
            unreachable!();
        };
        send_next(&mut decoder, &mut sent, e)?;
    }
    Ok(sent)
}
