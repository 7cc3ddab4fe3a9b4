//! A whole log, decoded by several workers.

ghost use Rattle.std.specs.Prelude.{◌≡◌, ◌≤◌, ◌<◌, ◌+◌, ◌^◌, length, slice_index_or, vec_len, IfOk, IfSome, OnOk};
ghost use Rattle.decode_stream.specs.States.{IsDecodable, IsDecoded};
ghost use Rattle.decode_stream.specs.Parts.{AreGiven, ArePartsFrom, ArePartsIfOk, AreWhole, SendsTold, StayBut, TellsTold, ToldList, told_at};

use crate::fault::DecodeFault;
use crate::transaction::{Transaction, TransactionList};
use crate::worker::{Part, Told, decode_part, worker_of};
use change_log::Log;
use list_facts::ListOf;
use std::alloc::{AllocError, Global};
use std::thread;
use std::thread::Threads;

/// Takes what the entry at a place tells from its worker's part.
fn take_told(parts: &mut Vec<Part>, worker: usize, n: usize) -> Option<Told>
    requires { worker < vec_len parts.old }
    ensures told { (d : ToldList) → result ≡ told_at (slice_index_or parts.old.items worker d) n }
    ensures others { StayBut n parts.old.items parts.new.items }
    ensures len { vec_len parts.new ≡ vec_len parts.old }
{
    parts[worker].take(n)
}

/// Sends what an entry tells: the changes that it commits, as the transaction of the next number.
fn send_told(sent: &mut TransactionList, told: Option<Told>) -> Result<(), DecodeFault>
    requires room { length sent.old + 1 < 2 ^ 32 }
    requires given { IfSome told (λ t. IfOk t AreGiven) }
    ensures ok { OnOk result (SendsTold told sent.old sent.new) }
    ensures fault { TellsTold told result }
{
    match told {
        Some(Ok(changes)) => {
            let number = sent.len() as u32 + 1;
            sent.push(Transaction::new(number, changes))?;
            Ok(())
        }
        Some(Err(fault)) => Err(fault),
        None => Ok(()),
    }
}

/// The transactions of a log, or its first fault, from the parts of its workers: what they tell is
/// sent in the order of places, so the first fault is the log's.
fn merge(
    alloc: Global,
    log: &Log,
    workers: usize,
    parts: Vec<Part>,
) -> Result<TransactionList, DecodeFault>
    requires workers { 1 ≤ workers }
    requires len { vec_len parts ≡ workers }
    requires parts { ArePartsFrom 0 log.now.entries workers parts.items }
    requires log { IsDecodable log.now.entries }
    ensures { IsDecoded log.now.entries result }
{
    let mut parts = parts;
    let mut sent = ListOf::new(alloc);
    for n in 0..log.len() {
        let Some(e) = log.at(n) else {
            unreachable!();
        };
        let told = take_told(&mut parts, worker_of(e, workers), n);
        send_told(&mut sent, told)?;
    }
    Ok(sent)
}

/// The parts of all workers, if none wanted memory.
fn whole_parts(alloc: Global, parts: Vec<Result<Part, AllocError>>) -> Result<Vec<Part>, AllocError>
    ensures len { IfOk result (λ all. vec_len all ≡ vec_len parts) }
    ensures each { IfOk result (λ all. AreWhole (vec_len parts) parts.items all.items) }
{
    let mut all = Vec::with_capacity(alloc, parts.len())?;
    for part in parts {
        all.push(part?)?;
    }
    Ok(all)
}

/// The parts that the workers decode, each in a thread of its own where there is one.
fn parts_of<R: Threads + Sync>(
    rt: &R,
    alloc: Global,
    log: &Log,
    workers: usize,
) -> Result<Vec<Result<Part, AllocError>>, AllocError>
    requires workers { 1 ≤ workers }
    requires log { IsDecodable log.now.entries }
    ensures len { IfOk result (λ parts. vec_len parts ≡ workers) }
    ensures each { IfOk result (λ parts. ArePartsIfOk log.now.entries workers parts.items) }
{
    thread::map_indices(
        rt,
        alloc,
        workers,
        &|worker| decode_part(alloc, log, workers, worker),
    )
}

/// The transactions of a log, or its first fault, by a number of workers of at least 1.
///
/// The log's conditions are those of `decode_log`, and so is the answer, but for `Memory`, which can
/// come here or there, whatever the log.
///
/// Each worker goes over the log and decodes the transactions whose xids are its own.
pub fn decode_all<R: Threads + Sync>(
    rt: &R,
    alloc: Global,
    log: &Log,
    workers: usize,
) -> Result<TransactionList, DecodeFault>
    requires workers { 1 ≤ workers }
    requires log { IsDecodable log.now.entries }
    ensures { IsDecoded log.now.entries result }
{
    let parts = parts_of(rt, alloc, log, workers)?;
    let parts = whole_parts(alloc, parts)?;
    merge(alloc, log, workers, parts)
}
