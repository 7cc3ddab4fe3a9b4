// Whole inputs and whole outputs.
ghost use Rattle.std.specs.Prelude.{◌<◌, IsErrOf, OnErr, OnOk, length};
ghost use Rattle.std.specs.Io.KnownBytes.{Appends};
ghost use Rattle.toast_io.specs.Faults.{NeverFalls, HasRisen};
ghost use Rattle.toast_io.specs.ReadAll.{TakesByAnswer};
ghost use Rattle.toast_io.specs.Sink.{AppendsPart};

use crate::{Bytes, Failed, ReadAllFault, Sink, Source};
use std::alloc::Global;

// A source is asked for so many bytes at a time.
const PIECE: usize = 65_536;

/// Reads a source to its end, if it has at most `limit` bytes left. It takes at most `limit + 1`
/// bytes, in pieces of at most 65,536, and no more after it has seen that there are too many.
///
/// Where there is no memory, bytes may have been taken.
pub fn read_all<S: Source>(alloc: Global, src: &mut S, limit: usize) -> Result<Bytes, ReadAllFault>
    requires { limit < usize.MAX }

    // Which bytes: all that were left at `Ok`, `limit + 1` exactly at `TooLong`, else at most `limit`.
    ensures bytes { TakesByAnswer limit (S.left src.old) (S.left src.new) result }

    ensures count { NeverFalls (S.faults src.old) (S.faults src.new) }
    ensures read_fault { IsErrOf result ReadAllFault.ReadFault → HasRisen (S.faults src.old) (S.faults src.new) }
{
    let mut piece = vec![in alloc; 0u8; PIECE.min(limit + 1)]?;
    read_by_pieces(alloc, src, &mut piece, limit)
}

// As `read_all`, by way of this buffer.
fn read_by_pieces<S: Source>(
    alloc: Global,
    src: &mut S,
    piece: &mut [u8],
    limit: usize,
) -> Result<Bytes, ReadAllFault>
    requires limit { limit < usize.MAX }
    requires piece { 0 < length piece.old }
    ensures bytes { TakesByAnswer limit (S.left src.old) (S.left src.new) result }
    ensures count { NeverFalls (S.faults src.old) (S.faults src.new) }
    ensures read_fault { IsErrOf result ReadAllFault.ReadFault → HasRisen (S.faults src.old) (S.faults src.new) }
{
    let mut bytes = Bytes::new(alloc);
    let mut room = limit;
    loop {
        let most = piece.len().min(room + 1);
        match src.read(&mut piece[..most]) {
            Ok(0) => return Ok(bytes),
            Ok(count) if count > room => return Err(ReadAllFault::TooLong),
            Ok(count) => {
                bytes.extend_from_slice(&piece[..count])?;
                room -= count;
            }
            Err(Failed) => return Err(ReadAllFault::ReadFault),
        }
    }
}

/// Writes all of `bytes`. After `Failed` a part of them may have been written, from the front on, and
/// never all.
pub fn write_all<K: Sink>(sink: &mut K, bytes: &[u8]) -> Result<(), Failed>
    ensures ok { OnOk result (Appends (K.written sink.old) (K.written sink.new) bytes.now) }
    ensures failed { OnErr result (AppendsPart (K.written sink.old) (K.written sink.new) bytes.now) }
    ensures count { NeverFalls (K.faults sink.old) (K.faults sink.new) }
    ensures cause { OnErr result (HasRisen (K.faults sink.old) (K.faults sink.new)) }
{
    let mut at = 0;
    while at < bytes.len() {
        let count = sink.write(&bytes[at..])?;
        at += count;
    }
    Ok(())
}
