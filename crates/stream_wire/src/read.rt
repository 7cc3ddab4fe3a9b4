//! Reading the message at the front of bytes.

ghost use Rattle.std.specs.Prelude.{◌≡◌, ◌≤◌, ℕ, ◌++◌, List, length, IfNone, IfOk, IfSome, IsSomeAnd};
ghost use Rattle.std.specs.Int.{w16, w32, w64};
ghost use Rattle.stream_wire.specs.Spelling.{BeginsWith, HasSpelling, spelling};
ghost use Rattle.stream_wire.specs.Reading.{Gives, number_at, ranged_at, key_at, value_at, column_at, columns_at, row_at, numbered_at, change_at, move_at, delete_at, message_at};
ghost use Rattle.stream_wire.specs.declared.message.Message.{Message};

use crate::message::{Message, Sent, SentList};
use list_facts::ListOf;
use std::alloc::{AllocError, Global};

/// Why nothing is read.
#[derive(Clone, Copy, Debug, PartialEq, Eq)]
pub(crate) enum Refused {
    /// The bytes do not begin with a message.
    NoMessage,
    /// No memory was left.
    Memory,
}

impl From<AllocError> for Refused {
    ghost use Rattle.stream_wire.specs.declared.read.Refused.TheVariants.{Memory};

    ghost from_gives = { λ _ refused. refused ≡ Memory };

    fn from(_: AllocError) -> Self {
        Refused::Memory
    }
}

fn u16_at(bytes: &[u8]) -> Result<(u16, &[u8]), Refused>
    ensures { Gives (λ x. (x.0, x.1.now)) result (number_at w16 bytes.now) }
{
    if bytes.len() < 2 {
        return Err(Refused::NoMessage);
    }
    let (front, rest) = bytes.split_at(2);
    Ok((u16::from_be_bytes([front[0], front[1]]), rest))
}

fn u32_at(bytes: &[u8]) -> Result<(u32, &[u8]), Refused>
    ensures { Gives (λ x. (x.0, x.1.now)) result (number_at w32 bytes.now) }
{
    if bytes.len() < 4 {
        return Err(Refused::NoMessage);
    }
    let (front, rest) = bytes.split_at(4);
    let number = u32::from_be_bytes([front[0], front[1], front[2], front[3]]);
    Ok((number, rest))
}

fn u64_at(bytes: &[u8]) -> Result<(u64, &[u8]), Refused>
    ensures { Gives (λ x. (x.0, x.1.now)) result (number_at w64 bytes.now) }
{
    if bytes.len() < 8 {
        return Err(Refused::NoMessage);
    }
    let (front, rest) = bytes.split_at(8);
    let number = u64::from_be_bytes([
        front[0], front[1], front[2], front[3], front[4], front[5], front[6], front[7],
    ]);
    Ok((number, rest))
}

/// Reads a key, in two's complement.
#[tactic(auto, unfolding(crate::specs::Reading::key_at))]
fn read_key(bytes: &[u8]) -> Result<(i64, &[u8]), Refused>
    ensures { Gives (λ x. (x.0, x.1.now)) result (key_at bytes.now) }
{
    let (number, rest) = u64_at(bytes)?;
    Ok((number.cast_signed(), rest))
}

/// Reads a number of two bytes, from 1 to `high`.
#[tactic(auto, unfolding(crate::specs::Reading::ranged_at))]
fn read_small(bytes: &[u8], high: u16) -> Result<(u16, &[u8]), Refused>
    ensures { Gives (λ x. (x.0, x.1.now)) result (ranged_at w16 1 high bytes.now) }
{
    let (number, rest) = u16_at(bytes)?;
    if number < 1 || number > high {
        return Err(Refused::NoMessage);
    }
    Ok((number, rest))
}

/// Reads a number of four bytes, from `low` to `high`.
#[tactic(auto, unfolding(crate::specs::Reading::ranged_at))]
fn read_number(bytes: &[u8], low: u32, high: u32) -> Result<(u32, &[u8]), Refused>
    ensures { Gives (λ x. (x.0, x.1.now)) result (ranged_at w32 low high bytes.now) }
{
    let (number, rest) = u32_at(bytes)?;
    if number < low || number > high {
        return Err(Refused::NoMessage);
    }
    Ok((number, rest))
}

/// Reads a value: its length and its bytes.
#[tactic(auto, unfolding(crate::specs::Reading::value_at))]
fn read_value(alloc: Global, bytes: &[u8]) -> Result<(Sent, &[u8]), Refused>
    ensures { Gives (λ x. (x.0, x.1.now)) result (value_at bytes.now) }
{
    let (length, rest) = read_number(bytes, 0, 65_536)?;
    let length = length as usize;
    if rest.len() < length {
        return Err(Refused::NoMessage);
    }
    let (value, rest) = rest.split_at(length);
    let value = ListOf::from_slice(alloc, value)?;
    Ok((Sent::Value(value), rest))
}

/// Reads a column.
#[tactic(auto, unfolding(crate::specs::Reading::column_at))]
fn read_column(alloc: Global, bytes: &[u8]) -> Result<(Sent, &[u8]), Refused>
    ensures { Gives (λ x. (x.0, x.1.now)) result (column_at bytes.now) }
{
    match bytes {
        [b'n', rest @ ..] => Ok((Sent::Null, rest)),
        [b'u', rest @ ..] => Ok((Sent::Unchanged, rest)),
        [b'b', rest @ ..] => read_value(alloc, rest),
        _ => Err(Refused::NoMessage),
    }
}

/// Reads so many columns.
fn read_columns(alloc: Global, bytes: &[u8], count: u16) -> Result<(SentList, &[u8]), Refused>
    ensures { Gives (λ x. (x.0, x.1.now)) result (columns_at count bytes.now) }
{
    let mut columns = ListOf::new(alloc);
    let mut rest = bytes;
    for _ in 0..count {
        let (column, after) = read_column(alloc, rest)?;
        columns.push(column)?;
        rest = after;
    }
    Ok((columns, rest))
}

/// Reads the count of columns and the columns.
#[tactic(auto, unfolding(crate::specs::Reading::row_at))]
fn read_row(alloc: Global, bytes: &[u8]) -> Result<(SentList, &[u8]), Refused>
    ensures { Gives (λ x. (x.0, x.1.now)) result (row_at bytes.now) }
{
    let (count, rest) = read_small(bytes, 8)?;
    read_columns(alloc, rest, count)
}

#[tactic(auto, unfolding(crate::specs::Reading::numbered_at))]
fn read_begin(bytes: &[u8]) -> Result<(Message, &[u8]), Refused>
    ensures { Gives (λ x. (x.0, x.1.now)) result (numbered_at Message.Begin bytes.now) }
{
    let (number, rest) = read_number(bytes, 1, u32::MAX)?;
    Ok((Message::Begin { number }, rest))
}

#[tactic(auto, unfolding(crate::specs::Reading::change_at))]
fn read_insert(alloc: Global, bytes: &[u8]) -> Result<(Message, &[u8]), Refused>
    ensures { Gives (λ x. (x.0, x.1.now)) result (change_at Message.Insert bytes.now) }
{
    let (table, rest) = read_small(bytes, 16)?;
    let (key, rest) = read_key(rest)?;
    let (columns, rest) = read_row(alloc, rest)?;
    let message = Message::Insert {
        table,
        key,
        columns,
    };
    Ok((message, rest))
}

#[tactic(auto, unfolding(crate::specs::Reading::change_at))]
fn read_update(alloc: Global, bytes: &[u8]) -> Result<(Message, &[u8]), Refused>
    ensures { Gives (λ x. (x.0, x.1.now)) result (change_at Message.Update bytes.now) }
{
    let (table, rest) = read_small(bytes, 16)?;
    let (key, rest) = read_key(rest)?;
    let (columns, rest) = read_row(alloc, rest)?;
    let message = Message::Update {
        table,
        key,
        columns,
    };
    Ok((message, rest))
}

#[tactic(auto, unfolding(crate::specs::Reading::move_at))]
fn read_move(alloc: Global, bytes: &[u8]) -> Result<(Message, &[u8]), Refused>
    ensures { Gives (λ x. (x.0, x.1.now)) result (move_at bytes.now) }
{
    let (table, rest) = read_small(bytes, 16)?;
    let (from, rest) = read_key(rest)?;
    let (to, rest) = read_key(rest)?;
    let (columns, rest) = read_row(alloc, rest)?;
    let message = Message::Move {
        table,
        from,
        to,
        columns,
    };
    Ok((message, rest))
}

#[tactic(auto, unfolding(crate::specs::Reading::delete_at))]
fn read_delete(bytes: &[u8]) -> Result<(Message, &[u8]), Refused>
    ensures { Gives (λ x. (x.0, x.1.now)) result (delete_at bytes.now) }
{
    let (table, rest) = read_small(bytes, 16)?;
    let (key, rest) = read_key(rest)?;
    Ok((Message::Delete { table, key }, rest))
}

#[tactic(auto, unfolding(crate::specs::Reading::numbered_at))]
fn read_commit(bytes: &[u8]) -> Result<(Message, &[u8]), Refused>
    ensures { Gives (λ x. (x.0, x.1.now)) result (numbered_at Message.Commit bytes.now) }
{
    let (number, rest) = read_number(bytes, 1, u32::MAX)?;
    Ok((Message::Commit { number }, rest))
}

/// Reads a message, and gives the bytes after it.
#[tactic(auto, unfolding(crate::specs::Reading::message_at))]
fn read_front(alloc: Global, bytes: &[u8]) -> Result<(Message, &[u8]), Refused>
    ensures { Gives (λ x. (x.0, x.1.now)) result (message_at bytes.now) }
{
    match bytes {
        [b'B', rest @ ..] => read_begin(rest),
        [b'I', rest @ ..] => read_insert(alloc, rest),
        [b'U', rest @ ..] => read_update(alloc, rest),
        [b'K', rest @ ..] => read_move(alloc, rest),
        [b'D', rest @ ..] => read_delete(rest),
        [b'C', rest @ ..] => read_commit(rest),
        _ => Err(Refused::NoMessage),
    }
}

/// Reads the message at the front of `bytes`, and how many bytes it takes. Bytes may follow it.
///
/// `None` says that the bytes do not begin with a message, whole and within its ranges.
pub fn read_message(alloc: Global, bytes: &[u8]) -> Result<Option<(Message, usize)>, AllocError>
    // What is found stands at the front, and what stands at the front is found.
    ensures found { IfOk result (λ read. IfSome read (λ found. BeginsWith bytes.now found.0 found.1)) }
    ensures only { (m : Message) (n : ℕ) → BeginsWith bytes.now m n → IfOk result (λ read. IsSomeAnd read (λ found. (found.0 ≡ m) × (found.1 ≡ n))) }
    ensures within { IfOk result (λ read. IfSome read (λ found. found.1 ≤ length bytes.now)) }

    // Nothing is found exactly where no message stands at the front.
    ensures none { IfOk result (λ read. IfNone read ((m : Message) (n : ℕ) → ¬ (BeginsWith bytes.now m n))) }

    // The round trip: a message that was written is read again, whatever follows it.
    ensures again { (m : Message) (rest : List ℕ) → HasSpelling m → bytes.now ≡ spelling m ++ rest → IfOk result (λ read. IsSomeAnd read (λ found. (found.0 ≡ m) × (found.1 ≡ length (spelling m)))) }
{
    match read_front(alloc, bytes) {
        Ok((message, rest)) => Ok(Some((message, bytes.len() - rest.len()))),
        Err(Refused::NoMessage) => Ok(None),
        Err(Refused::Memory) => Err(AllocError),
    }
}
