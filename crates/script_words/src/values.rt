//! Values as words.

ghost use Rattle.std.specs.Prelude.{◌≡◌, ◌≤◌, ◌+◌, ◌%◌, IfOk, map};
ghost use Rattle.std.specs.List.{range_with_len};
ghost use Rattle.script_words.specs.Lines.{words};
ghost use Rattle.script_words.specs.Reading.{Gives};
ghost use Rattle.script_words.specs.Values.{cycle_in, hex_in, value_in, values_in};

use crate::fault::{LineFault, Refusal};
use crate::lines::{cut_at, next_word};
use crate::numbers::number;
use command_set::{Bytes, Row};
use hex::FromHexError;
use std::alloc::{AllocError, Global};

// The most digits that a value's hexadecimal text has.
const MOST_DIGITS: usize = 131_072;

// The bytes that hexadecimal digits spell.
#[tactic(auto, unfolding(crate::specs::Values::hex_in))]
fn hex_bytes(alloc: Global, digits: &[u8]) -> Result<Bytes, Refusal>
    ensures { Gives result (hex_in digits.now) }
{
    if digits.len() > MOST_DIGITS {
        return Err(Refusal::Fault(LineFault::BadValue));
    }
    match hex::decode(alloc, digits) {
        Ok(bytes) => Ok(Bytes::from_vec(bytes)),
        Err(FromHexError::OutOfMemory) => Err(Refusal::Memory),
        Err(_) => Err(Refusal::Fault(LineFault::BadValue)),
    }
}

// So many bytes that count up from a start and begin again with 0 after 250.
fn cycle_bytes(alloc: Global, len: u32, start: u32) -> Result<Vec<u8>, AllocError>
    requires { start ≤ 250 }
    ensures { IfOk result (λ bytes. bytes.items ≡ map (λ i. (start + i) % 251) (range_with_len 0 len)) }
{
    (0..len)
        .map(|i| ((u64::from(start) + u64::from(i)) % 251) as u8)
        .collect(alloc)
}

// The bytes that a length, a dot and a start spell.
#[tactic(auto, unfolding(crate::specs::Values::cycle_in))]
fn spelled_cycle(alloc: Global, word: &[u8]) -> Result<Bytes, Refusal>
    ensures { Gives result (cycle_in word.now) }
{
    let (front, back) = cut_at(word, b'.');
    let Some(len) = number(front, 0, 65_536) else {
        return Err(Refusal::Fault(LineFault::BadValue));
    };
    let Some(start) = number(back, 0, 250) else {
        return Err(Refusal::Fault(LineFault::BadValue));
    };
    let bytes = cycle_bytes(alloc, len as u32, start as u32)?;
    Ok(Bytes::from_vec(bytes))
}

/// The value that a word spells.
///
/// # Errors
/// A bad value, and want of memory.
#[tactic(auto, unfolding(crate::specs::Values::value_in))]
pub(crate) fn value(alloc: Global, word: &[u8]) -> Result<Option<Bytes>, Refusal>
    ensures { Gives result (value_in word.now) }
{
    if word == b"null".as_slice() {
        return Ok(None);
    }
    if let Some(digits) = word.strip_prefix(b"x") {
        let bytes = hex_bytes(alloc, digits)?;
        return Ok(Some(bytes));
    }
    if let Some(rest) = word.strip_prefix(b"c") {
        let bytes = spelled_cycle(alloc, rest)?;
        return Ok(Some(bytes));
    }
    Err(Refusal::Fault(LineFault::BadValue))
}

/// The values that the words of a text spell.
///
/// # Errors
/// The first bad value, and want of memory.
pub fn values(alloc: Global, text: &[u8]) -> Result<Row, Refusal>
    ensures { Gives result (values_in (words text.now)) }
{
    let mut row = Row::new(alloc);
    let mut rest = text;
    'words: while let Some((word, others)) = next_word(rest) {
        let found = value(alloc, word)?;
        row.push(found)?;
        rest = others;
    }
    Ok(row)
}
