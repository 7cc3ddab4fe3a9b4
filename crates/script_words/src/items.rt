//! The items of a schedule as words.

ghost use Rattle.std.specs.Prelude.{◌≡◌, ◌≤◌};
ghost use Rattle.script_words.specs.Items.{item_in, items_in};
ghost use Rattle.script_words.specs.Lines.{words};
ghost use Rattle.script_words.specs.Reading.{Gives};

use crate::fault::{LineFault, Refusal};
use crate::lines::{cut_at, next_word};
use crate::names::ordinal;
use crate::numbers::number;
use command_set::{Item, ItemList};
use std::alloc::Global;

// The item that a word spells, where there are so many sessions.
#[tactic(auto, unfolding(crate::specs::Items::item_in))]
fn item(sessions: usize, word: &[u8]) -> Result<Item, LineFault>
    requires { sessions ≤ 64 }
    ensures { result ≡ item_in sessions word.now }
{
    if let Some(word) = word.strip_suffix(b"!") {
        let session = ordinal(word, sessions)?;
        return Ok(Item::Whole { session });
    }
    if !word.contains(&b'*') {
        let session = ordinal(word, sessions)?;
        return Ok(Item::Once { session });
    }
    let (front, back) = cut_at(word, b'*');
    let session = ordinal(front, sessions)?;
    match number(back, 1, 100_000) {
        Some(count) => Ok(Item::Times {
            session,
            count: count as u32,
        }),
        None => Err(LineFault::BadName),
    }
}

/// The items that the words of a text spell.
///
/// # Errors
/// The first bad name, and want of memory.
pub fn items(alloc: Global, sessions: usize, text: &[u8]) -> Result<ItemList, Refusal>
    requires { sessions ≤ 64 }
    ensures { Gives result (items_in sessions (words text.now)) }
{
    let mut items = ItemList::new(alloc);
    let mut rest = text;
    'words: while let Some((word, others)) = next_word(rest) {
        let found = item(sessions, word)?;
        items.push(found)?;
        rest = others;
    }
    Ok(items)
}
