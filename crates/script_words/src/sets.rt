//! The columns that an update sets, as words.

ghost use Rattle.std.specs.Prelude.{◌≡◌, ◌≤◌, [], vec_len};
ghost use Rattle.script_words.specs.Lines.{words};
ghost use Rattle.script_words.specs.Reading.{Gives};
ghost use Rattle.script_words.specs.Sets.{is_set, set_in, sets_in, unset_in};

use crate::fault::{LineFault, Refusal};
use crate::lines::{cut_at, next_word};
use crate::names::ordinal;
use crate::values::value;
use command_set::{Set, SetList};
use std::alloc::Global;

// Whether a column is set.
fn is_set(sets: &[Set], column: u16) -> bool
    ensures { result ≡ is_set sets.now column }
{
    sets.iter().any(|set| set.column == column)
}

// One of so many columns that is not set yet.
#[tactic(auto, unfolding(crate::specs::Sets::unset_in))]
fn unset_column(columns: usize, sets: &[Set], word: &[u8]) -> Result<u16, LineFault>
    requires { columns ≤ 8 }
    ensures { result ≡ unset_in columns sets.now word.now }
{
    let column = ordinal(word, columns)?;
    if is_set(sets, column) {
        return Err(LineFault::BadName);
    }
    Ok(column)
}

// The column and its value that a word spells, where these columns are set already.
#[tactic(auto, unfolding(crate::specs::Sets::set_in))]
fn set(alloc: Global, columns: usize, sets: &[Set], word: &[u8]) -> Result<Set, Refusal>
    requires { columns ≤ 8 }
    ensures { Gives result (set_in columns sets.now word.now) }
{
    if !word.contains(&b'=') {
        return Err(Refusal::Fault(LineFault::BadName));
    }
    let (front, back) = cut_at(word, b'=');
    let column = unset_column(columns, sets, front)?;
    let value = value(alloc, back)?;
    Ok(Set { column, value })
}

/// The columns of so many, and their values, that the words of a text spell.
///
/// # Errors
/// A bad name for a column, for one that is set already and for a word without `=`; a bad value; want of memory.
pub fn sets(alloc: Global, columns: usize, text: &[u8]) -> Result<SetList, Refusal>
    requires { columns ≤ 8 }
    ensures { Gives result (sets_in columns [] (words text.now)) }
{
    let mut sets = SetList::new(alloc);
    let mut rest = text;
    'words: while let Some((word, others)) = next_word(rest) {
        let found = set(alloc, columns, sets.as_slice(), word)?;
        sets.push(found)?;
        rest = others;
    }
    Ok(sets)
}
