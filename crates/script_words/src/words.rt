//! Words of a number that is given.

ghost use Rattle.std.specs.Prelude.{◌≡◌, ◌<◌, ◌≤◌, [], length, take};
ghost use Rattle.script_words.specs.Lines.{words};
ghost use Rattle.script_words.specs.Reading.{Finds};
ghost use Rattle.script_words.specs.Words.{counted, first_of, first_of_all, leading, lent, word_at};

use crate::fault::LineFault;
use crate::lines::{next_word, word_count};

/// No words.
///
/// # Errors
/// A wrong number of words.
pub fn no_words(text: &[u8]) -> Result<(), LineFault>
    ensures { Finds (λ _. []) result (counted 0 (words text.now)) }
{
    match next_word(text) {
        None => Ok(()),
        Some(_) => Err(LineFault::WordCount),
    }
}

/// Up to five words; the places behind them are empty.
#[derive(Clone, Copy, Drop)]
pub struct Words<'a> {
    pub places: [&'a [u8]; 5],
}

impl<'a> Words<'a> {
    /// The word at a place, from 0.
    pub fn at(&self, place: usize) -> &'a [u8]
        requires { place < 5 }
        ensures { result.now ≡ word_at (lent self.now.places) place }
    {
        self.places[place]
    }
}

/// So many words at the front, up to five, and the text behind them.
///
/// # Errors
/// A wrong number of words.
pub fn leading_words(text: &[u8], count: usize) -> Result<(Words<'_>, &[u8]), LineFault>
    requires { count ≤ 5 }
    ensures { Finds (λ p. (take count (lent p.0.places), words p.1.now)) result (leading count (words text.now)) }
{
    let mut places = [&text[..0]; 5];
    let mut rest = text;
    for i in 0..count {
        let (word, others) = first_word(rest)?;
        places[i] = word;
        rest = others;
    }
    Ok((Words { places }, rest))
}

/// So many words, up to five.
///
/// # Errors
/// A wrong number of words.
pub fn words_of(text: &[u8], count: usize) -> Result<Words<'_>, LineFault>
    requires { count ≤ 5 }
    ensures { Finds (λ found. take count (lent found.places)) result (counted count (words text.now)) }
{
    let (found, rest) = leading_words(text, count)?;
    no_words(rest)?;
    Ok(found)
}

/// The first word, and the text behind it.
///
/// # Errors
/// A wrong number of words.
pub fn first_word(text: &[u8]) -> Result<(&[u8], &[u8]), LineFault>
    ensures { Finds (λ p. (p.0.now, words p.1.now)) result (first_of (words text.now)) }
{
    next_word(text).ok_or(LineFault::WordCount)
}

/// The first of so many words, and the text behind it.
///
/// # Errors
/// A wrong number of words.
pub fn first_word_of(text: &[u8], count: usize) -> Result<(&[u8], &[u8]), LineFault>
    ensures { Finds (λ p. (p.0.now, words p.1.now)) result (first_of_all count (words text.now)) }
{
    if word_count(text) != count {
        return Err(LineFault::WordCount);
    }
    first_word(text)
}
