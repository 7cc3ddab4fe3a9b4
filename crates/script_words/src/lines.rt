//! Lines, and the words of a line.

ghost use Rattle.std.specs.Prelude.{◌≡◌, ◌<◌, ◌≤◌, ◌==◌, ◌∷◌, [], IfSome, MatchOption, length};
ghost use Rattle.std.specs.List.{after_first, before_first, position_from, position_or_len};
ghost use Rattle.script_words.specs.Lines.{content, is_blank, is_solid, lines, without_return, words};

use memchr::{memchr, memchr2};

// Where a byte first stands, if it is there.
fn find_byte(bytes: &[u8], byte: u8) -> Option<usize>
    ensures { result ≡ position_from (λ b. b == byte) 0 bytes.now }
{
    memchr(byte, bytes)
}

// Where a byte first stands, or the number of bytes.
fn place_of(bytes: &[u8], byte: u8) -> usize
    ensures place { result ≡ position_or_len (λ b. b == byte) bytes.now }
    ensures within { result ≤ length bytes.now }
{
    find_byte(bytes, byte).unwrap_or(bytes.len())
}

/// What stands before a byte, and what behind it; all and nothing where the byte is not there.
pub(crate) fn cut_at(bytes: &[u8], byte: u8) -> (&[u8], &[u8])
    ensures front { result.0.now ≡ before_first (λ b. b == byte) bytes.now }
    ensures back { result.1.now ≡ after_first (λ b. b == byte) bytes.now }
{
    let end = place_of(bytes, byte);
    if end < bytes.len() {
        (&bytes[..end], &bytes[end + 1..])
    } else {
        (bytes, &bytes[bytes.len()..])
    }
}

/// The first line, and what follows its line feed.
pub fn cut_line(bytes: &[u8]) -> (&[u8], &[u8])
    requires { 0 < length bytes.now }
    ensures cut { lines bytes.now ≡ result.0.now ∷ lines result.1.now }
    ensures shorter { length result.1.now < length bytes.now }
{
    cut_at(bytes, b'\n')
}

// A line without the carriage return at its end.
fn before_return(line: &[u8]) -> &[u8]
    ensures { result.now ≡ without_return line.now }
{
    match line.strip_suffix(b"\r") {
        Some(front) => front,
        None => line,
    }
}

/// A line without its carriage return and its comment.
#[tactic(auto, unfolding(crate::specs::Lines::content))]
pub fn content_of(line: &[u8]) -> &[u8]
    ensures { result.now ≡ content line.now }
{
    let (front, _) = cut_at(before_return(line), b'#');
    front
}

// Where the first blank stands, if there is one.
fn find_blank(text: &[u8]) -> Option<usize>
    ensures { result ≡ position_from is_blank 0 text.now }
{
    memchr2(b' ', b'\t', text)
}

// Where the first blank stands, or the number of bytes.
fn first_blank(text: &[u8]) -> usize
    ensures place { result ≡ position_or_len is_blank text.now }
    ensures within { result ≤ length text.now }
{
    find_blank(text).unwrap_or(text.len())
}

// Where the first byte stands that is no blank, if there is one.
fn find_solid(text: &[u8]) -> Option<usize>
    ensures { result ≡ position_from is_solid 0 text.now }
{
    text.iter().position(|b| !(*b == b' ' || *b == b'\t'))
}

// Where the first byte stands that is no blank, or the number of bytes.
fn first_solid(text: &[u8]) -> usize
    ensures place { result ≡ position_or_len is_solid text.now }
    ensures within { result ≤ length text.now }
{
    find_solid(text).unwrap_or(text.len())
}

/// The first word, and the text behind it.
pub fn next_word(text: &[u8]) -> Option<(&[u8], &[u8])>
    ensures found { MatchOption result (words text.now ≡ []) (λ p. words text.now ≡ p.0.now ∷ words p.1.now) }
    ensures shorter { IfSome result (λ p. length p.1.now < length text.now) }
{
    let start = first_solid(text);
    if start == text.len() {
        return None;
    }
    let (_, found) = text.split_at(start);
    let (word, rest) = found.split_at(first_blank(found));
    Some((word, rest))
}

/// The number of words.
pub fn word_count(text: &[u8]) -> usize
    ensures { result ≡ length (words text.now) }
{
    let mut count = 0;
    let mut rest = text;
    'words: while let Some((_, others)) = next_word(rest) {
        count += 1;
        rest = others;
    }
    count
}
