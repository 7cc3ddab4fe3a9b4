//! How words are read.

ghost use Rattle.std.specs.Prelude.{◌≡◌};
ghost use Rattle.command_words.specs.Commands.{alone_in, command_in, numbered_in};

use crate::CommandWords;
use script_words::numbers::number;
use toast_io::BytesList;

/// The command that the words of a command line, without the program's name, are: `replay`, `run`, or
/// `make N` where N is from 1 to 1,000, in decimal without sign or leading zero. All else is none.
pub fn read_words(words: &BytesList) -> Option<CommandWords>
    ensures { result ≡ command_in words.now }
{
    match words.as_slice() {
        [word] => read_alone(word.as_slice()),
        [word, number] => read_numbered(word.as_slice(), number.as_slice()),
        _ => None,
    }
}

// The command that one word is.
fn read_alone(word: &[u8]) -> Option<CommandWords>
    ensures { result ≡ alone_in word.now }
{
    if word == b"replay".as_slice() {
        return Some(CommandWords::Replay);
    }
    if word == b"run".as_slice() {
        return Some(CommandWords::Run);
    }
    None
}

// The command that a word with a number behind it is.
fn read_numbered(word: &[u8], count: &[u8]) -> Option<CommandWords>
    ensures { result ≡ numbered_in word.now count.now }
{
    if word != b"make".as_slice() {
        return None;
    }
    let keys = number(count, 1, 1000)?;
    Some(CommandWords::Make(keys as u32))
}
