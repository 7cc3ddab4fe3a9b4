//! Numbers as words.

ghost use Rattle.std.specs.Prelude.{◌≡◌, ◌<◌, ◌≤◌, ◌≤ℤ◌, ◌<ℤ◌, ◌^◌, neg_ℤ, pos, IfSome, IsTrue};
ghost use Rattle.std.specs.List.{list_all};
ghost use Rattle.std.specs.Char.{is_ascii_digit};
ghost use Rattle.std.specs.Str.Parse.{digits_value};
ghost use Rattle.script_words.specs.Numbers.{is_led, key_in, number_in, offset_in, signed_in, up_to};

use crate::fault::LineFault;

// Whether a word has a first byte, which is `0` only where it stands alone.
fn is_led_well(word: &[u8]) -> bool
    ensures { result ≡ is_led word.now }
{
    match word {
        [] => false,
        [_] => true,
        [first, ..] => *first != b'0',
    }
}

// Whether every byte of a word is a decimal digit.
fn are_digits(word: &[u8]) -> bool
    ensures { result ≡ list_all is_ascii_digit word.now }
{
    word.iter().all(|byte| byte.is_ascii_digit())
}

// The number that digits write, if it is at most `high`.
fn value_up_to(digits: &[u8], high: u64) -> Option<u64>
    requires digits { IsTrue (list_all is_ascii_digit digits.now) }
    requires high { high ≤ 2 ^ 63 }
    ensures value { result ≡ up_to high (digits_value 10 digits.now) }
    ensures within { IfSome result (λ n. n ≤ high) }
{
    let mut number = 0;
    for digit in digits {
        if number > high / 10 {
            return None;
        }
        number = number * 10 + u64::from(*digit - b'0');
    }
    (number <= high).then_some(number)
}

/// The number from `low` to `high` that a word spells.
#[tactic(auto, unfolding(crate::specs::Numbers::number_in))]
pub fn number(word: &[u8], low: u64, high: u64) -> Option<u64>
    requires { high ≤ 2 ^ 63 }
    ensures value { result ≡ number_in low high word.now }
    ensures within { IfSome result (λ n. (low ≤ n) × (n ≤ high)) }
{
    if !is_led_well(word) || !are_digits(word) {
        return None;
    }
    let number = value_up_to(word, high)?;
    (low <= number).then_some(number)
}

// The number below zero with this distance from it.
fn negative(number: u64) -> i64
    requires above { 0 < number }
    requires within { number ≤ 2 ^ 63 }
    ensures { result ≡ neg_ℤ (pos number) }
{
    -((number - 1) as i64) - 1
}

// The number from `-half` to `half - 1` that a word spells.
#[tactic(auto, unfolding(crate::specs::Numbers::signed_in))]
fn signed(word: &[u8], half: u64) -> Option<i64>
    requires some { 0 < half }
    requires most { half ≤ 2 ^ 63 }
    ensures value { result ≡ signed_in half word.now }
    ensures within { IfSome result (λ n. (neg_ℤ (pos half) ≤ℤ n) × (n <ℤ pos half)) }
{
    match word.strip_prefix(b"-") {
        Some(digits) => Some(negative(number(digits, 1, half)?)),
        None => Some(number(word, 0, half - 1)? as i64),
    }
}

/// The key that a word spells.
///
/// # Errors
/// A bad number.
pub fn key(word: &[u8]) -> Result<i64, LineFault>
    ensures { result ≡ key_in word.now }
{
    signed(word, 1 << 63).ok_or(LineFault::BadNumber)
}

/// The offset or the length that a word spells.
///
/// # Errors
/// A bad number.
pub fn offset(word: &[u8]) -> Result<i32, LineFault>
    ensures { result ≡ offset_in word.now }
{
    match signed(word, 1 << 31) {
        Some(offset) => Ok(offset as i32),
        None => Err(LineFault::BadNumber),
    }
}
