//! Reading the datum at the front of a buffer.

ghost use Rattle.std.specs.Prelude.{◌≡◌, ◌≤◌, ℕ, ◌<◌, ◌%◌, ◌++◌, List, length, slice_index, IfOk, IfErr, IsOkAnd, MatchResult};
ghost use Rattle.varlena_form.specs.Spelling.{Datum, HasSpelling, spelling, datum, BeginsWith};
ghost use Rattle.varlena_form.specs.Fault.{IsFault};
ghost use Rattle.varlena_form.specs.declared.fault.FormFault.{FormFault};

use crate::datum::Form;
use crate::fault::FormFault;

/// The first byte of an external datum.
const EXTERNAL: u8 = 1;

/// The tag of a pointer on disk, the only kind of external datum that is read.
const ON_DISK: u8 = 18;

/// How many bytes a pointer on disk takes, its header and tag counted.
const POINTER_SIZE: usize = 18;

/// Reads an external datum.
fn parse_external(bytes: &[u8]) -> Result<(Form<'_>, usize), FormFault>
    requires some { 1 ≤ length bytes.now }
    requires external { slice_index bytes.now 0 ≡ 1 }
    ensures found { IfOk result (λ found. BeginsWith bytes.now (datum found.0) found.1) }
    ensures fault { IfErr result (IsFault bytes.now) }
{
    let have = bytes.len();
    if have < 2 {
        return Err(FormFault::Truncated { need: 2, have });
    }
    let tag = bytes[1];
    if tag != ON_DISK {
        return Err(FormFault::BadTag { tag });
    }
    if have < POINTER_SIZE {
        return Err(FormFault::Truncated {
            need: POINTER_SIZE,
            have,
        });
    }
    Ok((Form::External(&bytes[..POINTER_SIZE]), POINTER_SIZE))
}

/// Reads a datum with a header of one byte.
fn parse_short(bytes: &[u8]) -> Result<(Form<'_>, usize), FormFault>
    requires some { 1 ≤ length bytes.now }
    requires inline { slice_index bytes.now 0 ≡ 1 → ⊥ }
    requires odd { slice_index bytes.now 0 % 2 ≡ 1 }
    ensures found { IfOk result (λ found. BeginsWith bytes.now (datum found.0) found.1) }
    ensures fault { IfErr result (IsFault bytes.now) }
{
    let have = bytes.len();
    let length = (bytes[0] >> 1) as usize;
    if have < length {
        return Err(FormFault::Truncated { need: length, have });
    }
    Ok((Form::Short(&bytes[1..length]), length))
}

/// Reads a datum with a header of four bytes.
fn parse_long(bytes: &[u8]) -> Result<(Form<'_>, usize), FormFault>
    requires some { 1 ≤ length bytes.now }
    requires even { slice_index bytes.now 0 % 2 ≡ 0 }
    ensures found { IfOk result (λ found. BeginsWith bytes.now (datum found.0) found.1) }
    ensures fault { IfErr result (IsFault bytes.now) }
{
    let have = bytes.len();
    if have < 4 {
        return Err(FormFault::Truncated { need: 4, have });
    }
    let header = u32::from_le_bytes([bytes[0], bytes[1], bytes[2], bytes[3]]);
    let length = header >> 2;
    if length < 4 {
        return Err(FormFault::BadLength { length });
    }
    let end = length as usize;
    if have < end {
        return Err(FormFault::Truncated { need: end, have });
    }
    let payload = &bytes[4..end];
    if header & 0b11 == 0 {
        Ok((Form::Plain(payload), end))
    } else {
        Ok((Form::Compressed(payload), end))
    }
}

/// Reads the datum that begins with the byte `first`.
fn parse_by_header(bytes: &[u8], first: u8) -> Result<(Form<'_>, usize), FormFault>
    requires some { 1 ≤ length bytes.now }
    requires first { slice_index bytes.now 0 ≡ first }
    ensures found { IfOk result (λ found. BeginsWith bytes.now (datum found.0) found.1) }
    ensures within { IfOk result (λ found. found.1 ≤ length bytes.now) }
    ensures fault { IfErr result (IsFault bytes.now) }
{
    let found = if first == EXTERNAL {
        parse_external(bytes)?
    } else if first % 2 == 1 {
        parse_short(bytes)?
    } else {
        parse_long(bytes)?
    };
    Ok(found)
}

/// Reads the datum at the front of `bytes`, and how many bytes it takes. Bytes may follow it.
///
/// The payload is that of the datum; of an external one it is all 18 bytes. A fault is the first
/// check that fails: the header, then the tag of an external datum or the length in a header of
/// four bytes, then the rest.
pub fn parse_form(bytes: &[u8]) -> Result<(Form<'_>, usize), FormFault>
    // What is found stands at the front, and what stands at the front is found.
    ensures found { IfOk result (λ found. BeginsWith bytes.now (datum found.0) found.1) }
    ensures only { (d : Datum) (n : ℕ) → BeginsWith bytes.now d n → IsOkAnd result (λ found. (datum found.0 ≡ d) × (found.1 ≡ n)) }
    ensures within { IfOk result (λ found. found.1 ≤ length bytes.now) }

    // Each fault comes exactly where its check is the first that fails.
    ensures fault { IfErr result (IsFault bytes.now) }
    ensures fault_only { (f : FormFault) → IsFault bytes.now f → result ≡ Err f }

    // The round trip: a datum that was written is read again, whatever follows it.
    ensures again { (d : Datum) (rest : List ℕ) → HasSpelling d → bytes.now ≡ spelling d ++ rest → IsOkAnd result (λ found. (datum found.0 ≡ d) × (found.1 ≡ length (spelling d))) }
{
    match bytes.first() {
        Some(first) => parse_by_header(bytes, *first),
        None => Err(FormFault::Truncated { need: 1, have: 0 }),
    }
}
