//! The parts of a line, added one after the other.
//!
//! Each function keeps what was there; at an error it may have added some bytes.

ghost use Rattle.std.specs.Prelude.{◌≡◌, ◌≤◌, ◌++◌, length, take, OnErr, OnOk, Some, codes};
ghost use Rattle.std.specs.Fmt.{decimal, signed_decimal};
ghost use Rattle.hex.specs.Hex.{encode_lower};
ghost use Rattle.transcript.specs.Lines.{reply_text, value_text, values_text};

use command_set::{Bytes, Reply};
use std::alloc::{AllocError, Global};

/// How many bytes are turned into digits at a time.
const PART: usize = 64;

/// Adds a text.
pub(crate) fn put_text(text: &str, out: &mut Bytes) -> Result<(), AllocError>
    ensures ok { OnOk result (out.new ≡ out.old ++ text.now) }
    ensures kept { OnErr result (take (length out.old) out.new ≡ out.old) }
{
    out.extend_from_slice(text.as_bytes())
}

/// Adds the digits of at most 64 bytes.
fn put_part(part: &[u8], out: &mut Bytes) -> Result<(), AllocError>
    requires { length part.now ≤ 64 }
    ensures ok { OnOk result (out.new ≡ out.old ++ encode_lower part.now) }
    ensures kept { OnErr result (take (length out.old) out.new ≡ out.old) }
{
    let mut room = [0; 2 * PART];
    let digits = &mut room[..2 * part.len()];
    hex::encode_to_slice(part, digits).unwrap();
    out.extend_from_slice(digits)
}

/// Adds the digits of bytes.
pub(crate) fn put_digits(bytes: &[u8], out: &mut Bytes) -> Result<(), AllocError>
    ensures ok { OnOk result (out.new ≡ out.old ++ encode_lower bytes.now) }
    ensures kept { OnErr result (take (length out.old) out.new ≡ out.old) }
{
    out.reserve(bytes.len().saturating_mul(2))?;
    let mut rest = bytes;
    while !rest.is_empty() {
        let (part, after) = rest.split_at(rest.len().min(PART));
        put_part(part, out)?;
        rest = after;
    }
    Ok(())
}

fn put_value(value: &Option<Bytes>, out: &mut Bytes) -> Result<(), AllocError>
    ensures ok { OnOk result (out.new ≡ out.old ++ value_text value.now) }
    ensures kept { OnErr result (take (length out.old) out.new ≡ out.old) }
{
    match value {
        Some(bytes) => put_bytes(bytes, out),
        None => put_text("null", out),
    }
}

fn put_bytes(bytes: &Bytes, out: &mut Bytes) -> Result<(), AllocError>
    ensures ok { OnOk result (out.new ≡ out.old ++ value_text (Some bytes.now)) }
    ensures kept { OnErr result (take (length out.old) out.new ≡ out.old) }
{
    put_text("x", out)?;
    put_digits(bytes.as_slice(), out)
}

/// Adds a row's values, each behind a space.
#[tactic(auto, using(stream_wire::proofs::Fronts::shorter_front))]
pub(crate) fn put_values(values: &[Option<Bytes>], out: &mut Bytes) -> Result<(), AllocError>
    ensures ok { OnOk result (out.new ≡ out.old ++ values_text values.now) }
    ensures kept { OnErr result (take (length out.old) out.new ≡ out.old) }
{
    for value in values {
        put_spaced(value, out)?;
    }
    Ok(())
}

fn put_spaced(value: &Option<Bytes>, out: &mut Bytes) -> Result<(), AllocError>
    ensures ok { OnOk result (out.new ≡ out.old ++ (codes " " ++ value_text value.now)) }
    ensures kept { OnErr result (take (length out.old) out.new ≡ out.old) }
{
    put_text(" ", out)?;
    put_value(value, out)
}

fn put_row(
    alloc: Global,
    key: &i64,
    values: &[Option<Bytes>],
    out: &mut Bytes,
) -> Result<(), AllocError>
    ensures ok { OnOk result (out.new ≡ out.old ++ (codes "row " ++ signed_decimal key.now ++ values_text values.now)) }
    ensures kept { OnErr result (take (length out.old) out.new ≡ out.old) }
{
    let head = format!(in alloc; "row {key}")?;
    put_text(head.as_str(), out)?;
    put_values(values, out)
}

fn put_numbered(alloc: Global, words: &str, number: u32, out: &mut Bytes) -> Result<(), AllocError>
    ensures ok { OnOk result (out.new ≡ out.old ++ (words.now ++ decimal number)) }
    ensures kept { OnErr result (take (length out.old) out.new ≡ out.old) }
{
    let text = format!(in alloc; "{words}{number}")?;
    put_text(text.as_str(), out)
}

/// Adds a reply's words.
pub(crate) fn put_reply(alloc: Global, reply: &Reply, out: &mut Bytes) -> Result<(), AllocError>
    ensures ok { OnOk result (out.new ≡ out.old ++ reply_text reply.now) }
    ensures kept { OnErr result (take (length out.old) out.new ≡ out.old) }
{
    match reply {
        Reply::Okay => put_text("ok", out),
        Reply::RolledBack => put_text("rolled back", out),
        Reply::Row { key, row } => put_row(alloc, key, row.as_slice(), out),
        Reply::Bytes(bytes) => {
            put_text("bytes ", out)?;
            put_bytes(bytes, out)
        }
        Reply::Null => put_text("null", out),
        Reply::Absent => put_text("none", out),
        Reply::Taken => put_text("taken", out),
        Reply::Busy { session } => put_numbered(alloc, "busy s", u32::from(*session), out),
        Reply::Changed => put_text("changed", out),
        Reply::Locked { session } => put_numbered(alloc, "locked s", u32::from(*session), out),
        Reply::Failed => put_text("failed", out),
        Reply::Outside => put_text("outside", out),
        Reply::Inside => put_text("inside", out),
        Reply::TooBig { size } => put_numbered(alloc, "too big ", *size, out),
        Reply::BadOffset => put_text("bad offset", out),
        Reply::NoHandle => put_text("no handle", out),
        Reply::HandleThere => put_text("handle there", out),
        Reply::NoValueId => put_text("no value id", out),
        Reply::Started => put_text("started", out),
        Reply::Done => put_text("done", out),
        Reply::Memory => put_text("want of memory", out),
    }
}
