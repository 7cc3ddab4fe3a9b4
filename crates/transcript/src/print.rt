//! Whole lines.

ghost use Rattle.std.specs.Prelude.{◌≡◌, ◌++◌, length, take, OnErr, OnOk};
ghost use Rattle.stream_wire.specs.Spelling.{IsInRange};
ghost use Rattle.transcript.specs.Lines.{message_line, reply_line, row_line};

use crate::put::{put_digits, put_reply, put_text, put_values};
use command_set::{Bytes, Reply, Row};
use list_facts::ListOf;
use std::alloc::{AllocError, Global};
use stream_wire::{Message, write_message};

fn put_reply_line(
    alloc: Global,
    session: u16,
    number: u32,
    reply: &Reply,
    out: &mut Bytes,
) -> Result<(), AllocError>
    ensures ok { OnOk result (out.new ≡ out.old ++ reply_line session number reply.now) }
    ensures kept { OnErr result (take (length out.old) out.new ≡ out.old) }
{
    let head = format!(in alloc; "s{session}.{number} ")?;
    put_text(head.as_str(), out)?;
    put_reply(alloc, reply, out)?;
    put_text("\n", out)
}

/// Appends the line of a session's command and the reply to it: `sN.M`, where M counts the session's
/// commands from 1, and the reply's words.
///
/// Where memory is missing `out` stays as it was.
pub fn print_reply(
    alloc: Global,
    session: u16,
    number: u32,
    reply: &Reply,
    out: &mut Bytes,
) -> Result<(), AllocError>
    ensures ok { OnOk result (out.new ≡ out.old ++ reply_line session number reply.now) }
    ensures err { OnErr result (out.new ≡ out.old) }
{
    let before = out.len();
    let printed = put_reply_line(alloc, session, number, reply, out);
    if printed.is_err() {
        out.truncate(before);
    }
    printed
}

fn put_message_line(alloc: Global, m: &Message, out: &mut Bytes) -> Result<(), AllocError>
    requires { IsInRange m.now }
    ensures ok { OnOk result (out.new ≡ out.old ++ message_line m.now) }
    ensures kept { OnErr result (take (length out.old) out.new ≡ out.old) }
{
    let mut bytes = ListOf::new(alloc);
    write_message(alloc, m, &mut bytes)?;
    put_text("msg ", out)?;
    put_digits(bytes.as_slice(), out)?;
    put_text("\n", out)
}

/// Appends the line of a message, which is within its ranges: `msg` and its bytes.
///
/// Where memory is missing `out` stays as it was.
pub fn print_message(alloc: Global, m: &Message, out: &mut Bytes) -> Result<(), AllocError>
    requires { IsInRange m.now }
    ensures ok { OnOk result (out.new ≡ out.old ++ message_line m.now) }
    ensures err { OnErr result (out.new ≡ out.old) }
{
    let before = out.len();
    let printed = put_message_line(alloc, m, out);
    if printed.is_err() {
        out.truncate(before);
    }
    printed
}

fn put_row_line(
    alloc: Global,
    table: u16,
    key: &i64,
    row: &Row,
    out: &mut Bytes,
) -> Result<(), AllocError>
    ensures ok { OnOk result (out.new ≡ out.old ++ row_line table key.now row.now) }
    ensures kept { OnErr result (take (length out.old) out.new ≡ out.old) }
{
    let head = format!(in alloc; "replica t{table} {key}")?;
    put_text(head.as_str(), out)?;
    put_values(row.as_slice(), out)?;
    put_text("\n", out)
}

/// Appends the line of a replica's row: `replica`, its table, its key and its values.
///
/// Where memory is missing `out` stays as it was.
pub fn print_row(
    alloc: Global,
    table: u16,
    key: i64,
    row: &Row,
    out: &mut Bytes,
) -> Result<(), AllocError>
    ensures ok { OnOk result (out.new ≡ out.old ++ row_line table key row.now) }
    ensures err { OnErr result (out.new ≡ out.old) }
{
    let before = out.len();
    let printed = put_row_line(alloc, table, &key, row, out);
    if printed.is_err() {
        out.truncate(before);
    }
    printed
}
