//! Writing a message at the end of bytes.

ghost use Rattle.std.specs.Prelude.{◌≡◌, ◌≤◌, ◌<◌, ◌++◌, ◌∷◌, [], length, take, OnErr, OnOk};
ghost use Rattle.std.specs.Int.{w16, w32, to_be_bytes};
ghost use Rattle.std.specs.List.{flat_map, All};
ghost use Rattle.stream_wire.specs.Spelling.{AreColumns, IsInRange, IsShort, column_bytes, columns_bytes, key_bytes, spelling};

use crate::message::{Message, Sent, SentList};
use std::alloc::{AllocError, Global};
use toast_io::Bytes;

// Each function that adds to `out` keeps what was there; at an error it may have added some bytes.

fn put_key(key: &i64, out: &mut Bytes) -> Result<(), AllocError>
    ensures ok { OnOk result (out.new ≡ out.old ++ key_bytes key.now) }
    ensures kept { OnErr result (take (length out.old) out.new ≡ out.old) }
{
    out.extend_from_slice(&key.cast_unsigned().to_be_bytes())
}

fn put_column(column: &Sent, out: &mut Bytes) -> Result<(), AllocError>
    requires { IsShort column.now }
    ensures ok { OnOk result (out.new ≡ out.old ++ column_bytes column.now) }
    ensures kept { OnErr result (take (length out.old) out.new ≡ out.old) }
{
    match column {
        Sent::Null => out.push(b'n'),
        Sent::Unchanged => out.push(b'u'),
        Sent::Value(value) => {
            out.push(b'b')?;
            out.extend_from_slice(&(value.len() as u32).to_be_bytes())?;
            out.extend_from_slice(value.as_slice())
        }
    }
}

#[tactic(auto, using(crate::proofs::Fronts::shorter_front))]
fn put_columns(columns: &SentList, out: &mut Bytes) -> Result<(), AllocError>
    requires { AreColumns columns.now }
    ensures ok { OnOk result (out.new ≡ out.old ++ columns_bytes columns.now) }
    ensures kept { OnErr result (take (length out.old) out.new ≡ out.old) }
{
    out.extend_from_slice(&(columns.len() as u16).to_be_bytes())?;
    for column in columns.as_slice() {
        put_column(column, out)?;
    }
    Ok(())
}

fn put_number(letter: u8, number: u32, out: &mut Bytes) -> Result<(), AllocError>
    ensures ok { OnOk result (out.new ≡ out.old ++ letter ∷ to_be_bytes w32 number) }
    ensures kept { OnErr result (take (length out.old) out.new ≡ out.old) }
{
    out.push(letter)?;
    out.extend_from_slice(&number.to_be_bytes())
}

fn put_table(letter: u8, table: u16, out: &mut Bytes) -> Result<(), AllocError>
    ensures ok { OnOk result (out.new ≡ out.old ++ letter ∷ to_be_bytes w16 table) }
    ensures kept { OnErr result (take (length out.old) out.new ≡ out.old) }
{
    out.push(letter)?;
    out.extend_from_slice(&table.to_be_bytes())
}

fn put_change(
    letter: u8,
    table: u16,
    key: &i64,
    columns: &SentList,
    out: &mut Bytes,
) -> Result<(), AllocError>
    requires { AreColumns columns.now }
    ensures ok { OnOk result (out.new ≡ out.old ++ (letter ∷ to_be_bytes w16 table ++ (key_bytes key.now ++ columns_bytes columns.now))) }
    ensures kept { OnErr result (take (length out.old) out.new ≡ out.old) }
{
    put_table(letter, table, out)?;
    put_key(key, out)?;
    put_columns(columns, out)
}

fn put_move(
    table: u16,
    from: &i64,
    to: &i64,
    columns: &SentList,
    out: &mut Bytes,
) -> Result<(), AllocError>
    requires { AreColumns columns.now }
    ensures ok { OnOk result (out.new ≡ out.old ++ (0x4b ∷ to_be_bytes w16 table ++ (key_bytes from.now ++ (key_bytes to.now ++ columns_bytes columns.now)))) }
    ensures kept { OnErr result (take (length out.old) out.new ≡ out.old) }
{
    put_table(b'K', table, out)?;
    put_key(from, out)?;
    put_key(to, out)?;
    put_columns(columns, out)
}

fn put_delete(table: u16, key: &i64, out: &mut Bytes) -> Result<(), AllocError>
    ensures ok { OnOk result (out.new ≡ out.old ++ (0x44 ∷ to_be_bytes w16 table ++ key_bytes key.now)) }
    ensures kept { OnErr result (take (length out.old) out.new ≡ out.old) }
{
    put_table(b'D', table, out)?;
    put_key(key, out)
}

#[tactic(auto, unfolding(crate::specs::Spelling::spelling))]
fn put_message(m: &Message, out: &mut Bytes) -> Result<(), AllocError>
    requires { IsInRange m.now }
    ensures ok { OnOk result (out.new ≡ out.old ++ spelling m.now) }
    ensures kept { OnErr result (take (length out.old) out.new ≡ out.old) }
{
    match m {
        Message::Begin { number } => put_number(b'B', *number, out),
        Message::Insert {
            table,
            key,
            columns,
        } => put_change(b'I', *table, key, columns, out),
        Message::Update {
            table,
            key,
            columns,
        } => put_change(b'U', *table, key, columns, out),
        Message::Move {
            table,
            from,
            to,
            columns,
        } => put_move(*table, from, to, columns, out),
        Message::Delete { table, key } => put_delete(*table, key, out),
        Message::Commit { number } => put_number(b'C', *number, out),
    }
}

/// Appends the one spelling of a message, which is within its ranges.
///
/// Where memory is missing `out` stays as it was.
pub fn write_message(_alloc: Global, m: &Message, out: &mut Bytes) -> Result<(), AllocError>
    requires { IsInRange m.now }
    ensures ok { OnOk result (out.new ≡ out.old ++ spelling m.now) }
    ensures err { OnErr result (out.new ≡ out.old) }
{
    let before = out.len();
    let written = put_message(m, out);
    if written.is_err() {
        out.truncate(before);
    }
    written
}
