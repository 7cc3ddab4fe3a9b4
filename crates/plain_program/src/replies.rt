//! What each command answers: the first of its replies whose test holds.
//!
//! Every test but that of the tuple's size is made, and the first that holds counts.

ghost use Rattle.command_set.specs.Plain.{row_at, row_with, view_of};
ghost use Rattle.command_set.specs.Replies.{absent, busy, changed, first_of, outside, refused_before_use, refused_upkeep, reply_of, rolled_back, schema_of, too_big};
ghost use Rattle.plain_program.specs.Words.{IsOnData, IsPartOrPut, IsPut, first_refusal, is_beyond, rekey_reply, reply_within, update_reply};
ghost use Rattle.std.specs.Option.{option_or, unwrap_or};
ghost use Rattle.std.specs.Prelude.{◌≡◌, ◌<◌, ◌≤◌, ◌^◌, ◌∷◌, ◌++◌, [], if◌then◌else◌, true, IfOk, IsErrOf, length, nat_lt};
ghost use Rattle.tuple_layout.specs.Sizes.{largest_tuple};

use crate::fault::PlainFault;
use crate::measures::{Span, all_out_size, bytes_of, slice, span_of};
use crate::obstacles::holder_of;
use crate::refusals::{
    absent, bad_offset, busy, changed, failed, handle_there, inside, locked, no_handle, null,
    outside, refused_before_use, rolled_back, taken,
};
use command_set::changes::place_of;
use command_set::state::{Plain, Transaction, Upkeep};
use command_set::values::{nth, row_with, value_at};
use command_set::{Command, Level, Reply, Row, SchemaList, SetList};
use std::alloc::{AllocError, Global};
use tuple_layout::{LARGEST_TUPLE, Place, Storage};

// The storages of a table's columns; none where there is no such table.
fn storages_of(schemas: &SchemaList, table: u16) -> &[Storage]
    ensures all { result.now ≡ (schema_of schemas.now table).storages }
    ensures few { length result.now ≤ 8 }
{
    match nth(schemas.as_slice(), usize::from(table)) {
        Some(schema) => schema.storages(),
        None => &[],
    }
}

// The row of a key, as a transaction sees it, with these columns set.
fn row_put(
    alloc: Global,
    store: &Plain,
    transaction: &Transaction,
    place: &Place,
    sets: &SetList,
) -> Result<Row, AllocError>
    ensures { IfOk result (λ row. row ≡ row_with (row_at (view_of store.now transaction.now) place.now) sets.now) }
{
    let view = store.view_of(transaction)?;
    let row = view.row_at(alloc, place)?;
    let made = row_with(alloc, &row, sets)?;
    Ok(made)
}

// The reply with a row.
fn row_reply(place: &Place, row: Row) -> Reply
    ensures { result ≡ Reply.Row place.now.key row }
{
    Reply::Row {
        key: place.key,
        row,
    }
}

// The reply to a write of a row: this refusal, else that the tuple is too big, else that it is done.
fn sized_reply(refusal: Option<Reply>, storages: &[Storage], row: &Row) -> Result<Reply, PlainFault>
    requires { length storages.now ≤ 8 }
    ensures ok { IfOk result (λ reply. reply ≡ unwrap_or (option_or refusal (too_big (record { storages = storages.now }) row.now)) Reply.Okay) }
    ensures range { IsErrOf result PlainFault.Range → is_beyond (unwrap_or (option_or refusal (too_big (record { storages = storages.now }) row.now)) Reply.Okay) ≡ true }
{
    match refusal {
        Some(reply) => Ok(reply),
        None => {
            let reply = size_reply(all_out_size(storages, row))?;
            Ok(reply)
        }
    }
}

// The reply to a write of a tuple of this size, in bytes.
fn size_reply(size: u128) -> Result<Reply, PlainFault>
    ensures ok { IfOk result (λ reply. reply ≡ (if nat_lt largest_tuple size then Reply.TooBig size else Reply.Okay)) }
    ensures range { IsErrOf result PlainFault.Range → 2 ^ 32 ≤ size }
{
    if size <= LARGEST_TUPLE as u128 {
        return Ok(Reply::Okay);
    }
    match u32::try_from(size) {
        Ok(size) => Ok(Reply::TooBig { size }),
        Err(_) => Err(PlainFault::Range),
    }
}

// The replies follow, a function for each command.

fn to_get(
    alloc: Global,
    store: &Plain,
    session: u16,
    transaction: &Transaction,
    place: &Place,
) -> Result<Reply, AllocError>
    requires { length store.now.sessions < 2 ^ 16 }
    ensures { IfOk result (λ reply. reply ≡ reply_within [] store.now session transaction.now (Command.Get place.now.table place.now.key)) }
{
    let view = store.view_of(transaction)?;
    let row = view.row_at(alloc, place)?;
    let refusal = refused_before_use(store, session, place.table).or(absent(&view, place));
    Ok(refusal.unwrap_or(row_reply(place, row)))
}

fn to_part(
    alloc: Global,
    store: &Plain,
    session: u16,
    transaction: &Transaction,
    place: &Place,
    column: u16,
    span: &Span,
) -> Result<Reply, AllocError>
    requires { length store.now.sessions < 2 ^ 16 }
    ensures { IfOk result (λ reply. reply ≡ reply_within [] store.now session transaction.now (Command.Part place.now.table place.now.key column span.now.offset span.now.length)) }
{
    let view = store.view_of(transaction)?;
    let row = view.row_at(alloc, place)?;
    let part = slice(alloc, bytes_of(value_at(&row, column)), span)?;
    let refusal = refused_before_use(store, session, place.table)
        .or(absent(&view, place))
        .or(null(&row, column))
        .or(bad_offset(&span.offset));
    Ok(refusal.unwrap_or(Reply::Bytes(part)))
}

fn to_open(
    alloc: Global,
    store: &Plain,
    session: u16,
    transaction: &Transaction,
    handle: u16,
    place: &Place,
    column: u16,
) -> Result<Reply, AllocError>
    requires { length store.now.sessions < 2 ^ 16 }
    ensures { IfOk result (λ reply. reply ≡ reply_within [] store.now session transaction.now (Command.Open handle place.now.table place.now.key column)) }
{
    let view = store.view_of(transaction)?;
    let row = view.row_at(alloc, place)?;
    let refusal = refused_before_use(store, session, place.table)
        .or(handle_there(transaction, handle))
        .or(absent(&view, place))
        .or(null(&row, column));
    Ok(refusal.unwrap_or(Reply::Okay))
}

fn to_fetch(
    alloc: Global,
    store: &Plain,
    session: u16,
    transaction: &Transaction,
    handle: u16,
    span: &Span,
) -> Result<Reply, AllocError>
    ensures { IfOk result (λ reply. reply ≡ reply_within [] store.now session transaction.now (Command.Fetch handle span.now.offset span.now.length)) }
{
    let part = slice(alloc, bytes_of(transaction.handles.get(handle)), span)?;
    let refusal = outside(store, session)
        .or(failed(store, session))
        .or(no_handle(transaction, handle))
        .or(bad_offset(&span.offset));
    Ok(refusal.unwrap_or(Reply::Bytes(part)))
}

fn to_close(store: &Plain, session: u16, transaction: &Transaction, handle: u16) -> Reply
    ensures { result ≡ reply_within [] store.now session transaction.now (Command.Close handle) }
{
    outside(store, session)
        .or(failed(store, session))
        .or(no_handle(transaction, handle))
        .unwrap_or(Reply::Okay)
}

fn to_insert(
    schemas: &SchemaList,
    store: &Plain,
    session: u16,
    transaction: &Transaction,
    place: &Place,
    row: &Row,
) -> Result<Reply, PlainFault>
    requires { length store.now.sessions < 2 ^ 16 }
    ensures ok { IfOk result (λ reply. reply ≡ reply_within schemas.now store.now session transaction.now (Command.Insert place.now.table place.now.key row.now)) }
    ensures range { IsErrOf result PlainFault.Range → is_beyond (reply_within schemas.now store.now session transaction.now (Command.Insert place.now.table place.now.key row.now)) ≡ true }
{
    let taken = taken(store, transaction, place)?;
    let refusal = refused_before_use(store, session, place.table)
        .or(busy(store, session, place))
        .or(taken);
    let reply = sized_reply(refusal, storages_of(schemas, place.table), row)?;
    Ok(reply)
}

// The refusals of a change of a key's row, the first that holds.
fn refused_change(
    store: &Plain,
    session: u16,
    transaction: &Transaction,
    place: &Place,
) -> Result<Option<Reply>, AllocError>
    requires { length store.now.sessions < 2 ^ 16 }
    ensures { IfOk result (λ refusal. refusal ≡ first_refusal (refused_before_use store.now session place.now.table ++ absent (view_of store.now transaction.now) place.now ∷ busy store.now session place.now ∷ changed transaction.now place.now ∷ [])) }
{
    let view = store.view_of(transaction)?;
    let refusal = refused_before_use(store, session, place.table)
        .or(absent(&view, place))
        .or(busy(store, session, place))
        .or(changed(transaction, place));
    Ok(refusal)
}

// The reply to an update that puts this row.
fn to_update(
    schemas: &SchemaList,
    store: &Plain,
    session: u16,
    transaction: &Transaction,
    place: &Place,
    row: &Row,
) -> Result<Reply, PlainFault>
    requires { length store.now.sessions < 2 ^ 16 }
    ensures ok { IfOk result (λ reply. reply ≡ update_reply schemas.now store.now session transaction.now place.now row.now) }
    ensures range { IsErrOf result PlainFault.Range → is_beyond (update_reply schemas.now store.now session transaction.now place.now row.now) ≡ true }
{
    let refusal = refused_change(store, session, transaction, place)?;
    let reply = sized_reply(refusal, storages_of(schemas, place.table), row)?;
    Ok(reply)
}

fn to_delete(
    store: &Plain,
    session: u16,
    transaction: &Transaction,
    place: &Place,
) -> Result<Reply, AllocError>
    requires { length store.now.sessions < 2 ^ 16 }
    ensures { IfOk result (λ reply. reply ≡ reply_within [] store.now session transaction.now (Command.Delete place.now.table place.now.key)) }
{
    let refusal = refused_change(store, session, transaction, place)?;
    Ok(refusal.unwrap_or(Reply::Okay))
}

// The reply to a move that puts this row.
fn to_rekey(
    schemas: &SchemaList,
    store: &Plain,
    session: u16,
    transaction: &Transaction,
    from: &Place,
    to: &Place,
    row: &Row,
) -> Result<Reply, PlainFault>
    requires { length store.now.sessions < 2 ^ 16 }
    ensures ok { IfOk result (λ reply. reply ≡ rekey_reply schemas.now store.now session transaction.now from.now to.now row.now) }
    ensures range { IsErrOf result PlainFault.Range → is_beyond (rekey_reply schemas.now store.now session transaction.now from.now to.now row.now) ≡ true }
{
    let taken = taken(store, transaction, to)?;
    let refusal = refused_change(store, session, transaction, from)?
        .or(busy(store, session, to))
        .or(taken);
    let reply = sized_reply(refusal, storages_of(schemas, from.table), row)?;
    Ok(reply)
}

// The reply to upkeep of a table.
fn to_upkeep(store: &Plain, session: u16, table: u16, kind: Upkeep) -> Reply
    requires { length store.now.sessions < 2 ^ 16 }
    ensures { result ≡ first_of (refused_upkeep store.now session table kind) Reply.Started }
{
    inside(store, session)
        .or(locked(holder_of(store, session, table, kind)))
        .unwrap_or(Reply::Started)
}

fn to_commit(store: &Plain, session: u16) -> Reply
    ensures { result ≡ first_of (outside store.now session ∷ rolled_back store.now session ∷ []) Reply.Okay }
{
    outside(store, session)
        .or(rolled_back(store, session))
        .unwrap_or(Reply::Okay)
}

// The first reply whose test holds, where this is the session's transaction.
fn reply_in(
    alloc: Global,
    schemas: &SchemaList,
    store: &Plain,
    session: u16,
    transaction: &Transaction,
    command: &Command,
) -> Result<Reply, PlainFault>
    requires { length store.now.sessions < 2 ^ 16 }
    ensures ok { IfOk result (λ reply. reply ≡ reply_within schemas.now store.now session transaction.now command.now) }
    ensures range { IsErrOf result PlainFault.Range → is_beyond (reply_within schemas.now store.now session transaction.now command.now) ≡ true }
{
    match command {
        Command::Begin { level: _ } => Ok(inside(store, session).unwrap_or(Reply::Okay)),
        Command::Commit => Ok(to_commit(store, session)),
        Command::Rollback => Ok(outside(store, session).unwrap_or(Reply::Okay)),
        Command::Close { handle } => Ok(to_close(store, session, transaction, *handle)),
        Command::VacuumMain { table } => Ok(to_upkeep(store, session, *table, Upkeep::Main)),
        Command::VacuumToast { table } => Ok(to_upkeep(store, session, *table, Upkeep::Toast)),
        Command::Rewrite { table } => Ok(to_upkeep(store, session, *table, Upkeep::Rewrite)),
        command => {
            let reply = data_reply(alloc, schemas, store, session, transaction, command)?;
            Ok(reply)
        }
    }
}

// The reply to a command that reads or writes rows.
fn data_reply(
    alloc: Global,
    schemas: &SchemaList,
    store: &Plain,
    session: u16,
    transaction: &Transaction,
    command: &Command,
) -> Result<Reply, PlainFault>
    requires few { length store.now.sessions < 2 ^ 16 }
    requires data { IsOnData command.now }
    ensures ok { IfOk result (λ reply. reply ≡ reply_within schemas.now store.now session transaction.now command.now) }
    ensures range { IsErrOf result PlainFault.Range → is_beyond (reply_within schemas.now store.now session transaction.now command.now) ≡ true }
{
    match command {
        Command::Get { table, key } => {
            let reply = to_get(alloc, store, session, transaction, &place_of(table, key))?;
            Ok(reply)
        }
        Command::Delete { table, key } => {
            let reply = to_delete(store, session, transaction, &place_of(table, key))?;
            Ok(reply)
        }
        Command::Open {
            handle,
            table,
            key,
            column,
        } => {
            let place = place_of(table, key);
            let reply = to_open(alloc, store, session, transaction, *handle, &place, *column)?;
            Ok(reply)
        }
        command => {
            let reply = part_or_put_reply(alloc, schemas, store, session, transaction, command)?;
            Ok(reply)
        }
    }
}

// The reply to a command that asks for a part of a value, or puts a row.
fn part_or_put_reply(
    alloc: Global,
    schemas: &SchemaList,
    store: &Plain,
    session: u16,
    transaction: &Transaction,
    command: &Command,
) -> Result<Reply, PlainFault>
    requires few { length store.now.sessions < 2 ^ 16 }
    requires kind { IsPartOrPut command.now }
    ensures ok { IfOk result (λ reply. reply ≡ reply_within schemas.now store.now session transaction.now command.now) }
    ensures range { IsErrOf result PlainFault.Range → is_beyond (reply_within schemas.now store.now session transaction.now command.now) ≡ true }
{
    match command {
        Command::Part {
            table,
            key,
            column,
            offset,
            length,
        } => {
            let (place, span) = (place_of(table, key), span_of(offset, length));
            let reply = to_part(alloc, store, session, transaction, &place, *column, &span)?;
            Ok(reply)
        }
        Command::Fetch {
            handle,
            offset,
            length,
        } => {
            let span = span_of(offset, length);
            let reply = to_fetch(alloc, store, session, transaction, *handle, &span)?;
            Ok(reply)
        }
        command => {
            let reply = put_reply(alloc, schemas, store, session, transaction, command)?;
            Ok(reply)
        }
    }
}

// The reply to a command that puts a row.
fn put_reply(
    alloc: Global,
    schemas: &SchemaList,
    store: &Plain,
    session: u16,
    transaction: &Transaction,
    command: &Command,
) -> Result<Reply, PlainFault>
    requires few { length store.now.sessions < 2 ^ 16 }
    requires put { IsPut command.now }
    ensures ok { IfOk result (λ reply. reply ≡ reply_within schemas.now store.now session transaction.now command.now) }
    ensures range { IsErrOf result PlainFault.Range → is_beyond (reply_within schemas.now store.now session transaction.now command.now) ≡ true }
{
    match command {
        Command::Insert { table, key, row } => {
            let place = place_of(table, key);
            let reply = to_insert(schemas, store, session, transaction, &place, row)?;
            Ok(reply)
        }
        Command::Update { table, key, sets } => {
            let place = place_of(table, key);
            let row = row_put(alloc, store, transaction, &place, sets)?;
            let reply = to_update(schemas, store, session, transaction, &place, &row)?;
            Ok(reply)
        }
        Command::Rekey {
            table,
            from,
            to,
            sets,
        } => {
            let (from, to) = (place_of(table, from), place_of(table, to));
            let row = row_put(alloc, store, transaction, &from, sets)?;
            let reply = to_rekey(schemas, store, session, transaction, &from, &to, &row)?;
            Ok(reply)
        }
        _ => unreachable!(),
    }
}

/// The first reply of a command whose test holds, once its table is used and its copy is taken.
pub fn reply_of(
    alloc: Global,
    schemas: &SchemaList,
    store: &Plain,
    session: u16,
    command: &Command,
) -> Result<Reply, PlainFault>
    requires { length store.now.sessions < 2 ^ 16 }
    ensures ok { IfOk result (λ reply. reply ≡ reply_of schemas.now store.now session command.now) }
    ensures range { IsErrOf result PlainFault.Range → is_beyond (reply_of schemas.now store.now session command.now) ≡ true }
{
    let nothing = Transaction::begin(alloc, Level::Rc);
    let transaction = store.transaction_or(session, &nothing);
    let reply = reply_in(alloc, schemas, store, session, transaction, command)?;
    Ok(reply)
}
