//! What commands leave in the state.

ghost use Rattle.command_set.specs.Answers.{committed, effect, failed_session, told_by, with_change, with_copy, with_failure, with_transaction, with_upkeep, with_use};
ghost use Rattle.command_set.specs.Changes.{keys_of};
ghost use Rattle.command_set.specs.Plain.{row_at, row_with, session_of, value_at, view_of, with_session};
ghost use Rattle.command_set.specs.Replies.{transaction_of};
ghost use Rattle.plain_program.specs.Words.{IsWrite};
ghost use Rattle.std.specs.FinMap as map;
ghost use Rattle.std.specs.Option.{unwrap_or};
ghost use Rattle.std.specs.Prelude.{◌≡◌, ◌-◌, ◌<◌, ◌++◌, [], if◌then◌else◌, is_some, IfOk, OnOk, Some, length, map as mapped, slice_get, slice_set};

use crate::changes::{insertion, movement, removal, replacement};
use crate::measures::bytes_of;
use command_set::changes::{place_of, with_keys};
use command_set::rows::RowMap;
use command_set::state::{Change, Plain, Running, Session, StateList, Transaction, Upkeep};
use command_set::values::{row_with, value_at};
use command_set::{Command, Level, Row, SetList};
use list_facts::ListOf;
use std::alloc::{AllocError, Global};
use std::mem::replace;
use tuple_layout::{Bytes, Place};

// Puts a session in the place of another, which it gives back.
fn exchange(sessions: &mut Vec<Session>, at: usize, session: Session) -> Session
    requires { at < length sessions.old.items }
    ensures was { Some result ≡ slice_get sessions.old.items at }
    ensures after { sessions.new.items ≡ slice_set sessions.old.items at session }
{
    replace(&mut sessions[at], session)
}

// Puts a session in the place of another in the state.
fn exchange_in(alloc: Global, store: &mut Plain, at: usize, session: Session) -> Session
    requires { at < length store.old.sessions }
    ensures was { Some result ≡ slice_get store.old.sessions at }
    ensures after { store.new ≡ record store.old { sessions = slice_set store.old.sessions at session } }
{
    let mut sessions = replace(&mut store.sessions, ListOf::new(alloc)).into_vec();
    let was = exchange(&mut sessions, at, session);
    store.sessions = ListOf::from_vec(sessions);
    was
}

// The transaction that is open, else a new one.
fn transaction_of(alloc: Global, session: Session) -> Transaction
    ensures { result ≡ transaction_of session }
{
    match session {
        Session::Outside => Transaction::begin(alloc, Level::Rc),
        Session::Failed => Transaction::begin(alloc, Level::Rc),
        Session::Open(transaction) => transaction,
    }
}

// Takes a session's transaction out of the state, where the session is outside from then on.
fn take_open(alloc: Global, store: &mut Plain, session: u16) -> Transaction
    ensures taken { result ≡ transaction_of (session_of store.old session) }
    ensures after { store.new ≡ with_session store.old session Session.Outside }
{
    let at = usize::from(session.saturating_sub(1));
    if at >= store.sessions.len() {
        return Transaction::begin(alloc, Level::Rc);
    }
    let was = exchange_in(alloc, store, at, Session::Outside);
    if session == 0 {
        return Transaction::begin(alloc, Level::Rc);
    }
    transaction_of(alloc, was)
}

// Takes the copy of a repeatable read transaction that has none.
fn take_copy(
    alloc: Global,
    latest: &RowMap,
    transaction: &mut Transaction,
) -> Result<(), AllocError>
    ensures { OnOk result (transaction.new ≡ with_copy latest.now transaction.old transaction.old.level transaction.old.base) }
{
    match transaction.level {
        Level::Rc => Ok(()),
        Level::Rr => match &transaction.base {
            Some(_) => Ok(()),
            None => {
                let base = latest.clone()?;
                transaction.base = Some(base);
                transaction.since = ListOf::new(alloc);
                Ok(())
            }
        },
    }
}

/// Has a session's open transaction use a table, and take its copy.
pub fn use_table(
    alloc: Global,
    store: &mut Plain,
    session: u16,
    table: u16,
) -> Result<(), AllocError>
    ensures { OnOk result (store.new ≡ with_transaction store.old session (with_use store.old (transaction_of (session_of store.old session)) table)) }
{
    let mut transaction = take_open(alloc, store, session);
    take_copy(alloc, &store.latest, &mut transaction)?;
    transaction.used.push(table)?;
    store.set_session(session, Session::Open(transaction));
    Ok(())
}

// Adds a change to a session's transaction.
fn add_change(
    alloc: Global,
    store: &mut Plain,
    session: u16,
    change: Change,
) -> Result<(), AllocError>
    ensures { OnOk result (store.new ≡ with_transaction store.old session (with_change (transaction_of (session_of store.old session)) change)) }
{
    let mut transaction = take_open(alloc, store, session);
    transaction.changes.push(change)?;
    store.set_session(session, Session::Open(transaction));
    Ok(())
}

// Adds a session's upkeep.
fn add_upkeep(store: &mut Plain, session: u16, table: u16, kind: Upkeep) -> Result<(), AllocError>
    ensures { OnOk result (store.new ≡ with_upkeep store.old session table kind) }
{
    store.upkeep.push(Running {
        session,
        table,
        kind,
    })?;
    Ok(())
}

// A session after another's commit.
fn told_by(changes: &[Change], session: Session) -> Result<Session, AllocError>
    ensures { IfOk result (λ told. told ≡ told_by changes.now session) }
{
    match session {
        Session::Outside => Ok(Session::Outside),
        Session::Failed => Ok(Session::Failed),
        Session::Open(transaction) => {
            let transaction = told_open(changes, transaction)?;
            Ok(Session::Open(transaction))
        }
    }
}

fn told_open(changes: &[Change], transaction: Transaction) -> Result<Transaction, AllocError>
    ensures { IfOk result (λ told. told ≡ (if is_some transaction.base then record transaction { since = transaction.since ++ keys_of changes.now } else transaction)) }
{
    match &transaction.base {
        None => Ok(transaction),
        Some(_) => {
            let since = with_keys(transaction.since, changes)?;
            Ok(Transaction {
                since,
                ..transaction
            })
        }
    }
}

// The sessions after another's commit.
fn tell_all(
    alloc: Global,
    sessions: Vec<Session>,
    changes: &[Change],
) -> Result<StateList, AllocError>
    ensures { IfOk result (λ told. told ≡ mapped (told_by changes.now) sessions.items) }
{
    let mut told = ListOf::new(alloc);
    for session in sessions {
        let session = told_by(changes, session)?;
        told.push(session)?;
    }
    Ok(told)
}

// Commits a session's transaction.
fn commit(alloc: Global, store: &mut Plain, session: u16) -> Result<(), AllocError>
    ensures { OnOk result (store.new ≡ committed store.old session) }
{
    let transaction = take_open(alloc, store, session);
    let changes = transaction.changes.as_slice();
    let latest = replace(&mut store.latest, RowMap::new(alloc));
    store.latest = latest.with_changes(changes)?;
    let sessions = replace(&mut store.sessions, ListOf::new(alloc)).into_vec();
    store.sessions = tell_all(alloc, sessions, changes)?;
    Ok(())
}

// The row of a key after an update, as a session sees it.
fn row_after(
    alloc: Global,
    store: &Plain,
    session: u16,
    place: &Place,
    sets: &SetList,
) -> Result<Row, AllocError>
    ensures { IfOk result (λ row. row ≡ row_with (row_at (view_of store.now (transaction_of (session_of store.now session))) place.now) sets.now) }
{
    let nothing = Transaction::begin(alloc, Level::Rc);
    let view = store.view_of(store.transaction_or(session, &nothing))?;
    let row = view.row_at(alloc, place)?;
    let made = row_with(alloc, &row, sets)?;
    Ok(made)
}

// A copy of the value of a column, from 1, as a session sees it.
fn value_seen(
    alloc: Global,
    store: &Plain,
    session: u16,
    place: &Place,
    column: u16,
) -> Result<Bytes, AllocError>
    ensures { IfOk result (λ bytes. bytes ≡ unwrap_or (value_at (row_at (view_of store.now (transaction_of (session_of store.now session))) place.now) column) []) }
{
    let nothing = Transaction::begin(alloc, Level::Rc);
    let view = store.view_of(store.transaction_or(session, &nothing))?;
    let row = view.row_at(alloc, place)?;
    let bytes = ListOf::from_slice(alloc, bytes_of(value_at(&row, column)))?;
    Ok(bytes)
}

// Keeps a value under a name in a session's transaction.
fn keep_value(
    alloc: Global,
    store: &mut Plain,
    session: u16,
    handle: u16,
    bytes: Bytes,
) -> Result<(), AllocError>
    ensures { OnOk result (store.new ≡ with_transaction store.old session (record (transaction_of (session_of store.old session)) { handles = map.insert (transaction_of (session_of store.old session)).handles handle bytes })) }
{
    let mut transaction = take_open(alloc, store, session);
    transaction.handles.put(handle, bytes)?;
    store.set_session(session, Session::Open(transaction));
    Ok(())
}

// Gives a name up in a session's transaction.
fn give_up(alloc: Global, store: &mut Plain, session: u16, handle: u16) -> Result<(), AllocError>
    ensures { OnOk result (store.new ≡ with_transaction store.old session (record (transaction_of (session_of store.old session)) { handles = map.remove (transaction_of (session_of store.old session)).handles handle })) }
{
    let mut transaction = take_open(alloc, store, session);
    transaction.handles.take_away(handle)?;
    store.set_session(session, Session::Open(transaction));
    Ok(())
}

fn copy_of(row: &Row) -> Result<Row, AllocError>
    ensures { IfOk result (λ copy. copy ≡ row.now) }
{
    let copy = row.clone()?;
    Ok(copy)
}

fn insert_row(
    alloc: Global,
    store: &mut Plain,
    session: u16,
    table: &u16,
    key: &i64,
    row: &Row,
) -> Result<(), AllocError>
    ensures { OnOk result (store.new ≡ effect store.old session (transaction_of (session_of store.old session)) (Command.Insert table.now key.now row.now)) }
{
    let row = copy_of(row)?;
    add_change(alloc, store, session, insertion(table, key, row))?;
    Ok(())
}

fn update_row(
    alloc: Global,
    store: &mut Plain,
    session: u16,
    table: &u16,
    key: &i64,
    sets: &SetList,
) -> Result<(), AllocError>
    ensures { OnOk result (store.new ≡ effect store.old session (transaction_of (session_of store.old session)) (Command.Update table.now key.now sets.now)) }
{
    let row = row_after(alloc, store, session, &place_of(table, key), sets)?;
    add_change(alloc, store, session, replacement(table, key, row))?;
    Ok(())
}

fn move_row(
    alloc: Global,
    store: &mut Plain,
    session: u16,
    table: &u16,
    from: &i64,
    to: &i64,
    sets: &SetList,
) -> Result<(), AllocError>
    ensures { OnOk result (store.new ≡ effect store.old session (transaction_of (session_of store.old session)) (Command.Rekey table.now from.now to.now sets.now)) }
{
    let row = row_after(alloc, store, session, &place_of(table, from), sets)?;
    add_change(alloc, store, session, movement(table, from, to, row))?;
    Ok(())
}

fn open_value(
    alloc: Global,
    store: &mut Plain,
    session: u16,
    handle: u16,
    place: &Place,
    column: u16,
) -> Result<(), AllocError>
    ensures { OnOk result (store.new ≡ effect store.old session (transaction_of (session_of store.old session)) (Command.Open handle place.now.table place.now.key column)) }
{
    let bytes = value_seen(alloc, store, session, place, column)?;
    keep_value(alloc, store, session, handle, bytes)?;
    Ok(())
}

/// Makes what a granted command makes.
pub fn take_effect(
    alloc: Global,
    store: &mut Plain,
    session: u16,
    command: &Command,
) -> Result<(), AllocError>
    ensures { OnOk result (store.new ≡ effect store.old session (transaction_of (session_of store.old session)) command.now) }
{
    match command {
        Command::Begin { level } => {
            let transaction = Transaction::begin(alloc, *level);
            store.set_session(session, Session::Open(transaction));
            Ok(())
        }
        Command::Commit => commit(alloc, store, session),
        Command::Rollback => {
            store.set_session(session, Session::Outside);
            Ok(())
        }
        Command::Get { .. } | Command::Part { .. } | Command::Fetch { .. } => Ok(()),
        Command::Open {
            handle,
            table,
            key,
            column,
        } => open_value(
            alloc,
            store,
            session,
            *handle,
            &place_of(table, key),
            *column,
        ),
        Command::Close { handle } => give_up(alloc, store, session, *handle),
        Command::VacuumMain { table } => add_upkeep(store, session, *table, Upkeep::Main),
        Command::VacuumToast { table } => add_upkeep(store, session, *table, Upkeep::Toast),
        Command::Rewrite { table } => add_upkeep(store, session, *table, Upkeep::Rewrite),
        command => write(alloc, store, session, command),
    }
}

// Makes the change of a granted write.
fn write(
    alloc: Global,
    store: &mut Plain,
    session: u16,
    command: &Command,
) -> Result<(), AllocError>
    requires { IsWrite command.now }
    ensures { OnOk result (store.new ≡ effect store.old session (transaction_of (session_of store.old session)) command.now) }
{
    match command {
        Command::Insert { table, key, row } => insert_row(alloc, store, session, table, key, row),
        Command::Update { table, key, sets } => update_row(alloc, store, session, table, key, sets),
        Command::Delete { table, key } => add_change(alloc, store, session, removal(table, key)),
        Command::Rekey {
            table,
            from,
            to,
            sets,
        } => move_row(alloc, store, session, table, from, to, sets),
        _ => unreachable!(),
    }
}

// A session after its transaction has failed, if it has one open.
fn failed_session(session: &Session) -> Session
    ensures { result ≡ failed_session session.now }
{
    match session {
        Session::Outside => Session::Outside,
        Session::Failed => Session::Failed,
        Session::Open(_) => Session::Failed,
    }
}

// What a session is after its transaction has failed, if it has one open.
fn session_failed(store: &Plain, session: u16) -> Session
    ensures { result ≡ failed_session (session_of store.now session) }
{
    match store.session(session) {
        None => Session::Outside,
        Some(session) => failed_session(session),
    }
}

/// Fails a session's open transaction, if it has one.
pub fn fail(store: &mut Plain, session: u16)
    ensures { store.new ≡ with_failure store.old session }
{
    let after = session_failed(store, session);
    store.set_session(session, after);
}
