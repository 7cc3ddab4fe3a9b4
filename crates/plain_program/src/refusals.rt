//! The refusals of commands, each where its test holds.

ghost use Rattle.command_set.specs.Plain.{session_of, value_at};
ghost use Rattle.command_set.specs.Replies.{absent, answers_if, bad_offset, busy, changed, failed, handle_there, inside, locked, no_handle, null, outside, refused_before_use, rolled_back, taken};
ghost use Rattle.plain_program.specs.Words.{first_refusal};
ghost use Rattle.std.specs.Prelude.{◌≡◌, ◌<◌, ◌^◌, IfOk, length};

use crate::obstacles::{changer_of, rewriter_of};
use command_set::changes::{is_among, names_place};
use command_set::rows::RowMap;
use command_set::state::{Plain, Transaction};
use command_set::values::value_at;
use command_set::{Reply, Row};
use std::alloc::AllocError;
use tuple_layout::Place;

// The reply if the test holds.
fn answers_if(test: bool, reply: Reply) -> Option<Reply>
    ensures { result ≡ answers_if test reply }
{
    if test { Some(reply) } else { None }
}

/// The session is in a transaction, open or failed.
pub fn inside(store: &Plain, session: u16) -> Option<Reply>
    ensures { result ≡ inside store.now session }
{
    answers_if(!store.is_outside(session), Reply::Inside)
}

/// The session is in no transaction.
pub fn outside(store: &Plain, session: u16) -> Option<Reply>
    ensures { result ≡ outside store.now session }
{
    answers_if(store.is_outside(session), Reply::Outside)
}

/// The session's transaction has failed.
pub fn failed(store: &Plain, session: u16) -> Option<Reply>
    ensures { result ≡ failed store.now session }
{
    answers_if(store.is_failed(session), Reply::Failed)
}

/// The transaction that ends has failed.
pub fn rolled_back(store: &Plain, session: u16) -> Option<Reply>
    ensures { result ≡ rolled_back store.now session }
{
    answers_if(store.is_failed(session), Reply::RolledBack)
}

/// A session holds what is in the way.
pub fn locked(holder: Option<u16>) -> Option<Reply>
    ensures { result ≡ locked holder }
{
    match holder {
        Some(session) => Some(Reply::Locked { session }),
        None => None,
    }
}

/// The refusals of a data command on a table before the table is used, the first that holds.
pub fn refused_before_use(store: &Plain, session: u16, table: u16) -> Option<Reply>
    requires { length store.now.sessions < 2 ^ 16 }
    ensures { result ≡ first_refusal (refused_before_use store.now session table) }
{
    outside(store, session)
        .or(failed(store, session))
        .or(locked(rewriter_of(store, session, table)))
}

/// The view has no such key.
pub fn absent(view: &RowMap, place: &Place) -> Option<Reply>
    ensures { result ≡ absent view.now place.now }
{
    answers_if(view.get(place).is_none(), Reply::Absent)
}

/// The column, from 1, is null.
pub fn null(row: &Row, column: u16) -> Option<Reply>
    ensures { result ≡ null (value_at row.now column) }
{
    answers_if(value_at(row, column).is_none(), Reply::Null)
}

/// Another session's open transaction has changed the key.
pub fn busy(store: &Plain, session: u16, place: &Place) -> Option<Reply>
    requires { length store.now.sessions < 2 ^ 16 }
    ensures { result ≡ busy store.now session place.now }
{
    match changer_of(store, session, place) {
        Some(session) => Some(Reply::Busy { session }),
        None => None,
    }
}

/// Another session has committed a change of the key since the copy was taken.
pub fn changed(transaction: &Transaction, place: &Place) -> Option<Reply>
    ensures { result ≡ changed transaction.now place.now }
{
    let told = transaction.base.is_some() && is_among(transaction.since.as_slice(), place);
    answers_if(
        told && !names_place(transaction.changes.as_slice(), place),
        Reply::Changed,
    )
}

/// The key is there now, or in the view.
pub fn taken(
    store: &Plain,
    transaction: &Transaction,
    place: &Place,
) -> Result<Option<Reply>, AllocError>
    ensures { IfOk result (λ refusal. refusal ≡ taken store.now transaction.now place.now) }
{
    let now = store.now_of(transaction)?;
    let view = store.view_of(transaction)?;
    let is_taken = now.get(place).is_some() || view.get(place).is_some();
    Ok(answers_if(is_taken, Reply::Taken))
}

/// The offset is negative.
pub fn bad_offset(offset: &i32) -> Option<Reply>
    ensures { result ≡ bad_offset offset.now }
{
    if *offset < 0 {
        Some(Reply::BadOffset)
    } else {
        None
    }
}

/// No handle of this name is open.
pub fn no_handle(transaction: &Transaction, handle: u16) -> Option<Reply>
    ensures { result ≡ no_handle transaction.now handle }
{
    answers_if(transaction.handles.get(handle).is_none(), Reply::NoHandle)
}

/// A handle of this name is open.
pub fn handle_there(transaction: &Transaction, handle: u16) -> Option<Reply>
    ensures { result ≡ handle_there transaction.now handle }
{
    answers_if(
        transaction.handles.get(handle).is_some(),
        Reply::HandleThere,
    )
}
