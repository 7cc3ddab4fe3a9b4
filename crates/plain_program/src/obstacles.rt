//! Which other session is in a command's way.

ghost use Rattle.command_set.specs.Changes.{is_named, keys_of};
ghost use Rattle.command_set.specs.Replies.{changer_of, conflicts, has_changed, has_used, holder_of, is_rewrite, least_other, rewriter_of, runs_in_conflict};
ghost use Rattle.plain_program.specs.Words.{is_rewriter, stands_in};
ghost use Rattle.std.specs.List.{list_any};
ghost use Rattle.std.specs.Prelude.{◌≡◌, ◌<◌, ◌^◌, ◌==◌, ◌&&◌, length};

use command_set::changes::names_place;
use command_set::state::{Plain, Running, Session, Upkeep as Kind};
use tuple_layout::Place;

/// What another session may be in the way by.
#[derive(Clone, Copy)]
pub enum Obstacle {
    /// It has changed the row at a place, in a transaction that is open.
    Change(Place),
    /// It runs upkeep of a table that conflicts with this kind, or has used a table that is to be rewritten.
    Upkeep { table: u16, kind: Kind },
    /// It rewrites a table.
    Rewrite { table: u16 },
}

// Whether the open transaction of a session has changed a place.
fn has_changed(session: &Session, place: &Place) -> bool
    ensures { result ≡ has_changed session.now place.now }
{
    match session {
        Session::Outside => false,
        Session::Failed => false,
        Session::Open(transaction) => names_place(transaction.changes.as_slice(), place),
    }
}

// Whether a table is one of these.
fn has_table(tables: &[u16], table: u16) -> bool
    ensures { result ≡ list_any (λ used. used == table) tables.now }
{
    tables.iter().any(|used| *used == table)
}

// Whether the open transaction of a session has used a table.
fn has_used(session: &Session, table: u16) -> bool
    ensures { result ≡ has_used session.now table }
{
    match session {
        Session::Outside => false,
        Session::Failed => false,
        Session::Open(transaction) => has_table(transaction.used.as_slice(), table),
    }
}

// Whether one kind of upkeep of a table waits for the other to end.
fn conflicts(kind: Kind, other: Kind) -> bool
    ensures { result ≡ conflicts kind other }
{
    match kind {
        Kind::Main => !matches!(other, Kind::Toast),
        Kind::Toast => !matches!(other, Kind::Main),
        Kind::Rewrite => true,
    }
}

fn is_rewrite(kind: Kind) -> bool
    ensures { result ≡ is_rewrite kind }
{
    match kind {
        Kind::Main => false,
        Kind::Toast => false,
        Kind::Rewrite => true,
    }
}

// Whether a session runs upkeep of a table that conflicts with this kind.
fn runs_in_conflict(store: &Plain, number: u16, table: u16, kind: Kind) -> bool
    ensures { result ≡ runs_in_conflict store.now number table kind }
{
    store.upkeep.as_slice().iter().any(|running| {
        running.session == number && running.table == table && conflicts(kind, running.kind)
    })
}

// Whether a session rewrites a table.
fn is_rewriter(upkeep: &[Running], number: u16, table: u16) -> bool
    ensures { result ≡ is_rewriter upkeep.now number table }
{
    upkeep.iter().any(|running| running.session == number
        && running.table == table
        && is_rewrite(running.kind))
}

// Whether a session is in the way.
fn stands_in(store: &Plain, way: &Obstacle, number: u16, session: &Session) -> bool
    ensures { result ≡ stands_in store.now way.now number session.now }
{
    match way {
        Obstacle::Change(place) => has_changed(session, place),
        Obstacle::Upkeep { table, kind } => {
            runs_in_conflict(store, number, *table, *kind)
                || (is_rewrite(*kind) && has_used(session, *table))
        }
        Obstacle::Rewrite { table } => is_rewriter(store.upkeep.as_slice(), number, *table),
    }
}

// The least session other than this one that is in the way, if there is one.
fn least_other(store: &Plain, session: u16, way: &Obstacle) -> Option<u16>
    requires { length store.now.sessions < 2 ^ 16 }
    ensures { result ≡ least_other store.now session (stands_in store.now way.now) }
{
    let mut number: u16 = 0;
    let sessions = store.sessions.as_slice();
    for other in sessions {
        number += 1;
        if number != session && stands_in(store, way, number, other) {
            return Some(number);
        }
    }
    None
}

/// The least other session that has changed the row at a place, in a transaction that is open.
pub fn changer_of(store: &Plain, session: u16, place: &Place) -> Option<u16>
    requires { length store.now.sessions < 2 ^ 16 }
    ensures { result ≡ changer_of store.now session place.now }
{
    least_other(store, session, &Obstacle::Change(*place))
}

/// The least other session that is in the way of upkeep of a table.
pub fn holder_of(store: &Plain, session: u16, table: u16, kind: Kind) -> Option<u16>
    requires { length store.now.sessions < 2 ^ 16 }
    ensures { result ≡ holder_of store.now session table kind }
{
    least_other(store, session, &Obstacle::Upkeep { table, kind })
}

/// The least other session that rewrites a table.
pub fn rewriter_of(store: &Plain, session: u16, table: u16) -> Option<u16>
    requires { length store.now.sessions < 2 ^ 16 }
    ensures { result ≡ rewriter_of store.now session table }
{
    least_other(store, session, &Obstacle::Rewrite { table })
}
