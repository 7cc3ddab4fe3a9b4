//! What a journal tells of a script.

use crate::state::Plain;
use crate::{Kind, Reply};
use list_facts::ListOf;

/// A printed reply.
#[derive(Debug, Drop, PartialEq)]
pub struct Line {
    pub session: u16,
    /// The number of the session's command, from 1.
    pub number: u32,
    pub reply: Reply,
}

/// Printed replies, in order.
pub type LineList = ListOf<Line>;

/// What a journal tells of a session.
#[derive(Debug, Drop)]
pub struct Told {
    /// How many of its commands have begun.
    pub begun: u32,
    /// The kind of the last entry of the last of them.
    pub last: Option<Kind>,
    /// What the moment of the last of them answered, if it has had one.
    pub reply: Option<Reply>,
}

/// What a journal tells of each session, the first being session 1.
pub type ToldList = ListOf<Told>;

/// What a journal tells.
#[derive(Drop)]
pub struct Run {
    /// The plain store's state at the journal's end.
    pub plain: Plain,
    pub told: ToldList,
    /// The lines that are printed.
    pub lines: LineList,
}
