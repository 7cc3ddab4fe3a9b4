//! What may hold a thread before its turn.

/// A thread passes it before each turn that it makes. It may hold its caller for a bounded time, and
/// nothing that is promised of the turns rests on it: a test chooses by it which thread comes first.
pub trait Gate {
    /// A session's thread is about to make its turn of this number; turns count from 1.
    ///
    /// The number 4,294,967,295 stands for that turn and for every later one.
    fn before(&self, session: u16, turn: u32);
}

/// A gate that holds nobody.
#[derive(Clone, Copy, Debug, Default)]
pub struct OpenGate;

impl Gate for OpenGate {
    fn before(&self, _: u16, _: u32) {}
}
