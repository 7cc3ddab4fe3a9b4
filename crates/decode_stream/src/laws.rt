//! What holds of each log that grows, whatever is in it, and of the messages of what it decodes to.

ghost use Rattle.decode_stream.specs.Laws.{DecodableGrows, FaultIsOfACell, FrontsStay, GrowsByEntries, MessagesGrow, OpenEntries};

/// What a log tells is made entry by entry, from no entries on: of each kind of entry, what it makes of the open
/// transactions' changes and gathered values, of what was sent, and of the first fault.
pub fn grows_by_entries()
    ensures { GrowsByEntries }
{}

/// A log's transactions begin with those of each of its fronts; a front's fault is the log's, and nothing is sent
/// behind it.
pub fn fronts_stay()
    ensures { FrontsStay }
{}

/// A log that can be decoded still can with one entry more, where that is within its ranges after the others and the
/// transactions are fewer than 2^32 - 1; and the log before it could.
pub fn decodable_grows()
    ensures { DecodableGrows }
{}

/// The open transaction of an xid that no entry has ended has all entries of the xid, and one whose last entry is its
/// end has none.
pub fn open_entries_are_those_of_an_xid()
    ensures { OpenEntries }
{}

/// A row has no fault exactly where none of its cells has one.
pub fn fault_is_of_a_cell()
    ensures { FaultIsOfACell }
{}

/// The messages of one transaction more come behind those of the others.
pub fn messages_grow()
    ensures { MessagesGrow }
{}
