//! The law of the stream, over the definitions of the journal, of its stream and of a replica.

ghost use Rattle.change_stream.specs.Laws.{StreamLaw};
ghost use Rattle.change_stream.specs.Ranges.{StreamRanges};

/// A replica that takes the messages of a journal refuses none, and has exactly the committed rows at its end.
pub fn replica_is_the_store()
    ensures { StreamLaw }
{}

/// Each message of a journal is within its ranges, where the script writes to tables 1 to 16, rows of 1 to 8
/// columns and values of at most 65,536 bytes.
pub fn messages_are_in_range()
    ensures { StreamRanges }
{}
