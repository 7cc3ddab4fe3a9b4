//! What each event leaves of the turns that a command still takes at least.

ghost use Rattle.core_counts.specs.Laws.{CountsBegin, CountsFall, ShortStays};

/// At its moment a granted command has all but one of its turns before it.
pub fn counts_begin()
    ensures { CountsBegin }
{}

/// A later event is one of those turns and no more; the last one is made where one at most is left.
pub fn counts_fall()
    ensures { CountsFall }
{}

/// Each value that an open handle keeps in line is one that a tuple can hold, after every event.
pub fn short_stays()
    ensures { ShortStays }
{}
