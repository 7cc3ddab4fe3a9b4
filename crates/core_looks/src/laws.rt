//! What a session's uses and look-ups of a core come to beside the plain store, the reply of each
//! moment, the moments that are refused, and those of commits.

ghost use Rattle.core_looks.specs.Laws.{CommitsRun, GrantedTell, LooksTell, RefusedMoments, RepliesAreDue, UsesKeep};

/// A core is sound once a session uses a table, and stands for the state in which the plain store's
/// transaction uses it. Its reads find what they found.
pub fn uses_keep()
    ensures { UsesKeep }
{}

/// What an open transaction's look-ups find is what the plain store's has there, in its view and now.
pub fn looks_tell()
    ensures { LooksTell }
{}

/// The plain store's reply at each command's moment is the one that is due by what the core finds.
pub fn replies_are_due()
    ensures { RepliesAreDue }
{}

/// The plain store's answer at a granted moment is what the command grants once its table is used.
pub fn granted_tell()
    ensures { GrantedTell }
{}

/// A core is sound after the moment of a command that is refused, and stands for the plain store's
/// answer. What is left falls.
pub fn refused_moments()
    ensures { RefusedMoments }
{}

/// The moment of a commit of an open transaction answers what the plain store answers: its rows are the
/// committed ones, and every other session is told. What is left falls.
pub fn commits_run()
    ensures { CommitsRun }
{}
