//! Which columns of a core's rows are out of line, and how many a write puts there: as the stream tells.

ghost use Rattle.core_outs.specs.Laws.{OutsKeep, RunsOut};

/// What the stream of a journal tells of a core's rows is so after each event that is no command's moment.
pub fn outs_keep()
    ensures { OutsKeep }
{}

/// It is so after the moment of a command, whose write then has as many columns to save as the stream says
/// that it pushes.
pub fn runs_out()
    ensures { RunsOut }
{}
