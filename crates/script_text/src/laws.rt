//! What is true of every script that is read.

ghost use Rattle.script_text.specs.Laws.{ScriptsKeepRules};

/// A script that bytes spell keeps the rules of its grammar: its commands name only tables and columns that are
/// there, with a value for each column of a row, and no column set twice.
pub fn scripts_keep_rules()
    ensures { ScriptsKeepRules }
{}
