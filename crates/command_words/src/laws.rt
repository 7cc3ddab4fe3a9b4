//! What holds of the words of commands, over their definitions alone.

ghost use Rattle.command_words.specs.Commands.{CommandsAreSpelled};

/// Words are a command exactly where they are its spelling, and its number, if it has one, is from 1 to 1,000.
pub fn commands_are_spelled()
    ensures { CommandsAreSpelled }
{}
