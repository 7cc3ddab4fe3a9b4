//! What the steps of saves and marks keep of a core, and what they do in terms of the plain store.

ghost use Rattle.core_saves.specs.Laws.{MarksFall, MarksKeep, MarksStay, SavesFall, SavesKeep, SavesStay, StepsAreMade};

/// What a step of a write has told is told of the parts that the core's line makes.
pub fn steps_are_made()
    ensures { StepsAreMade }
{}

/// A core is sound after a step of a save.
pub fn saves_keep()
    ensures { SavesKeep }
{}

/// It then stands for the same states of the plain store.
pub fn saves_stay()
    ensures { SavesStay }
{}

/// Less is left then.
pub fn saves_fall()
    ensures { SavesFall }
{}

/// A core is sound after a step of a mark, and after the write's last one.
pub fn marks_keep()
    ensures { MarksKeep }
{}

/// It then stands for the same states of the plain store.
pub fn marks_stay()
    ensures { MarksStay }
{}

/// Less is left then.
pub fn marks_fall()
    ensures { MarksFall }
{}
