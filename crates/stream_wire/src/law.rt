//! What holds of spellings alone.

ghost use Rattle.std.specs.Prelude.{◌≡◌, ◌++◌, ℕ, List};
ghost use Rattle.stream_wire.specs.Spelling.{HasSpelling, spelling};
ghost use Rattle.stream_wire.specs.declared.message.Message.{Message};

/// No spelling of a message begins another, so a stream is cut into its messages in one way alone.
pub fn one_spelling()
    ensures { (m k : Message) (x y : List ℕ) → HasSpelling m → HasSpelling k → spelling m ++ x ≡ spelling k ++ y → (m ≡ k) × (x ≡ y) }
{}
