//! What was read so far, line by line.

ghost use Rattle.std.specs.Prelude.{◌≡◌};
ghost use Rattle.script_text.specs.Drafts.{Counts, Reads, read_of, script_of};
ghost use Rattle.script_words.specs.Lines.{words};
ghost use Rattle.script_text.specs.Scripts.{is_free, is_placed, nothing_read, with_form, with_words};

use crate::draft::Draft;
use crate::forms::{self, Form, Part};
use command_set::Script;
use script_words::fault::{LineFault, Refusal};
use script_words::lines::next_word;
use std::alloc::Global;

/// The script of the lines so far, the part of the last of them, and whether one was an `ids` line: a second one
/// is refused also where the first gave the range that a script without one has.
#[derive(Debug, Drop)]
pub struct Reader {
    pub draft: Draft,
    pub part: Part,
    pub has_ids: bool,
}

impl Reader {
    /// Before the first line. It takes no memory.
    pub fn new(alloc: Global) -> Reader
        ensures read { read_of result ≡ nothing_read }
        ensures counts { Counts result.draft }
    {
        Reader {
            draft: Draft::new(alloc),
            part: Part::Range,
            has_ids: false,
        }
    }

    /// The script.
    pub fn into_script(self) -> Script
        ensures { result ≡ script_of self.draft }
    {
        self.draft.into_script()
    }

    /// Reads a line of these words, where there are words. After an error the reader is of no more use.
    #[tactic(auto, unfolding(crate::specs::Scripts::with_words))]
    pub fn add_words(&mut self, alloc: Global, text: &[u8]) -> Result<(), Refusal>
        requires { Counts self.old.draft }
        ensures { Reads self.new result (with_words (read_of self.old) (words text.now)) }
    {
        let Some((word, rest)) = next_word(text) else {
            return Ok(());
        };
        match forms::form_of(word) {
            Some(form) => self.add_form(alloc, form, rest),
            None => Err(Refusal::Fault(LineFault::UnknownWord)),
        }
    }

    // Reads a line of this form, which says these words.
    fn add_form(&mut self, alloc: Global, form: Form, text: &[u8]) -> Result<(), Refusal>
        requires { Counts self.old.draft }
        ensures { Reads self.new result (with_form (read_of self.old) form (words text.now)) }
    {
        if !self.may_stand(form) {
            return Err(Refusal::Fault(LineFault::OutOfPlace));
        }
        let line = self.draft.line(alloc, form, text)?;
        self.draft.add(line)?;
        self.part = form.part();
        self.has_ids = self.has_ids || form == Form::Ids;
        Ok(())
    }

    // Whether a line of this form may stand next.
    fn may_stand(&self, form: Form) -> bool
        ensures { result ≡ is_placed (read_of self.now) form }
    {
        self.part.place() <= form.part().place() && self.is_free(form)
    }

    // Whether there may be a line of this form.
    fn is_free(&self, form: Form) -> bool
        ensures { result ≡ is_free (read_of self.now) form }
    {
        match form {
            Form::Ids => !self.has_ids,
            Form::Command(_) => !self.draft.sessions.is_empty(),
            Form::Table | Form::Session | Form::Go | Form::Loop => true,
        }
    }
}
