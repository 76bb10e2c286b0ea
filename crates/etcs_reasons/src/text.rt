//! A text that is put together by calls that don't fail.

ghost use Rattle.std.specs.Prelude.{◌≡◌, ℕ, ◌<◌, ◌||◌, is_err, length, string_bytes, IfOk, IfSome, IsSome};
ghost use Rattle.etcs_reasons.specs.Sentences.{IsWritten};

use std::alloc::{AllocError, Global};
use std::fmt::Display;

/// A text, which notes if memory ran out for a part of it.
#[derive(Drop)]
pub struct Text {
    held: String,
    is_starved: bool,
}

impl Text {
    /// Nothing is written yet.
    pub fn new(alloc: Global) -> Text {
        Text {
            held: String::new(alloc),
            is_starved: false,
        }
    }

    /// Notes that memory ran out, if a part wasn't written. The text stays as it is.
    pub fn note(&mut self, written: Result<(), AllocError>)
        ensures held { self.new.held ≡ self.old.held }
        ensures starved { self.new.is_starved ≡ (self.old.is_starved || is_err written) }
    {
        self.is_starved |= written.is_err();
    }

    /// Appends a part, or notes that memory ran out.
    pub fn push(&mut self, part: &str)
        ensures some { 0 < length part.now → IsWritten self.new }
        ensures kept { IsWritten self.old → IsWritten self.new }
    {
        let written = self.held.push_str(part);
        self.note(written);
    }

    /// Appends all of another text, and what it notes.
    pub fn push_whole(&mut self, part: &Text)
        ensures { IsWritten self.old → IsWritten self.new }
    {
        self.push(part.as_str());
        self.is_starved |= part.is_starved;
    }

    /// Appends what `write!` has.
    pub fn write_fmt<D: Display + Drop>(&mut self, part: D)
        ensures some { IfSome (D.output part) (λ text. 0 < length text → IsWritten self.new) }
        ensures kept { IsSome (D.output part) → IsWritten self.old → IsWritten self.new }
    {
        let written = self.held.write_fmt(part);
        self.note(written);
    }

    /// Empties the text, to be written again.
    pub fn clear(&mut self) {
        self.held.clear();
    }

    /// The allocator that it takes memory from.
    pub fn alloc(&self) -> Global {
        *self.held.allocator()
    }

    /// What was written so far.
    pub fn as_str(&self) -> &str {
        self.held.as_str()
    }

    /// What was written.
    ///
    /// # Errors
    ///
    /// If memory ran out for a part of it.
    pub(crate) fn whole(&self) -> Result<&str, AllocError> {
        if self.is_starved {
            Err(AllocError)
        } else {
            Ok(self.held.as_str())
        }
    }

    /// Returns the text as a string, when nothing more is to be written. It isn't empty if something was written.
    ///
    /// # Errors
    ///
    /// If memory ran out for a part of it.
    pub fn into_string(self) -> Result<String, AllocError>
        ensures { IsWritten self → IfOk result (λ s. 0 < length (string_bytes s)) }
    {
        if self.is_starved {
            return Err(AllocError);
        }
        let Text { held, .. } = self;
        Ok(held)
    }
}
