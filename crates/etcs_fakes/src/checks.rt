//! The checks of a test, one after another.

/// The first thing that doesn't hold, if any.
#[derive(Clone, Copy)]
pub struct Checks {
    wrong: Option<&'static str>,
    refused: u32,
    answered: u32,
}

impl Checks {
    /// No check has been made.
    pub fn new() -> Checks {
        Checks {
            wrong: None,
            refused: 0,
            answered: 0,
        }
    }

    /// Notes the text, if this is the first check that doesn't hold.
    pub fn check(&mut self, holds: bool, text: &'static str) {
        if !holds && self.wrong.is_none() {
            self.wrong = Some(text);
        }
    }

    /// Counts a call that was refused memory, or was answered.
    pub fn count(&mut self, is_refused: bool) {
        if is_refused {
            self.refused = self.refused.saturating_add(1);
        } else {
            self.answered = self.answered.saturating_add(1);
        }
    }

    /// Notes if no call was refused memory, or all were.
    pub fn check_counts(&mut self) {
        let (refused, answered) = (self.refused, self.answered);
        self.check(refused > 0, "no call was refused memory");
        self.check(answered > 0, "each call was refused memory");
        self.refused = 0;
        self.answered = 0;
    }

    /// The first thing that didn't hold, if any.
    pub fn wrong(&self) -> Option<&'static str> {
        self.wrong
    }
}
