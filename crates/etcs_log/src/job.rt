//! What to do with a log, and its counts.

ghost use Rattle.std.specs.Prelude.{◌≡◌};
ghost use Rattle.etcs_log.specs.Logs.{is_written};
ghost use Rattle.etcs_log.specs.Values.{has_variables, needs_values};

use crate::kinds::Kinds;
use crate::numbers::NumberSet;

/// What is written of good lines.
#[derive(Clone, Copy, Debug, PartialEq, Eq)]
pub enum Good {
    /// Nothing.
    Left,
    /// Their digits in upper case, with the name of the kind before them if several kinds are asked for.
    Digits,
    /// One line of JSON each: the line's number, what is before its digits, and its item. What is reported of other lines is
    /// JSON then, too.
    Json,
}

impl Good {
    /// Whether good lines are written, and thus nothing else to the sink: the counts, the groups and what is reported of other
    /// lines are for the notes then.
    pub(crate) fn is_written(self) -> bool
        ensures { result ≡ is_written self }
    {
        match self {
            Good::Left => false,
            Good::Digits | Good::Json => true,
        }
    }

    /// Whether they are written variable by variable.
    #[inline]
    pub(crate) fn has_variables(self) -> bool
        ensures { result ≡ has_variables self }
    {
        match self {
            Good::Left | Good::Digits => false,
            Good::Json => true,
        }
    }
}

/// What to do with a log.
#[derive(Clone, Copy, Debug, PartialEq, Eq)]
pub struct LogJob {
    /// The kinds of items that a line may hold.
    pub kinds: Kinds,
    /// What is written of the good lines.
    pub good: Good,
    /// Whether counts are written after the last line.
    pub summary: bool,
    /// Whether a line for each balise group is written after that.
    pub groups: bool,
    /// Whether text is bad.
    pub strict: bool,
    /// Whether nothing is reported of single lines.
    pub quiet: bool,
    /// The packets of which a good item has one, if it is written; if there are none, any.
    pub packets: NumberSet,
    /// The messages that are written as good lines; if there are none, all.
    pub messages: NumberSet,
}

impl LogJob {
    /// Whether it needs the values of items, and not only their bytes: for counts, groups, a selection or JSON.
    #[inline]
    pub(crate) fn needs_values(&self) -> bool
        ensures { result ≡ needs_values self.now }
    {
        self.picks_some() || self.summary || self.groups || self.good.has_variables()
    }
}

/// How many lines of a whole log are what. All other lines are blank or comments.
#[derive(Clone, Copy, Debug, PartialEq, Eq)]
pub struct LogTally {
    /// How many lines are items.
    pub items: u64,
    /// How many are bad: neither of these, nor blank, nor a comment.
    pub bad: u64,
    /// How many aren't an item of the kinds, and have a number of bytes that only items of a kind that isn't asked for have.
    pub other: u64,
    /// How many are text without an item: without digits at their end, or with few after a letter.
    pub text: u64,
}
