//! What the program is asked to do, and what it returns.

ghost use Rattle.std.specs.Prelude.{◌≡◌, ◌↔◌, IsTrue};
ghost use Rattle.etcs_text.specs.Kinds.{IsOfTelegrams};
ghost use Rattle.etcs_stream.specs.Printers.{IsGroupable};

use etcs_runs::Form;
use etcs_text::Kind;

/// What is done with the items.
#[derive(Clone, Copy, Debug, PartialEq, Eq)]
pub enum Command {
    /// Each item is written as lines of text.
    Show,
    /// Each item is written as a line that reports it as accepted.
    Check,
    /// Each item is written in this form.
    Convert(Form),
    /// The items are the telegrams of a balise group, in any order. For each a line is written: `new` if it fits those
    /// that are held and isn't held, `repeat` if it fits them and is held, else `clash` and its first clash with them.
    /// At the end come the last lines: `group empty` exactly if nothing is held; else NID_C and NID_BG of the group,
    /// with `complete` and the packets of its message exactly if it is whole, or with `missing` and exactly the missing
    /// positions, in rising order.
    Group,
}

/// What a run is asked to do.
#[derive(Clone, Copy, Debug, PartialEq, Eq)]
pub struct Job {
    /// What the input holds.
    pub kind: Kind,
    /// The form of the input.
    pub from: Form,
    /// What is done with the items.
    pub command: Command,
}

impl Job {
    /// Returns `true` exactly if the job groups no messages: only telegrams can be grouped.
    pub fn is_groupable(&self) -> bool
        ensures { IsTrue result ↔ IsGroupable self.now }
    {
        self.command != Command::Group || is_of_telegrams(self.kind)
    }
}

/// Whether items of a kind are telegrams.
fn is_of_telegrams(kind: Kind) -> bool
    ensures { IsTrue result ↔ IsOfTelegrams kind }
{
    matches!(kind, Kind::Long | Kind::Short)
}

/// What a run found in its input.
#[derive(Clone, Copy, Debug, PartialEq, Eq)]
pub struct Tally {
    /// How many items were reported.
    pub items: u64,
    /// How many telegrams clash with those before them; 0 unless the command is `Group`.
    pub clashes: u64,
    /// Whether the group is complete; true unless the command is `Group`.
    pub complete: bool,
}
