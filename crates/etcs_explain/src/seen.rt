//! What was seen of an input so far.

ghost use Rattle.etcs_explain.specs.Stands.{IsAfter};

use etcs_runs::RunFault;

/// What was seen of an input so far.
#[derive(Clone, Copy)]
pub(crate) struct Seen {
    /// Whether anything was written.
    pub(crate) is_begun: bool,
    /// How many items there were.
    pub(crate) items: u64,
    /// What was wrong first.
    pub(crate) first: Option<RunFault>,
}

impl Seen {
    /// After a further part, with this many items and this fault.
    pub(crate) fn after(self, items: u64, fault: Option<RunFault>) -> Seen
        ensures { IsAfter self items fault result }
    {
        Seen {
            is_begun: true,
            items: self.items.saturating_add(items),
            first: match self.first {
                None => fault,
                first => first,
            },
        }
    }
}
