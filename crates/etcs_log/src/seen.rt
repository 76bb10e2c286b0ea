//! What a log has so far.

use crate::job::LogTally;
use etcs_group::Groups;

/// How its lines are counted, and the groups of its telegrams, if they are asked for.
#[derive(Drop)]
pub(crate) struct Seen {
    pub(crate) tally: LogTally,
    pub(crate) groups: Groups,
}
