//! Vector lines about telegrams, messages and runs of a program; and `answer`, which takes a line of any kind.
#![tactic(auto)]

mod builds;
mod built_messages;
mod calls;
mod items;
mod messages;
mod readers;
mod runs;
mod streams;
mod telegrams;

pub use calls::{Ended, Pieces, Program, Room};
use etcs_vector_lines::Case;
use etcs_vector_packets::answer as of_packets;
use etcs_vector_rows::answer as of_rows;
pub use readers::{Reader, State, item_of, next_kind, size_of};
pub use telegrams::viewed;

/// Answers a line of this kind about runs of a program or about the library: whether there is such a kind.
pub fn answer<P: Program>(case: &mut Case, kind: &str) -> bool {
    runs::answer::<P>(case, kind)
        || of_rows(case, kind)
        || of_packets(case, kind)
        || of_items(case, kind)
}

/// Answers a line about telegrams or messages.
fn of_items(case: &mut Case, kind: &str) -> bool {
    let mut is_known = items::answer(case, kind);
    is_known |= telegrams::answer(case, kind);
    is_known |= builds::answer(case, kind);
    is_known |= built_messages::answer(case, kind);
    is_known
}
