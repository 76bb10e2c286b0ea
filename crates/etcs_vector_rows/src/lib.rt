//! Vector lines about bits, variables, sets of lengths, rows and walks.
#![tactic(auto)]

mod bits;
mod rows;
mod sets;
mod vars;
mod walks;

use etcs_vector_lines::Case;
pub use rows::append_row;

/// Answers a line about bits, variables, sets of lengths, rows or walks: whether it is one.
pub fn answer(case: &mut Case, kind: &str) -> bool {
    let mut is_known = bits::answer(case, kind);
    is_known |= vars::answer(case, kind);
    is_known |= sets::answer(case, kind);
    is_known |= rows::answer(case, kind);
    is_known |= walks::answer(case, kind);
    is_known
}
