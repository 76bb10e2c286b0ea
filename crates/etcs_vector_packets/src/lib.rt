//! Vector lines about packets and their parts.
#![tactic(auto)]

/// Checks that these readers give back what a value was made of.
macro_rules! same {
    ($case:ident, $value:ident: $($reader:ident)*) => {{
        let mut is_same = true;
        $(is_same &= $value.$reader() == $reader;)*
        $case.check(is_same, concat!("other than ", stringify!($($reader)*)));
    }};
}

mod built;
mod forms;
mod list;
mod packets;
mod parts;
mod sent;
mod several;
mod shapes;
mod writes;

pub use built::first_bits;
use etcs_vector_lines::Case;
pub use forms::{Asked, Own, own_fields};
pub use several::all_packets;

/// Answers a line about packets or their parts: whether it is one.
pub fn answer(case: &mut Case, kind: &str) -> bool {
    let mut is_known = parts::answer(case, kind);
    is_known |= packets::answer(case, kind);
    is_known |= built::answer(case, kind);
    is_known |= writes::answer(case, kind);
    is_known
}
