//! Items to begin with ([`blank`]): telegrams and messages with packets of given numbers, in which each variable has its least
//! number.
#![tactic(auto)]

mod frames;
mod items;
mod pairs;

pub use etcs_text::Kind;
pub use items::blank;
