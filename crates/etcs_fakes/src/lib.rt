//! What tests of refused memory and failing streams rest on.
#![tactic(auto)]

mod checks;
mod memory;
mod streams;

pub use checks::Checks;
pub use memory::{starve, starve_to};
pub use streams::{Broken, Full, Narrow, Repeated};
