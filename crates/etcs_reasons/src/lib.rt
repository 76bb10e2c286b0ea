//! What bytes are, variable by variable ([`Account`]), what the numbers mean, and why bytes are not an item ([`why`]: the
//! refused bit, its variable, and why no number of it may come). In `inner` an account is laid out as text or as a page,
//! which `etcs_explain` writes.
#![tactic(auto)]

mod bits;
mod first;
pub mod inner;
mod kinds;
mod meanings;
mod names;
mod no_bytes;
mod numbers;
mod page;
mod reasons;
mod refusal;
mod sheet;
mod table;
mod text;

pub use etcs_text::{Account, End, Part};
pub use refusal::{Reason, why};
pub use sheet::Layout;
