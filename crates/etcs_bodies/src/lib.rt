//! What the body of a packet is made of: numbers that are taken one after another, parts, lists of parts.
#![tactic(auto)]

mod body;
mod counted;
mod entries;
mod faults;
mod fields;
mod framed;
mod guards;
pub mod laws;
mod list_of;
mod numbers;
mod packetlike;
mod part;
mod runs;
mod walk;

pub use body::Body;
pub use counted::Counted;
pub use entries::{Entries, Entry};
pub use etcs_vars::check;
pub use faults::check_count;
pub use framed::Framed;
pub use guards::check_guard;
pub use list_of::ListOf;
pub use numbers::{Ahead, InBits, Listed, NextNumber, Numbers, Spelled};
pub use packetlike::Packetlike;
pub use part::{Part, Passing, Plain, clone_all, hold_all, pass_list, send_list, take_list};
pub use runs::{Flag, Run};
pub use walk::{PieceWalker, Walk};
