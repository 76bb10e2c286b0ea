//! Rows of packets and messages (SUBSET-026, 7.4 and 8): which numbers they admit, how they are written and read, and
//! which lengths are left.
#![tactic(auto)]

mod cause;
mod fitting;
mod frames;
mod head;
mod here;
pub mod inner;
pub mod laws;
mod least;
mod length_set;
mod measure;
mod message;
mod near;
pub mod parts;
mod place;
mod progression;
mod refusal;
mod refused;
mod rest;
mod row_run;
mod speeds;
mod takers;
mod total;
mod walk;
mod words;
mod write;

pub use cause::Cause;
pub use etcs_bits::{BitSlice, Bits};
pub use etcs_bodies::Packetlike;
pub use etcs_tables::{Guard, Row, RowItem, Test, Way, message_row, row_of};
pub use etcs_vars::Var;
pub use frames::Carrier;
pub use here::Here;
pub use length_set::LengthSet;
pub use near::Near;
pub use place::{Fits, Place, Reach, lengths, reaches};
pub use refusal::Refusal;
pub use refused::{Expects, refusal_in};
pub use walk::{RowWalk, Step, Stopped};
pub use write::{admits_fields, write_row};
