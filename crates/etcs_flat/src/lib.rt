//! Packets to the train without groups, packets that are kept as bits, and packet 0, the virtual balise cover marker.
#![tactic(auto)]

mod body;
mod flat;
pub mod inner;
pub mod laws;
mod marker;
mod other;
mod table;

pub use etcs_bits::{BitSlice, Bits};
pub use etcs_bodies::Packetlike;
pub use etcs_vars::BuildFault;
pub use flat::Flat;
pub use marker::Marker;
pub use other::Other;
