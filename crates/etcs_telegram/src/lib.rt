//! Balise telegrams: a [`Telegram`] of a [`Header`] and packets, written over the caller's bytes (`encode_into`) or
//! appended to a list of bytes (`encode`); read from pieces by [`TelegramReader`], or in place, without allocation,
//! by [`TelegramView`]. Radio messages are in `etcs_messages`.
#![tactic(auto)]

mod encode;
mod header;
mod header_bits;
mod here;
pub mod inner;
pub mod laws;
mod phase;
mod reader;
mod refused;
mod rest;
mod size;
mod store;
mod telegram;
mod variables;
mod view;
mod whole;

pub use encode::NoRoom;
pub use etcs_bits::{BitSlice, Bits};
pub use etcs_packets::Packet;
pub use etcs_sequence::{Held, PacketRef, Packets};
pub use etcs_vars::{BuildFault, Fed, ReadFault, Var};
pub use header::Header;
pub use reader::TelegramReader;
pub use size::Size;
pub use telegram::Telegram;
pub use view::{TelegramView, ViewFault};
