//! Packets one after another in a room of bits, with what closes them, as telegrams and messages hold them; and the
//! reader of every item, [`ItemReader`], over what is left of one ([`ItemRest`]).
//!
//! [`PacketsRest`] is what is left of packets in a room. What is read goes into a [`PacketStore`]:
//! [`PacketList`] makes packets of it, [`PacketCount`] counts them and takes no memory. [`Packets`] are
//! those in bytes of the caller's, which aren't copied. `specs/Progress.antt` has what a reader of any such language is
//! and returns.
#![tactic(auto)]

mod fault;
mod first;
mod held;
mod here;
pub mod inner;
mod item;
mod kinds;
pub mod laws;
mod list;
mod list_store;
mod packet_ref;
mod packets;
mod packets_in;
mod pieces;
mod run;
mod seen;
mod sending;
mod stage;
mod state;
mod store;

pub use etcs_bits::BitSlice;
pub use etcs_packets::Packet;
pub use etcs_vars::{Fed, ReadFault, Var};
pub use held::Held;
pub use item::{ItemReader, ItemRest};
pub use list::PacketList;
pub use list_store::ListStore;
pub use packet_ref::PacketRef;
pub use packets::PacketsRest;
pub use packets_in::Packets;
pub use seen::PacketCount;
pub use stage::Stage;
pub use state::PacketsState;
pub use store::{PacketSink, PacketStore};
