//! Which numbers may come next of a message.

use crate::kind::{Head, Own};
use crate::phase::Phase;
use crate::rest::MessageRest;
use etcs_packets::inner::AnyPacket;
use etcs_rows::{Expects, Here};
use etcs_sequence::PacketStore;

impl<H: Head, B: Own<Front = H>, S: PacketStore + Drop> Expects for MessageRest<H, B, S> {
    fn here(&self) -> Here {
        match self.phase {
            Phase::Number => Here::Any,
            Phase::Length => Here::MessageLength(H::Packet::WAY, self.nid),
            Phase::Front(_) => Here::Any,
            Phase::Packets => self.packets.left.here(),
            Phase::Padding(_) => Here::Any,
            Phase::Data(_) => Here::Any,
            Phase::Whole => Here::Any,
        }
    }
}
