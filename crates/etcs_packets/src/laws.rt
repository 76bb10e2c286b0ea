//! Laws, each the contract of a function.

ghost use Rattle.std.specs.Prelude.{◌≡◌, ◌↔◌, IsTrue};
ghost use Rattle.etcs_packets.specs.PacketValues.{packet_value};

use crate::any_packet::AnyPacket;
use crate::packet::Packet;

/// Two packets that stand for one value are equal: packets of one number, one direction and the same variables or kept
/// bits.
#[tactic(auto, using(crate::specs::laws::OnePacket::one_packet))]
pub fn one_packet(first: &Packet, second: &Packet)
    ensures { packet_value first.now ≡ packet_value second.now → first.now ≡ second.now }
{
    first.hold();
    second.hold();
}

/// True exactly if the packets are equal, in kind, direction and all numbers or bits; this is `==`.
pub fn exact_packet(first: &Packet, second: &Packet) -> bool
    ensures { IsTrue result ↔ (first.now ≡ second.now) }
{
    first == second
}
