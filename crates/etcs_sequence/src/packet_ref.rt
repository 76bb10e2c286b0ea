//! One packet in bytes of the caller's.

ghost use Rattle.std.specs.Prelude.{◌≡◌, IfOk};
ghost use Rattle.etcs_vars.specs.Reading.{spelled};
ghost use Rattle.etcs_packets.specs.PacketValues.{PacketValue, IsPacket, packet_value, nid_of};
ghost use Rattle.etcs_packets.specs.PacketReadings.{packet_reading};
ghost use Rattle.etcs_sequence.specs.Runs.{IsWhole};
ghost use Rattle.etcs_sequence.specs.Refs.{IsPacketBits};

use crate::kinds::{kept_packet, marker_packet, typed_packet};
use crate::pieces::{cut_in, number_in};
use etcs_bits::BitSlice;
use etcs_packets::Packet;
use etcs_tables::{Way, row_of};
use std::alloc::{AllocError, Global};
use std::marker::Model;

/// One packet to the train in bytes of the caller's, which aren't copied (SUBSET-026, 7.4): its bits, from NID_PACKET
/// on, which spell exactly one packet.
#[derive(Debug, Drop)]
pub struct PacketRef<'a> {
    bits: BitSlice<'a>,
}

impl<'a> Model for PacketRef<'a> {
    ghost use Rattle.std.specs.Prelude.{Bool, List};
    ghost use Rattle.etcs_sequence.specs.Refs.{IsPacketBits};

    ghost Value = { List Bool };

    ghost view = { λ p. p.bits };

    ghost invariant = { λ p. IsPacketBits p.bits };
}

impl<'a> PacketRef<'a> {
    /// The packet whose bits these are.
    pub(crate) fn new(bits: BitSlice<'a>) -> PacketRef<'a>
        requires { IsPacketBits bits }
        ensures { result ≡ bits.entry }
    {
        PacketRef { bits }
    }

    /// NID_PACKET of the packet that these bits spell.
    pub fn nid(&self) -> u8
        ensures { (v : PacketValue) → IsPacket v → spelled (packet_reading v) ≡ self.now → result ≡ nid_of v }
    {
        number_in(&self.bits, 0, 8) as u8
    }

    /// The packet's bits, its frame among them, which spell a packet: 14 of packet 0, of another as many as L_PACKET
    /// counts, 23 to 8,191.
    pub fn bits(&self) -> BitSlice<'a>
        ensures bits { result ≡ self.now }
        ensures packet { IsPacketBits self.now }
    {
        cut_in(&self.bits, 0, self.bits.len())
    }

    /// The packet that these bits spell, with values of its own. Takes memory if it holds a list or bits.
    ///
    /// # Errors
    ///
    /// `AllocError`: out of memory.
    pub fn to_packet(&self, alloc: Global) -> Result<Packet, AllocError>
        ensures whole { IfOk result (λ p. IsWhole p) }
        ensures bits { IfOk result (λ p. spelled (packet_reading (packet_value p)) ≡ self.now) }
        ensures same { IfOk result (λ p. (v : PacketValue) → IsPacket v → spelled (packet_reading v) ≡ self.now → packet_value p ≡ v) }
    {
        let nid = self.nid();
        if nid == 0 {
            return Ok(marker_packet(&self.bits));
        }
        match row_of(Way::ToTrain, nid) {
            Some(_) => typed_packet(alloc, nid, &self.bits),
            None => kept_packet(alloc, nid, &self.bits),
        }
    }
}
