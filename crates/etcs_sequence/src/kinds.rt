//! The packet that bits spell, by its kind.

ghost use Rattle.std.specs.Prelude.{◌≡◌, ◌≤◌, ◌-◌, length, IfOk};
ghost use Rattle.etcs_bits.specs.Bits.{value, part};
ghost use Rattle.etcs_vars.specs.Reading.{spelled};
ghost use Rattle.etcs_packets.specs.PacketValues.{packet_value};
ghost use Rattle.etcs_packets.specs.PacketReadings.{packet_reading};
ghost use Rattle.etcs_sequence.specs.Runs.{IsWhole};
ghost use Rattle.etcs_sequence.specs.Refs.{IsMarkerBits, IsTypedBits, IsKeptBits};

use crate::pieces::{cut_in, number_in};
use etcs_bits::{BitSlice, Bits};
use etcs_packets::inner::AnyPacket;
use etcs_packets::{Other, Packet};
use etcs_tables::{Way, frame_bits};
use std::alloc::{AllocError, Global};

/// Q_DIR, which follows NID_PACKET.
fn direction(bits: &BitSlice<'_>) -> u8
    requires { 23 ≤ length bits.now }
    ensures { result ≡ value (part 8 2 bits.now) }
{
    number_in(bits, 8, 2) as u8
}

/// The bits after L_PACKET.
fn body<'a>(bits: &BitSlice<'a>) -> BitSlice<'a>
    requires { 23 ≤ length bits.now }
    ensures { result ≡ part 23 (length bits.now - 23) bits.now }
{
    let frame = frame_bits(Way::ToTrain);
    cut_in(bits, frame, bits.len() - frame)
}

/// Packet 0: NID_VBCMK follows its number.
pub(crate) fn marker_packet(bits: &BitSlice<'_>) -> Packet
    requires { IsMarkerBits bits.now }
    ensures whole { IsWhole result }
    ensures bits { spelled (packet_reading (packet_value result)) ≡ bits.now }
{
    match Packet::vbc_marker(number_in(bits, 8, 6) as u8) {
        Ok(packet) => {
            packet.hold();
            packet
        }
        Err(_) => unreachable!(),
    }
}

/// The typed packet of this number that the bits spell.
pub(crate) fn typed_packet(
    alloc: Global,
    nid: u8,
    bits: &BitSlice<'_>,
) -> Result<Packet, AllocError>
    requires { IsTypedBits nid bits.now }
    ensures whole { IfOk result (λ p. IsWhole p) }
    ensures bits { IfOk result (λ p. spelled (packet_reading (packet_value p)) ≡ bits.now) }
{
    match Packet::of_bits(alloc, nid, direction(bits), body(bits)) {
        Ok(Some(packet)) => {
            packet.hold();
            Ok(packet)
        }
        Ok(None) => unreachable!(),
        Err(fault) => Err(fault),
    }
}

/// The packet of this number that the bits spell, which is kept as bits.
pub(crate) fn kept_packet(alloc: Global, nid: u8, bits: &BitSlice<'_>) -> Result<Packet, AllocError>
    requires { IsKeptBits nid bits.now }
    ensures whole { IfOk result (λ p. IsWhole p) }
    ensures bits { IfOk result (λ p. spelled (packet_reading (packet_value p)) ≡ bits.now) }
{
    let kept = Bits::from_slice(alloc, body(bits))?;
    match Other::new(nid, direction(bits), kept) {
        Ok(other) => Ok(Packet::Other(other)),
        Err(_) => unreachable!(),
    }
}
