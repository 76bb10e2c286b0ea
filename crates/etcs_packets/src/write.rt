//! Packets put after other bits.

ghost use Rattle.std.specs.Prelude.{◌≡◌, ◌+◌, ◌<◌, ◌∷◌, [], length, map, All, IfSome, IfNone, OnSome};
ghost use Rattle.etcs_bits.specs.Bits.{num};
ghost use Rattle.etcs_vars.specs.declared.var.Var.TheVariants.{NID_PACKET, Q_DIR, L_PACKET};
ghost use Rattle.etcs_vars.specs.Reading.{spelled};
ghost use Rattle.etcs_packets.specs.PacketValues.{packet_value, variables_of, IsPacket, IsMade};
ghost use Rattle.etcs_packets.specs.PacketReadings.{packet_reading, packets_reading};
ghost use Rattle.etcs_packets.specs.Fronts.{front_of};
ghost use Rattle.etcs_vars.specs.WordSinks.{and_bits};

use crate::Packet;
use crate::any_packet::{AnyPacket, room_after};
use etcs_tables::{Way, frame_bits};
use etcs_vars::WordSink;
use etcs_vars::inner::Variables;

/// How many of `room` bits packets to the train leave, one after another, each with its frame; `None` exactly if they
/// take more. If they fit, each is one that its own type admits, and stands for a packet.
pub fn room_left(room: usize, packets: &[Packet]) -> Option<usize>
    ensures left { IfSome result (λ left. length (spelled (packets_reading (map packet_value packets.now))) + left ≡ room) }
    ensures made { OnSome result (All IsMade packets.now) }
    ensures packets { OnSome result (All IsPacket (map packet_value packets.now)) }
    ensures none { IfNone result (room < length (spelled (packets_reading (map packet_value packets.now)))) }
{
    room_after(room, packets)
}

/// Puts the spelling of these variables after other bits.
#[inline(always)]
pub fn append_variables<V: Variables>(variables: &V, out: &mut WordSink<'_>)
    ensures { out.new ≡ and_bits out.old (spelled (V.reading_of variables.now)) }
{
    match variables.send(out) {
        Ok(()) => {}
        Err(_) => unreachable!(),
    }
}

/// The number of NID_PACKET, Q_DIR and L_PACKET.
fn frame_number(nid: u8, dir: u8, len: usize) -> u64
    requires dir { dir < 4 }
    requires len { len < 8192 }
    ensures { num 23 result ≡ spelled ((NID_PACKET, nid) ∷ (Q_DIR, dir) ∷ (L_PACKET, len) ∷ []) }
{
    (u64::from(nid) * 4 + u64::from(dir)) * 8192 + len as u64
}

/// Puts what comes before a packet's variables or kept bits after other bits.
#[inline(always)]
fn append_front(packet: &Packet, out: &mut WordSink<'_>)
    ensures { out.new ≡ and_bits out.old (spelled (front_of (packet_value packet.now))) }
{
    packet.hold();
    match packet.dir() {
        Some(dir) => {
            let number = frame_number(packet.nid(), dir, packet.bit_len());
            out.put(frame_bits(Way::ToTrain), number);
        }
        None => out.put(8, u64::from(packet.nid())),
    }
}

/// Puts the variables after a packet's frame after other bits.
fn append_rest(packet: &Packet, out: &mut WordSink<'_>)
    ensures { out.new ≡ and_bits out.old (spelled (variables_of (packet_value packet.now))) }
{
    match packet.send_body(out) {
        Ok(()) => {}
        Err(_) => unreachable!(),
    }
}

/// Puts a packet with its frame after other bits.
pub(crate) fn append_packet(packet: &Packet, out: &mut WordSink<'_>)
    ensures { out.new ≡ and_bits out.old (spelled (packet_reading (packet_value packet.now))) }
{
    append_front(packet, out);
    match packet {
        Packet::Other(kept) => out.put_slice(&kept.body()),
        _ => append_rest(packet, out),
    }
}
