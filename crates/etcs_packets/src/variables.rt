//! The variables of packets with their numbers: those after the frame, and all with it.
#![tactic(auto, using(std::proofs::Common::append_assoc))]

ghost use Rattle.std.specs.Prelude.{◌≡◌, ◌∷◌, [], OnOk, OnErr, IfOk, map};
ghost use Rattle.etcs_vars.specs.declared.var.Var.TheVariants.{NID_PACKET, L_PACKET};
ghost use Rattle.etcs_tables.specs.Frames.{directed};
ghost use Rattle.etcs_packets.specs.PacketReadings.{reading_to, readings_to};
ghost use Rattle.etcs_packets.specs.Sending.{front_to, rest_after};

use crate::any_packet::AnyPacket;
use crate::packet::Packet;
use etcs_tables::Way;
use etcs_vars::Var;
use etcs_vars::inner::{PairList, VarSink, Variables, send_bits};
use std::alloc::{AllocError, Global};

impl Packet {
    ghost use Rattle.etcs_packets.specs.PacketValues.{packet_value, variables_of};

    /// The variables after the frame (NID_PACKET, Q_DIR and L_PACKET) with their numbers, in the order of sending
    /// (SUBSET-026, 7.4.2): flags and counts are among them. Of packet 0 its NID_VBCMK; of a packet that is kept as
    /// bits none.
    ///
    /// # Errors
    ///
    /// `AllocError`: out of memory.
    pub fn variables(&self, alloc: Global) -> Result<Vec<(Var, u64)>, AllocError>
        ensures { IfOk result (λ pairs. pairs.items ≡ variables_of (packet_value self.now)) }
    {
        let mut list = PairList::new(alloc);
        self.send_body(&mut list)?;
        Ok(list.into_vec())
    }
}

/// All variables, with the frame; of a packet that is kept as bits a variable for each bit.
impl Variables for Packet {
    ghost use Rattle.etcs_packets.specs.PacketValues.{packet_value};
    ghost use Rattle.etcs_packets.specs.PacketReadings.{packet_reading};

    ghost reading_of = { λ p. packet_reading (packet_value p) };

    fn bits(&self) -> usize {
        self.bit_len()
    }

    fn send<S: VarSink>(&self, out: &mut S) -> Result<(), AllocError> {
        send_packet(self, out)
    }
}

/// Sends a frame: NID_PACKET, Q_DIR to the train alone, and L_PACKET.
///
/// # Errors
///
/// `AllocError`: the sink failed; its `failed` then holds.
#[inline(always)]
pub fn send_frame<S: VarSink>(
    way: Way,
    nid: u64,
    dir: u8,
    len: u64,
    out: &mut S,
) -> Result<(), AllocError>
    ensures ok { OnOk result (out.new ≡ S.with out.old ((NID_PACKET, nid) ∷ directed way dir ((L_PACKET, len) ∷ []))) }
    ensures err { OnErr result (S.failed out.old out.new) }
{
    match way {
        Way::ToTrain => out.send(&[
            (Var::NID_PACKET, nid),
            (Var::Q_DIR, u64::from(dir)),
            (Var::L_PACKET, len),
        ]),
        Way::ToTrack => out.send(&[(Var::NID_PACKET, nid), (Var::L_PACKET, len)]),
    }
}

/// Sends the frame, or the number alone of packet 0 without a frame.
#[inline(always)]
fn send_front<P: AnyPacket, S: VarSink>(packet: &P, out: &mut S) -> Result<(), AllocError>
    ensures ok { OnOk result (out.new ≡ S.with out.old (front_to P.WAY (P.form packet.now).value)) }
    ensures err { OnErr result (S.failed out.old out.new) }
{
    let nid = u64::from(packet.nid());
    match packet.dir() {
        Some(dir) => send_frame(P::WAY, nid, dir, packet.bit_len() as u64, out),
        None => out.send(&[(Var::NID_PACKET, nid)]),
    }
}

/// Sends what follows: the variables, or the bits that are kept.
#[inline(always)]
fn send_rest<P: AnyPacket, S: VarSink>(packet: &P, out: &mut S) -> Result<(), AllocError>
    ensures ok { OnOk result (out.new ≡ S.with out.old (rest_after (P.form packet.now).value)) }
    ensures err { OnErr result (S.failed out.old out.new) }
{
    match packet.kept_bits() {
        Some(bits) => send_bits(Var::OTHER_DATA, &bits, out),
        None => packet.send_body(out),
    }
}

/// Sends a packet of either way with its frame, kept bits one by one. Takes no memory of its own.
///
/// # Errors
///
/// `AllocError`: the sink failed; its `failed` then holds.
#[tactic(auto, using(crate::specs::laws::PacketReadings::front_and_rest))]
#[inline]
fn send_packet<P: AnyPacket, S: VarSink>(packet: &P, out: &mut S) -> Result<(), AllocError>
    ensures ok { OnOk result (out.new ≡ S.with out.old (reading_to P.WAY (P.form packet.now).value)) }
    ensures err { OnErr result (S.failed out.old out.new) }
{
    send_front(packet, out)?;
    send_rest(packet, out)
}

/// Sends packets of either way, one after another, each with its frame, kept bits one by one.
///
/// # Errors
///
/// `AllocError`: the sink failed; its `failed` then holds.
pub fn send_all<P: AnyPacket, S: VarSink>(packets: &[P], out: &mut S) -> Result<(), AllocError>
    ensures ok { OnOk result (out.new ≡ S.with out.old (readings_to P.WAY (map (λ p. (P.form p).value) packets.now))) }
    ensures err { OnErr result (S.failed out.old out.new) }
{
    for packet in packets {
        send_packet(packet, out)?;
    }
    Ok(())
}
