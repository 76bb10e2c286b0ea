//! A packet to the track, as readers and messages use it.

ghost use Rattle.std.specs.Prelude.{◌≡◌, ◌∷◌, IfOk};
ghost use Rattle.etcs_vars.specs.declared.var.Var.TheVariants.{NID_PACKET, L_PACKET, OTHER_DATA};
ghost use Rattle.etcs_vars.specs.Reading.{spelled, kept};
ghost use Rattle.etcs_vars.specs.WordSinks.{and_bits};
ghost use Rattle.etcs_tables.specs.declared.row.Way.TheVariants.{ToTrack};
ghost use Rattle.etcs_packets.specs.Outcomes.{IsMadeOf};
ghost use Rattle.etcs_track.specs.TrackPackets.{track_form};

use crate::list::packets;
use crate::train_other::TrainOther;
use crate::train_packet::TrainPacket;
use etcs_bits::{BitSlice, Bits};
use etcs_bodies::Numbers;
use etcs_packets::inner::{AnyPacket, Made, Source, append_variables, hold};
use etcs_packets::{by_number, of_each, pass_by_number};
use etcs_tables::Way;
use etcs_vars::inner::{VarSink, Variables};
use etcs_vars::{Var, WordSink};
use std::alloc::{AllocError, Global};

/// Puts the frame of a packet that is kept, and its bits, after other bits.
fn append_kept(nid: u8, len: usize, body: &BitSlice<'_>, out: &mut WordSink<'_>)
    ensures { out.new ≡ and_bits out.old (spelled ((NID_PACKET, nid) ∷ (L_PACKET, len) ∷ kept OTHER_DATA body.now)) }
{
    out.put_reading(&[
        (Var::NID_PACKET, u64::from(nid)),
        (Var::L_PACKET, len as u64),
    ]);
    out.put_slice(body);
}

/// The typed packet of this number and direction with what a source has after L_PACKET. `None` only if there is none;
/// there is none of a direction but 0, which is that of every packet to the track.
#[inline(always)]
fn of_number<S: Source>(alloc: Global, nid: u8, dir: u8, source: &S) -> Made<TrainPacket>
    ensures { IfOk result (λ o. IsMadeOf track_form ToTrack nid dir (S.left source.now) o) }
{
    packets!(by_number, Way::ToTrack, nid, alloc, dir, source)
}

impl AnyPacket for TrainPacket {
    ghost use Rattle.etcs_tables.specs.declared.row.Way.TheVariants.{ToTrack};
    ghost use Rattle.etcs_track.specs.TrackPackets.{track_form};
    ghost use Rattle.etcs_track.specs.laws.OneTrackPacket.{one_packet};

    const WAY: Way = Way::ToTrack;

    ghost WAY = { ToTrack };

    ghost form = { track_form };

    ghost one = { one_packet };

    fn hold(&self) {
        packets!(of_each, self, packet => hold(packet), packet => { packet.nid(); })
    }

    fn nid(&self) -> u8 {
        self.nid()
    }

    /// No direction is sent: it is 0.
    fn dir(&self) -> Option<u8> {
        let _ = self.nid();
        Some(0)
    }

    fn kept_bits(&self) -> Option<BitSlice<'_>> {
        match self {
            TrainPacket::Other(kept) => Some(kept.body()),
            _ => None,
        }
    }

    fn send_body<S: VarSink>(&self, out: &mut S) -> Result<(), AllocError> {
        packets!(of_each, self, packet => packet.send(out), _ => out.send(&[]))
    }

    fn bit_len(&self) -> usize {
        self.bit_len()
    }

    #[inline]
    fn append(&self, out: &mut WordSink<'_>) {
        match self {
            TrainPacket::Other(kept) => append_kept(kept.nid(), self.bit_len(), &kept.body(), out),
            _ => append_variables(self, out),
        }
    }

    fn of_fields(alloc: Global, nid: u8, dir: u8, fields: &[u64]) -> Made<TrainPacket> {
        of_number(alloc, nid, dir, &fields)
    }

    #[inline(always)]
    fn of_bits(alloc: Global, nid: u8, dir: u8, body: BitSlice<'_>) -> Made<TrainPacket> {
        of_number(alloc, nid, dir, &body)
    }

    fn of_source<S: Source>(alloc: Global, nid: u8, dir: u8, source: &S) -> Made<TrainPacket> {
        of_number(alloc, nid, dir, source)
    }

    #[inline(always)]
    fn pass<L: Numbers, S: VarSink>(
        nid: u8,
        numbers: &mut L,
        out: &mut S,
    ) -> Result<Option<bool>, AllocError> {
        packets!(pass_by_number, nid, numbers, out)
    }

    fn of_kept(nid: u8, dir: u8, body: Bits) -> TrainPacket {
        let _ = dir;
        TrainPacket::Other(TrainOther::sound(nid, body))
    }

    /// To the track packet 0 has a frame.
    fn of_marker(_number: u8) -> Option<TrainPacket> {
        None
    }

    fn try_clone(&self, alloc: Global) -> Result<TrainPacket, AllocError> {
        self.try_clone(alloc)
    }
}
