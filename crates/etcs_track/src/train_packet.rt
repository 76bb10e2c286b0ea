//! A packet to the track.

ghost use Rattle.std.specs.Prelude.{◌≡◌, ◌≤◌, length, IfOk};
ghost use Rattle.etcs_vars.specs.Reading.{spelled};
ghost use Rattle.etcs_track.specs.TrackPackets.{track_value, track_bits_of};

use crate::list::packets;
use crate::position_report::PositionReport;
use crate::position_report_two::PositionReportTwo;
use crate::train_flat::TrainFlat;
use crate::train_other::TrainOther;
use etcs_bodies::Framed;
use etcs_packets::inner::{Formed, typed_bits, typed_nid};
use etcs_packets::{copied, of_each};
use etcs_tables::{Way, frame_bits};
use std::alloc::{AllocError, Global};

/// A packet to the track (SUBSET-026, 7.4.3): one variant for each number that is typed, and all others as bits. Two of
/// them are equal exactly if they have the same number and variables or kept bits.
#[derive(Debug, Drop, PartialEq, Eq)]
pub enum TrainPacket {
    /// Packet 0: the position of the train.
    Report(PositionReport),
    /// Packet 1: the position of the train, with two balise groups.
    ReportTwo(PositionReportTwo),
    /// Packet 4: a fault.
    Fault(TrainFlat<4>),
    /// Packet 5: the running number of the train.
    RunningNumber(TrainFlat<5>),
    /// A packet of another number, kept as bits.
    Other(TrainOther),
}

impl Formed for TrainPacket {
    ghost use Rattle.etcs_track.specs.TrackPackets.{track_form};

    ghost form = { track_form };
}

impl TrainPacket {
    ghost use Rattle.std.specs.Prelude.{◌≡◌, ◌≤◌, IfOk};
    ghost use Rattle.etcs_packets.specs.PacketValues.{nid_of};
    ghost use Rattle.etcs_track.specs.TrackPackets.{track_value, track_bits_of, track_reading};

    /// NID_PACKET.
    pub fn nid(&self) -> u8
        ensures { result ≡ nid_of (track_value self.now) }
    {
        packets!(of_each, self, packet => typed_nid(packet), packet => packet.nid())
    }

    /// The length of the packet's spelling in bits: 21 and the bits after L_PACKET; at most 8,191.
    pub fn bit_len(&self) -> usize
        ensures bits { result ≡ track_bits_of (track_value self.now) }
        ensures spelling { result ≡ length (spelled (track_reading (track_value self.now))) }
        ensures small { result ≤ 8191 }
    {
        bits_in(self)
    }

    /// An equal packet.
    ///
    /// # Errors
    ///
    /// `AllocError`: out of memory.
    pub fn try_clone(&self, alloc: Global) -> Result<TrainPacket, AllocError>
        ensures { IfOk result (λ p. p ≡ self.now) }
    {
        packets!(copied, self, alloc)
    }
}

/// How many bits a packet takes, its frame among them.
fn bits_in(packet: &TrainPacket) -> usize
    ensures bits { result ≡ track_bits_of (track_value packet.now) }
    ensures small { result ≤ 8191 }
{
    packets!(of_each, packet, packet => typed_bits(packet), packet => frame_bits(Way::ToTrack) + packet.bits())
}
