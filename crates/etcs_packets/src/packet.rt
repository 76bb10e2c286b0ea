//! A packet to the train.

ghost use Rattle.std.specs.Prelude.{◌≡◌, ◌≤◌, length, None, Some, OnOk, IfOk, IfErr};
ghost use Rattle.etcs_vars.specs.declared.var.Var.TheVariants.{NID_VBCMK};
ghost use Rattle.etcs_vars.specs.Faults.{number_fault};
ghost use Rattle.etcs_vars.specs.Reading.{spelled};
ghost use Rattle.etcs_packets.specs.PacketValues.{bits_of, packet_value};

use crate::list::packets;
use crate::typed::{Formed, typed_bits, typed_nid};
use crate::{copied, of_each};
use etcs_bodies::{Framed, Packetlike};
use etcs_flat::{Flat, Marker, Other, inner};
use etcs_grouped::{
    BaliseList, ConditionalLevelOrder, FixedText, Gradient, InfillLocation, Level1Ma, Level23Ma,
    LevelOrder, Linking, ModeProfile, PlainText, ReportParameters, SpeedProfile, TrackCondition,
};
use etcs_tables::{MARKER_BITS, Way, frame_bits};
use etcs_vars::BuildFault;
use std::alloc::{AllocError, Global};

/// A packet to the train (SUBSET-026, 7.4.2): one variant for each number that is typed, and all others as bits. Two of
/// them are equal exactly if they have the same number, direction and variables or kept bits.
#[derive(Debug, Drop, PartialEq, Eq)]
pub enum Packet {
    /// Packet 0: the marker of a virtual balise cover.
    VbcMarker(Marker),
    /// Packet 2: the version of the system, which the trackside orders.
    SystemVersion(Flat<2>),
    /// Packet 5: the linked balise groups ahead.
    Linking(Linking),
    /// Packet 12: the movement authority of level 1.
    Level1Ma(Level1Ma),
    /// Packet 15: the movement authority of levels 2 and 3.
    Level23Ma(Level23Ma),
    /// Packet 16: how far it is to the end of a section whose length wasn't known before.
    Repositioning(Flat<16>),
    /// Packet 21: the gradients ahead.
    Gradient(Gradient),
    /// Packet 27: the static speeds ahead.
    SpeedProfile(SpeedProfile),
    /// Packet 41: an order to change the level.
    LevelOrder(LevelOrder),
    /// Packet 42: an order to open or end a session with a radio block centre.
    SessionManagement(Flat<42>),
    /// Packet 45: the radio network to register with.
    RadioNetwork(Flat<45>),
    /// Packet 46: an order to change the level, if the train's isn't among these.
    ConditionalLevelOrder(ConditionalLevelOrder),
    /// Packet 49: the balise groups over which the train may run in shunting mode.
    ShuntingList(BaliseList<49>),
    /// Packet 57: when the train asks for a movement authority.
    MaRequest(Flat<57>),
    /// Packet 58: when and where the train reports its position.
    ReportParameters(ReportParameters),
    /// Packet 63: the balise groups over which the train may run in staff responsible mode.
    SrList(BaliseList<63>),
    /// Packet 64: revocable temporary restrictions from balises are inhibited.
    InhibitTsr(Flat<64>),
    /// Packet 65: a temporary speed restriction.
    Tsr(Flat<65>),
    /// Packet 66: the revocation of a temporary speed restriction.
    TsrRevocation(Flat<66>),
    /// Packet 68: the track conditions ahead.
    TrackCondition(TrackCondition),
    /// Packet 72: a text, and when it is shown.
    PlainText(PlainText),
    /// Packet 76: the number of a text that the train knows, and when it is shown.
    FixedText(FixedText),
    /// Packet 80: the areas ahead in which the train runs in another mode.
    ModeProfile(ModeProfile),
    /// Packet 131: handing over to another radio block centre.
    RbcTransition(Flat<131>),
    /// Packet 132: whether a train stops in shunting mode.
    DangerForShunting(Flat<132>),
    /// Packet 135: the stop of shunting when the desk is opened.
    StopShunting(Flat<135>),
    /// Packet 136: the balise group at which the infill that follows begins.
    InfillLocation(InfillLocation),
    /// Packet 137: whether a train stops in staff responsible mode.
    StopInSr(Flat<137>),
    /// Packet 140: the running number of the train.
    TrainRunningNumber(Flat<140>),
    /// Packet 141: the default gradient in temporary speed restrictions.
    TsrGradient(Flat<141>),
    /// Packet 145: the reaction to inconsistent balise groups is inhibited.
    InhibitConsistency(Flat<145>),
    /// Packet 254: the default information of a balise.
    DefaultInformation(Flat<254>),
    /// A packet of another number, kept as bits.
    Other(Other),
}

impl Formed for Packet {
    ghost use Rattle.etcs_packets.specs.PacketValues.{form};

    ghost form = { form };
}

impl Packet {
    ghost use Rattle.std.specs.Prelude.{◌≡◌, ◌≤◌, IfOk};
    ghost use Rattle.etcs_packets.specs.PacketValues.{packet_value, nid_of, dir_of, bits_of};
    ghost use Rattle.etcs_packets.specs.PacketReadings.{packet_reading};

    /// Packet 0, the marker of a virtual balise cover, of this NID_VBCMK; returned exactly if the error below doesn't
    /// apply.
    ///
    /// # Errors
    ///
    /// `NotAdmitted(NID_VBCMK)`: the number is above 63.
    pub fn vbc_marker(number: u8) -> Result<Packet, BuildFault>
        ensures ok { IfOk result (λ p. p ≡ Packet.VbcMarker number) }
        ensures fits { OnOk result (number_fault NID_VBCMK number ≡ None) }
        ensures fault { IfErr result (λ e. number_fault NID_VBCMK number ≡ Some e) }
    {
        Ok(Packet::VbcMarker(inner::marker(number)?))
    }

    /// NID_PACKET.
    pub fn nid(&self) -> u8
        ensures { result ≡ nid_of (packet_value self.now) }
    {
        packets!(of_each, self, [_ => 0] packet => typed_nid(packet), packet => packet.nid())
    }

    /// Q_DIR: 0 reverse, 1 nominal, 2 both directions. `None` exactly for packet 0, which has none.
    #[inline(always)]
    pub fn dir(&self) -> Option<u8>
        ensures { result ≡ dir_of (packet_value self.now) }
    {
        packets!(of_each, self, [_ => None] packet => Some(packet.dir()), packet => Some(packet.dir()))
    }

    /// The length of the packet's spelling in bits: 14 for packet 0, else 23 and the bits after L_PACKET; at most
    /// 8,191.
    #[inline(always)]
    pub fn bit_len(&self) -> usize
        ensures bits { result ≡ bits_of (packet_value self.now) }
        ensures spelling { result ≡ length (spelled (packet_reading (packet_value self.now))) }
        ensures small { result ≤ 8191 }
    {
        bits_in(self)
    }

    /// An equal packet.
    ///
    /// # Errors
    ///
    /// `AllocError`: out of memory.
    pub fn try_clone(&self, alloc: Global) -> Result<Packet, AllocError>
        ensures { IfOk result (λ p. p ≡ self.now) }
    {
        packets!(copied, self, alloc, VbcMarker)
    }
}

/// How many bits a packet takes, its frame among them.
#[inline]
fn bits_in(packet: &Packet) -> usize
    ensures bits { result ≡ bits_of (packet_value packet.now) }
    ensures small { result ≤ 8191 }
{
    packets!(of_each, packet, [_ => MARKER_BITS] packet => typed_bits(packet), packet => frame_bits(Way::ToTrain) + packet.bits())
}
