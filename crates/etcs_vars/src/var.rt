//! The variables of telegrams and messages.

ghost use Rattle.std.specs.Prelude.{◌≡◌, ℕ, ◌^◌, ◌<◌, ◌≤◌, ◌-◌, ◌↔◌, IsTrue, Some, take};
ghost use Rattle.std.specs.Fmt.{padded};
ghost use Rattle.etcs_bits.specs.Bits.{num};
ghost use Rattle.etcs_vars.specs.Vars.{width, ranges, admits, begins, name};

use crate::ranges::{begins, begins_one, inside, within};
use std::fmt;

/// A variable of telegrams and radio messages, under its name in the standard (SUBSET-026, 7.5).
///
/// Its number is sent in [`width`](Var::width) bits, the most significant first. Distances (`D_`) and lengths (`L_`)
/// are in steps of Q_SCALE unless noted otherwise.
#[derive(Clone, Copy, Debug, PartialEq, Eq)]
pub enum Var {
    // The header of a telegram.
    /// Which way the telegram goes: 1 is from track to train.
    Q_UPDOWN,
    /// The version of the system in the header of a telegram: three bits X, four bits Y. It
    /// prints as `M_VERSION`.
    M_VERSION_HEADER,
    /// The medium: 0 is a balise.
    Q_MEDIA,
    /// The balise's position in its group.
    N_PIG,
    /// The count of balises in the group, less one.
    N_TOTAL,
    /// Whether the telegram repeats that of the next balise (1) or of the previous one (2).
    M_DUP,
    /// The message counter.
    M_MCOUNT,
    /// The country or region.
    NID_C,
    /// The balise group within its country or region.
    NID_BG,
    /// Whether the group is marked as linked.
    Q_LINK,

    // The frame of a packet.
    /// The packet's number.
    NID_PACKET,
    /// The direction for which the packet is valid: 0 reverse, 1 nominal, 2 both.
    Q_DIR,
    /// The length of the packet in bits, with its frame.
    L_PACKET,
    /// The unit of the packet's distances: 0 is 10 cm, 1 is 1 m, 2 is 10 m.
    Q_SCALE,
    /// How many entries follow.
    N_ITER,
    /// The marker of a virtual balise cover.
    NID_VBCMK,

    // Linking and infill.
    /// The distance to the next linked group.
    D_LINK,
    /// Whether NID_C follows.
    Q_NEWCOUNTRY,
    /// The direction in which the train passes the linked group: 0 reverse, 1 nominal.
    Q_LINKORIENTATION,
    /// What the train does if linking finds a fault: 0 train trip, 1 service brake, 2 nothing.
    Q_LINKREACTION,
    /// How exactly the place of the linked group is known, in metres.
    Q_LOCACC,

    // Movement authorities.
    /// The speed that signalling allows, in steps of 5 km/h.
    V_MAIN,
    /// The speed at the limit of authority, in steps of 5 km/h.
    V_LOA,
    /// How long V_LOA holds, in seconds.
    T_LOA,
    /// The length of a section.
    L_SECTION,
    /// Whether the section has a timer, which then follows.
    Q_SECTIONTIMER,
    /// How long the section is valid, in seconds.
    T_SECTIONTIMER,
    /// Where the section's timer stops.
    D_SECTIONTIMERSTOPLOC,
    /// The length of the last section.
    L_ENDSECTION,
    /// Whether the last section has an end timer, which then follows.
    Q_ENDTIMER,
    /// How long the last section is valid, in seconds.
    T_ENDTIMER,
    /// Where the end timer starts.
    D_ENDTIMERSTARTLOC,
    /// Whether a danger point follows.
    Q_DANGERPOINT,
    /// The distance from the end of the authority to the danger point.
    D_DP,
    /// The release speed towards the danger point, in steps of 5 km/h.
    V_RELEASEDP,
    /// Whether an overlap follows.
    Q_OVERLAP,
    /// Where the overlap's timer starts.
    D_STARTOL,
    /// How long the overlap is valid, in seconds.
    T_OL,
    /// The distance from the end of the authority to the end of the overlap.
    D_OL,
    /// The release speed towards the overlap, in steps of 5 km/h.
    V_RELEASEOL,

    // Profiles of gradient and speed.
    /// The distance to the next change of gradient.
    D_GRADIENT,
    /// Whether the track climbs (1) or falls (0).
    Q_GDIR,
    /// The gradient without its sign, in per mille.
    G_A,
    /// The gradient to assume in temporary restrictions, without its sign, in per mille.
    G_TSR,
    /// The distance to the next change of speed.
    D_STATIC,
    /// The static speed, in steps of 5 km/h.
    V_STATIC,
    /// Whether the speed may rise with the train's front (1) or only with its end (0).
    Q_FRONT,
    /// Which of NC_CDDIFF (0) and NC_DIFF (1 and 2) follows.
    Q_DIFF,
    /// A category of trains by cant deficiency.
    NC_CDDIFF,
    /// Another category of trains.
    NC_DIFF,
    /// The speed for the category, in steps of 5 km/h.
    V_DIFF,

    // Levels.
    /// The distance to the change of level.
    D_LEVELTR,
    /// The level; 1 is that of a national system, and NID_NTC follows.
    M_LEVELTR,
    /// The national system.
    NID_NTC,
    /// The length over which the driver may acknowledge the change of level.
    L_ACKLEVELTR,

    // The radio network.
    /// Whether to open (1) or to end (0) the session.
    Q_RBC,
    /// The radio block centre.
    NID_RBC,
    /// The radio number to call, as sixteen digits of four bits.
    NID_RADIO,
    /// Whether sleeping equipment manages the session too: 1 for yes.
    Q_SLEEPSESSION,
    /// The radio network, as six digits of four bits.
    NID_MN,

    // Temporary speed restrictions.
    /// The restriction's number.
    NID_TSR,
    /// The distance to the restriction.
    D_TSR,
    /// The length of the restriction.
    L_TSR,
    /// The speed in the restriction, in steps of 5 km/h.
    V_TSR,

    // Texts.
    /// The class of the text.
    Q_TEXTCLASS,
    /// Whether all conditions for showing the text must hold (1), or one is enough (0).
    Q_TEXTDISPLAY,
    /// The distance from which on the text is shown.
    D_TEXTDISPLAY,
    /// The mode in which the text is shown.
    M_MODETEXTDISPLAY,
    /// The level in which the text is shown; with 1, NID_NTC follows.
    M_LEVELTEXTDISPLAY,
    /// The length over which the text is shown.
    L_TEXTDISPLAY,
    /// How long the text is shown, in seconds.
    T_TEXTDISPLAY,
    /// Whether and how the driver confirms the text.
    Q_TEXTCONFIRM,
    /// Whether the driver's confirmation is one more condition for the text's end (1), or always ends it (0).
    Q_CONFTEXTDISPLAY,
    /// Whether the driver's confirmation is reported.
    Q_TEXTREPORT,
    /// The number under which the confirmation is reported.
    NID_TEXTMESSAGE,
    /// How many bytes of text follow.
    L_TEXT,
    /// One byte of a text.
    X_TEXT,
    /// Which of the fixed texts is shown.
    Q_TEXT,

    // Other packets.
    /// Whether the train stops (0) or continues (1) in shunting mode.
    Q_ASPECT,
    /// Whether the train stops (0) or continues (1) in staff responsible mode.
    Q_SRSTOP,
    /// The train's running number, as eight digits of four bits.
    NID_OPERATIONAL,
    /// The version of the system in packet 2 and in message 32: three bits X, four bits Y.
    M_VERSION,

    // Radio messages.
    /// The message's number.
    NID_MESSAGE,
    /// The length of the whole message in bytes.
    L_MESSAGE,
    /// The time by the train's clock, in steps of 10 ms.
    T_TRAIN,
    /// Whether the train acknowledges the message.
    M_ACK,
    /// The balise group referred to: NID_C in the top 10 bits, NID_BG in the low 14.
    NID_LRBG,
    /// The distance that the train may run in staff responsible mode.
    D_SR,
    /// The number of an emergency message.
    NID_EM,
    /// The shift of the location reference, in two's complement.
    D_REF,
    /// The train's orientation to the balise group referred to.
    Q_ORIENTATION,

    // Requests for a movement authority.
    /// How long before the train would brake it asks for an authority, in seconds.
    T_MAR,
    /// How long before a speed's time runs out it asks, in seconds.
    T_TIMEOUTRQST,
    /// The time between two requests, in seconds.
    T_CYCRQST,

    // Position reports.
    /// The time between two reports of position, in seconds.
    T_CYCLOC,
    /// The distance between two reports of position.
    D_CYCLOC,
    /// Where else the train reports its position: 0 now, 1 at each balise group, 2 at no balise group.
    M_LOC,
    /// The distance to the place where the train reports its position.
    D_LOC,
    /// Which end of the train is reported to reach the place: 0 its rear, 1 its front.
    Q_LGTLOC,

    // Track conditions.
    /// Whether the initial states are resumed (1), or track conditions follow (0).
    Q_TRACKINIT,
    /// The distance to the place from which on the initial states are resumed.
    D_TRACKINIT,
    /// The distance to the track condition.
    D_TRACKCOND,
    /// The length over which the track condition holds.
    L_TRACKCOND,
    /// The kind of the track condition.
    M_TRACKCOND,

    // Mode profiles.
    /// The distance to the start of the area of the mode.
    D_MAMODE,
    /// The mode in the area: 0 on sight, 1 shunting, 2 limited supervision.
    M_MAMODE,
    /// The speed in the area, in steps of 5 km/h; 127 is the national value for the mode.
    V_MAMODE,
    /// The length of the area.
    L_MAMODE,
    /// The length before the area over which the driver may acknowledge the mode.
    L_ACKMAMODE,
    /// Whether the start of the area is the end of authority alone (1), or the supervised location too (0).
    Q_MAMODE,

    // Handing over to another radio block centre.
    /// The distance to the place where the other radio block centre takes over.
    D_RBCTR,

    // Messages to the track.
    /// The number of the on-board equipment.
    NID_ENGINE,
    /// Whether the position reported at the start of a mission is valid: 0 it isn't, 1 it is, 2 it isn't known.
    Q_STATUS,

    // What a train reports.
    /// The balise group before the one referred to, written as NID_LRBG is.
    NID_PRVLRBG,
    /// The kind of an error.
    M_ERROR,
    /// The distance from the balise group referred to, to the train's front, by Q_SCALE.
    D_LRBG,
    /// The train's orientation to that balise group: 0 reverse, 1 nominal, 2 unknown.
    Q_DIRLRBG,
    /// The side of that balise group on which the train's front is: 0 reverse, 1 nominal, 2 unknown.
    Q_DLRBG,
    /// How much less than measured the train may have run, with the group's inaccuracy, by Q_SCALE.
    L_DOUBTOVER,
    /// How much more than measured it may have run, with the group's inaccuracy, by Q_SCALE.
    L_DOUBTUNDER,
    /// The train's integrity: 0 no information, 1 confirmed by the monitoring device, 2 confirmed by the driver,
    /// 3 lost.
    Q_LENGTH,
    /// The length of the train for which its integrity is confirmed, in metres.
    L_TRAININT,
    /// The speed of the train, in steps of 5 km/h.
    V_TRAIN,
    /// The direction of the train's movement: 0 reverse, 1 nominal, 2 unknown.
    Q_DIRTRAIN,
    /// The mode of the on-board equipment.
    M_MODE,
    /// The level that it works in: 0 level 0, 1 a national system, 2 to 4 levels 1 to 3.
    M_LEVEL,

    // Bits that are kept as they are, one variable for each bit.
    /// A bit of a telegram after packet 255.
    FILL,
    /// A bit of a packet or a message whose row isn't known.
    OTHER_DATA,
    /// A bit of a message after its packets.
    PADDING,
    /// A bit that fills a telegram's last byte.
    PAD,
}

impl Var {
    /// Whether the variable admits the number: it fits the variable's width and isn't spare, as the table has it
    /// (SUBSET-026, 7.5).
    #[tactic(auto, using(crate::proofs::Prefixes::admits_by_first))]
    #[inline]
    pub fn admits(self, number: u64) -> bool
        ensures { result ≡ admits self number }
    {
        within(self.first_range(), number) || self.lies_in_a_range(number)
    }

    /// The same, range by range: what few numbers need.
    #[tactic(auto, using(crate::proofs::Prefixes::admits_by_ranges))]
    #[inline(never)]
    fn lies_in_a_range(self, number: u64) -> bool
        ensures { result ≡ admits self number }
    {
        inside(self.ranges(), number)
    }

    /// Whether some admitted number, in the variable's width, begins with these `taken` bits, given as the number
    /// `bits`. `taken` must be at most the width, and `bits` must have at most `taken` bits.
    #[tactic(auto, using(crate::proofs::Prefixes::begins_admitted))]
    #[inline]
    pub fn admits_prefix(self, bits: u64, taken: usize) -> bool
        requires taken { taken ≤ width self }
        requires fits { bits < 2 ^ taken }
        ensures { IsTrue result ↔ ((n : ℕ) × IsTrue (admits self n) × (take taken (num (width self) n) ≡ num taken bits)) }
    {
        self.begins(self.width() - taken, bits)
    }

    /// Whether `bits` may begin a number that the variable admits, with `rest` bits after them.
    #[tactic(auto, using(crate::proofs::Prefixes::begins_first))]
    #[inline]
    fn begins(self, rest: usize, bits: u64) -> bool
        requires { rest ≤ 64 }
        ensures { result ≡ begins (ranges self) rest bits }
    {
        begins_one(&self.first_range(), rest, bits) || begins(self.ranges(), rest, bits)
    }
}

/// Prints the name, padded as the format asks.
impl fmt::Display for Var {
    ghost output = { λ var. Some (name var) };

    ghost styled_output = { λ var spec. Some (padded spec (name var)) };

    fn fmt<W: fmt::Write>(&self, f: &mut fmt::Formatter<W>) -> fmt::Result {
        f.pad(self.name())
    }
}
