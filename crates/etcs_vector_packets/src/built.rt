//! Lines about packets that are built by their constructors.
//!
//! A constructor's name, and `DIR ..`: `refused` and the fault. The same, and ` : NUMBERS : BITS`: as `packet`.
//!
//! A constructor's arguments are numbers: parts as the row has them, and the last list without its count. Those of
//! `flat_packet` and `balise_list` begin with NID, those of `plain_text` have how many numbers the frame has after DIR.
//!
//! Lines of packets to the track have no DIR; `train_flat`, `train_kept` and `train_kept_long` are of these.

use crate::forms::{Asked, is_copied};
use crate::packets::{FAULTS, Spelled, check_packet, kept, next_dir, say_checked, say_dir};
use crate::parts::{FAULTS as FAULTS_OF_PARTS, check_numbers, next_part};
use crate::sent::packet_sent;
use etcs_bits::Bits;
use etcs_bodies::{Listed, NextNumber, Numbers, Part};
use etcs_packets::{
    Authority, BaliseAt, BaliseList, Condition, ConditionalLevelOrder, FixedText, Gradient,
    InfillLocation, Level1Ma, Level23Ma, LevelOrder, Linking, ModeProfile, Packet, PlainText,
    ReportAt, ReportParameters, SpeedProfile, TextFrame, TrackCondition, TrackState,
};
use etcs_tables::frame_bits;
use etcs_track::{PositionReport, PositionReportTwo, TrainPacket};
use etcs_vars::BuildFault;
use etcs_vars::inner::append_numbers;
use etcs_vector_lines::{Case, FaultTexts};

/// Answers a line about a packet that is built: whether it is one.
pub(crate) fn answer(case: &mut Case, kind: &str) -> bool {
    match kind {
        "flat" => flat::<Packet>(case),
        "kept" => kept_bits::<Packet>(case),
        "kept_long" => kept_long::<Packet>(case),
        "train_flat" => flat::<TrainPacket>(case),
        "train_kept" => kept_bits::<TrainPacket>(case),
        "train_kept_long" => kept_long::<TrainPacket>(case),
        "marker" => say_marker::<Packet>(case),
        "flat_packet" => flat_packet::<Packet>(case),
        "balise_list" => balise_list(case),
        _ => return of_constructor(case, kind),
    }
    true
}

/// The same of the constructors of packets with groups.
fn of_constructor(case: &mut Case, kind: &str) -> bool {
    match kind {
        "linking" => built::<Linking>(case),
        "gradient" => built::<Gradient>(case),
        "speed_profile" => built::<SpeedProfile>(case),
        "level1_ma" => built::<Level1Ma>(case),
        "level23_ma" => built::<Level23Ma>(case),
        "level_order" => built::<LevelOrder>(case),
        "conditional_level_order" => built::<ConditionalLevelOrder>(case),
        "plain_text" => built::<PlainText>(case),
        "fixed_text" => built::<FixedText>(case),
        "infill_location" => built::<InfillLocation>(case),
        "report_parameters" => built::<ReportParameters>(case),
        "track_condition" => built::<TrackCondition>(case),
        "mode_profile" => built::<ModeProfile>(case),
        "position_report" => built::<PositionReport>(case),
        "position_report_two" => built::<PositionReportTwo>(case),
        _ => return false,
    }
    true
}

/// A type of packets with groups, which words make.
trait FromWords {
    type Packet: Asked;

    /// The packet of the arguments that come next, or none after its fault; notes where its readers don't give them back.
    fn of_words(case: &mut Case) -> Option<Self::Packet>;
}

/// Answers a constructor's arguments, or them and `: NUMBERS : BITS`.
fn built<P: FromWords>(case: &mut Case) {
    let beyond = case.split(":");
    let packet = P::of_words(case);
    say_made(case, beyond, packet.as_ref());
}

/// Answers what a constructor makes, before these words.
fn say_made<'a, A: Asked>(case: &mut Case<'a>, beyond: &'a str, packet: Option<&A>) {
    case.continue_with(beyond);
    match packet {
        Some(packet) if !beyond.is_empty() => say_built(case, packet),
        packet => case.say(if packet.is_some() { "built" } else { "" }),
    }
}

/// The frame of a packet that is as `NUMBERS : BITS` has it.
fn say_built<A: Asked>(case: &mut Case, packet: &A) {
    let dir = packet.dir().unwrap_or(3);
    let spelled = Spelled::next(case, packet.nid(), dir);
    say_checked(case, packet, &spelled);
}

/// What was built, or why nothing was.
fn found<A: Drop>(case: &mut Case, built: Result<A, BuildFault>, faults: &FaultTexts) -> Option<A> {
    match built {
        Ok(packet) => Some(packet),
        Err(fault) => {
            case.say_fault(fault, faults);
            None
        }
    }
}

/// The parts of all these numbers, of which there may be none.
fn each<P: Part + Drop, L: Numbers>(case: &mut Case, numbers: &mut L) -> Option<Vec<P>> {
    let mut parts = Vec::new(case.alloc());
    for _ in 0..1000u16 {
        if !numbers.is_empty() {
            let part = next_part(case, numbers)?;
            case.kept(parts.push(part).is_ok());
        }
    }
    Some(parts)
}

/// The parts of all these numbers.
fn all<P: Part + Drop>(case: &mut Case, numbers: &[u64]) -> Option<(P, Vec<P>)> {
    let mut numbers = Listed::new(numbers);
    let first = next_part(case, &mut numbers)?;
    Some((first, each(case, &mut numbers)?))
}

/// Checks that parts are those of these numbers.
fn check_each<P: Part>(case: &mut Case, parts: &[P], numbers: &[u64]) {
    check_all(case, Vec::new(case.alloc()), parts, numbers);
}

/// The same of a first part and further ones.
fn check_parts<P: Part>(case: &mut Case, first: &P, further: &[P], numbers: &[u64]) {
    let mut own = Vec::new(case.alloc());
    case.kept(append_numbers(first, &mut own).is_ok());
    check_all(case, own, further, numbers);
}

/// The same of the parts after those of which there are the numbers.
fn check_all<P: Part>(case: &mut Case, mut own: Vec<u64>, parts: &[P], numbers: &[u64]) {
    for part in parts {
        case.kept(append_numbers(part, &mut own).is_ok());
    }
    case.check(own.as_slice() == numbers, "other parts");
}

/// The packet of a constructor whose last arguments are a first part and further ones, which come back with a fault.
macro_rules! listed {
    ($case:ident, $packet:ident: $($argument:ident)*) => {{
        let dir = $case.next();
        $(let $argument = $case.next();)*
        let numbers = $case.numbers();
        let (first, further) = all($case, numbers.as_slice())?;
        match $packet::new(dir, $($argument,)* first, further) {
            Ok(packet) => {
                same!($case, packet: $($argument)*);
                check_parts($case, &packet.first(), packet.further(), numbers.as_slice());
                Some(Packet::$packet(packet))
            }
            Err((fault, back)) => {
                $case.say_fault(fault, &FAULTS);
                check_parts($case, &first, back.as_slice(), numbers.as_slice());
                None
            }
        }
    }};
}

/// The packet of a constructor whose last argument comes back with a fault, as `$take` makes it of the numbers that are left.
macro_rules! ending {
    ($case:ident, $packet:ident: $($argument:ident)*; $last:ident $take:expr, $check:ident) => {{
        let dir = $case.next();
        $(let $argument = $case.next();)*
        let numbers = $case.numbers();
        let $last = $take($case, numbers.as_slice())?;
        match $packet::new(dir, $($argument,)* $last) {
            Ok(packet) => {
                same!($case, packet: $($argument)*);
                $check($case, packet.$last(), numbers.as_slice());
                Some(Packet::$packet(packet))
            }
            Err((fault, back)) => {
                $case.say_fault(fault, &FAULTS);
                $check($case, &back, numbers.as_slice());
                None
            }
        }
    }};
}

/// The position report of a constructor whose last argument is where the train is.
macro_rules! located {
    ($case:ident, $report:ident as $variant:ident: $($argument:ident)*) => {{
        $(let $argument = $case.next();)*
        let numbers = $case.numbers();
        let located = part_of($case, numbers.as_slice())?;
        let packet = found($case, $report::new($($argument,)* located), &FAULTS)?;
        same!($case, packet: $($argument)* located);
        Some(TrainPacket::$variant(packet))
    }};
}

/// The part that begins these numbers.
fn part_of<P: Part + Drop>(case: &mut Case, numbers: &[u64]) -> Option<P> {
    next_part(case, &mut Listed::new(numbers))
}

/// `DIR Q_SCALE FIRST FURTHER..`
impl FromWords for Linking {
    type Packet = Packet;

    fn of_words(case: &mut Case) -> Option<Packet> {
        listed!(case, Linking: q_scale)
    }
}

/// `DIR Q_SCALE FIRST FURTHER..`
impl FromWords for Gradient {
    type Packet = Packet;

    fn of_words(case: &mut Case) -> Option<Packet> {
        listed!(case, Gradient: q_scale)
    }
}

/// `DIR Q_SCALE FIRST FURTHER..`
impl FromWords for ModeProfile {
    type Packet = Packet;

    fn of_words(case: &mut Case) -> Option<Packet> {
        listed!(case, ModeProfile: q_scale)
    }
}

/// `DIR Q_SCALE D_LEVELTR FIRST FURTHER..`
impl FromWords for LevelOrder {
    type Packet = Packet;

    fn of_words(case: &mut Case) -> Option<Packet> {
        listed!(case, LevelOrder: q_scale d_leveltr)
    }
}

/// `DIR FIRST FURTHER..`
impl FromWords for ConditionalLevelOrder {
    type Packet = Packet;

    fn of_words(case: &mut Case) -> Option<Packet> {
        listed!(case, ConditionalLevelOrder:)
    }
}

/// `DIR Q_SCALE FIRST FURTHER..`
impl FromWords for SpeedProfile {
    type Packet = Packet;

    fn of_words(case: &mut Case) -> Option<Packet> {
        let dir = case.next();
        let q_scale = case.next();
        let numbers = case.numbers();
        let (first, further) = all(case, numbers.as_slice())?;
        match SpeedProfile::new(dir, q_scale, first, further) {
            Ok(packet) => {
                same!(case, packet: q_scale);
                check_parts(case, packet.first(), packet.further(), numbers.as_slice());
                Some(Packet::SpeedProfile(packet))
            }
            Err((fault, first, back)) => {
                case.say_fault(fault, &FAULTS);
                check_parts(case, &first, back.as_slice(), numbers.as_slice());
                None
            }
        }
    }
}

/// `DIR Q_SCALE V_MAIN V_LOA T_LOA AUTHORITY`
impl FromWords for Level1Ma {
    type Packet = Packet;

    fn of_words(case: &mut Case) -> Option<Packet> {
        ending!(case, Level1Ma: q_scale v_main v_loa t_loa; authority part_of, check_numbers)
    }
}

/// `DIR Q_SCALE V_LOA T_LOA AUTHORITY`
impl FromWords for Level23Ma {
    type Packet = Packet;

    fn of_words(case: &mut Case) -> Option<Packet> {
        ending!(case, Level23Ma: q_scale v_loa t_loa; authority part_of, check_numbers)
    }
}

/// `DIR Q_SCALE D_TRACKINIT`, or `DIR Q_SCALE FIRST FURTHER..`
impl FromWords for TrackCondition {
    type Packet = Packet;

    fn of_words(case: &mut Case) -> Option<Packet> {
        ending!(case, TrackCondition: q_scale; state state_of, check_state)
    }
}

/// What a packet 68 says by these numbers.
fn state_of(case: &mut Case, numbers: &[u64]) -> Option<TrackState> {
    if let [distance] = numbers {
        return Some(TrackState::Initial(case.half_of(*distance)));
    }
    let (first, further): (Condition, Vec<Condition>) = all(case, numbers)?;
    Some(TrackState::Conditions(first, further))
}

/// Checks that a packet 68 says these numbers.
fn check_state(case: &mut Case, state: &TrackState, numbers: &[u64]) {
    match state {
        TrackState::Initial(distance) => {
            let same = numbers.first().copied() == Some(u64::from(*distance));
            case.check(same, "another distance");
        }
        TrackState::Conditions(first, further) => {
            check_parts(case, first, further.as_slice(), numbers);
        }
    }
}

/// The bytes of a text.
fn text_of(case: &mut Case, numbers: &[u64]) -> Vec<u8> {
    let mut text = Vec::new(case.alloc());
    for number in numbers {
        let byte = case.byte_of(*number);
        case.kept(text.push(byte).is_ok());
    }
    text
}

/// `DIR LENGTH FRAME BYTES..`, where the frame has this many numbers
impl FromWords for PlainText {
    type Packet = Packet;

    fn of_words(case: &mut Case) -> Option<Packet> {
        let dir = case.next();
        let length = usize::from(case.byte());
        let numbers = case.numbers();
        let (framed, bytes) = numbers.as_slice().split_at_checked(length)?;
        let frame: TextFrame = part_of(case, framed)?;
        let same = text_of(case, bytes);
        let text = text_of(case, bytes);
        match PlainText::new(dir, frame, text) {
            Ok(packet) => {
                case.check(packet.text() == same.as_slice(), "another text");
                check_numbers(case, &packet.frame(), framed);
                Some(Packet::PlainText(packet))
            }
            Err((fault, back)) => {
                case.say_fault(fault, &FAULTS);
                case.check(back == same, "another text back");
                None
            }
        }
    }
}

/// `DIR Q_TEXT FRAME`
impl FromWords for FixedText {
    type Packet = Packet;

    fn of_words(case: &mut Case) -> Option<Packet> {
        let dir = case.next();
        let q_text = case.next();
        let numbers = case.numbers();
        let frame: TextFrame = part_of(case, numbers.as_slice())?;
        let packet = found(case, FixedText::new(dir, frame, q_text), &FAULTS)?;
        same!(case, packet: q_text);
        check_numbers(case, &packet.frame(), numbers.as_slice());
        Some(Packet::FixedText(packet))
    }
}

/// `DIR NID_BG`, or `DIR NID_BG NID_C`
impl FromWords for InfillLocation {
    type Packet = Packet;

    fn of_words(case: &mut Case) -> Option<Packet> {
        let dir = case.next();
        let nid_bg = case.next();
        let nid_c = if case.is_empty() { None } else { case.next() };
        let packet = found(case, InfillLocation::new(dir, nid_c, nid_bg), &FAULTS)?;
        same!(case, packet: nid_c nid_bg);
        Some(Packet::InfillLocation(packet))
    }
}

/// `balise_list NID DIR BALISES..`
fn balise_list(case: &mut Case) {
    match case.byte() {
        49 => built::<BaliseList<49>>(case),
        63 => built::<BaliseList<63>>(case),
        _ => built::<BaliseList<5>>(case),
    }
}

/// Packet 49.
impl FromWords for BaliseList<49> {
    type Packet = Packet;

    fn of_words(case: &mut Case) -> Option<Packet> {
        Some(Packet::ShuntingList(balises(case)?))
    }
}

/// Packet 63.
impl FromWords for BaliseList<63> {
    type Packet = Packet;

    fn of_words(case: &mut Case) -> Option<Packet> {
        Some(Packet::SrList(balises(case)?))
    }
}

/// There is none of another number.
impl FromWords for BaliseList<5> {
    type Packet = Packet;

    fn of_words(case: &mut Case) -> Option<Packet> {
        balises::<5>(case)?;
        None
    }
}

/// The list of these groups, which come back with a fault.
fn balises<const NID: u8>(case: &mut Case) -> Option<BaliseList<NID>> {
    let dir = case.next();
    let numbers = case.numbers();
    let balises: Vec<BaliseAt> = each(case, &mut Listed::new(numbers.as_slice()))?;
    match BaliseList::new(dir, balises) {
        Ok(packet) => {
            check_each(case, packet.balises(), numbers.as_slice());
            Some(packet)
        }
        Err((fault, back)) => {
            case.say_fault(fault, &FAULTS);
            check_each(case, back.as_slice(), numbers.as_slice());
            None
        }
    }
}

/// `DIR Q_SCALE T_CYCLOC D_CYCLOC M_LOC REPORTS..`
impl FromWords for ReportParameters {
    type Packet = Packet;

    fn of_words(case: &mut Case) -> Option<Packet> {
        let dir = case.next();
        let q_scale = case.next();
        let t_cycloc = case.next();
        let d_cycloc = case.next();
        let m_loc = case.next();
        let numbers = case.numbers();
        let reports: Vec<ReportAt> = each(case, &mut Listed::new(numbers.as_slice()))?;
        match ReportParameters::new(dir, q_scale, t_cycloc, d_cycloc, m_loc, reports) {
            Ok(packet) => {
                same!(case, packet: q_scale t_cycloc d_cycloc m_loc);
                check_each(case, packet.reports(), numbers.as_slice());
                Some(Packet::ReportParameters(packet))
            }
            Err((fault, back)) => {
                case.say_fault(fault, &FAULTS);
                check_each(case, back.as_slice(), numbers.as_slice());
                None
            }
        }
    }
}

/// `Q_SCALE NID_LRBG LOCATED`
impl FromWords for PositionReport {
    type Packet = TrainPacket;

    fn of_words(case: &mut Case) -> Option<TrainPacket> {
        located!(case, PositionReport as Report: q_scale nid_lrbg)
    }
}

/// `Q_SCALE NID_LRBG NID_PRVLRBG LOCATED`
impl FromWords for PositionReportTwo {
    type Packet = TrainPacket;

    fn of_words(case: &mut Case) -> Option<TrainPacket> {
        located!(case, PositionReportTwo as ReportTwo: q_scale nid_lrbg nid_prvlrbg)
    }
}

/// `flat_packet NID DIR NUMBERS`: as other constructors.
fn flat_packet<A: Asked>(case: &mut Case) {
    let beyond = case.split(":");
    let nid = case.byte();
    let dir = case.byte();
    let numbers = case.numbers();
    let built = A::flat(nid, dir, numbers.as_slice());
    let packet = found(case, built, &FAULTS);
    say_made(case, beyond, packet.as_ref());
}

/// `flat NID DIR NUMBERS`: the variables and bits of a packet without groups, or why there is none.
fn flat<A: Asked>(case: &mut Case) {
    let nid = case.byte();
    let dir = next_dir::<A>(case);
    let numbers = case.numbers();
    let built = A::flat(nid, dir, numbers.as_slice());
    let packet = found(case, built, &FAULTS_OF_PARTS);
    if let Some(packet) = packet.as_ref() {
        say_flat(case, packet, nid, dir, numbers);
    }
}

/// The variables and the bits of a packet of these numbers.
fn say_flat<A: Asked>(case: &mut Case, packet: &A, nid: u8, dir: u8, numbers: Vec<u64>) {
    let sent = packet_sent(case, packet);
    let inner = sent.say_spelled(case);
    let spelled = Spelled::new(nid, dir, numbers, inner, sent.len());
    check_packet(case, packet, &spelled);
}

/// `kept NID DIR BITS`: the parts of a kept packet, or why there is none.
fn kept_bits<A: Asked>(case: &mut Case) {
    let nid = case.byte();
    let dir = next_dir::<A>(case);
    let bits = case.bits();
    let len = bits.len();
    let packet: Option<A> = kept(case, nid, dir, bits, &FAULTS_OF_PARTS);
    if let Some(packet) = packet.as_ref() {
        say_kept(case, packet, len);
    }
}

/// The parts of a packet that is kept as this many bits.
fn say_kept<A: Asked>(case: &mut Case, packet: &A, len: usize) {
    case.say_next(u64::from(packet.nid()));
    say_dir(case, packet);
    match packet.kept_bits() {
        Some(body) => {
            case.say_bits(&body);
            case.check(body.len() == len, "other bits");
        }
        None => case.check(false, "no kept bits"),
    }
    let body = packet.bit_len().checked_sub(frame_bits(A::WAY));
    case.check(body == Some(len), "another length");
    let copied = is_copied(case, packet);
    case.check(copied, "another copy");
}

/// `kept_long NID DIR COUNT`: `ok` for this many bits of bytes A5, or why there is no such packet.
fn kept_long<A: Asked>(case: &mut Case) {
    let nid = case.byte();
    let dir = next_dir::<A>(case);
    let len = case.up_to(8176) as usize;
    let body = case.bits_between("", "1022 x 10100101", "");
    let packet: Option<A> = kept(case, nid, dir, first_bits(body, len), &FAULTS_OF_PARTS);
    case.say(if packet.is_some() { "ok" } else { "" });
}

/// This many of these bits.
pub fn first_bits(mut bits: Bits, len: usize) -> Bits {
    if len < bits.len() {
        bits.truncate(len);
    }
    bits
}

/// The marker's number, or why there is none: `marker NID_VBCMK`.
fn say_marker<A: Asked>(case: &mut Case) {
    let packet = A::marker(case);
    if let Some(packet) = packet.as_ref() {
        let numbers = packet_sent(case, packet).numbers(case);
        case.say_found(numbers.as_slice().first().copied());
    }
}
