//! Lines about packets: read from their numbers and their bits, and compared.
//!
//! NUMBERS are those of a packet's row and BITS the digits of its bits, both after the frame; a run of them between two `/`
//! is repeated by `N x` before it. ANY is `typed NID DIR NUMBERS`, `kept NID DIR : BITS` or `marker NUMBER`.
//!
//! `train_` before a kind asks the same of packets to the track, whose lines have no DIR.

use crate::forms::{Asked, check_listed, is_copied};
use crate::sent::{BEFORE, packet_sent};
use etcs_bits::{BitSlice, Bits};
use etcs_packets::Packet;
use etcs_tables::{Way, frame_bits, is_direction};
use etcs_track::TrainPacket;
use etcs_vector_lines::{Case, FaultTexts};

/// What is answered of a fault.
pub(crate) const FAULTS: FaultTexts = [
    "refused ",
    "refused group of ",
    "refused count ",
    "refused count of numbers",
    "refused length",
    "refused fill",
];

/// Answers a line about packets: whether it is one.
pub(crate) fn answer(case: &mut Case, kind: &str) -> bool {
    match kind.strip_prefix("train_") {
        Some(kind) => of_way::<TrainPacket>(case, kind),
        None => of_way::<Packet>(case, kind),
    }
}

/// The same of the packets of one way.
fn of_way<A: Asked>(case: &mut Case, kind: &str) -> bool {
    match kind {
        "packet" | "packet_numbers" | "packet_bits" | "flat_bits" => read::<A>(case, kind),
        "packet_any" | "packet_variables" => of_any::<A>(case, kind),
        "packet_same" => compared::<A>(case),
        _ => return false,
    }
    true
}

/// DIR, where packets have one.
pub(crate) fn next_dir<A: Asked>(case: &mut Case) -> u8 {
    match A::WAY {
        Way::ToTrain => case.byte(),
        Way::ToTrack => 0,
    }
}

/// What a line says about a typed packet.
#[derive(Drop)]
pub(crate) struct Spelled {
    nid: u8,
    dir: u8,
    numbers: Vec<u64>,
    /// The bits after five others, and some after them.
    inner: Bits,
    len: usize,
}

impl Spelled {
    /// Of what was given, with as many bits after five others.
    pub(crate) fn new(nid: u8, dir: u8, numbers: Vec<u64>, inner: Bits, len: usize) -> Spelled {
        Spelled {
            nid,
            dir,
            numbers,
            inner,
            len,
        }
    }

    /// What `NUMBERS : BITS` says about a packet of this number and direction.
    pub(crate) fn next(case: &mut Case, nid: u8, dir: u8) -> Spelled {
        let digits = case.split(":");
        let numbers = case.numbers();
        let inner = case.bits_between("10110", digits, "0");
        let len = inner.len().saturating_sub(6);
        Spelled::new(nid, dir, numbers, inner, len)
    }

    fn bits(&self) -> Option<BitSlice<'_>> {
        self.inner.as_slice().cut(BEFORE, self.len)
    }

    /// The packet of these numbers, in a direction.
    fn listed<A: Asked>(&self, case: &mut Case, dir: u8, numbers: &[u64]) -> Option<A> {
        listed(case, self.nid, dir, numbers)
    }

    /// The packet of these bits, in a direction.
    fn in_bits<A: Asked>(&self, case: &mut Case, dir: u8, bits: Option<BitSlice<'_>>) -> Option<A> {
        in_bits(case, self.nid, dir, bits?)
    }
}

/// The packet of numbers.
pub(crate) fn listed<A: Asked>(case: &mut Case, nid: u8, dir: u8, numbers: &[u64]) -> Option<A> {
    match A::of_fields(case.alloc(), nid, dir, numbers) {
        Ok(packet) => packet,
        Err(_) => {
            case.kept(false);
            None
        }
    }
}

/// The packet of bits.
fn in_bits<A: Asked>(case: &mut Case, nid: u8, dir: u8, bits: BitSlice<'_>) -> Option<A> {
    match A::of_bits(case.alloc(), nid, dir, bits) {
        Ok(packet) => packet,
        Err(_) => {
            case.kept(false);
            None
        }
    }
}

/// `packet NID DIR : NUMBERS : BITS`: number, direction and length of the packet that both are read as; `none`.
/// `packet_numbers NID DIR : NUMBERS`, `packet_bits NID DIR : BITS`: the same of these alone.
/// `flat_bits NID DIR BITS`: `some` or `none`.
fn read<A: Asked>(case: &mut Case, kind: &str) {
    let nid = case.byte();
    let dir = next_dir::<A>(case);
    match kind {
        "packet" => read_both::<A>(case, nid, dir),
        "packet_numbers" => read_numbers::<A>(case, nid, dir),
        "packet_bits" => read_bits::<A>(case, nid, dir),
        _ => read_flat::<A>(case, nid, dir),
    }
}

/// Takes the colon.
fn colon(case: &mut Case) {
    if case.word() != ":" {
        case.bad();
    }
}

fn read_both<A: Asked>(case: &mut Case, nid: u8, dir: u8) {
    colon(case);
    let spelled = Spelled::next(case, nid, dir);
    let packet: Option<A> = spelled.listed(case, dir, spelled.numbers.as_slice());
    say_spelled(case, packet.as_ref(), &spelled);
}

fn read_numbers<A: Asked>(case: &mut Case, nid: u8, dir: u8) {
    colon(case);
    let numbers = case.numbers();
    let packet: Option<A> = listed(case, nid, dir, numbers.as_slice());
    say_read(case, packet.as_ref());
}

fn read_bits<A: Asked>(case: &mut Case, nid: u8, dir: u8) {
    colon(case);
    let bits = case.bits();
    let packet: Option<A> = in_bits(case, nid, dir, bits.as_slice());
    say_read(case, packet.as_ref());
}

fn read_flat<A: Asked>(case: &mut Case, nid: u8, dir: u8) {
    let bits = case.bits();
    let packet: Option<A> = in_bits(case, nid, dir, bits.as_slice());
    case.say_either(packet.is_some(), "some", "none");
}

/// The frame of the packet of numbers and of bits, where there is one.
fn say_spelled<A: Asked>(case: &mut Case, packet: Option<&A>, spelled: &Spelled) {
    match packet {
        Some(packet) => say_checked(case, packet, spelled),
        None => {
            case.say("none");
            let read: Option<A> = spelled.in_bits(case, spelled.dir, spelled.bits());
            case.check(read.is_none(), "a packet of its bits");
        }
    }
}

/// The frame of the packet that was read, where there is one.
fn say_read<A: Asked>(case: &mut Case, read: Option<&A>) {
    match read {
        Some(packet) => say_frame(case, packet),
        None => case.say("none"),
    }
}

/// Number, direction where there is any, and length of a packet.
pub(crate) fn say_frame<A: Asked>(case: &mut Case, packet: &A) {
    case.say_next(u64::from(packet.nid()));
    say_dir(case, packet);
    case.say_number(packet.bit_len() as u64);
}

/// The direction of a packet to the train.
pub(crate) fn say_dir<A: Asked>(case: &mut Case, packet: &A) {
    if A::WAY == Way::ToTrain {
        match packet.dir() {
            Some(dir) => case.say_next(u64::from(dir)),
            None => case.say("- "),
        }
    }
}

/// The frame of a packet that is as it is spelled.
pub(crate) fn say_checked<A: Asked>(case: &mut Case, packet: &A, spelled: &Spelled) {
    say_frame(case, packet);
    check_packet(case, packet, spelled);
}

/// Checks that a packet is as it is spelled: its frame, its numbers, what its numbers and bits are read as in each
/// direction, its copy, and that nothing shorter or longer is read.
pub(crate) fn check_packet<A: Asked>(case: &mut Case, packet: &A, spelled: &Spelled) {
    case.check(packet.nid() == spelled.nid, "another number");
    let length = packet.bit_len().checked_sub(frame_bits(A::WAY));
    case.check(length == Some(spelled.len), "another length");
    check_sent(case, packet, spelled);
    check_listed(case, packet, spelled.numbers.as_slice());
    check_copy(case, packet);
    for dir in 0..=3u8 {
        check_direction(case, packet, spelled, dir);
    }
    check_numbers_whole::<A>(case, spelled);
    check_bits_whole::<A>(case, spelled);
}

/// Checks what a packet's numbers and bits are read as in a direction.
fn check_direction<A: Asked>(case: &mut Case, packet: &A, spelled: &Spelled, dir: u8) {
    let read = spelled.listed(case, dir, spelled.numbers.as_slice());
    check_like(case, packet, dir, read.as_ref());
    let read = spelled.in_bits(case, dir, spelled.bits());
    check_like(case, packet, dir, read.as_ref());
}

/// Checks that a packet sends just the numbers and the bits.
fn check_sent<A: Asked>(case: &mut Case, packet: &A, spelled: &Spelled) {
    let sent = packet_sent(case, packet);
    let numbers = sent.numbers(case);
    case.check(numbers == spelled.numbers, "other numbers sent");
    if let Some(bits) = spelled.bits() {
        case.check(sent.is_in(bits), "other bits sent");
    }
}

/// Checks that a packet has an equal copy.
fn check_copy<A: Asked>(case: &mut Case, packet: &A) {
    let copied = is_copied(case, packet);
    case.check(copied, "another copy");
}

/// Checks that what was read in a direction is the packet in its own, its like in another one, and none in a spare one.
fn check_like<A: Asked>(case: &mut Case, packet: &A, dir: u8, read: Option<&A>) {
    let is_any = is_direction(A::WAY, dir);
    case.check(read.is_some() == is_any, "not read");
    if let Some(read) = read {
        case.check(read.dir() == Some(dir), "another direction");
        let is_own = packet.dir() == Some(dir);
        case.check((read == packet) == is_own, "read as another");
    }
}

/// Checks that fewer numbers and one more are no packet's.
fn check_numbers_whole<A: Asked>(case: &mut Case, spelled: &Spelled) {
    let mut numbers = Vec::new(case.alloc());
    case.kept(
        numbers
            .extend_from_slice(spelled.numbers.as_slice())
            .is_ok(),
    );
    case.kept(numbers.push(0).is_ok());
    for _ in 0..=spelled.numbers.len() {
        check_whole::<A>(case, spelled, numbers.as_slice());
        numbers.pop();
    }
}

/// Checks that these numbers are read where they are the packet's.
fn check_whole<A: Asked>(case: &mut Case, spelled: &Spelled, numbers: &[u64]) {
    let read: Option<A> = spelled.listed(case, spelled.dir, numbers);
    let is_whole = numbers.len() == spelled.numbers.len();
    case.check(read.is_some() == is_whole, "some numbers read");
}

/// Checks that fewer bits and one more are no packet's.
fn check_bits_whole<A: Asked>(case: &mut Case, spelled: &Spelled) {
    for count in 0..=spelled.len.min(65535) + 1 {
        let some = spelled.inner.as_slice().cut(BEFORE, count);
        let read: Option<A> = spelled.in_bits(case, spelled.dir, some);
        case.check(read.is_some() == (count == spelled.len), "some bits read");
    }
}

/// The packet of `typed NID DIR NUMBERS`, `kept NID DIR : BITS` or `marker NUMBER`.
fn any<A: Asked>(case: &mut Case) -> Option<A> {
    match case.word() {
        "typed" => any_typed(case),
        "kept" => any_kept(case),
        "marker" => A::marker(case),
        _ => None,
    }
}

fn any_typed<A: Asked>(case: &mut Case) -> Option<A> {
    let nid = case.byte();
    let dir = next_dir::<A>(case);
    let numbers = case.numbers();
    listed(case, nid, dir, numbers.as_slice())
}

fn any_kept<A: Asked>(case: &mut Case) -> Option<A> {
    let nid = case.byte();
    let dir = next_dir::<A>(case);
    colon(case);
    let body = case.bits();
    let typed: Option<A> = in_bits(case, nid, dir, body.as_slice());
    case.check(typed.is_none(), "a typed packet");
    kept(case, nid, dir, body, &FAULTS)
}

/// The packet that is kept as these bits, or why there is none and these bits come back.
pub(crate) fn kept<A: Asked>(
    case: &mut Case,
    nid: u8,
    dir: u8,
    body: Bits,
    faults: &FaultTexts,
) -> Option<A> {
    let same = case.got(Bits::from_slice(case.alloc(), body.as_slice()));
    match A::kept(nid, dir, body) {
        Ok(packet) => Some(packet),
        Err((fault, back)) => {
            case.say_fault(fault, faults);
            case.check(same == Some(back), "other bits back");
            None
        }
    }
}

/// `packet_any ANY`: number, direction and length, `-` for no direction.
/// `packet_variables ANY`: each variable after the frame with its number; `none`.
fn of_any<A: Asked>(case: &mut Case, kind: &str) {
    let packet: Option<A> = any(case);
    if let Some(packet) = packet.as_ref() {
        say_any(case, packet, kind);
    }
}

fn say_any<A: Asked>(case: &mut Case, packet: &A, kind: &str) {
    if kind == "packet_any" {
        say_frame(case, packet);
        check_copy(case, packet);
    } else {
        packet_sent(case, packet).say(case);
    }
}

/// `packet_same ANY / ANY`: `same` or `differing`, as all laws of `==` have it.
fn compared<A: Asked>(case: &mut Case) {
    let beyond = case.split(" / ");
    let first: Option<A> = any(case);
    case.continue_with(beyond);
    let second: Option<A> = any(case);
    say_same(case, first.as_ref(), second.as_ref());
}

fn say_same<A: Asked>(case: &mut Case, first: Option<&A>, second: Option<&A>) {
    match (first, second) {
        (Some(first), Some(second)) => {
            case.say_either(first == second, "same", "differing");
            let same = first.is_same(second);
            case.check(same == (first == second), "laws that differ");
        }
        _ => case.bad(),
    }
}
