//! What packets of each way do by themselves: their numbers, what their types build, and the laws of their `==`.

use crate::list::{by_number, of_flat, of_grouped, of_two, to_track, to_train};
use crate::packets::FAULTS;
use etcs_bits::Bits;
use etcs_bodies::Packetlike;
use etcs_bodies::laws::exact_equality;
use etcs_packets::inner::AnyPacket;
use etcs_packets::laws::{exact_packet, one_packet};
use etcs_packets::{Flat, Other, Packet};
use etcs_tables::Way;
use etcs_track::{TrainFlat, TrainOther, TrainPacket, laws};
use etcs_vars::BuildFault;
use etcs_vector_lines::Case;
use std::alloc::AllocError;

/// The number that is in a list before those of a packet.
const BEFORE: u64 = 200;

/// What the type of a packet returns for it.
#[derive(Clone, Copy)]
pub struct Own {
    nid: u8,
    way: Way,
    dir: u8,
}

/// A packet of one way, of which lines ask.
pub trait Asked: AnyPacket + PartialEq {
    /// The packet 0 without a frame of the number that comes next.
    fn marker(case: &mut Case) -> Option<Self>;

    /// The packet without groups of a number, a direction and its numbers.
    fn flat(nid: u8, dir: u8, numbers: &[u64]) -> Result<Self, BuildFault>;

    /// The packet that is kept as these bits.
    fn kept(nid: u8, dir: u8, body: Bits) -> Result<Self, (BuildFault, Bits)>;

    /// Appends its numbers by its type, and returns what that returns for it, where it has one.
    fn own_fields(&self, out: &mut Vec<u64>) -> Result<Option<Own>, AllocError>;

    /// Whether two packets are equal by every law that can be asked, where all of them say the same as `==`.
    fn is_same(&self, other: &Self) -> bool;
}

impl Asked for Packet {
    fn marker(case: &mut Case) -> Option<Packet> {
        match Packet::vbc_marker(case.byte()) {
            Ok(marker) => Some(marker),
            Err(fault) => {
                case.say_fault(fault, &FAULTS);
                None
            }
        }
    }

    fn flat(nid: u8, dir: u8, numbers: &[u64]) -> Result<Packet, BuildFault> {
        to_train!(
            by_number,
            nid,
            Flat::new(dir, numbers),
            no_flat(nid, dir, numbers)
        )
    }

    fn kept(nid: u8, dir: u8, body: Bits) -> Result<Packet, (BuildFault, Bits)> {
        match Other::new(nid, dir, body) {
            Ok(other) => Ok(Packet::Other(other)),
            Err(back) => Err(back),
        }
    }

    fn own_fields(&self, out: &mut Vec<u64>) -> Result<Option<Own>, AllocError> {
        own_fields(self, out)
    }

    fn is_same(&self, other: &Packet) -> bool {
        one_packet(self, other);
        let own = to_train!(of_two, self, other, exact_equality);
        agreed(self, other, exact_packet(self, other), own)
    }
}

impl Asked for TrainPacket {
    /// To the track packet 0 has a frame.
    fn marker(case: &mut Case) -> Option<TrainPacket> {
        case.bad();
        None
    }

    fn flat(nid: u8, _dir: u8, numbers: &[u64]) -> Result<TrainPacket, BuildFault> {
        to_track!(
            by_number,
            nid,
            TrainFlat::new(numbers),
            no_train_flat(nid, numbers)
        )
    }

    fn kept(nid: u8, _dir: u8, body: Bits) -> Result<TrainPacket, (BuildFault, Bits)> {
        match TrainOther::new(nid, body) {
            Ok(other) => Ok(TrainPacket::Other(other)),
            Err(back) => Err(back),
        }
    }

    fn own_fields(&self, out: &mut Vec<u64>) -> Result<Option<Own>, AllocError> {
        to_track!(of_grouped, self, own => append(own, out), track_fields(self, out))
    }

    fn is_same(&self, other: &TrainPacket) -> bool {
        laws::one_packet(self, other);
        let own = to_track!(of_two, self, other, exact_equality);
        agreed(self, other, exact_equality(self, other), own)
    }
}

/// Why there is no packet without groups of another number.
fn no_flat(nid: u8, dir: u8, numbers: &[u64]) -> BuildFault {
    match nid {
        0 => refused(Flat::<0>::new(dir, numbers)),
        44 => refused(Flat::<44>::new(dir, numbers)),
        46 => refused(Flat::<46>::new(dir, numbers)),
        136 => refused(Flat::<136>::new(dir, numbers)),
        255 => refused(Flat::<255>::new(dir, numbers)),
        _ => BuildFault::Count,
    }
}

/// The same to the track.
fn no_train_flat(nid: u8, numbers: &[u64]) -> BuildFault {
    match nid {
        0 => refused(TrainFlat::<0>::new(numbers)),
        1 => refused(TrainFlat::<1>::new(numbers)),
        9 => refused(TrainFlat::<9>::new(numbers)),
        140 => refused(TrainFlat::<140>::new(numbers)),
        255 => refused(TrainFlat::<255>::new(numbers)),
        _ => BuildFault::Count,
    }
}

/// The fault of a packet that there isn't.
fn refused<P: Drop>(built: Result<P, BuildFault>) -> BuildFault {
    match built {
        Ok(_) => BuildFault::FillLength,
        Err(fault) => fault,
    }
}

/// Appends the numbers of a packet to the train by its type, and returns what that returns for it. Packet 0 and kept
/// bits have none.
pub fn own_fields(packet: &Packet, out: &mut Vec<u64>) -> Result<Option<Own>, AllocError> {
    to_train!(of_grouped, packet, own => append(own, out), flat_fields(packet, out))
}

/// The same of packets without groups.
fn flat_fields(packet: &Packet, out: &mut Vec<u64>) -> Result<Option<Own>, AllocError> {
    to_train!(of_flat, packet, own => append(own, out), Ok(None))
}

/// The same of packets to the track.
fn track_fields(packet: &TrainPacket, out: &mut Vec<u64>) -> Result<Option<Own>, AllocError> {
    to_track!(of_flat, packet, own => append(own, out), Ok(None))
}

/// Appends the numbers of a packet of one type.
fn append<P: Packetlike>(packet: &P, out: &mut Vec<u64>) -> Result<Option<Own>, AllocError> {
    packet.fields(out)?;
    Ok(Some(Own {
        nid: P::NID,
        way: P::WAY,
        dir: packet.dir(),
    }))
}

/// Checks that a packet's type has its number, and that it appends just these numbers to a list.
pub(crate) fn check_listed<A: Asked>(case: &mut Case, packet: &A, numbers: &[u64]) {
    let mut fields = Vec::new(case.alloc());
    case.kept(fields.push(BEFORE).is_ok());
    match case.got(packet.own_fields(&mut fields)).flatten() {
        Some(own) => check_own(case, packet, own),
        None => case.check(false, "no typed packet"),
    }
    case.check(
        fields.as_slice().split_first() == Some((&BEFORE, numbers)),
        "other numbers listed",
    );
}

fn check_own<A: AnyPacket>(case: &mut Case, packet: &A, own: Own) {
    case.check(own.nid == packet.nid(), "another type's number");
    case.check(own.way == A::WAY, "another way");
    case.check(packet.dir() == Some(own.dir), "another direction");
}

/// What a law says about two packets, where it is what `==` says and what the law of their type does, if there is one.
fn agreed<A: PartialEq>(first: &A, second: &A, same: bool, own: Option<bool>) -> bool {
    if own.unwrap_or(same) == same {
        same
    } else {
        first != second
    }
}

/// Whether a packet, which is one, has an equal copy.
pub(crate) fn is_copied<A: Asked>(case: &mut Case, packet: &A) -> bool {
    packet.hold();
    let copy = case.got(packet.try_clone(case.alloc()));
    copy.as_ref() == Some(packet)
}
