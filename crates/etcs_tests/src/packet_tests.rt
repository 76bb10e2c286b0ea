//! Packets of a message, from pieces.

ghost use Rattle.std.specs.Prelude.{◌≡◌, []};
ghost use Rattle.etcs_tables.specs.declared.row.Way.TheVariants.{ToTrain};

use crate::pieces::{check_bytes, check_end, check_refused, feed};
use etcs_bodies::Packetlike;
use etcs_fakes::{Checks, starve};
use etcs_packets::Packet;
use etcs_reader::{Feeder, Stop};
use etcs_rows::inner::Carrier;
use etcs_sequence::{PacketCount, PacketList, PacketStore, PacketsRest};
use etcs_tables::Way;
use etcs_vars::Var;
use std::alloc::Global;
use std::test::Fail;

/// Packet 136 of group 5 in country 7, in 48 bits, packet 44 with 60 bits after L_PACKET, in 83, and five bits of padding.
const BOTH: [u8; 17] = [
    0x88, 0x40, 0x61, 0x01, 0xC0, 0x05, 0x2C, 0x80, 0xA7, 0x4B, 0x40, 0x24, 0x68, 0xAC, 0xF1, 0x37,
    0x80,
];

/// A reader of the packets of a message of 136 bits.
fn reader_of<S: PacketStore>(store: S) -> Feeder<PacketsRest<S>>
    requires way { ToTrain ≡ S.WAY }
    requires none { S.holds store [] [] [] }
{
    let rest = PacketsRest::new(Carrier::Message(Way::ToTrain), 136, store);
    Feeder::new(rest)
}

/// A reader that makes them.
fn listed(alloc: Global) -> Feeder<PacketsRest<PacketList<Packet>>> {
    reader_of(PacketList::new(alloc))
}

/// A reader that counts them.
fn counted() -> Feeder<PacketsRest<PacketCount<Packet>>> {
    reader_of(PacketCount::new())
}

/// Whether these are the packets of `BOTH`.
fn are_both(packets: &[Packet]) -> bool {
    let [Packet::InfillLocation(infill), Packet::Other(other)] = packets else {
        return false;
    };
    let body = other.body();
    let infilled = (infill.dir(), infill.nid_c(), infill.nid_bg()) == (1, Some(7), 5);
    let kept = (other.nid(), other.dir(), body.len()) == (44, 2, 60);
    infilled & kept & (body.number(0, 60) == Some(0xA5A_0123_4567_89BC))
}

/// Checks that the packets of `BOTH` are made.
fn check_made(checks: &mut Checks, alloc: Global, singly: bool) {
    let mut list = listed(alloc);
    feed(&mut list, &BOTH, singly);
    checks.check(
        list.count() == 131 && list.stop().is_none(),
        "not all is read",
    );
    checks.check(
        are_both(list.rest().store.packets.as_slice()),
        "other packets",
    );
}

#[test]
fn made_packets(rt: HostRuntime) {
    let mut checks = Checks::new();
    check_made(&mut checks, rt.alloc(), false);
    check_made(&mut checks, rt.alloc(), true);
    assert_eq!(rt; checks.wrong(), None);
}

/// After each byte, and how many packets were whole.
#[test]
fn byte_by_byte(rt: HostRuntime) {
    let mut checks = Checks::new();
    let mut count = counted();
    for (bytes, whole) in [
        (
            [
                (0x88, 8, Some(Var::Q_DIR), (0, 0)),
                (0x40, 8, Some(Var::L_PACKET), (0, 6)),
                (0x61, 8, Some(Var::NID_C), (0, 0)),
                (0x01, 8, Some(Var::NID_C), (1, 8)),
                (0xC0, 8, Some(Var::NID_BG), (0, 6)),
            ]
            .as_slice(),
            0,
        ),
        (
            [
                (0x05, 8, Some(Var::NID_PACKET), (0, 0)),
                (0x2C, 8, Some(Var::Q_DIR), (0, 0)),
                (0x80, 8, Some(Var::L_PACKET), (0, 6)),
                (0xA7, 8, Some(Var::OTHER_DATA), (0, 0)),
                (0x4B, 8, Some(Var::OTHER_DATA), (0, 0)),
                (0x40, 8, Some(Var::OTHER_DATA), (0, 0)),
                (0x24, 8, Some(Var::OTHER_DATA), (0, 0)),
                (0x68, 8, Some(Var::OTHER_DATA), (0, 0)),
                (0xAC, 8, Some(Var::OTHER_DATA), (0, 0)),
                (0xF1, 8, Some(Var::OTHER_DATA), (0, 0)),
                (0x37, 8, Some(Var::OTHER_DATA), (0, 0)),
            ]
            .as_slice(),
            1,
        ),
        ([(0x80, 3, None, (0, 0))].as_slice(), 2),
    ] {
        check_bytes(&mut checks, &mut count, bytes);
        checks.check(count.rest().store.packets == whole, "other packets");
    }
    check_end(&mut checks, &mut count, 131);
    assert_eq!(rt; checks.wrong(), None);
}

/// Packets 0 and 255, where a message has none. Packet 254 has 23 bits, and after it up to 7 may be left or 23 and more:
/// where 40 are left, seven ones begin no packet.
#[test]
fn refused_bits(rt: HostRuntime) {
    let mut checks = Checks::new();
    for (bytes, bit, part, whole) in [
        ([0u8; 7].as_slice(), 7, (0, 7), 0),
        ([0xFFu8; 7].as_slice(), 7, (127, 7), 0),
        (
            [0x88, 0x40, 0x61, 0x01, 0xC0, 0x05, 0x00].as_slice(),
            55,
            (0, 7),
            1,
        ),
        (
            [
                0x88, 0x40, 0x61, 0x01, 0xC0, 0x05, 0x88, 0x40, 0x61, 0x01, 0xC0, 0x05, 0xFF,
            ]
            .as_slice(),
            102,
            (63, 6),
            2,
        ),
    ] {
        for singly in [false, true] {
            let mut count = counted();
            feed(&mut count, bytes, singly);
            check_refused(&mut checks, &mut count, (bit, Var::NID_PACKET, part));
            checks.check(count.rest().store.packets == whole, "other packets");
        }
    }
    assert_eq!(rt; checks.wrong(), None);
}

/// Checks how many bits a reader takes that is refused memory after the first bytes.
fn check_starved(checks: &mut Checks, alloc: Global, front: &[u8], back: &[u8], seen: usize) {
    let mut list = listed(alloc);
    feed(&mut list, front, false);
    let held = starve(alloc);
    feed(&mut list, back, false);
    checks.check(held.is_ok(), "no memory to hold");
    drop(held);
    checks.check(list.count() == seen, "another bit");
    checks.check(list.stop() == Some(Stop::Memory), "another stop");
}

/// A packet that lies whole in the piece, the first number of its row after its frame, one of more than 56 kept bits that
/// lies whole in it, and the bits of one after its frame. Counting takes no memory. Before the addresses are used up the
/// stack becomes as large as it must be, since it can't grow later.
#[test]
fn packets_without_memory(rt: HostRuntime) -> Result<(), Fail> {
    let mut checks = Checks::new();
    check_made(&mut checks, rt.alloc(), false);
    check_made(&mut checks, rt.alloc(), true);
    for (at, seen) in [(0, 0), (2, 23), (6, 48), (8, 71)] {
        let (front, back) = BOTH.as_slice().split_at_checked(at).ok_or("outside")?;
        check_starved(&mut checks, rt.alloc(), front, back, seen);
    }
    let held = starve(rt.alloc())?;
    let mut count = counted();
    feed(&mut count, &BOTH, true);
    let packets = count.rest().store.packets;
    drop(held);
    checks.check(packets == 2, "other packets counted");
    assert_eq!(rt; checks.wrong(), None);
    Ok(())
}
