//! Telegrams and messages where memory is refused: what is built, views, and the first bytes of a message.

use etcs_fakes::{Checks, starve, starve_to};
use etcs_messages::{Head, Own, ReaderOf};
use etcs_packets::Packet;
use etcs_radio::MessageReader;
use etcs_telegram::{Fed, Header, Size, Telegram, TelegramView};
use etcs_train::TrainReader;
use etcs_vars::BuildFault;
use std::alloc::{AllocError, Global};
use std::test::Fail;

/// How many bytes are left, step by step.
const ROOMS: [usize; 20] = [
    0, 16, 32, 48, 64, 80, 96, 112, 128, 144, 160, 192, 224, 256, 320, 512, 1024, 2048, 4096, 8192,
];

/// Message 24 with packet 137, whose one number is in its last bit.
static TYPED: [u8; 13] = [
    0x18, 0x03, 0x40, 0x00, 0x00, 0x00, 0x00, 0x08, 0x00, 0x31, 0x28, 0x06, 0x20,
];

/// Message 15, which is kept with six bits.
static KEPT: [u8; 3] = [0x0F, 0x00, 0xFF];

/// Message 159 to the track.
static TRACK: [u8; 2] = [0x9F, 0x03];

/// Packet 5 with one further link, of 108 bits: its last variable is in byte 19.
static LINKS: [u8; 27] = [
    0xA0, 0x00, 0x7F, 0x80, 0x20, 0x00, 0xC1, 0x50, 0x36, 0x20, 0xFA, 0x00, 0x02, 0x93, 0x02, 0x0F,
    0xA0, 0x00, 0x29, 0x33, 0xFF, 0xFF, 0xFF, 0xFF, 0xFF, 0xFF, 0xC0,
];

/// A short telegram's bytes with these after the header's first six, and ones.
fn short(packets: [u8; 4]) -> [u8; 27] {
    let mut bytes = [0xFF; 27];
    bytes[..6].copy_from_slice(&[0xA0, 0x00, 0x7F, 0x80, 0x20, 0x00]);
    bytes[6..10].copy_from_slice(&packets);
    bytes[26] = 0xC0;
    bytes
}

/// Whether the first two bytes of a message are taken.
fn takes_two<H: Head, B: Own<Front = H>>(mut reader: ReaderOf<H, B>, bytes: &[u8]) -> bool {
    reader.feed(bytes.get(..2).unwrap_or(&[])) == Ok(Fed::More)
}

/// Whether those of a message that is typed, one that is kept and one to the track are.
fn take_two(alloc: Global) -> bool {
    let typed = takes_two(MessageReader::new(alloc), &TYPED);
    let kept = takes_two(MessageReader::new(alloc), &KEPT);
    typed && kept && takes_two(TrainReader::new(alloc), &TRACK)
}

/// Two bytes take no memory.
#[test]
fn two_bytes_without_memory(rt: HostRuntime) -> Result<(), Fail> {
    let (checks, alloc) = (&mut Checks::new(), rt.alloc());
    checks.check(take_two(alloc), "two bytes with memory");
    let held = starve(alloc)?;
    let taken = take_two(alloc);
    drop(held);
    checks.check(taken, "two bytes");
    assert_eq!(rt; checks.wrong(), None);
    Ok(())
}

/// A long telegram of a plain header and these packets.
fn built(alloc: Global, packets: Vec<Packet>) -> Result<Telegram, (BuildFault, Vec<Packet>)> {
    match Header::new(32, 0, 0, 0, 255, 1, 1, true) {
        Ok(header) => Telegram::new(alloc, Size::Long, header, packets),
        Err(fault) => Err((fault, packets)),
    }
}

/// Packet 0 alone.
fn marker(alloc: Global) -> Result<Vec<Packet>, Fail> {
    let mut packets = Vec::new(alloc);
    packets.push(Packet::vbc_marker(3)?)?;
    Ok(packets)
}

/// Checks that the packets, which are `same`, come back where FILL finds no memory in this room.
fn check_built(
    checks: &mut Checks,
    alloc: Global,
    packets: Vec<Packet>,
    same: &[Packet],
    room: usize,
) {
    let held = starve_to(alloc, room);
    let built = built(alloc, packets);
    checks.check(held.is_ok(), "no memory to hold");
    drop(held);
    checks.count(built.is_err());
    match built.as_ref() {
        Ok(telegram) => checks.check(telegram.fill().len() == 758, "another fill"),
        Err((fault, packets)) => {
            checks.check(*fault == BuildFault::Memory, "another fault");
            checks.check(packets.as_slice() == same, "other packets back");
        }
    }
}

/// The packets come back where FILL finds no memory.
#[test]
fn built_telegrams(rt: HostRuntime) -> Result<(), Fail> {
    let (checks, alloc) = (&mut Checks::new(), rt.alloc());
    let same = marker(alloc)?;
    for room in ROOMS {
        check_built(checks, alloc, marker(alloc)?, same.as_slice(), room);
    }
    checks.check_counts();
    assert_eq!(rt; checks.wrong(), None);
    Ok(())
}

/// The number of a view's first packet, and whether it is made.
fn seen(alloc: Global, bytes: &[u8; 27]) -> Option<(u8, bool)> {
    let view = TelegramView::new(bytes, Size::Short).ok()?;
    let packet = view.packets().next()?;
    let made = packet.to_packet(alloc);
    Some((packet.nid(), made.is_ok()))
}

/// What is seen of packet 44, which has 80 bits, of which 57 are kept, and of packet 0, packet 137 and packet 5.
fn seen_all(alloc: Global) -> [Option<(u8, bool)>; 4] {
    let kept = short([0xCB, 0x20, 0x28, 0x7F]);
    let marker = short([0xC0, 0x03, 0xFF, 0xFF]);
    let typed = short([0xE2, 0x50, 0x0C, 0x7F]);
    [
        seen(alloc, &kept),
        seen(alloc, &marker),
        seen(alloc, &typed),
        seen(alloc, &LINKS),
    ]
}

/// A view and its packets take no memory. To make a packet of more than 56 kept bits or with a list takes some, to make one
/// of a few numbers doesn't.
#[test]
fn views_without_memory(rt: HostRuntime) -> Result<(), AllocError> {
    let (checks, alloc) = (&mut Checks::new(), rt.alloc());
    let whole = [
        Some((44, true)),
        Some((0, true)),
        Some((137, true)),
        Some((5, true)),
    ];
    checks.check(seen_all(alloc) == whole, "other packets");
    let held = starve(alloc)?;
    let seen = seen_all(alloc);
    drop(held);
    let wanted = [
        Some((44, false)),
        Some((0, true)),
        Some((137, true)),
        Some((5, false)),
    ];
    checks.check(seen == wanted, "other packets without memory");
    assert_eq!(rt; checks.wrong(), None);
    Ok(())
}
