//! Telegrams, as items; and lines about their readers and views.

use crate::items::{say_refused, say_text};
use crate::readers::{item_of, next_kind, next_size};
use etcs_bits::{BitSlice, Bits};
use etcs_packets::Packet;
use etcs_telegram::laws::{exact_equality, read_back, round_trip};
use etcs_telegram::{Fed, PacketRef, ReadFault, Size, Telegram, TelegramView, ViewFault};
use etcs_text::Entry;
use etcs_vector_lines::Case;
use std::alloc::Global;

/// Checks that a telegram is written as these bytes, and that a view of them has it.
pub(crate) fn check(case: &mut Case, telegram: &Telegram, bytes: &[u8]) {
    check_written(case, telegram, bytes);
    check_view(case, telegram, bytes);
}

/// Whether these bytes have no view where a reader answers so.
pub(crate) fn is_no_view(size: Size, bytes: &[u8], fed: Result<Fed, ReadFault>) -> bool {
    let wanted = match fed {
        Err(ReadFault::Refused { bit, var }) if bytes.len() == size.container_bytes() => {
            ViewFault::Refused { bit, var }
        }
        _ => ViewFault::Length,
    };
    TelegramView::new(bytes, size).err() == Some(wanted)
}

/// Answers a line about telegrams: whether it is one.
pub(crate) fn answer(case: &mut Case, kind: &str) -> bool {
    match kind {
        "shown" => shown(case),
        "equal" => equal(case),
        "view" => view(case),
        "room" => room(case),
        _ => return false,
    }
    true
}

/// The item of `SIZE HEX`.
fn next_item(case: &mut Case) -> Option<Entry> {
    let kind = next_kind(case);
    let bytes = case.bytes();
    item_of(case, kind, bytes.as_slice())
}

/// How many bytes are written of the telegram over this many equal bytes, and all bytes then.
pub(crate) fn encoded(
    case: &mut Case,
    telegram: &Telegram,
    room: usize,
    fill: u8,
) -> (Option<usize>, Vec<u8>) {
    let mut buffer = Vec::new(case.alloc());
    case.kept(buffer.resize(room, fill).is_ok());
    let len = telegram.encode_into(buffer.as_mut_slice()).ok();
    (len, buffer)
}

/// Checks that just these bytes are written of a telegram.
fn check_written(case: &mut Case, telegram: &Telegram, bytes: &[u8]) {
    let (len, written) = encoded(case, telegram, bytes.len(), 0);
    case.check(len == Some(bytes.len()), "another length");
    case.check(written.as_slice() == bytes, "not written so");
}

/// Checks that a telegram is read from its encoding, and bytes are written as what they are read as.
pub(crate) fn check_laws(case: &mut Case, telegram: &Telegram, bytes: &[u8]) {
    let alloc = case.alloc();
    let again = case.got(round_trip(alloc, telegram));
    case.check(again.as_ref() == Some(telegram), "not read again");
    let mut back = [0u8; 104];
    let count = case.got(read_back(alloc, telegram.size(), bytes, &mut back));
    case.check(count == Some(Some(bytes.len())), "not written back");
    case.check(
        back.as_slice().starts_with(bytes),
        "other bytes written back",
    );
}

/// Checks that a view of bytes has what the telegram has.
fn check_view(case: &mut Case, telegram: &Telegram, bytes: &[u8]) {
    let view = TelegramView::new(bytes, telegram.size());
    if let Ok(view) = view.as_ref() {
        let header = view.header() == *telegram.header();
        case.check(header, "another header viewed");
        check_fill(case, view.fill(), telegram.fill());
        check_packets(case, view, telegram.packets());
    }
    case.check(view.is_ok(), "no view");
}

/// Checks that two slices have the same bits.
fn check_fill(case: &mut Case, first: BitSlice<'_>, second: BitSlice<'_>) {
    case.check(first.bit(first.len()).is_none(), "the fill continues");
    let first = case.got(Bits::from_slice(case.alloc(), first));
    let second = case.got(Bits::from_slice(case.alloc(), second));
    case.check(first == second, "another fill viewed");
}

/// Checks that the packets of a view are these.
fn check_packets(case: &mut Case, view: &TelegramView<'_>, packets: &[Packet]) {
    let mut made = Vec::new(case.alloc());
    for packet in view.packets() {
        if let Some(packet) = case.got(packet.to_packet(case.alloc())) {
            case.kept(made.push(packet).is_ok());
        }
    }
    case.check(made.as_slice() == packets, "other packets viewed");
}

/// The packet of a view of bytes with this index, where it has one. The error is `true` where memory was refused, and
/// `false` where there is no view.
pub fn viewed(
    alloc: Global,
    size: Size,
    bytes: &[u8],
    index: usize,
) -> Result<Option<Packet>, bool> {
    let Ok(view) = TelegramView::new(bytes, size) else {
        return Err(false);
    };
    let mut left = index;
    for packet in view.packets() {
        if left == 0 {
            return match packet.to_packet(alloc) {
                Ok(packet) => Ok(Some(packet)),
                Err(_) => Err(true),
            };
        }
        left -= 1;
    }
    Ok(None)
}

/// `shown ITEM SIZE HEX`: the text with this number.
fn shown(case: &mut Case) {
    let number = case.number();
    case.say("before\n");
    let item = next_item(case);
    match item.as_ref() {
        Some(item) => say_text(case, item, number),
        None => case.bad(),
    }
}

/// `equal SIZE HEX , SIZE HEX`: whether these are the same telegram.
fn equal(case: &mut Case) {
    let beyond = case.split(" , ");
    let first = next_item(case);
    case.continue_with(beyond);
    let second = next_item(case);
    match (first.as_ref(), second.as_ref()) {
        (Some(Entry::Telegram(first)), Some(Entry::Telegram(second))) => {
            say_equal(case, first, second);
        }
        _ => case.bad(),
    }
}

fn say_equal(case: &mut Case, first: &Telegram, second: &Telegram) {
    let equal = first == second;
    case.say_truth(equal);
    case.check(exact_equality(first, second) == equal, "not by the law");
    case.check((first != second) != equal, "not unequal");
}

/// `view SIZE HEX`: the packets a line each, with their number, their length and their bits, and the length of FILL; or
/// why there is no view.
fn view(case: &mut Case) {
    let size = next_size(case);
    let bytes = case.bytes();
    let view = TelegramView::new(bytes.as_slice(), size);
    match view.as_ref() {
        Ok(view) => say_view(case, view),
        Err(ViewFault::Length) => case.say("length"),
        Err(ViewFault::Refused { bit, var }) => say_refused(case, *bit, *var),
    }
}

fn say_view(case: &mut Case, view: &TelegramView<'_>) {
    let mut packets = view.packets();
    for _ in 0..128u8 {
        if let Some(packet) = packets.next() {
            say_viewed(case, &packet);
        }
    }
    case.say("FILL ");
    case.say_number(view.fill().len() as u64);
    case.check(packets.next().is_none(), "packets continue");
}

/// The line of a packet.
fn say_viewed(case: &mut Case, packet: &PacketRef<'_>) {
    case.say_next(u64::from(packet.nid()));
    case.say_next(packet.bits().len() as u64);
    case.say_bits(&packet.bits());
    case.say("\n");
}

/// `room COUNT SIZE HEX`: what the telegram leaves in a buffer of this many bytes 55.
fn room(case: &mut Case) {
    let room = usize::from(case.byte());
    let item = next_item(case);
    match item.as_ref() {
        Some(Entry::Telegram(telegram)) => say_room(case, telegram, room),
        _ => case.bad(),
    }
}

fn say_room(case: &mut Case, telegram: &Telegram, room: usize) {
    let (len, buffer) = encoded(case, telegram, room, 0x55);
    match len {
        Some(len) => case.say_number(len as u64),
        None => case.say("no room"),
    }
    case.say(" ");
    case.say_hex(buffer.as_slice());
}
