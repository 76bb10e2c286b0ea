//! Lines about what is written over equal bytes, from a bit on.

use crate::several::all_packets;
use etcs_bits::BitSlice;
use etcs_packets::Packet;
use etcs_packets::inner::{AnyPacket, append_all, room_left};
use etcs_vars::{Var, WordSink};
use etcs_vector_lines::Case;

/// Answers a line about what is written: whether it is one.
pub(crate) fn answer(case: &mut Case, kind: &str) -> bool {
    match kind {
        "written" => written(case),
        "sent" => sent(case),
        _ => return false,
    }
    true
}

/// `written BYTE BIT ; PACKETS`: eight such bytes with one packet over them; or with none or several, and the bit after
/// them.
fn written(case: &mut Case) {
    let (fill, at) = front(case);
    let packets: Vec<Packet> = all_packets(case);
    if at > 64 {
        return case.bad();
    }
    let Some(left) = room_left(64 - at, packets.as_slice()) else {
        return case.bad();
    };
    let end = 64usize.saturating_sub(left);
    let mut bytes = [!fill; 8];
    let mut sink = WordSink::new(&mut bytes);
    put_equal(&mut sink, fill, 0, at);
    match packets.as_slice() {
        [packet] => packet.append(&mut sink),
        packets => append_all(packets, &mut sink),
    }
    put_equal(&mut sink, fill, end, 64);
    sink.finish();
    case.say_hex(&bytes);
    if packets.len() != 1 {
        case.say(" ");
        case.say_number(end as u64);
    }
}

/// Puts the bits of thirty-two equal bytes from one up to another.
fn put_equal(sink: &mut WordSink<'_>, byte: u8, from: usize, to: usize) {
    let bytes = [byte; 32];
    if let Some(bits) = BitSlice::new(&bytes, from, to.saturating_sub(from)) {
        sink.put_slice(&bits);
    }
}

/// `BYTE BIT ; ..`: the byte that is written over, and the bit from which on.
fn front(case: &mut Case) -> (u8, usize) {
    let beyond = case.split(" ; ");
    let bytes = case.bytes();
    let at = case.place();
    case.continue_with(beyond);
    match bytes.as_slice() {
        [byte] => (*byte, at),
        _ => {
            case.bad();
            (0, at)
        }
    }
}

/// `sent BYTE BIT ; VARIABLE NUMBER ; ..`: thirty-two such bytes with variables over them.
fn sent(case: &mut Case) {
    let (fill, at) = front(case);
    let mut sent: Vec<(Var, u64)> = Vec::new(case.alloc());
    for _ in 0..3u8 {
        if case.is_empty() {
            break;
        }
        let beyond = case.split(" ; ");
        if let Some(var) = case.var() {
            let number = case.number();
            case.kept(sent.push((var, number)).is_ok());
        }
        case.continue_with(beyond);
    }
    write_sent(case, fill, at, sent.as_slice());
}

/// Thirty-two equal bytes with variables over them, where these have room.
fn write_sent(case: &mut Case, fill: u8, at: usize, sent: &[(Var, u64)]) {
    let mut bytes = [!fill; 32];
    let mut sink = WordSink::new(&mut bytes);
    put_equal(&mut sink, fill, 0, at);
    sink.put_reading(sent);
    let mut end = at;
    for pair in sent {
        end = end.saturating_add(pair.0.width());
    }
    put_equal(&mut sink, fill, end, 256);
    sink.finish();
    case.say_hex(&bytes);
}
