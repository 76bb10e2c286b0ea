//! Lines about headers and telegrams that are built of their parts. A header is its eight numbers in order. Packets are as
//! `several.rt` has them.

use crate::readers::next_size;
use crate::telegrams::{check_laws, encoded};
use etcs_bits::Bits;
use etcs_packet_text::inner::{Page, write_packets};
use etcs_packets::Packet;
use etcs_packets::inner::AnyPacket;
use etcs_telegram::inner::header_numbers;
use etcs_telegram::{Header, Size, Telegram};
use etcs_vars::BuildFault;
use etcs_vector_lines::{Case, FaultTexts};
use etcs_vector_packets::all_packets;

/// What is answered of a fault.
pub(crate) const FAULTS: FaultTexts = [
    "not admitted ",
    "guard ",
    "too many ",
    "count",
    "too long",
    "fill length",
];

/// Answers a line about what is built: whether it is one.
pub(crate) fn answer(case: &mut Case, kind: &str) -> bool {
    match kind {
        "header" => match header(case) {
            Ok(header) => say_header(case, &header),
            Err(fault) => case.say_fault(fault, &FAULTS),
        },
        "headers" => headers(case),
        "built" | "filled" => built(case, kind),
        "text" => text(case),
        _ => return false,
    }
    true
}

/// The header of the next eight numbers, or why there is none.
fn header(case: &mut Case) -> Result<Header, BuildFault> {
    let (version, pig, total, dup): (u8, u8, u8, u8) = case.next();
    let (count, country, group, link): (u8, u16, u16, bool) = case.next();
    Header::new(version, pig, total, dup, count, country, group, link)
}

/// The numbers that a header gives.
fn given(header: &Header) -> [u64; 8] {
    [
        u64::from(header.m_version()),
        u64::from(header.n_pig()),
        u64::from(header.n_total()),
        u64::from(header.m_dup()),
        u64::from(header.m_mcount()),
        u64::from(header.nid_c()),
        u64::from(header.nid_bg()),
        u64::from(header.q_link()),
    ]
}

/// `header NUMBERS`: the numbers that it gives, and those of its ten variables; or what isn't admitted.
fn say_header(case: &mut Case, header: &Header) {
    say_numbers(case, &given(header));
    case.say("/");
    say_numbers(case, &header_numbers(header));
}

/// Numbers with a blank after each.
fn say_numbers(case: &mut Case, numbers: &[u64]) {
    for number in numbers {
        case.say_next(*number);
    }
}

/// `headers NUMBERS , NUMBERS`: whether these are the same header.
fn headers(case: &mut Case) {
    let beyond = case.split(" , ");
    let first = header(case);
    case.continue_with(beyond);
    match (first, header(case)) {
        (Ok(first), Ok(second)) => case.say_truth(first == second),
        _ => case.bad(),
    }
}

/// `built SIZE HEADER ; PACKETS`: the bytes of the telegram, or what is refused and the packets that come back.
/// `filled SIZE HEADER ; PACKETS : DIGITS`: the same with this FILL, which comes back too.
fn built(case: &mut Case, kind: &str) {
    let digits = case.split(" : ");
    let beyond = case.split(" ; ");
    let size = next_size(case);
    let header = header(case);
    case.continue_with(beyond);
    let packets = all_packets(case);
    let fill = case.bits_between("", digits, "");
    match header {
        Ok(header) => say_new(case, kind, size, header, packets, fill),
        Err(_) => case.bad(),
    }
}

fn say_new(
    case: &mut Case,
    kind: &str,
    size: Size,
    header: Header,
    packets: Vec<Packet>,
    fill: Bits,
) {
    if kind == "built" {
        plain(case, size, header, packets);
    } else {
        with_fill(case, size, header, packets, fill);
    }
}

fn plain(case: &mut Case, size: Size, header: Header, packets: Vec<Packet>) {
    let built = Telegram::new(case.alloc(), size, header, packets);
    match built.as_ref() {
        Ok(telegram) => say_built(case, telegram, size, &header),
        Err((fault, packets)) => {
            case.say_fault(*fault, &FAULTS);
            say_back(case, packets.as_slice());
        }
    }
}

fn with_fill(case: &mut Case, size: Size, header: Header, packets: Vec<Packet>, fill: Bits) {
    let built = Telegram::with_fill(size, header, packets, fill);
    match built.as_ref() {
        Ok(telegram) => say_built(case, telegram, size, &header),
        Err((fault, packets, fill)) => {
            case.say_fault(*fault, &FAULTS);
            say_back(case, packets.as_slice());
            case.say("\nFILL ");
            case.say_bits(&fill.as_slice());
        }
    }
}

/// The bytes of a telegram that was built.
fn say_built(case: &mut Case, telegram: &Telegram, size: Size, header: &Header) {
    let (_, bytes) = encoded(case, telegram, size.container_bytes(), 0);
    case.say_hex(bytes.as_slice());
    let parts = telegram.size() == size && telegram.header() == header;
    case.check(parts, "of other parts");
    check_laws(case, telegram, bytes.as_slice());
}

/// The text of packets that came back.
pub(crate) fn say_back<P: AnyPacket>(case: &mut Case, packets: &[P]) {
    if !packets.is_empty() {
        case.say("\n");
        say_packets(case, packets);
    }
}

/// The text of packets.
fn say_packets<P: AnyPacket>(case: &mut Case, packets: &[P]) {
    let mut page = Page::after(Vec::new(case.alloc()));
    case.kept(write_packets(packets, &mut page).is_ok());
    case.say_line(page.into_text().as_slice());
}

/// `text PACKETS`: their text.
fn text(case: &mut Case) {
    case.say("before\n");
    let packets: Vec<Packet> = all_packets(case);
    say_packets(case, packets.as_slice());
}
