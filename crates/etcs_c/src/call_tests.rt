//! Each status of each call, over items and fields that are worked out by hand from the tables.

use crate::{
    EtcsAnswer, EtcsField, EtcsGroup, EtcsPlace, EtcsReason, EtcsTelegram, etcs_assemble,
    etcs_check, etcs_explain, etcs_explain_json, etcs_fields, etcs_fields_before, etcs_from_fields,
    etcs_from_json, etcs_json_reason, etcs_line_bytes, etcs_line_front, etcs_meaning, etcs_places,
    etcs_refusal, etcs_show, etcs_to_json, etcs_version,
};
use etcs_fakes::starve;
use std::alloc::{AllocError, Global};
use std::test::Fail;

/// Message 24 to the train: NID_MESSAGE 24, L_MESSAGE 10, then T_TRAIN, M_ACK, NID_LRBG and PADDING, which are zeros.
const ITEM: &[u8] = &[0x18, 0x02, 0x80, 0, 0, 0, 0, 0, 0, 0];

/// The first nine of its bytes.
const FRONT: &[u8] = &[0x18, 0x02, 0x80, 0, 0, 0, 0, 0, 0];

/// The same with packet 137 in 13 bytes, which are accepted without memory.
const PACKET: &[u8] = &[
    0x18, 0x03, 0x40, 0x00, 0x00, 0x00, 0x00, 0x08, 0x00, 0x31, 0x28, 0x06, 0x20,
];

/// The same with L_MESSAGE 1023: the first bytes of a message, for whose packet a reader wants memory.
const PACKET_FRONT: &[u8] = &[
    0x18, 0xFF, 0xC0, 0x00, 0x00, 0x00, 0x00, 0x08, 0x00, 0x31, 0x28, 0x06, 0x20,
];

/// L_MESSAGE 11, in which a packet has no room: the last bit of L_MESSAGE is bit 17.
const ELEVEN: &[u8] = &[0x18, 0x02, 0xC0];

/// The JSON of the item.
const LINE: &[u8] =
    b"{\"fields\":[],\"header\":[[\"T_TRAIN\",0],[\"M_ACK\",0],[\"NID_LRBG\",0]],\"kind\":\"radio\",\"nid\":24,\"packets\":[],\"padding\":\"00000\"}";

/// A short telegram with packet 131 as bits: after 50 bits of header and 23 of frame Q_SCALE 3, which is spare.
pub(crate) const SPARE: &[u8] =
    b"{\"fill\":\"11111111111111111111111\",\"header\":[[\"Q_UPDOWN\",1],[\"M_VERSION\",33],[\"Q_MEDIA\",0],[\"N_PIG\",1],[\"N_TOTAL\",1],[\"M_DUP\",2],[\"M_MCOUNT\",40],[\"NID_C\",98],[\"NID_BG\",511],[\"Q_LINK\",1]],\"kind\":\"short\",\"packets\":[{\"data\":\"1100000000000000000000000000000000000000000000000000000000000000000000000000000000000000000000000000000000\",\"dir\":0,\"nid\":131}]}";

/// What isn't promised isn't compared.
const ANY: usize = usize::MAX;

/// A short telegram with packet 27, by bits: a first speed with N_ITER 0; N_ITER 2; a speed with N_ITER 0; a speed with N_ITER
/// 2, for categories of Q_DIFF 1 and 0. After packet 255 are 12 bits of FILL and 6 of PAD.
const NESTED: &[u8] = &[
    0xA1, 0x13, 0x14, 0x0C, 0x40, 0xFF, 0xC6, 0xC0, 0x46, 0x20, 0x02, 0x8A, 0x00, 0x20, 0x03, 0xC5,
    0x40, 0x00, 0x50, 0x5A, 0x24, 0x45, 0x06, 0x2F, 0xFF, 0xFF, 0xC0,
];

/// How many of its fields one after another are in a packet, an entry, and an entry inside that.
static NESTED_PLACES: &[(usize, usize, usize, usize)] = &[
    (10, 0, 0, 0),
    (9, 1, 0, 0),
    (4, 1, 1, 0),
    (4, 1, 2, 0),
    (3, 1, 2, 1),
    (3, 1, 2, 2),
    (1, 2, 0, 0),
    (2, 0, 0, 0),
];

/// Outside of packets.
const OUTSIDE: EtcsPlace = EtcsPlace {
    packet: 0,
    entry: 0,
    inner: 0,
};

/// The variable of the refused bits, and of no bit.
const LENGTH: &[u8] = b"L_MESSAGE\0";

const PACKET_LENGTH: &[u8] = b"L_PACKET\0";

const PACKET_NUMBER: &[u8] = b"NID_PACKET\0";

const COUNT: &[u8] = b"N_ITER\0";

const SCALE: &[u8] = b"Q_SCALE\0";

const MEDIA: &[u8] = b"Q_MEDIA\0";

const NONE: &[u8] = b"";

/// The status, `taken`, `written`, `bit`, and how `var` begins.
type Wanted = (u32, usize, usize, usize, &'static [u8]);

/// The calls over bytes.
#[derive(Clone, Copy)]
enum Call {
    Check,
    Show,
    ToJson,
    Fields,
    Places,
    Explain,
    FieldsBefore,
}

/// A call over bytes, of which kind and with how much room.
type OfBytes = (Call, u32, &'static [u8], usize, Wanted);

static OF_BYTES: &[OfBytes] = &[
    (Call::Check, 3, ITEM, 0, (0, 10, ANY, ANY, NONE)),
    (Call::Check, 3, FRONT, 0, (1, ANY, ANY, ANY, NONE)),
    (Call::Check, 3, PACKET, 0, (0, 13, ANY, ANY, NONE)),
    (Call::Check, 3, PACKET_FRONT, 0, (1, ANY, ANY, ANY, NONE)),
    (Call::Check, 3, ELEVEN, 0, (2, ANY, ANY, 17, LENGTH)),
    (Call::Check, 9, ITEM, 0, (5, ANY, ANY, ANY, NONE)),
    (Call::Show, 3, ITEM, 110, (0, 10, 110, ANY, NONE)),
    (Call::Show, 3, ITEM, 109, (3, 10, 110, ANY, NONE)),
    (Call::Show, 3, FRONT, 110, (1, ANY, ANY, ANY, NONE)),
    (Call::Show, 3, ELEVEN, 110, (2, ANY, ANY, 17, LENGTH)),
    (Call::Show, 9, ITEM, 110, (5, ANY, ANY, ANY, NONE)),
    (Call::ToJson, 3, ITEM, 120, (0, 10, 120, ANY, NONE)),
    (Call::ToJson, 3, ITEM, 119, (3, 10, 120, ANY, NONE)),
    (Call::ToJson, 3, FRONT, 120, (1, ANY, ANY, ANY, NONE)),
    (Call::ToJson, 3, ELEVEN, 120, (2, ANY, ANY, 17, LENGTH)),
    (Call::ToJson, 9, ITEM, 120, (5, ANY, ANY, ANY, NONE)),
    (Call::Fields, 3, ITEM, 6, (0, 10, 6, ANY, NONE)),
    (Call::Fields, 3, ITEM, 5, (3, 10, 6, ANY, NONE)),
    (Call::Fields, 3, FRONT, 6, (1, ANY, ANY, ANY, NONE)),
    (Call::Fields, 3, ELEVEN, 6, (2, ANY, ANY, 17, LENGTH)),
    (Call::Fields, 9, ITEM, 6, (5, ANY, ANY, ANY, NONE)),
    (Call::Places, 3, ITEM, 6, (0, 10, 6, ANY, NONE)),
    (Call::Places, 3, ITEM, 5, (3, 10, 6, ANY, NONE)),
    (Call::Places, 3, FRONT, 6, (1, ANY, ANY, ANY, NONE)),
    (Call::Places, 3, ELEVEN, 6, (2, ANY, ANY, 17, LENGTH)),
    (Call::Places, 9, ITEM, 6, (5, ANY, ANY, ANY, NONE)),
    (Call::Explain, 3, ITEM, 45, (0, 10, 0, ANY, NONE)),
    (Call::Explain, 3, FRONT, 45, (1, ANY, 0, ANY, NONE)),
    (Call::Explain, 3, ELEVEN, 45, (2, ANY, 45, 17, LENGTH)),
    (Call::Explain, 3, ELEVEN, 44, (3, ANY, 45, 17, LENGTH)),
    (Call::Explain, 9, ELEVEN, 45, (5, ANY, ANY, ANY, NONE)),
    (Call::FieldsBefore, 3, ITEM, 1, (0, 10, 0, ANY, NONE)),
    (Call::FieldsBefore, 3, FRONT, 1, (1, ANY, 0, ANY, NONE)),
    (Call::FieldsBefore, 3, ELEVEN, 1, (2, ANY, 1, 17, LENGTH)),
    (Call::FieldsBefore, 3, ELEVEN, 0, (3, ANY, 1, 17, LENGTH)),
    (Call::FieldsBefore, 9, ELEVEN, 1, (5, ANY, ANY, ANY, NONE)),
];

/// The numbers of a reason, in the order of its members.
type Reason = [u64; 11];

/// What is there before a call.
const NO_REASON: Reason = [9; 11];

/// The kind, the bytes, and the reason.
type OfReasons = (u32, &'static [u8], Wanted, Reason);

/// Message 24 has 10 bytes, or 13 and more. Q_MEDIA is 0. In a short telegram 160 bits are left for packet 44, of which 8 are
/// those of packet 255: so L_PACKET is at most 152, not 153, and doesn't begin with a 1. Packet 21 of 54 bits ends with an
/// N_ITER of 0. In the 29 bits that are left of a message there is no packet 255.
static OF_REASONS: &[OfReasons] = &[
    (3, ITEM, (0, 10, ANY, ANY, NONE), NO_REASON),
    (3, FRONT, (1, ANY, ANY, ANY, NONE), NO_REASON),
    (9, ELEVEN, (5, ANY, ANY, ANY, NONE), NO_REASON),
    (
        3,
        ELEVEN,
        (2, ANY, ANY, 17, LENGTH),
        [11, 10, 11, 10, 13, 0, 0, 0, 1, 24, 23],
    ),
    (
        2,
        &[0xA0, 0x82],
        (2, ANY, ANY, 8, MEDIA),
        [1, 1, 1, 0, 0, 0, 0, 0, 0, 0, 3],
    ),
    (
        2,
        &[0xA0, 0x00, 0x7F, 0x80, 0x20, 0x00, 0xCB, 0x20, 0x4C, 0x80],
        (2, ANY, ANY, 72, PACKET_LENGTH),
        [153, 13, 153, 152, 0, 153, 160, 1, 3, 44, 27],
    ),
    (
        2,
        &[0xA0, 0x00, 0x7F, 0x80, 0x20, 0x00, 0xCB, 0x28],
        (2, ANY, ANY, 60, PACKET_LENGTH),
        [1, 1, 0, 152, 0, 4096, 160, 1, 3, 44, 26],
    ),
    (
        2,
        &[
            0xA0, 0x00, 0x7F, 0x80, 0x20, 0x00, 0xC5, 0x60, 0x1B, 0x20, 0x00, 0x00, 0x01,
        ],
        (2, ANY, ANY, 103, COUNT),
        [1, 5, 1, 0, 0, 1, 5, 1, 4, 21, 27],
    ),
    (
        3,
        &[
            0x18, 0x03, 0x40, 0x00, 0x00, 0x00, 0x00, 0x08, 0x00, 0x3F, 0xE8,
        ],
        (2, ANY, ANY, 82, PACKET_NUMBER),
        [255, 8, 255, 254, 0, 0, 29, 0, 2, 0, 11],
    ),
];

/// The calls over lines of JSON.
#[derive(Clone, Copy)]
enum Json {
    From,
    Explain,
    Reason,
}

/// A call over a line, of which kind, and how much room there is for 200 bytes at most.
type OfLines = (Json, u32, &'static [u8], usize, Wanted);

static OF_LINES: &[OfLines] = &[
    (Json::From, 3, LINE, 10, (0, ANY, 10, ANY, NONE)),
    (Json::From, 3, LINE, 9, (3, ANY, 10, ANY, NONE)),
    (Json::From, 3, b"{}", 10, (6, ANY, ANY, ANY, NONE)),
    (Json::From, 2, SPARE, 27, (2, ANY, ANY, 74, SCALE)),
    (Json::From, 9, LINE, 10, (5, ANY, ANY, ANY, NONE)),
    (Json::Explain, 3, LINE, 200, (0, ANY, 0, ANY, NONE)),
    (Json::Explain, 3, b"{}", 29, (6, ANY, 29, ANY, NONE)),
    (Json::Explain, 3, b"{}", 28, (3, ANY, 29, ANY, NONE)),
    (Json::Explain, 2, SPARE, 69, (2, ANY, 69, 74, SCALE)),
    (Json::Explain, 2, SPARE, 68, (3, ANY, 69, 74, SCALE)),
    (Json::Explain, 9, LINE, 160, (5, ANY, ANY, ANY, NONE)),
    (Json::Reason, 3, LINE, 200, (0, ANY, 0, ANY, NONE)),
    (Json::Reason, 3, b"{}", 100, (6, ANY, 100, ANY, NONE)),
    (Json::Reason, 3, b"{}", 99, (3, ANY, 100, ANY, NONE)),
    (Json::Reason, 2, SPARE, 151, (2, ANY, 151, 74, SCALE)),
    (Json::Reason, 2, SPARE, 150, (3, ANY, 151, 74, SCALE)),
    (Json::Reason, 9, LINE, 200, (5, ANY, ANY, ANY, NONE)),
];

/// The number, variable and width of each field.
type Rows = &'static [(u64, u32, u32)];

const OWN: Rows = &[
    (24, 82, 8),
    (10, 83, 10),
    (0, 84, 32),
    (0, 85, 1),
    (0, 86, 24),
    (0, 128, 5),
];

const OF_ELEVEN: Rows = &[(24, 82, 8), (11, 83, 10), (0, 84, 32)];

const OTHER_VARIABLE: Rows = &[
    (24, 83, 8),
    (10, 83, 10),
    (0, 84, 32),
    (0, 85, 1),
    (0, 86, 24),
    (0, 128, 5),
];

/// The kind, the first of the fields, how many there are with those of 64 zeros after them, and how much room.
type OfFields = (u32, Rows, usize, usize, Wanted);

/// Of zeros alone bit 16 is refused, the last but one of L_MESSAGE, which is 3 at least; in more than 8,184 bits too.
static OF_FIELDS: &[OfFields] = &[
    (3, OWN, 6, 10, (0, ANY, 10, ANY, NONE)),
    (3, OWN, 6, 9, (3, ANY, 10, ANY, NONE)),
    (3, OWN, 5, 10, (1, ANY, ANY, ANY, NONE)),
    (3, OWN, 0, 10, (1, ANY, ANY, ANY, NONE)),
    (3, OF_ELEVEN, 3, 10, (2, ANY, ANY, 17, LENGTH)),
    (3, &[], 127, 10, (2, ANY, ANY, 16, LENGTH)),
    (3, &[], 130, 10, (2, ANY, ANY, 16, LENGTH)),
    (3, OTHER_VARIABLE, 6, 10, (7, ANY, ANY, ANY, NONE)),
    (3, OWN, 7, 10, (7, ANY, ANY, ANY, NONE)),
    (3, &[(256, 82, 8)], 1, 10, (7, ANY, ANY, ANY, NONE)),
    (3, &[(24, 82, 65)], 1, 10, (7, ANY, ANY, ANY, NONE)),
    (9, OWN, 6, 10, (5, ANY, ANY, ANY, NONE)),
];

/// A line of hexadecimal, and how much room there is for 10 bytes at most.
type OfHex = (&'static [u8], usize, Wanted);

static OF_HEX: &[OfHex] = &[
    (b"12:00:03 A113", 2, (0, ANY, 2, ANY, NONE)),
    (b"12:00:03 A113", 1, (3, ANY, 2, ANY, NONE)),
    (b" # A113", 2, (8, ANY, ANY, ANY, NONE)),
    (b" ", 2, (8, ANY, ANY, ANY, NONE)),
    (b"A113 noon", 2, (9, ANY, ANY, ANY, NONE)),
    (b"noon A1B", 2, (10, 3, ANY, ANY, NONE)),
];

/// The kind, the variable, its number, Q_SCALE, and how much room there is for 120 bytes at most.
type OfMeanings = (u32, u32, u64, u32, usize, Wanted);

/// `11800 m`, `unlimited`, `General message`, `Virtual Balise Cover marker` and `Position Report`; distances without Q_SCALE
/// and bits of FILL mean nothing.
static OF_MEANINGS: &[OfMeanings] = &[
    (2, 16, 1180, 2, 7, (0, ANY, 7, ANY, b"D_LINK\0")),
    (2, 16, 1180, 2, 6, (3, ANY, 7, ANY, b"D_LINK\0")),
    (2, 16, 1180, 3, 0, (0, ANY, 0, ANY, b"D_LINK\0")),
    (2, 126, 1, 3, 0, (0, ANY, 0, ANY, b"FILL\0")),
    (2, 23, 1023, 3, 9, (0, ANY, 9, ANY, b"T_LOA\0")),
    (3, 82, 24, 3, 15, (0, ANY, 15, ANY, b"NID_MESSAGE\0")),
    (3, 10, 0, 3, 27, (0, ANY, 27, ANY, b"NID_PACKET\0")),
    (4, 10, 0, 3, 15, (0, ANY, 15, ANY, b"NID_PACKET\0")),
    (2, 130, 0, 3, 9, (7, ANY, ANY, ANY, NONE)),
    (9, 16, 1180, 2, 7, (5, ANY, ANY, ANY, NONE)),
];

/// How much room there is for the version, of 10 bytes at most.
type OfRoom = (usize, Wanted);

static OF_VERSION: &[OfRoom] = &[(6, (0, ANY, 6, ANY, NONE)), (5, (3, ANY, 6, ANY, NONE))];

/// A short telegram of packet 44 by its kind and three bytes: the second one has N_PIG after its first bit, N_TOTAL and a bit of
/// M_DUP, the third one the other bit of M_DUP and 7 of M_MCOUNT, before a 1, the sixth one 8 of NID_BG.
type Balise = (u32, u8, u8, u8);

/// Telegrams, which positions are missing, and whether none is.
type OfGroups = (&'static [Balise], [u8; 8], u32, Wanted);

/// What is in a group before a call.
const BEFORE: [u8; 8] = [9; 8];

const GOOD: Wanted = (0, ANY, ANY, ANY, NONE);

static OF_GROUPS: &[OfGroups] = &[
    (&[], [0; 8], 0, GOOD),
    (&[(2, 0x12, 0x7F, 0)], [1, 0, 0, 0, 0, 0, 0, 0], 0, GOOD),
    (&[(2, 0x12, 0x7F, 0), (2, 0x02, 0x7F, 0)], [0; 8], 1, GOOD),
    (&[(2, 0x02, 0xFF, 0), (2, 0x02, 0xFF, 0)], [0; 8], 1, GOOD),
    (&[(2, 0x20, 0x7F, 0)], BEFORE, 9, (11, 0, ANY, ANY, NONE)),
    (&[(2, 0x03, 0x7F, 0)], BEFORE, 9, (12, 0, ANY, ANY, NONE)),
    (
        &[(2, 0x12, 0x7F, 0), (2, 0x02, 0x7F, 1)],
        BEFORE,
        9,
        (13, 1, ANY, ANY, NONE),
    ),
    (
        &[(2, 0x12, 0x7F, 0), (2, 0x04, 0x7F, 0)],
        BEFORE,
        9,
        (14, 1, ANY, ANY, NONE),
    ),
    (
        &[(2, 0x12, 0x00, 0), (2, 0x02, 0x01, 0)],
        BEFORE,
        9,
        (15, 1, ANY, ANY, NONE),
    ),
    (
        &[(2, 0x12, 0x00, 0), (2, 0x12, 0x7F, 0)],
        BEFORE,
        9,
        (16, 1, ANY, ANY, NONE),
    ),
    (
        &[(2, 0x12, 0x7F, 0), (3, 0x02, 0x7F, 0)],
        BEFORE,
        9,
        (5, 1, ANY, ANY, NONE),
    ),
    (
        &[(2, 0x12, 0x7F, 0), (2, 0x82, 0x7F, 0)],
        BEFORE,
        9,
        (2, 1, ANY, 8, MEDIA),
    ),
];

/// Numbers that no call returns here.
pub(crate) fn unanswered() -> EtcsAnswer {
    EtcsAnswer {
        taken: 99,
        written: 99,
        bit: 99,
        var: [0; 32],
    }
}

/// Whether this is promised.
fn is(answered: usize, wanted: usize) -> bool {
    wanted == ANY || answered == wanted
}

/// Whether a call returned what is expected.
fn is_answered(status: u32, answer: &EtcsAnswer, wanted: &Wanted) -> bool {
    let (code, taken, written, bit, var) = *wanted;
    status == code
        && is(answer.taken, taken)
        && is(answer.written, written)
        && is(answer.bit, bit)
        && answer.var.starts_with(var)
}

/// Asks a call over bytes.
fn ask_bytes(alloc: Global, case: &OfBytes, answer: &mut EtcsAnswer) -> u32 {
    let (call, kind, bytes, room, _) = *case;
    let (mut text, mut fields, mut places) = ([0; 120], before_zeros(&[]), [OUTSIDE; 40]);
    let out = &mut text[..room.min(120)];
    let own = &mut fields[..room.min(130)];
    match call {
        Call::Check => etcs_check(alloc, kind, bytes, answer),
        Call::Show => etcs_show(alloc, kind, 1, bytes, out, answer),
        Call::ToJson => etcs_to_json(alloc, kind, bytes, out, answer),
        Call::Fields => etcs_fields(alloc, kind, bytes, own, answer),
        Call::Places => etcs_places(alloc, kind, bytes, &mut places[..room.min(40)], answer),
        Call::Explain => etcs_explain(alloc, kind, bytes, out, answer),
        Call::FieldsBefore => etcs_fields_before(alloc, kind, bytes, own, answer),
    }
}

/// Whether all of these are one place.
fn are_at(places: &[EtcsPlace], packet: usize, entry: usize, inner: usize) -> bool {
    for place in places {
        if place.packet != packet || place.entry != entry || place.inner != inner {
            return false;
        }
    }
    true
}

/// Asks for the places of the fields of a telegram with nested groups, and returns whether they are those.
fn are_nested(alloc: Global) -> bool {
    let mut places = [OUTSIDE; 40];
    let answer = &mut unanswered();
    if etcs_places(alloc, 2, NESTED, &mut places, answer) != 0 {
        return false;
    }
    let mut left = places.as_slice();
    for (count, packet, entry, inner) in NESTED_PLACES {
        let (these, rest) = left.split_at(left.len().min(*count));
        if !are_at(these, *packet, *entry, *inner) {
            return false;
        }
        left = rest;
    }
    answer.written == 36 && left.len() == 4
}

/// Asks for a reason, and returns its numbers.
fn ask_reason(alloc: Global, case: &OfReasons, answer: &mut EtcsAnswer) -> (u32, Reason) {
    let [
        bits,
        count,
        number,
        below,
        above,
        unfit,
        room,
        cause,
        here,
        nid,
        has,
    ] = NO_REASON;
    let reason = &mut EtcsReason {
        bits,
        count,
        number,
        below,
        above,
        unfit,
        room,
        cause: cause as u32,
        here: here as u32,
        nid: nid as u32,
        has: has as u32,
    };
    let status = etcs_refusal(alloc, case.0, case.1, reason, answer);
    (status, numbers(reason))
}

/// The numbers of a reason, in the order of its members.
fn numbers(reason: &EtcsReason) -> Reason {
    [
        reason.bits,
        reason.count,
        reason.number,
        reason.below,
        reason.above,
        reason.unfit,
        reason.room,
        u64::from(reason.cause),
        u64::from(reason.here),
        u64::from(reason.nid),
        u64::from(reason.has),
    ]
}

/// Asks a call over a line.
fn ask_line(alloc: Global, case: &OfLines, answer: &mut EtcsAnswer) -> u32 {
    let (call, kind, line, room, _) = *case;
    let mut text = [0; 200];
    let out = &mut text[..room.min(200)];
    match call {
        Json::From => etcs_from_json(alloc, kind, line, out, answer),
        Json::Explain => etcs_explain_json(alloc, kind, line, out, answer),
        Json::Reason => etcs_json_reason(alloc, kind, line, out, answer),
    }
}

/// These fields, and after them such of 64 zeros.
fn before_zeros(rows: &[(u64, u32, u32)]) -> [EtcsField; 130] {
    let zeros = EtcsField {
        number: 0,
        var: 0,
        width: 64,
    };
    let mut fields = [zeros; 130];
    for (field, row) in fields.iter_mut().zip(rows) {
        let (number, var, width) = *row;
        *field = EtcsField { number, var, width };
    }
    fields
}

/// Asks for the encoding of fields.
fn ask_fields(alloc: Global, case: &OfFields, answer: &mut EtcsAnswer) -> u32 {
    let (kind, rows, count, room, _) = *case;
    let (fields, mut bytes) = (before_zeros(rows), [0; 10]);
    let out = &mut bytes[..room.min(10)];
    etcs_from_fields(alloc, kind, &fields[..count.min(130)], out, answer)
}

/// Asks for the bytes of a line of hexadecimal.
fn ask_hex(alloc: Global, case: &OfHex, answer: &mut EtcsAnswer) -> u32 {
    let (line, room, _) = *case;
    let mut bytes = [0; 10];
    etcs_line_bytes(alloc, line, &mut bytes[..room.min(10)], answer)
}

/// Asks what a number means.
fn ask_meaning(alloc: Global, case: &OfMeanings, answer: &mut EtcsAnswer) -> u32 {
    let (kind, var, number, scale, room, _) = *case;
    let mut text = [0; 120];
    let out = &mut text[..room.min(120)];
    etcs_meaning(alloc, kind, var, number, scale, out, answer)
}

/// A telegram of these bytes.
fn balise(row: Balise) -> EtcsTelegram {
    let (kind, second, third, sixth) = row;
    let mut bytes = [0xFF; 104];
    let front = [
        0xA0, second, third, 0x80, 0x20, sixth, 0xCB, 0x20, 0x0C, 0x7F,
    ];
    bytes[..10].copy_from_slice(&front);
    bytes[26] = 0xC0;
    EtcsTelegram { kind, bytes }
}

/// Asks what telegrams make, two at most.
fn ask_group(
    alloc: Global,
    case: &OfGroups,
    group: &mut EtcsGroup,
    answer: &mut EtcsAnswer,
) -> u32 {
    let mut telegrams = [balise((1, 0, 0, 0)); 2];
    for (telegram, row) in telegrams.iter_mut().zip(case.0) {
        *telegram = balise(*row);
    }
    etcs_assemble(alloc, &telegrams[..case.0.len().min(2)], group, answer)
}

/// The first of these calls over bytes that returns something else.
fn wrong_of_bytes(alloc: Global, cases: &[OfBytes]) -> Option<usize> {
    for (i, case) in cases.iter().enumerate() {
        let answer = &mut unanswered();
        let status = ask_bytes(alloc, case, answer);
        if !is_answered(status, answer, &case.4) {
            return Some(i);
        }
    }
    None
}

/// The first of these bytes for which something else is returned, or another reason.
fn wrong_of_reasons(alloc: Global, cases: &[OfReasons]) -> Option<usize> {
    for (i, case) in cases.iter().enumerate() {
        let answer = &mut unanswered();
        let (status, reason) = ask_reason(alloc, case, answer);
        if reason != case.3 || !is_answered(status, answer, &case.2) {
            return Some(i);
        }
    }
    None
}

/// The first of these calls over lines that returns something else.
fn wrong_of_lines(alloc: Global, cases: &[OfLines]) -> Option<usize> {
    for (i, case) in cases.iter().enumerate() {
        let answer = &mut unanswered();
        let status = ask_line(alloc, case, answer);
        if !is_answered(status, answer, &case.4) {
            return Some(i);
        }
    }
    None
}

/// The first of these calls over fields that returns something else.
fn wrong_of_fields(alloc: Global, cases: &[OfFields]) -> Option<usize> {
    for (i, case) in cases.iter().enumerate() {
        let answer = &mut unanswered();
        let status = ask_fields(alloc, case, answer);
        if !is_answered(status, answer, &case.4) {
            return Some(i);
        }
    }
    None
}

/// The first of these lines of hexadecimal for which something else is returned.
fn wrong_of_hex(alloc: Global, cases: &[OfHex]) -> Option<usize> {
    for (i, case) in cases.iter().enumerate() {
        let answer = &mut unanswered();
        let status = ask_hex(alloc, case, answer);
        if !is_answered(status, answer, &case.2) {
            return Some(i);
        }
    }
    None
}

/// The first of these numbers for which something else is returned.
fn wrong_of_meanings(alloc: Global, cases: &[OfMeanings]) -> Option<usize> {
    for (i, case) in cases.iter().enumerate() {
        let answer = &mut unanswered();
        let status = ask_meaning(alloc, case, answer);
        if !is_answered(status, answer, &case.5) {
            return Some(i);
        }
    }
    None
}

/// The first of these telegrams for which something else is returned.
fn wrong_of_groups(alloc: Global, cases: &[OfGroups]) -> Option<usize> {
    for (i, case) in cases.iter().enumerate() {
        let answer = &mut unanswered();
        let group = &mut EtcsGroup {
            missing: BEFORE,
            is_complete: 9,
        };
        let status = ask_group(alloc, case, group, answer);
        let is_same = group.missing == case.1 && group.is_complete == case.2;
        if !is_same || !is_answered(status, answer, &case.3) {
            return Some(i);
        }
    }
    None
}

/// The first of these rooms with which anything but the version is returned.
fn wrong_of_version(cases: &[OfRoom]) -> Option<usize> {
    for (i, case) in cases.iter().enumerate() {
        let answer = &mut unanswered();
        let mut text = [0; 10];
        let status = etcs_version(&mut text[..case.0.min(10)], answer);
        if !is_answered(status, answer, &case.1) {
            return Some(i);
        }
    }
    None
}

/// Each status of each call, except when out of memory.
#[test]
fn each_status(rt: HostRuntime) -> Result<(), Fail> {
    let alloc = rt.alloc();
    assert_eq!(rt; wrong_of_bytes(alloc, OF_BYTES), None);
    assert_eq!(rt; wrong_of_reasons(alloc, OF_REASONS), None);
    assert_eq!(rt; wrong_of_lines(alloc, OF_LINES), None);
    assert_eq!(rt; wrong_of_fields(alloc, OF_FIELDS), None);
    assert_eq!(rt; wrong_of_hex(alloc, OF_HEX), None);
    assert_eq!(rt; wrong_of_meanings(alloc, OF_MEANINGS), None);
    assert_eq!(rt; wrong_of_groups(alloc, OF_GROUPS), None);
    assert_eq!(rt; wrong_of_version(OF_VERSION), None);
    assert!(rt; are_nested(alloc));
    Ok(())
}

/// How many bytes come before the digits.
#[test]
fn fronts(rt: HostRuntime) -> Result<(), Fail> {
    assert_eq!(rt; etcs_line_front(b"12:00:03 A113"), 8);
    assert_eq!(rt; etcs_line_front(b"\xEF\xBB\xBF12 A113"), 2);
    assert_eq!(rt; etcs_line_front(b"A113"), 0);
    assert_eq!(rt; etcs_line_front(b"noon  "), 4);
    Ok(())
}

/// What is returned when out of memory.
const STARVED: Wanted = (4, ANY, ANY, ANY, NONE);

/// A call of each function, all of which want memory but the first.
static STARVED_BYTES: &[OfBytes] = &[
    (Call::Check, 3, PACKET, 0, (0, 13, ANY, ANY, NONE)),
    (Call::Check, 3, PACKET_FRONT, 0, STARVED),
    (Call::Show, 3, ITEM, 110, STARVED),
    (Call::ToJson, 3, ITEM, 120, STARVED),
    (Call::Fields, 3, ITEM, 6, STARVED),
    (Call::Places, 3, ITEM, 6, STARVED),
    (Call::Explain, 3, ELEVEN, 45, STARVED),
    (Call::FieldsBefore, 3, ELEVEN, 1, STARVED),
];

/// A refused bit is reported without memory.
static STARVED_REASONS: &[OfReasons] = &[
    (3, PACKET_FRONT, STARVED, NO_REASON),
    (
        3,
        ELEVEN,
        (2, ANY, ANY, 17, LENGTH),
        [11, 10, 11, 10, 13, 0, 0, 0, 1, 24, 23],
    ),
];

static STARVED_LINES: &[OfLines] = &[
    (Json::From, 3, LINE, 10, STARVED),
    (Json::Explain, 3, b"{}", 29, STARVED),
    (Json::Reason, 3, b"{}", 100, STARVED),
];

static STARVED_FIELDS: &[OfFields] = &[(3, OWN, 6, 10, STARVED)];

static STARVED_HEX: &[OfHex] = &[(b"A113", 2, STARVED)];

static STARVED_MEANINGS: &[OfMeanings] = &[
    (2, 16, 1180, 2, 7, STARVED),
    (2, 23, 1023, 3, 9, STARVED),
];

static STARVED_GROUPS: &[OfGroups] = &[(&[(2, 0x12, 0x7F, 0)], BEFORE, 9, STARVED)];

/// The status of each call when out of memory.
#[test]
fn refused_memory(rt: HostRuntime) -> Result<(), Fail> {
    let alloc = rt.alloc();
    let held = starve(alloc)?;
    let bytes = wrong_of_bytes(alloc, STARVED_BYTES);
    let reasons = wrong_of_reasons(alloc, STARVED_REASONS);
    let lines = wrong_of_lines(alloc, STARVED_LINES);
    let fields = wrong_of_fields(alloc, STARVED_FIELDS);
    let hex = wrong_of_hex(alloc, STARVED_HEX);
    let meanings = wrong_of_meanings(alloc, STARVED_MEANINGS);
    let groups = wrong_of_groups(alloc, STARVED_GROUPS);
    drop(held);
    assert_eq!(rt; bytes, None);
    assert_eq!(rt; reasons, None);
    assert_eq!(rt; lines, None);
    assert_eq!(rt; fields, None);
    assert_eq!(rt; hex, None);
    assert_eq!(rt; meanings, None);
    assert_eq!(rt; groups, None);
    Ok(())
}

/// JSON whose header lacks its variables: the reason is a sentence that is put together from several.
const HOLLOW: &[u8] = b"{\"header\":[],\"kind\":\"short\"}";

/// The status for it from a call, and how many bytes were written.
fn why_hollow(alloc: Global, call: Json) -> (u32, usize) {
    let answer = &mut unanswered();
    let status = ask_line(alloc, &(call, 2, HOLLOW, 200, STARVED), answer);
    (status, answer.written)
}

/// Whether the sentence and the object are whole or it is out of memory, with no memory at first and with 16 bytes more each
/// time. Memory is used up only once, since that takes long.
fn are_whole(
    alloc: Global,
    sentence: (u32, usize),
    object: (u32, usize),
) -> Result<bool, AllocError> {
    let spare: Vec<u8> = Vec::with_capacity(alloc, 8192)?;
    let held = starve(alloc)?;
    drop(spare);
    let mut are_whole = true;
    for step in 0..128usize {
        let kept: Vec<u8> = Vec::with_capacity(alloc, 8192 - step * 16)?;
        let (code, written) = why_hollow(alloc, Json::Explain);
        let (status, count) = why_hollow(alloc, Json::Reason);
        drop(kept);
        are_whole &= code == 4 || (code == sentence.0 && written == sentence.1);
        are_whole &= status == 4 || (status == object.0 && count == object.1);
    }
    drop(held);
    Ok(are_whole)
}

/// With whatever memory there is, the sentence and the object are whole, or it is out of memory.
#[test]
fn whole_sentences(rt: HostRuntime) -> Result<(), Fail> {
    let alloc = rt.alloc();
    let sentence = why_hollow(alloc, Json::Explain);
    let object = why_hollow(alloc, Json::Reason);
    assert_eq!(rt; sentence.0, 6);
    assert_eq!(rt; object.0, 6);
    assert!(rt; are_whole(alloc, sentence, object)?);
    Ok(())
}
