//! Variables one after another, from pieces.

use crate::pieces::{check_bytes, check_end, check_refused, fed, feed};
use etcs_fakes::Checks;
use etcs_reader::{Feeder, Fields, Rest};
use etcs_vars::Var;

/// The variables before a telegram's packets, of 50 bits.
const HEADER: [Var; 10] = [
    Var::Q_UPDOWN,
    Var::M_VERSION_HEADER,
    Var::Q_MEDIA,
    Var::N_PIG,
    Var::N_TOTAL,
    Var::M_DUP,
    Var::M_MCOUNT,
    Var::NID_C,
    Var::NID_BG,
    Var::Q_LINK,
];

/// M_VERSION 33, the first of two, M_MCOUNT 17, group 2040 of country 98, and six bits after them.
const BYTES: [u8; 7] = [0xA1, 0x02, 0x08, 0x8C, 0x43, 0xFC, 0x41];

/// A country and a group in it.
const GROUP: [Var; 3] = [Var::Q_NEWCOUNTRY, Var::NID_C, Var::NID_BG];

/// A reader of these variables.
fn reader_of(vars: &'static [Var]) -> Feeder<Fields> {
    Feeder::new(Fields { vars })
}

#[test]
fn one_piece(rt: HostRuntime) {
    let mut checks = Checks::new();
    let mut feeder = reader_of(&HEADER);
    checks.check(fed(&mut feeder, &[]) == Ok(0), "no bytes");
    checks.check(feeder.var() == Some(Var::Q_UPDOWN), "the first variable");
    checks.check(fed(&mut feeder, &BYTES) == Ok(50), "the header");
    check_end(&mut checks, &mut feeder, 50);
    checks.check(feeder.rest().vars.is_empty(), "variables left");
    assert_eq!(rt; checks.wrong(), None);
}

#[test]
fn byte_by_byte(rt: HostRuntime) {
    let mut checks = Checks::new();
    let mut feeder = reader_of(&HEADER);
    check_bytes(
        &mut checks,
        &mut feeder,
        &[
            (0xA1, 8, Some(Var::Q_MEDIA), (0, 0)),
            (0x02, 8, Some(Var::M_DUP), (0, 1)),
            (0x08, 8, Some(Var::M_MCOUNT), (0b0001000, 7)),
            (0x8C, 8, Some(Var::NID_C), (0b0001100, 7)),
            (0x43, 8, Some(Var::NID_BG), (0b00011, 5)),
            (0xFC, 8, Some(Var::NID_BG), (0b0001111111100, 13)),
            (0x41, 2, None, (0, 0)),
        ],
    );
    check_end(&mut checks, &mut feeder, 50);
    assert_eq!(rt; checks.wrong(), None);
}

/// A refused bit is the same in one piece and byte by byte.
#[test]
fn refused_bits(rt: HostRuntime) {
    let mut checks = Checks::new();
    for (bytes, refused) in [
        ([0x21, 0x00, 0x00], (0, Var::Q_UPDOWN, (0, 0))),
        ([0xC0, 0x00, 0x00], (1, Var::M_VERSION_HEADER, (0, 0))),
        ([0xA2, 0x00, 0x00], (6, Var::M_VERSION_HEADER, (0b01000, 5))),
        ([0xA1, 0x80, 0x00], (8, Var::Q_MEDIA, (0, 0))),
        ([0xA0, 0x01, 0x80], (16, Var::M_DUP, (1, 1))),
    ] {
        for singly in [false, true] {
            let mut feeder = reader_of(&HEADER);
            feed(&mut feeder, &bytes, singly);
            check_refused(&mut checks, &mut feeder, refused);
        }
    }
    assert_eq!(rt; checks.wrong(), None);
}

/// 1, 1000 and 5 in 25 bits, and fifteen bits after them.
#[test]
fn two_pieces(rt: HostRuntime) {
    let mut checks = Checks::new();
    let mut feeder = reader_of(&GROUP);
    checks.check(
        fed(&mut feeder, &[0xFD, 0x00, 0x02]) == Ok(24),
        "three bytes",
    );
    checks.check(feeder.var() == Some(Var::NID_BG), "the third variable");
    checks.check(feeder.unfinished() == (2, 13), "a part of the third");
    checks.check(fed(&mut feeder, &[0xFF, 0xFF]) == Ok(1), "its last bit");
    checks.check(feeder.into_rest().var().is_none(), "a fourth variable");
    assert_eq!(rt; checks.wrong(), None);
}
