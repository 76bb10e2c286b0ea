//! Rows of packets, from pieces.

use crate::pieces::{check_bytes, check_end, check_refused, fed, feed};
use etcs_fakes::Checks;
use etcs_reader::Feeder;
use etcs_rows::inner::RowRest;
use etcs_tables::{Way, row_of};
use etcs_vars::Var;

/// A reader of a packet's row in this many bits.
fn reader_of(nid: u8, len: usize) -> Option<Feeder<RowRest>> {
    let row = row_of(Way::ToTrain, nid)?;
    let rest = RowRest::start(row, len)?;
    Some(Feeder::new(rest))
}

/// Packet 5's row with one further link, in 85 bits, and three bits after it: group 5 after 1000, and group 6
/// after 2000.
const LINKS: [u8; 11] = [
    0x41, 0xF4, 0x00, 0x05, 0x26, 0x04, 0x3E, 0x80, 0x00, 0x6C, 0x78,
];

/// Checks what a reader returns for the links, in one piece and byte by byte.
fn check_links(checks: &mut Checks, whole: &mut Feeder<RowRest>, bitten: &mut Feeder<RowRest>) {
    checks.check(whole.var() == Some(Var::Q_SCALE), "the first variable");
    checks.check(fed(whole, &LINKS) == Ok(85), "the row");
    check_end(checks, whole, 85);
    check_bytes(
        checks,
        bitten,
        &[
            (0x41, 8, Some(Var::D_LINK), (1, 6)),
            (0xF4, 8, Some(Var::D_LINK), (500, 14)),
            (0x00, 8, Some(Var::NID_BG), (0, 6)),
            (0x05, 8, Some(Var::Q_LINKORIENTATION), (0, 0)),
            (0x26, 8, Some(Var::Q_LOCACC), (0b00110, 5)),
            (0x04, 8, Some(Var::D_LINK), (0, 2)),
            (0x3E, 8, Some(Var::D_LINK), (0b0000111110, 10)),
            (0x80, 8, Some(Var::NID_BG), (0, 2)),
            (0x00, 8, Some(Var::NID_BG), (0, 10)),
            (0x6C, 8, Some(Var::Q_LOCACC), (0, 1)),
            (0x78, 5, None, (0, 0)),
        ],
    );
    check_end(checks, bitten, 85);
}

#[test]
fn links(rt: HostRuntime) {
    let mut checks = Checks::new();
    match (reader_of(5, 85), reader_of(5, 85)) {
        (Some(mut whole), Some(mut bitten)) => {
            check_links(&mut checks, &mut whole, &mut bitten);
            checks.check(whole.into_rest().len == 0, "bits left");
        }
        _ => checks.check(false, "no row"),
    }
    assert_eq!(rt; checks.wrong(), None);
}

/// A bit with which the row can't continue in its length: the flag of the first link, which takes 10 bits more, and no
/// further link, where 85 bits want one; and numbers that aren't admitted.
#[test]
fn refused_bits(rt: HostRuntime) {
    let mut checks = Checks::new();
    for (nid, len, bytes, refused) in [
        (
            5,
            85,
            [0x41, 0xF4, 0x40, 0, 0],
            (17, Var::Q_NEWCOUNTRY, (0, 0)),
        ),
        (
            5,
            85,
            [0x41, 0xF4, 0x00, 0x05, 0x26],
            (45, Var::N_ITER, (0, 4)),
        ),
        (12, 50, [0xC0, 0, 0, 0, 0], (1, Var::Q_SCALE, (1, 1))),
        (12, 50, [0x7E, 0, 0, 0, 0], (6, Var::V_MAIN, (15, 4))),
        (12, 50, [0x7C, 0x80, 0, 0, 0], (8, Var::V_MAIN, (60, 6))),
        (136, 15, [0x80, 0, 0, 0, 0], (0, Var::Q_NEWCOUNTRY, (0, 0))),
        (136, 25, [0x00, 0, 0, 0, 0], (0, Var::Q_NEWCOUNTRY, (0, 0))),
    ] {
        for singly in [false, true] {
            if let Some(mut feeder) = reader_of(nid, len) {
                feed(&mut feeder, &bytes, singly);
                feed(&mut feeder, &[0x00], singly);
                check_refused(&mut checks, &mut feeder, refused);
            } else {
                checks.check(false, "no row");
            }
        }
    }
    assert_eq!(rt; checks.wrong(), None);
}

/// A row of no such number of bits, and a number with no row.
#[test]
fn no_rows(rt: HostRuntime) {
    let mut checks = Checks::new();
    for (nid, len) in [(136, 16), (137, 0), (64, 1), (5, 8192), (44, 8), (255, 0)] {
        checks.check(reader_of(nid, len).is_none(), "a row");
    }
    assert_eq!(rt; checks.wrong(), None);
}
