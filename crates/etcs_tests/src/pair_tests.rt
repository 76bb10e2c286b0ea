//! Items as pairs of a variable and its number.

use etcs_fakes::Checks;
use etcs_text::laws::encoded_pairs;
use etcs_text::{End, Entry, EntryReader, Kind, Part, read_pairs, same_pairs, write_pairs};
use etcs_vars::{Fed, Var};
use std::alloc::{AllocError, Global};

/// Message 24 to the train: NID_MESSAGE 24, L_MESSAGE 10, then T_TRAIN, M_ACK, NID_LRBG and PADDING, which are zeros.
const ITEM: &[u8] = &[0x18, 0x02, 0x80, 0, 0, 0, 0, 0, 0, 0];

/// A telegram of which Q_UPDOWN is 1, and bit 6 is refused: M_VERSION admits no number that begins with 01000.
const REFUSED: &[u8] = &[0xA2];

/// The same message with T_TRAIN 1.
const LATER: &[u8] = &[0x18, 0x02, 0x80, 0, 0, 0, 0x40, 0, 0, 0];

/// A message of number 200, which is kept as bits whichever way it goes.
const KEPT: &[u8] = &[0xC8, 0x00, 0xC0];

/// The pairs of the first.
const PAIRS: [(Var, u64); 10] = [
    (Var::NID_MESSAGE, 24),
    (Var::L_MESSAGE, 10),
    (Var::T_TRAIN, 0),
    (Var::M_ACK, 0),
    (Var::NID_LRBG, 0),
    (Var::PADDING, 0),
    (Var::PADDING, 0),
    (Var::PADDING, 0),
    (Var::PADDING, 0),
    (Var::PADDING, 0),
];

/// Checks what bytes begin with: these pairs, and this end.
fn check_read(
    alloc: Global,
    checks: &mut Checks,
    kind: Kind,
    bytes: &[u8],
    pairs: &[(Var, u64)],
    end: End,
) {
    match read_pairs(alloc, kind, bytes) {
        Ok(account) => {
            checks.check(account.fields.as_slice() == pairs, "pairs");
            checks.check(account.end == end, "end");
        }
        Err(AllocError) => checks.check(false, "no memory"),
    }
}

/// Checks what is written of pairs after a byte: these bytes, or nothing.
fn check_write(
    alloc: Global,
    checks: &mut Checks,
    kind: Kind,
    pairs: &[(Var, u64)],
    bytes: Option<&[u8]>,
) {
    let mut out = Vec::new(alloc);
    checks.check(out.push(7).is_ok(), "no memory");
    match write_pairs(alloc, kind, pairs, &mut out) {
        Ok(written) => checks.check(written == bytes.is_some(), "whether they are an item"),
        Err(AllocError) => checks.check(false, "no memory"),
    }
    match out.as_slice().split_first() {
        Some((before, written)) => {
            checks.check(*before == 7, "the byte before");
            checks.check(written == bytes.unwrap_or(&[]), "bytes");
        }
        None => checks.check(false, "no byte before"),
    }
}

#[test]
fn pairs_of_bytes(rt: HostRuntime) {
    let (checks, alloc) = (&mut Checks::new(), rt.alloc());
    check_read(alloc, checks, Kind::Radio, ITEM, &PAIRS, End::Whole);
    let part = Part {
        var: Var::NID_LRBG,
        bits: 0,
        count: 21,
    };
    let open = End::Open(part);
    check_read(alloc, checks, Kind::Radio, &ITEM[..9], &PAIRS[..4], open);
    let part = Part {
        var: Var::M_VERSION_HEADER,
        bits: 8,
        count: 5,
    };
    let before = [(Var::Q_UPDOWN, 1)];
    let refused = End::Refused(6, part);
    check_read(alloc, checks, Kind::Long, REFUSED, &before, refused);
    assert_eq!(rt; checks.wrong(), None);
}

#[test]
fn bytes_of_pairs(rt: HostRuntime) {
    let (checks, alloc) = (&mut Checks::new(), rt.alloc());
    check_write(alloc, checks, Kind::Radio, &PAIRS, Some(ITEM));
    let mut changed = PAIRS;
    changed[2].1 = 1;
    check_write(alloc, checks, Kind::Radio, &changed, Some(LATER));
    check_write(alloc, checks, Kind::Train, &PAIRS, None);
    check_write(alloc, checks, Kind::Radio, &PAIRS[..9], None);
    check_write(alloc, checks, Kind::Radio, &[], None);
    changed[2].1 = 1 << 32;
    check_write(alloc, checks, Kind::Radio, &changed, None);
    changed[2] = (Var::NID_LRBG, 0);
    check_write(alloc, checks, Kind::Radio, &changed, None);
    assert_eq!(rt; checks.wrong(), None);
}

/// The item of these bytes.
fn entry_of(alloc: Global, kind: Kind, bytes: &[u8]) -> Option<Entry> {
    let mut reader = EntryReader::new(alloc, kind);
    match reader.feed(bytes) {
        Ok(Fed::Done { .. }) => reader.next().ok(),
        Ok(Fed::More) => None,
        Err(_) => None,
    }
}

/// Whether two items have the same pairs; `None` if the bytes aren't items.
fn are_same(alloc: Global, first: (Kind, &[u8]), second: (Kind, &[u8])) -> Option<bool> {
    let first = entry_of(alloc, first.0, first.1)?;
    let second = entry_of(alloc, second.0, second.1)?;
    Some(same_pairs(&first, &second))
}

#[test]
fn the_same_pairs(rt: HostRuntime) {
    let (checks, alloc) = (&mut Checks::new(), rt.alloc());
    let item = (Kind::Radio, ITEM);
    checks.check(are_same(alloc, item, item) == Some(true), "one item");
    let later = are_same(alloc, item, (Kind::Radio, LATER));
    checks.check(later == Some(false), "another number");
    let kept = (Kind::Radio, KEPT);
    checks.check(are_same(alloc, item, kept) == Some(false), "other pairs");
    checks.check(are_same(alloc, kept, kept) == Some(true), "kept bits");
    let track = are_same(alloc, kept, (Kind::Train, KEPT));
    checks.check(track == Some(false), "another kind");
    assert_eq!(rt; checks.wrong(), None);
}

#[test]
fn pairs_of_an_encoding(rt: HostRuntime) {
    let (checks, alloc) = (&mut Checks::new(), rt.alloc());
    match entry_of(alloc, Kind::Radio, ITEM) {
        Some(entry) => match encoded_pairs(alloc, &entry) {
            Ok(account) => {
                checks.check(account.fields.as_slice() == PAIRS.as_slice(), "pairs");
                checks.check(account.end == End::Whole, "end");
            }
            Err(AllocError) => checks.check(false, "no memory"),
        },
        None => checks.check(false, "no item"),
    }
    assert_eq!(rt; checks.wrong(), None);
}
