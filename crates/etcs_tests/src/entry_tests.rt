//! Readers of items of any kind that are fed after the end of an item, or after a fault.

use etcs_fakes::{Checks, starve};
use etcs_text::{Entry, EntryReader, Kind, encoded};
use etcs_vars::{Fed, ReadFault, Var};
use std::alloc::Global;
use std::test::Fail;

/// A short telegram with packet 5, and ones.
const TELEGRAM: &[u8] = &[
    0xA0, 0x00, 0x7F, 0x80, 0x20, 0x00, 0xC1, 0x50, 0x36, 0x20, 0xFA, 0x00, 0x02, 0x93, 0x02, 0x0F,
    0xA0, 0x00, 0x29, 0x33, 0xFF, 0xFF, 0xFF, 0xFF, 0xFF, 0xFF, 0xC0,
];

/// Message 24 to the train: NID_MESSAGE 24, L_MESSAGE 10, then T_TRAIN, M_ACK, NID_LRBG and PADDING, which are zeros.
const MESSAGE: &[u8] = &[0x18, 0x02, 0x80, 0, 0, 0, 0, 0, 0, 0];

/// Message 159 to the track: NID_MESSAGE 159, L_MESSAGE 10, then T_TRAIN, NID_ENGINE and PADDING, which are zeros.
const TRAIN: &[u8] = &[0x9F, 0x02, 0x80, 0, 0, 0, 0, 0, 0, 0];

/// The first byte of telegrams that are refused at bit 6: M_VERSION admits no number that begins with 01000.
const REFUSED: &[u8] = &[0xA2];

/// Checks that an item is taken that has these bytes.
fn check_item(alloc: Global, checks: &mut Checks, taken: Result<Entry, ()>, bytes: &[u8]) {
    let Ok(entry) = taken else {
        checks.check(false, "no item");
        return;
    };
    let mut again = Vec::new(alloc);
    checks.check(encoded(&entry, &mut again).is_ok(), "no memory");
    checks.check(again.as_slice() == bytes, "another item");
}

/// Checks a reader that is fed an item, the item again, and once more after the first was taken.
fn check_ended(alloc: Global, checks: &mut Checks, kind: Kind, bytes: &[u8]) {
    let done = Ok(Fed::Done { taken: bytes.len() });
    let mut reader = EntryReader::new(alloc, kind);
    for _ in 0..2u8 {
        checks.check(reader.feed(bytes) == done, "not done");
        checks.check(reader.feed(bytes) == Err(ReadFault::Ended), "not ended");
        checks.check(reader.feed(&[]) == Err(ReadFault::Ended), "not ended");
        check_item(alloc, checks, reader.next(), bytes);
        checks.check(reader.next().is_err(), "a second item");
    }
}

#[test]
fn fed_after_the_item(rt: HostRuntime) {
    let (checks, alloc) = (&mut Checks::new(), rt.alloc());
    check_ended(alloc, checks, Kind::Short, TELEGRAM);
    check_ended(alloc, checks, Kind::Radio, MESSAGE);
    check_ended(alloc, checks, Kind::Train, TRAIN);
    assert_eq!(rt; checks.wrong(), None);
}

#[test]
fn fed_after_a_refused_bit(rt: HostRuntime) {
    let (checks, alloc) = (&mut Checks::new(), rt.alloc());
    let refused = Err(ReadFault::Refused {
        bit: 6,
        var: Var::M_VERSION_HEADER,
    });
    let mut reader = EntryReader::new(alloc, Kind::Short);
    checks.check(reader.feed(REFUSED) == refused, "refused");
    checks.check(reader.feed(TELEGRAM) == refused, "refused again");
    checks.check(reader.feed(&[]) == refused, "refused a third time");
    checks.check(reader.next().is_err(), "an item");
    assert_eq!(rt; checks.wrong(), None);
}

#[test]
fn fed_after_refused_memory(rt: HostRuntime) -> Result<(), Fail> {
    let (checks, alloc) = (&mut Checks::new(), rt.alloc());
    let mut reader = EntryReader::new(alloc, Kind::Short);
    let held = starve(alloc)?;
    let starved = reader.feed(TELEGRAM);
    drop(held);
    checks.check(starved == Err(ReadFault::Memory), "memory");
    checks.check(reader.feed(TELEGRAM) == starved, "memory again");
    checks.check(reader.next().is_err(), "an item");
    assert_eq!(rt; checks.wrong(), None);
    Ok(())
}
