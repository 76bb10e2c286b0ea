//! The groups of many telegrams, and what is written of them.

use etcs_fakes::{Checks, starve};
use etcs_group::Groups;
use etcs_telegram::{Header, Size, Telegram};
use std::alloc::{AllocError, Global};
use std::test::Fail;

/// A telegram without packets, of these NID_C, NID_BG, N_PIG and N_TOTAL.
fn telegram(alloc: Global, nid_c: u16, nid_bg: u16, n_pig: u8, n_total: u8) -> Option<Telegram> {
    let header = Header::new(32, n_pig, n_total, 0, 255, nid_c, nid_bg, true).ok()?;
    Telegram::new(alloc, Size::Short, header, Vec::new(alloc)).ok()
}

/// Checks what is written of groups, after a line that is there.
fn check_text(
    checks: &mut Checks,
    alloc: Global,
    groups: &Groups,
    expected: &[u8],
) -> Result<(), AllocError> {
    let mut text = Vec::from_slice(alloc, b"log\n")?;
    let written = groups.write(&mut text).is_ok();
    let mut whole = Vec::from_slice(alloc, b"log\n")?;
    whole.extend_from_slice(expected)?;
    checks.check(written, "no text of groups");
    checks.check(text.as_slice() == whole.as_slice(), "another text");
    Ok(())
}

/// Groups are written in the order in which they began, each with what is held of it and how many telegrams clashed. An
/// equal telegram is a repeat; one whose position is after the group's last clashes by itself.
#[test]
fn groups_in_their_order(rt: HostRuntime) -> Result<(), Fail> {
    let (checks, alloc) = (&mut Checks::new(), rt.alloc());
    let mut groups = Groups::new(alloc);
    check_text(checks, alloc, &groups, b"")?;
    for (nid_c, nid_bg, n_pig, n_total) in [
        (98, 1006, 0, 2),
        (1006, 98, 0, 0),
        (98, 1006, 0, 2),
        (98, 1007, 1, 0),
        (98, 1006, 0, 1),
        (1006, 98, 0, 0),
        (98, 1006, 1, 1),
    ] {
        let telegram = telegram(alloc, nid_c, nid_bg, n_pig, n_total).ok_or("no telegram")?;
        groups.add(telegram)?;
    }
    let expected =
        b"group 98 1006 missing 1 2 clashes 2\ngroup 1006 98 complete\ngroup 98 1007 empty clashes 1\n";
    check_text(checks, alloc, &groups, expected)?;
    assert_eq!(rt; checks.wrong(), None);
    Ok(())
}

/// Where memory is refused, neither the groups nor the text change.
#[test]
fn groups_without_memory(rt: HostRuntime) -> Result<(), Fail> {
    let (checks, alloc) = (&mut Checks::new(), rt.alloc());
    let mut groups = Groups::new(alloc);
    let first = telegram(alloc, 98, 1006, 0, 0).ok_or("no telegram")?;
    let again = telegram(alloc, 98, 1006, 0, 0).ok_or("no telegram")?;
    let held = starve(alloc)?;
    let refused = groups.add(first).is_err();
    drop(held);
    checks.check(refused, "a group without memory");
    check_text(checks, alloc, &groups, b"")?;
    groups.add(again)?;
    let mut text = Vec::from_slice(alloc, b"log\n")?;
    let held = starve(alloc)?;
    let refused = groups.write(&mut text).is_err();
    drop(held);
    checks.check(refused, "a text without memory");
    checks.check(text.as_slice() == b"log\n".as_slice(), "a part of a text");
    check_text(checks, alloc, &groups, b"group 98 1006 complete\n")?;
    assert_eq!(rt; checks.wrong(), None);
    Ok(())
}
