//! What a group returns only to its caller: a telegram that is handed back, telegrams of both sizes, and refused memory; and
//! the texts of its faults.

use etcs_bits::{BitSlice, Bits};
use etcs_fakes::{Checks, starve};
use etcs_group::{Added, Assembly, Clash, GroupFault, inner};
use etcs_packets::{Other, Packet};
use etcs_telegram::{Header, Size, Telegram};
use std::alloc::Global;
use std::test::Fail;

/// The telegram of a position of two, with a kept packet of 8 or of 9 bits.
fn telegram(alloc: Global, size: Size, n_pig: u8) -> Option<Telegram> {
    let header = Header::new(32, n_pig, 1, 0, 255, 1, 1, true).ok()?;
    let mut packets = Vec::new(alloc);
    packets.push(kept(alloc, n_pig)?).ok()?;
    Telegram::new(alloc, size, header, packets).ok()
}

/// Packet 44 of a position.
fn kept(alloc: Global, n_pig: u8) -> Option<Packet> {
    let slice = BitSlice::new(&[0x5A, 0xA5], 0, 8 + usize::from(n_pig))?;
    let bits = Bits::from_slice(alloc, slice).ok()?;
    Some(Packet::Other(Other::new(44, 1, bits).ok()?))
}

/// What is answered where this telegram is added; one that is handed back is the one that was added.
fn added(
    checks: &mut Checks,
    alloc: Global,
    assembly: &mut Assembly,
    size: Size,
    n_pig: u8,
) -> Option<Result<Added, Clash>> {
    match assembly.add(telegram(alloc, size, n_pig)?) {
        Ok(added) => Some(Ok(added)),
        Err((clash, back)) => {
            let same = telegram(alloc, size, n_pig);
            checks.check(same.as_ref() == Some(&back), "another telegram back");
            Some(Err(clash))
        }
    }
}

/// Checks a group of two telegrams.
fn check_whole(checks: &mut Checks, alloc: Global, assembly: &Assembly) {
    checks.check(assembly.is_complete(), "not whole");
    checks.check(assembly.missing() == [false; 8], "a position is missing");
    checks.check(inner::group(assembly) == Some((1, 1)), "another group");
    let message = assembly.message(alloc);
    match message.as_ref() {
        Ok(packets) => check_packets(checks, alloc, packets.as_slice()),
        Err(_) => checks.check(false, "no message"),
    }
}

/// Checks the packets of a group's message.
fn check_packets(checks: &mut Checks, alloc: Global, packets: &[Packet]) {
    checks.check(packets.len() == 2, "another number of packets");
    for (n_pig, packet) in [0, 1].iter().zip(packets) {
        let wanted = kept(alloc, *n_pig);
        checks.check(wanted.as_ref() == Some(packet), "another packet");
    }
}

/// A long telegram and a short one at a position aren't the same; at two positions they go together.
#[test]
fn both_sizes(rt: HostRuntime) {
    let (checks, alloc) = (&mut Checks::new(), rt.alloc());
    let mut assembly = Assembly::new();
    checks.check(inner::group(&assembly).is_none(), "a group of none");
    let none = assembly.message(alloc).err();
    checks.check(none == Some(GroupFault::NotWhole), "a message of none");
    for (size, n_pig, expected) in [
        (Size::Short, 0, Ok(Added::New)),
        (Size::Long, 0, Err(Clash::Differs)),
        (Size::Long, 1, Ok(Added::New)),
        (Size::Long, 1, Ok(Added::Repeat)),
    ] {
        let answer = added(checks, alloc, &mut assembly, size, n_pig);
        checks.check(answer == Some(expected), "another answer");
    }
    check_whole(checks, alloc, &assembly);
    assert_eq!(rt; checks.wrong(), None);
}

/// A group that isn't complete reports that, whether there is memory or not; and a telegram is held without memory.
#[test]
fn nothing_is_wanted_of_a_part(rt: HostRuntime) -> Result<(), Fail> {
    let (checks, alloc) = (&mut Checks::new(), rt.alloc());
    let mut assembly = Assembly::new();
    let first = added(checks, alloc, &mut assembly, Size::Short, 1);
    checks.check(first == Some(Ok(Added::New)), "a clash of one");
    let again = telegram(alloc, Size::Short, 1).ok_or("no telegram")?;
    let other = telegram(alloc, Size::Short, 0).ok_or("no telegram")?;
    let held = starve(alloc)?;
    let message = assembly.message(alloc).err();
    let repeated = assembly.add(again).is_ok();
    let added = assembly.add(other).is_ok();
    drop(held);
    checks.check(message == Some(GroupFault::NotWhole), "a message of a part");
    checks.check(repeated && added, "a clash");
    check_whole(checks, alloc, &assembly);
    let clash = Clash::OtherGroup.to_string(alloc)?;
    let text = "the telegram is of another group";
    checks.check(clash.as_str() == text, "another text of a clash");
    let fault = GroupFault::NotWhole.to_string(alloc)?;
    let text = "the group isn't whole";
    checks.check(fault.as_str() == text, "another text of a fault");
    assert_eq!(rt; checks.wrong(), None);
    Ok(())
}
