//! Packets where memory is refused.

use etcs_bits::BitSlice;
use etcs_bodies::Framed;
use etcs_fakes::{Checks, starve};
use etcs_packets::Flat;
use std::alloc::{AllocError, Global};
use std::test::Fail;

/// Whether a packet's number, direction, fields and bits make it again, and its clones are equal.
fn is_made<P: Framed + PartialEq + Drop>(
    alloc: Global,
    packet: &P,
    fields: &[u64],
    bits: BitSlice<'_>,
) -> Result<bool, AllocError> {
    let again = P::from_fields(alloc, packet.dir(), fields)?;
    let made = P::from_bits(alloc, packet.dir(), bits)?;
    let copied = packet.try_clone(alloc)?;
    let same = again.as_ref() == Some(packet);
    Ok(same & (made.as_ref() == Some(packet)) & (copied == *packet))
}

/// A packet without groups takes no memory.
#[test]
fn flat_packets_without_memory(rt: HostRuntime) -> Result<(), Fail> {
    let (checks, alloc) = (&mut Checks::new(), rt.alloc());
    let bits = BitSlice::new(&[0b1001_0100, 0], 0, 9).ok_or("too few bytes")?;
    let held = starve(alloc)?;
    let packet = Flat::<141>::new(1, &[1, 40])?;
    let made = is_made(alloc, &packet, &[1, 40], bits);
    let cloned: Result<Flat<141>, AllocError> = packet.clone();
    drop(held);
    checks.check(made == Ok(true), "not made without memory");
    checks.check(cloned == Ok(packet), "not cloned without memory");
    assert_eq!(rt; checks.wrong(), None);
    Ok(())
}
