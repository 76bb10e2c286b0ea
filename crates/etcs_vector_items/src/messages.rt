//! Messages of either way, as items.

use etcs_messages::{Head, MessageOf, Own, laws};
use etcs_vector_lines::Case;

/// Says how many bits and packets a message has.
pub(crate) fn say_size<H: Head, B: Own<Front = H>>(case: &mut Case, message: &MessageOf<H, B>) {
    case.say_number(message.bit_len() as u64);
    case.say(" bits, packets ");
    case.say_number(message.packets().len() as u64);
}

/// Checks that a message is written as these bytes, after another one.
pub(crate) fn check<H: Head, B: Own<Front = H>>(
    case: &mut Case,
    message: &MessageOf<H, B>,
    bytes: &[u8],
) {
    let mut written = Vec::new(case.alloc());
    case.kept(written.push(0xA5u8).is_ok());
    case.kept(message.encode(&mut written).is_ok());
    let own = written.as_slice().strip_prefix(&[0xA5u8]);
    case.check(own == Some(bytes), "not written so");
    let len = bytes.len().saturating_mul(8);
    case.check(message.bit_len() == len, "another length");
}

/// Checks that a message is read from its encoding, and bytes are written as what they are read as.
pub(crate) fn check_laws<H, B>(case: &mut Case, message: &MessageOf<H, B>, bytes: &[u8])
where
    H: Head + PartialEq,
    B: Own<Front = H> + PartialEq,
{
    let alloc = case.alloc();
    let again = case.got(laws::round_trip(alloc, message));
    case.check(again.as_ref() == Some(message), "not read again");
    let mut back = Vec::new(alloc);
    let count = case.got(laws::read_back::<H, B>(alloc, bytes, &mut back));
    case.check(count == Some(Some(bytes.len())), "not written back");
    case.check(back.as_slice() == bytes, "other bytes written back");
}
