//! Laws, each the contract of a function.

ghost use Rattle.std.specs.Prelude.{◌≡◌, ℕ, ◌≤◌, ◌<◌, ◌*◌, ◌++◌, length, take, slice_index_or, ◌↔◌, IsTrue, IfOk, OnOk, OnErr, IfSome, IfNone};
ghost use Rattle.etcs_bits.specs.Bits.{bits};
ghost use Rattle.etcs_bodies.specs.Equality.{IsExact};
ghost use Rattle.etcs_vars.specs.Reading.{Reading, spelled, InLanguage, NoneYet};
ghost use Rattle.etcs_messages.specs.Promises.{OneSpelling, RoomRule};
ghost use Rattle.etcs_messages.specs.Readers.{OneHolding};
ghost use Rattle.etcs_messages.specs.Messages.{MessageLanguage, MessageReads, message_value};

use crate::kind::{Head, Own};
use crate::message::MessageOf;
use crate::reader::ReaderOf;
use etcs_sequence::inner::first_item;
use std::alloc::{AllocError, Global};

/// No two messages of a way have the same spelling, and no spelling begins another.
pub fn one_spelling<H: Head, B: Own<Front = H>>()
    ensures { OneSpelling H.Packet.WAY H.head B.own H.Packet.form }
{}

/// The bits of an admitted header, a reading of the number's row and packets, which to the train are other than 0,
/// begin a message exactly if they are at most 8 times L_MESSAGE bits and either at most 7 of these are left, for
/// PADDING, or at least the bits of a packet's frame: 23 to the train, 21 to the track.
pub fn room<H: Head>()
    ensures { RoomRule H.Packet.WAY }
{}

/// The bits so far leave one possibility of what [`ReaderOf::held`] returns: any two packets, numbers, kept bits,
/// `part` and `taken` of which its promise holds for the same bits are equal, all five.
pub fn one_holding<H: Head>()
    ensures { OneHolding H.Packet.WAY H.Packet.form }
{}

/// `==` of messages is equality of their values: true exactly if header, body, packets and PADDING, or number and kept
/// bits, are equal.
///
/// Requires that `==` of heads, of bodies and of packets is equality of their values.
pub fn exact_equality<H: Head + PartialEq, B: Own<Front = H> + PartialEq>(
    first: &MessageOf<H, B>,
    second: &MessageOf<H, B>,
) -> bool
    requires head { IsExact H.eq }
    requires own { IsExact B.eq }
    requires packets { IsExact H.Packet.eq }
    ensures { IsTrue result ↔ (first.now ≡ second.now) }
{
    first == second
}

/// Encodes a message and reads its bytes again: if it succeeds, what is read is the message that was encoded.
///
/// # Errors
///
/// `AllocError` if out of memory for the bytes or in the reader; the body has no other way to fail.
pub fn round_trip<H: Head, B: Own<Front = H>>(
    alloc: Global,
    message: &MessageOf<H, B>,
) -> Result<MessageOf<H, B>, AllocError>
    ensures { IfOk result (λ again. again ≡ message.now) }
{
    message.readable();
    let mut bytes = Vec::new(alloc);
    message.encode(&mut bytes)?;
    let reader = ReaderOf::<H, B>::new(alloc);
    match first_item(reader.reader, bytes.as_slice())? {
        Some((again, _)) => Ok(again),
        None => unreachable!(),
    }
}

/// For callers: each byte is below 256.
fn are_bytes(bytes: &[u8])
    ensures { (i : ℕ) → slice_index_or bytes.now i 0 < 256 }
{
    let _ = bytes;
}

/// Appends the message that these bytes spell: the bytes themselves.
fn append_again<H: Head, B: Own<Front = H>>(
    message: &MessageOf<H, B>,
    bytes: &[u8],
    out: &mut Vec<u8>,
) -> Result<(), AllocError>
    requires { (r : Reading) × MessageReads H.Packet.WAY (message_value H.Packet.WAY H.head B.own H.Packet.form message.now) r × (spelled r ≡ bits bytes.now) }
    ensures ok { OnOk result (out.new.items ≡ out.old.items ++ bytes.now) }
    ensures err { OnErr result (out.new.items ≡ out.old.items) }
{
    are_bytes(out.as_slice());
    message.encode(out)?;
    Ok(())
}

/// Reads a message from the front of some bytes and appends its encoding. If it returns a number of bytes, that many
/// were there, they spell a message, and exactly these bytes are appended. If it returns `None`, no front of the bits
/// spells one, and nothing is appended.
///
/// # Errors
///
/// `AllocError` if out of memory, in the reader or for the bytes; the body has no other way to fail. `out` then stays
/// as it was.
pub fn read_back<H: Head, B: Own<Front = H>>(
    alloc: Global,
    bytes: &[u8],
    out: &mut Vec<u8>,
) -> Result<Option<usize>, AllocError>
    ensures some { IfOk result (λ found. IfSome found (λ n. (n ≤ length bytes.now) × InLanguage (MessageLanguage H.Packet.WAY) (take (8 * n) (bits bytes.now)))) }
    ensures none { IfOk result (λ found. IfNone found (NoneYet (MessageLanguage H.Packet.WAY) (bits bytes.now))) }
    ensures back { IfOk result (λ found. IfSome found (λ n. out.new.items ≡ out.old.items ++ take n bytes.now)) }
    ensures kept { IfOk result (λ found. IfNone found (out.new.items ≡ out.old.items)) }
    ensures err { OnErr result (out.new.items ≡ out.old.items) }
{
    let reader = ReaderOf::<H, B>::new(alloc);
    match first_item(reader.reader, bytes)? {
        Some((message, taken)) => {
            append_again(&message, &bytes[..taken], out)?;
            Ok(Some(taken))
        }
        None => Ok(None),
    }
}
