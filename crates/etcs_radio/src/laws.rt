//! Laws, each the contract of a function.

ghost use Rattle.std.specs.Prelude.{◌≡◌, ℕ, ◌≤◌, ◌*◌, ◌↔◌, ◌++◌, length, take, IsTrue, IfOk, OnErr, IfSome, IfNone};
ghost use Rattle.etcs_bits.specs.Bits.{bits};
ghost use Rattle.etcs_vars.specs.Reading.{InLanguage, NoneYet};
ghost use Rattle.etcs_radio.specs.Promises.{OneSpelling, RoomRule, OneHolding};
ghost use Rattle.etcs_radio.specs.Messages.{MessageLanguage};

use crate::{Body, Message, RadioHead};
use etcs_messages::laws;
use std::alloc::{AllocError, Global};

/// No two messages have the same spelling, and no spelling begins another.
pub fn one_spelling()
    ensures { OneSpelling }
{
    laws::one_spelling::<RadioHead, Body>();
}

/// The bits of an admitted header, a reading of the number's row and packets other than 0 begin a message exactly if
/// they are at most 8 times L_MESSAGE bits and either at most 7 of these are left, for PADDING, or at least 23, for the
/// frame of a packet.
pub fn room()
    ensures { RoomRule }
{
    laws::room::<RadioHead>();
}

/// The bits so far leave one possibility of what the reader's `held` returns: any two packets, numbers, kept bits,
/// `part` and `taken` of which its promise holds for the same bits are equal, all five.
pub fn one_holding()
    ensures { OneHolding }
{
    laws::one_holding::<RadioHead>();
}

/// `==` of messages is equality of their values: true exactly if header, body, packets and PADDING, or number and kept
/// bits, are equal.
pub fn exact_equality(first: &Message, second: &Message) -> bool
    ensures { IsTrue result ↔ (first.now ≡ second.now) }
{
    laws::exact_equality(first, second)
}

/// Encodes a message and reads its bytes again: if it succeeds, what is read is the message that was encoded.
///
/// # Errors
///
/// `AllocError` if out of memory for the bytes or in the reader; the body has no other way to fail.
pub fn round_trip(alloc: Global, message: &Message) -> Result<Message, AllocError>
    ensures { IfOk result (λ again. again ≡ message.now) }
{
    laws::round_trip(alloc, message)
}

/// Reads a message from the front of some bytes and appends its encoding. If it returns a number of bytes, that many
/// were there, they spell a message, and exactly these bytes are appended. If it returns `None`, no front of the bits
/// spells one, and nothing is appended.
///
/// # Errors
///
/// `AllocError` if out of memory, in the reader or for the bytes; the body has no other way to fail. `out` then stays
/// as it was.
pub fn read_back(
    alloc: Global,
    bytes: &[u8],
    out: &mut Vec<u8>,
) -> Result<Option<usize>, AllocError>
    ensures some { IfOk result (λ found. IfSome found (λ n. (n ≤ length bytes.now) × InLanguage MessageLanguage (take (8 * n) (bits bytes.now)))) }
    ensures none { IfOk result (λ found. IfNone found (NoneYet MessageLanguage (bits bytes.now))) }
    ensures back { IfOk result (λ found. IfSome found (λ n. out.new.items ≡ out.old.items ++ take n bytes.now)) }
    ensures kept { IfOk result (λ found. IfNone found (out.new.items ≡ out.old.items)) }
    ensures err { OnErr result (out.new.items ≡ out.old.items) }
{
    laws::read_back::<RadioHead, Body>(alloc, bytes, out)
}
