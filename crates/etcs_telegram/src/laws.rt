//! Laws, each the contract of a function.

ghost use Rattle.std.specs.Prelude.{◌≡◌, ℕ, ◌≤◌, ◌<◌, ◌*◌, ◌↔◌, length, take, slice_index_or, IsTrue, IfOk, IfSome, IfNone};
ghost use Rattle.etcs_bits.specs.Bits.{bits};
ghost use Rattle.etcs_vars.specs.Reading.{InLanguage, NoneYet};
ghost use Rattle.etcs_telegram.specs.Telegrams.{OneSpelling, RoomRule, TelegramLanguage, container_bytes};
ghost use Rattle.etcs_telegram.specs.Views.{OneRefusal};
ghost use Rattle.etcs_telegram.specs.Writing.{Writes};
ghost use Rattle.etcs_telegram.specs.Readers.{OneHolding};

use crate::reader::TelegramReader;
use crate::size::Size;
use crate::telegram::Telegram;
use etcs_sequence::inner::first_item;
use std::alloc::{AllocError, Global};

/// No two telegrams of a size have the same spelling, and no spelling begins another.
pub fn one_spelling()
    ensures { OneSpelling }
{}

/// If a header's numbers and some packets are admitted, the header's bits with those of the packets after them begin a
/// telegram of a size exactly if at least 8 of the user bits are left, for NID_PACKET 255.
pub fn room()
    ensures { RoomRule }
{}

/// Of the same bits at most one is the first with which no telegram of a size continues, and one variable holds it. So
/// a view, and a reader of the same bytes that reports `Refused`, name the same bit and the same variable.
pub fn one_refusal()
    ensures { OneRefusal }
{}

/// The bits so far and the size leave one possibility of what [`TelegramReader::held`] returns: any two packets,
/// numbers, kept bits, `part` and `taken` of which its promise holds for the same bits are equal, all five.
pub fn one_holding()
    ensures { OneHolding }
{}

/// `==` of telegrams is equality of their values: true exactly if size, header, packets and FILL are equal.
pub fn exact_equality(first: &Telegram, second: &Telegram) -> bool
    ensures { IsTrue result ↔ (first.now ≡ second.now) }
{
    first == second
}

/// Encodes a telegram and reads its bytes again: if it succeeds, what is read is the telegram that was encoded.
///
/// # Errors
///
/// `AllocError` if the reader is out of memory; the body has no other way to fail.
pub fn round_trip(alloc: Global, telegram: &Telegram) -> Result<Telegram, AllocError>
    ensures { IfOk result (λ again. again ≡ telegram.now) }
{
    telegram.readable();
    let mut bytes = [0u8; 104];
    let Ok(len) = telegram.encode_into(&mut bytes) else {
        unreachable!()
    };
    let reader = TelegramReader::new(alloc, telegram.size());
    match first_item(reader.reader, &bytes[..len])? {
        Some((again, _)) => Ok(again),
        None => unreachable!(),
    }
}

/// Writes a telegram over the first bytes of a buffer that has room.
fn write_over(telegram: &Telegram, out: &mut [u8])
    requires { container_bytes telegram.now.size ≤ length out.old }
    ensures writes { Writes telegram.now out.new }
    ensures bytes { (i : ℕ) → slice_index_or out.new i 0 < 256 }
{
    let Ok(_) = telegram.encode_into(out) else {
        unreachable!()
    };
}

/// Reads a telegram of a size from the front of some bytes and writes it over the first bytes of a buffer. If it
/// returns a number of bytes, that many were there, they spell a telegram of the size, and the buffer's first bytes are
/// now the same. If it returns `None`, no front of the bits spells one.
///
/// # Errors
///
/// `AllocError` if the reader is out of memory; the body has no other way to fail.
pub fn read_back(
    alloc: Global,
    size: Size,
    bytes: &[u8],
    out: &mut [u8; 104],
) -> Result<Option<usize>, AllocError>
    ensures some { IfOk result (λ found. IfSome found (λ n. (n ≤ length bytes.now) × InLanguage (TelegramLanguage size) (take (8 * n) (bits bytes.now)))) }
    ensures none { IfOk result (λ found. IfNone found (NoneYet (TelegramLanguage size) (bits bytes.now))) }
    ensures back { IfOk result (λ found. IfSome found (λ n. take n out.new ≡ take n bytes.now)) }
{
    let reader = TelegramReader::new(alloc, size);
    match first_item(reader.reader, bytes)? {
        Some((telegram, taken)) => {
            write_over(&telegram, out);
            Ok(Some(taken))
        }
        None => Ok(None),
    }
}
