//! For the crates above: writes that are known to fit, and moves of many bits.

ghost use Rattle.std.specs.Prelude.{◌≡◌, ℕ, ◌+◌, ◌-◌, ◌*◌, ◌^◌, ◌<◌, ◌≤◌, ◌++◌, length, OnOk, OnErr};
ghost use Rattle.etcs_bits.specs.Bits.{num, bits, part, replaced};

use super::bits::Bits;
use super::bytes::byte_of;
use super::poker;
use super::slice::BitSlice;
pub use super::walker::{peek_at_end, peek_word};
use std::alloc::AllocError;

/// Writes a number into `width` bits of `bytes` from the bit `start` on, most significant bit first. All other bits stay.
/// These bits must be inside `bytes`, `width` at most 64, and the number must fit it.
pub fn write(bytes: &mut [u8], start: usize, width: usize, value: u64)
    requires width { width ≤ 64 }
    requires inside { start + width ≤ length (bits bytes.old) }
    requires fits { value < 2 ^ width }
    ensures { bits bytes.new ≡ replaced start (num width value) (bits bytes.old) }
{
    poker::write(bytes, start / 8, start % 8, width, value);
}

/// The `len` bits of `bytes` from the bit `start` on, as a slice. They must be inside `bytes`.
#[inline(always)]
pub fn slice_in<'a>(bytes: &'a [u8], start: usize, len: usize) -> BitSlice<'a>
    requires { start + len ≤ length (bits bytes.now) }
    ensures { result ≡ part start len (bits bytes.now) }
{
    BitSlice::inside(bytes, start, len)
}

/// Adds the bits of `slice` at the end of `bits`. All of them must be fewer than 2^64.
///
/// # Errors
///
/// `AllocError` if memory runs out. The bits then stay as they were.
pub fn append(bits: &mut Bits, slice: &BitSlice<'_>) -> Result<(), AllocError>
    requires { length bits.old + length slice.now < 2 ^ 64 }
    ensures ok { OnOk result (bits.new ≡ bits.old ++ slice.now) }
    ensures err { OnErr result (bits.new ≡ bits.old) }
{
    bits.push_slice(slice)
}

/// Writes the bits of `slice` into `bytes` from the bit `start` on. All other bits stay. They must fit inside `bytes`.
pub fn write_slice(bytes: &mut [u8], start: usize, slice: &BitSlice<'_>)
    requires { start + length slice.now ≤ length (bits bytes.old) }
    ensures { bits bytes.new ≡ replaced start slice.now (bits bytes.old) }
{
    if slice.len() < 80 {
        return write_part(bytes, start, slice, 0, slice.len());
    }
    let front = (8 - start % 8) % 8;
    let words = (slice.len() - front - 8) / 64;
    let (at, _) = byte_of(start, front);
    write_part(bytes, start, slice, 0, front);
    slice.copy_words(front, &mut bytes[at..], words);
    write_part(bytes, start, slice, front + 64 * words, slice.len());
}

/// Writes the bits of `slice` from `from` up to `end`, so that its first bit would be at the bit `start`.
fn write_part(bytes: &mut [u8], start: usize, slice: &BitSlice<'_>, from: usize, end: usize)
    requires order { from ≤ end }
    requires within { end ≤ length slice.now }
    requires inside { start + end ≤ length (bits bytes.old) }
    ensures { bits bytes.new ≡ replaced (start + from) (part from (end - from) slice.now) (bits bytes.old) }
{
    let mut done = from;
    while done < end {
        let count = (end - done).min(56);
        let (at, offset) = byte_of(start, done);
        let number = chunk(slice, done, count);
        poker::write(bytes, at, offset, count, number);
        done += count;
    }
}

/// The number in `width` bits of `slice` from `from` on, which are inside it.
pub(crate) fn chunk(slice: &BitSlice<'_>, from: usize, width: usize) -> u64
    requires width { width ≤ 64 }
    requires inside { from + width ≤ length slice.now }
    ensures bits { num width result ≡ part from width slice.now }
    ensures fits { result < 2 ^ width }
{
    match slice.number(from, width) {
        Some(number) => number,
        None => unreachable!(),
    }
}
