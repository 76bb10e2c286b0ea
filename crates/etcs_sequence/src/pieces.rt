//! Parts of a piece that is fed, and of bits that are all there.

ghost use Rattle.std.specs.Prelude.{◌≡◌, ◌<◌, ◌≤◌, ◌+◌, ◌^◌, length};
ghost use Rattle.etcs_bits.specs.Bits.{bits, num, value, part};

use etcs_bits::BitSlice;
use etcs_bits::inner::slice_in;

/// The `count` bits of a piece from bit `at` on. Requires that the piece holds them.
pub fn bits_at<'a>(piece: &'a [u8], at: usize, count: usize) -> BitSlice<'a>
    requires { at + count ≤ length (bits piece.now) }
    ensures { result ≡ part at count (bits piece.now) }
{
    slice_in(piece, at, count)
}

/// Bits of a piece from bit `at` on, at most `most`, and at least one unless `most` is 0. No clause says that they are
/// as many as the piece has.
///
/// Requires that the piece has the bit `at`, and that a word counts its bits.
pub fn run_at<'a>(piece: &'a [u8], at: usize, most: usize) -> BitSlice<'a>
    requires inside { at < length (bits piece.now) }
    requires small { length (bits piece.now) < 2 ^ 64 }
    ensures bits { result ≡ part at (length result) (bits piece.now) }
    ensures within { length result ≤ most }
    ensures inside { at + length result ≤ length (bits piece.now) }
    ensures some { 0 < most → 0 < length result }
{
    let count = most.min(piece.len() * 8 - at);
    bits_at(piece, at, count)
}

/// This many bits of a slice, which holds them, as a number.
pub(crate) fn number_in(slice: &BitSlice<'_>, at: usize, count: usize) -> u64
    requires width { count ≤ 64 }
    requires inside { at + count ≤ length slice.now }
    ensures value { result ≡ value (part at count slice.now) }
    ensures bits { num count result ≡ part at count slice.now }
    ensures fits { result < 2 ^ count }
{
    match slice.number(at, count) {
        Some(number) => number,
        None => unreachable!(),
    }
}

/// This many bits of a slice, which holds them.
pub(crate) fn cut_in<'a>(slice: &BitSlice<'a>, from: usize, len: usize) -> BitSlice<'a>
    requires { from + len ≤ length slice.now }
    ensures { result ≡ part from len slice.now }
{
    match slice.cut(from, len) {
        Some(cut) => cut,
        None => unreachable!(),
    }
}
