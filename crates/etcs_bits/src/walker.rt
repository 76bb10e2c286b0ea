//! Reading numbers at any bit of a byte slice.

ghost use Rattle.std.specs.Prelude.{◌≡◌, ℕ, ◌+◌, ◌*◌, ◌/◌, ◌^◌, ◌<◌, ◌≤◌, length, is_some, if◌then◌else◌, Some, IfSome};
ghost use Rattle.etcs_bits.specs.Bits.{value, bits, part, number_at};
ghost use Rattle.etcs_bits.specs.NextBits.{AreNext};

use super::bytes::{byte_of, read_byte};
use std::marker::Model;

/// The number in the first eight bytes.
pub(crate) fn first_word(bytes: &[u8]) -> u64
    requires { 8 ≤ length bytes.now }
    ensures { result ≡ value (part 0 64 (bits bytes.now)) }
{
    u64::from_be_bytes([
        bytes[0], bytes[1], bytes[2], bytes[3], bytes[4], bytes[5], bytes[6], bytes[7],
    ])
}

/// The number in `width` bits of `bytes` from `offset` on, which are inside `bytes`, byte by byte.
fn read_by_bytes(bytes: &[u8], offset: usize, width: usize) -> u64
    requires offset { offset < 8 }
    requires width { width ≤ 64 }
    requires inside { offset + width ≤ length (bits bytes.now) }
    ensures { result ≡ value (part offset width (bits bytes.now)) }
{
    let mut number: u64 = 0;
    let mut done = 0;
    while done < width {
        let (at, from) = byte_of(offset, done);
        let count = (8 - from).min(width - done);
        number = (number << count) + read_byte(bytes[at], from, count);
        done += count;
    }
    number
}

/// The number in `width` bits of `bytes` from the bit `start` on, most significant bit first. `None` exactly if these
/// bits go past the end. `width` must be at most 64.
#[inline]
pub fn peek(bytes: &[u8], start: usize, width: usize) -> Option<u64>
    requires { width ≤ 64 }
    ensures { result ≡ number_at start width (bits bytes.now) }
{
    match peek_word(bytes, start, width) {
        Some(number) => Some(number),
        None => peek_at_end(bytes, start, width),
    }
}

/// As `peek`, if the eight bytes from the first bit on hold the bits. It may always return `None`.
#[inline]
pub fn peek_word(bytes: &[u8], start: usize, width: usize) -> Option<u64>
    requires { width ≤ 64 }
    ensures { IfSome result (λ n. number_at start width (bits bytes.now) ≡ Some n) }
{
    let at = start / 8;
    if at + 8 > bytes.len() {
        return None;
    }
    peek_in_word(bytes, at, start % 8, width)
}

/// The number in some bits of the eight bytes from the byte `at` on. It may always return `None`.
#[inline(always)]
fn peek_in_word(bytes: &[u8], at: usize, offset: usize, width: usize) -> Option<u64>
    requires width { width ≤ 64 }
    requires inside { at + 8 ≤ length bytes.now }
    ensures { IfSome result (λ n. number_at (8 * at + offset) width (bits bytes.now) ≡ Some n) }
{
    if width == 0 || offset > 64 - width {
        return None;
    }
    Some((first_word(&bytes[at..]) << offset) >> (64 - width))
}

/// As `peek`, for bits near the end.
#[inline(never)]
pub fn peek_at_end(bytes: &[u8], start: usize, width: usize) -> Option<u64>
    requires { width ≤ 64 }
    ensures { result ≡ number_at start width (bits bytes.now) }
{
    match peek_last_word(bytes, start, width) {
        Some(number) => Some(number),
        None => peek_by_bytes(bytes, start, width),
    }
}

/// As `peek`, if the last eight bytes hold the bits. It may always return `None`.
fn peek_last_word(bytes: &[u8], start: usize, width: usize) -> Option<u64>
    requires { width ≤ 64 }
    ensures { IfSome result (λ n. number_at start width (bits bytes.now) ≡ Some n) }
{
    if bytes.len() < 8 || start / 8 < bytes.len() - 8 {
        return None;
    }
    let at = bytes.len() - 8;
    peek_in_word(bytes, at, start - 8 * at, width)
}

/// As `peek`, byte by byte.
fn peek_by_bytes(bytes: &[u8], start: usize, width: usize) -> Option<u64>
    requires { width ≤ 64 }
    ensures { result ≡ number_at start width (bits bytes.now) }
{
    if start as u128 + width as u128 > bytes.len() as u128 * 8 {
        return None;
    }
    Some(read_by_bytes(&bytes[start / 8..], start % 8, width))
}

/// The bits of `bytes` from the bit `at` on as a number of 64 bits, that bit highest: 57 of them, or all that are left
/// if these are fewer. Below them anything may be. `at` must not be past the end.
#[inline(always)]
pub fn next_bits(bytes: &[u8], at: usize) -> u64
    requires { at ≤ length (bits bytes.now) }
    ensures { AreNext result (bits bytes.now) at }
{
    let byte = at / 8;
    if byte + 8 > bytes.len() {
        return next_bits_at_end(bytes, at);
    }
    first_word(&bytes[byte..]) << (at % 8)
}

/// As `next_bits`, near the end.
#[inline(never)]
fn next_bits_at_end(bytes: &[u8], at: usize) -> u64
    requires inside { at ≤ length (bits bytes.now) }
    requires short { length bytes.now < at / 8 + 8 }
    ensures { AreNext result (bits bytes.now) at }
{
    let count = (bytes.len() - at / 8) * 8 - at % 8;
    if count == 0 {
        return 0;
    }
    match peek(bytes, at, count) {
        Some(number) => number << (64 - count),
        None => unreachable!(),
    }
}

/// Reads numbers from bytes, one after another.
#[derive(Debug, Drop)]
pub struct Walker<'a> {
    bytes: &'a [u8],
    place: usize,
}

impl<'a> Model for Walker<'a> {
    ghost use Rattle.etcs_bits.specs.Walker.{WalkerValue};

    ghost Value = { WalkerValue };

    ghost view = { λ w. record { bytes = w.bytes.now; place = w.place } };
}

impl<'a> Walker<'a> {
    /// A walker at the first bit of `bytes`.
    pub fn new(bytes: &'a [u8]) -> Walker<'a>
        ensures { result ≡ record { bytes = bytes.now; place = 0 } }
    {
        Walker { bytes, place: 0 }
    }

    /// The number in the next `width` bits, most significant bit first; the walker moves past them. `None` exactly if
    /// these go past the end; the walker then stays at its place. `width` must be at most 64, and the place after these
    /// bits below 2^64.
    pub fn next(&mut self, width: usize) -> Option<u64>
        requires width { width ≤ 64 }
        requires place { self.old.place + width < 2 ^ 64 }
        ensures number { result ≡ number_at self.old.place width (bits self.old.bytes) }
        ensures moved { self.new ≡ record self.old { place = if is_some result then self.old.place + width else self.old.place } }
    {
        let number = peek(self.bytes, self.place, width)?;
        self.place += width;
        Some(number)
    }

    /// How many bits the walker has passed.
    pub fn place(&self) -> usize
        ensures { result ≡ self.now.place }
    {
        self.place
    }
}
