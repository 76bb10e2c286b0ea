//! Writing numbers at any bit of a byte slice.

ghost use Rattle.std.specs.Prelude.{◌≡◌, ℕ, ◌+◌, ◌*◌, ◌^◌, ◌<◌, ◌≤◌, ◌↔◌, length, Some, OnOk, OnErr};
ghost use Rattle.etcs_bits.specs.Bits.{num, bits, replaced};
ghost use Rattle.etcs_bits.specs.Texts.{poke_fault_text};

use super::bytes::{byte_of, with_number};
use super::inner;
use super::walker::first_word;
use std::error::Error;
use std::fmt;

/// Why a number was not written.
#[derive(Clone, Copy, Debug, PartialEq, Eq)]
pub enum PokeFault {
    /// The bits go past the end.
    PastEnd,
    /// The number has more bits than its width.
    TooLarge,
}

/// Prints a fixed text for each fault.
impl fmt::Display for PokeFault {
    ghost output = { λ fault. Some (poke_fault_text fault) };

    fn fmt<W: fmt::Write>(&self, f: &mut fmt::Formatter<W>) -> fmt::Result {
        f.write_str(match self {
            PokeFault::PastEnd => "the bits go past the end",
            PokeFault::TooLarge => "the number has more bits than its width",
        })
    }
}

impl Error for PokeFault {}

/// Writes a number into `width` bits of `bytes` from the bit `offset` of the byte `at` on, which are inside `bytes`.
#[inline]
pub(crate) fn write(bytes: &mut [u8], at: usize, offset: usize, width: usize, value: u64)
    requires offset { offset < 8 }
    requires width { width ≤ 64 }
    requires inside { 8 * at + offset + width ≤ length (bits bytes.old) }
    requires fits { value < 2 ^ width }
    ensures { bits bytes.new ≡ replaced (8 * at + offset) (num width value) (bits bytes.old) }
{
    if offset + width <= 8 {
        if width > 0 {
            write_in_byte(bytes, at, offset, width, value);
        }
    } else if offset + width > 64 || bytes.len() < 8 {
        write_by_bytes(&mut bytes[at..], offset, width, value);
    } else {
        let first = at.min(bytes.len() - 8);
        write_in_word(&mut bytes[first..], 8 * (at - first) + offset, width, value);
    }
}

/// As `write`, of one byte.
#[inline]
fn write_in_byte(bytes: &mut [u8], at: usize, offset: usize, width: usize, value: u64)
    requires byte { at < length bytes.old }
    requires inside { offset + width ≤ 8 }
    requires fits { value < 2 ^ width }
    ensures { bits bytes.new ≡ replaced (8 * at + offset) (num width value) (bits bytes.old) }
{
    bytes[at] = with_number(bytes[at], offset, width, value);
}

/// As `write`, of the first eight bytes, at once.
#[inline]
fn write_in_word(bytes: &mut [u8], offset: usize, width: usize, value: u64)
    requires width { 0 < width }
    requires word { 8 ≤ length bytes.old }
    requires inside { offset + width ≤ 64 }
    requires fits { value < 2 ^ width }
    ensures { bits bytes.new ≡ replaced offset (num width value) (bits bytes.old) }
{
    let word = with_number_in_word(first_word(bytes), offset, width, value);
    bytes[..8].copy_from_slice(&word.to_be_bytes());
}

/// The word with `width` of its bits from `offset` on replaced by a number.
#[inline]
fn with_number_in_word(word: u64, offset: usize, width: usize, value: u64) -> u64
    requires width { 0 < width }
    requires inside { offset + width ≤ 64 }
    requires fits { value < 2 ^ width }
    ensures { num 64 result ≡ replaced offset (num width value) (num 64 word) }
{
    let beyond = 64 - offset - width;
    let lower = (word << offset) >> offset;
    (word - lower) + (value << beyond) + lower % (1 << beyond)
}

/// Writes a number into `width` bits of `bytes` from `offset` on, which are inside `bytes`, byte by byte.
#[inline(never)]
fn write_by_bytes(bytes: &mut [u8], offset: usize, width: usize, value: u64)
    requires offset { offset < 8 }
    requires width { width ≤ 64 }
    requires inside { offset + width ≤ length (bits bytes.old) }
    requires fits { value < 2 ^ width }
    ensures { bits bytes.new ≡ replaced offset (num width value) (bits bytes.old) }
{
    let mut left = width;
    while left > 0 {
        let (at, from) = byte_of(offset, width - left);
        let count = (8 - from).min(left);
        left -= count;
        bytes[at] = with_number(bytes[at], from, count, (value >> left) % (1 << count));
    }
}

/// Writes a number into `width` bits of `bytes` from the bit `start` on, most significant bit first. All other bits
/// stay. `width` must be at most 64.
///
/// # Errors
///
/// `PastEnd` exactly if these bits go past the end, else `TooLarge` exactly if `value` has more than `width` bits.
/// The bytes then stay as they were.
pub fn poke(bytes: &mut [u8], start: usize, width: usize, value: u64) -> Result<(), PokeFault>
    requires { width ≤ 64 }
    ensures ok { OnOk result ((start + width ≤ length (bits bytes.old)) × (value < 2 ^ width) × (bits bytes.new ≡ replaced start (num width value) (bits bytes.old))) }
    ensures past_end { (result ≡ Err PokeFault.PastEnd) ↔ (length (bits bytes.old) < start + width) }
    ensures too_large { (result ≡ Err PokeFault.TooLarge) ↔ ((start + width ≤ length (bits bytes.old)) × (2 ^ width ≤ value)) }
    ensures err { OnErr result (bytes.new ≡ bytes.old) }
{
    if start as u128 + width as u128 > bytes.len() as u128 * 8 {
        return Err(PokeFault::PastEnd);
    }
    if width < 64 && value >> width != 0 {
        return Err(PokeFault::TooLarge);
    }
    inner::write(bytes, start, width, value);
    Ok(())
}

/// Writes numbers into bytes, one after another.
#[derive(Debug, Drop)]
pub struct Poker<'a> {
    bytes: &'a mut [u8],
    place: usize,
}

impl<'a> Poker<'a> {
    ghost use Rattle.etcs_bits.specs.Poker.{bytes_of, place_of};

    /// A poker at the first bit of `bytes`, which stay as they are.
    pub fn new(bytes: &'a mut [u8]) -> Poker<'a>
        ensures lent { result.bytes.ghost_name ≡ bytes.entry.ghost_name }
        ensures bytes { bytes_of result ≡ bytes.old }
        ensures place { place_of result ≡ 0 }
    {
        Poker { bytes, place: 0 }
    }

    /// Writes a number into the next `width` bits, most significant bit first, and moves past them. All other bits
    /// stay. `width` must be at most 64, and the place after these bits below 2^64.
    ///
    /// # Errors
    ///
    /// `PastEnd` exactly if these bits go past the end, else `TooLarge` exactly if `value` has more than `width` bits.
    /// The bytes and the place then stay as they were.
    pub fn put(&mut self, width: usize, value: u64) -> Result<(), PokeFault>
        requires width { width ≤ 64 }
        requires place { place_of self.old + width < 2 ^ 64 }
        ensures lent { self.new.bytes.ghost_name ≡ self.old.bytes.ghost_name }
        ensures ok { OnOk result ((place_of self.old + width ≤ length (bits (bytes_of self.old))) × (value < 2 ^ width) × (bits (bytes_of self.new) ≡ replaced (place_of self.old) (num width value) (bits (bytes_of self.old)))) }
        ensures moved { OnOk result (place_of self.new ≡ place_of self.old + width) }
        ensures past_end { (result ≡ Err PokeFault.PastEnd) ↔ (length (bits (bytes_of self.old)) < place_of self.old + width) }
        ensures too_large { (result ≡ Err PokeFault.TooLarge) ↔ ((place_of self.old + width ≤ length (bits (bytes_of self.old))) × (2 ^ width ≤ value)) }
        ensures err { OnErr result ((bytes_of self.new ≡ bytes_of self.old) × (place_of self.new ≡ place_of self.old)) }
    {
        let bytes = &mut *self.bytes;
        poke(bytes, self.place, width, value)?;
        self.place += width;
        Ok(())
    }

    /// How many bits the poker has passed.
    pub fn place(&self) -> usize
        ensures { result ≡ place_of self.now }
    {
        self.place
    }
}
