//! A part of a byte slice, bit by bit.

ghost use Rattle.std.specs.Prelude.{◌≡◌, ℕ, ◌+◌, ◌*◌, ◌<◌, ◌≤◌, ◌==◌, ◌++◌, false, length, take, drop, replicate, nat_lt, nat_le, slice_index_or, if◌then◌else◌, Some, IfSome};
ghost use Rattle.etcs_bits.specs.Bits.{bits, num, part, number_at, replaced};
ghost use Rattle.etcs_bits.specs.NextBits.{BeginsWith};
ghost use Rattle.etcs_bits.specs.SliceWalker.{Keeps};

use super::bytes::byte_of;
use super::copying::{copy_words, last_word, word_at};
use super::walker::{first_word, peek_word};
use std::marker::Model;

/// Bits that are one after another in a byte slice, from any bit on.
#[derive(Debug, Drop)]
pub struct BitSlice<'a> {
    /// From the byte where the first bit is.
    bytes: &'a [u8],
    /// The first bit's place in that byte.
    offset: usize,
    len: usize,
}

impl<'a> Model for BitSlice<'a> {
    ghost use Rattle.std.specs.Prelude.{◌+◌, ◌<◌, ◌≤◌, Bool, List, length};
    ghost use Rattle.etcs_bits.specs.Bits.{bits, part};

    ghost Value = { List Bool };

    ghost view = { λ s. part s.offset s.len (bits s.bytes.now) };

    ghost invariant = { λ s. (s.offset < 8) × (s.offset + s.len ≤ length (bits s.bytes.now)) };
}

impl<'a> BitSlice<'a> {
    /// The `len` bits of `bytes` from the bit `start` on. `None` exactly if these go past the end.
    pub fn new(bytes: &'a [u8], start: usize, len: usize) -> Option<BitSlice<'a>>
        ensures { result ≡ (if nat_le (start + len) (length (bits bytes.now)) then Some (part start len (bits bytes.now)) else None) }
    {
        if start as u128 + len as u128 > bytes.len() as u128 * 8 {
            return None;
        }
        Some(BitSlice {
            bytes: &bytes[start / 8..],
            offset: start % 8,
            len,
        })
    }

    /// The `len` bits of `bytes` from the bit `start` on, which are inside `bytes`.
    #[inline(always)]
    pub(crate) fn inside(bytes: &'a [u8], start: usize, len: usize) -> BitSlice<'a>
        requires { start + len ≤ length (bits bytes.now) }
        ensures { result ≡ part start len (bits bytes.now) }
    {
        BitSlice {
            bytes: &bytes[start / 8..],
            offset: start % 8,
            len,
        }
    }

    /// The first `len` bits of `bytes`, which hold as many.
    pub(crate) fn whole(bytes: &'a [u8], len: usize) -> BitSlice<'a>
        requires { len ≤ length (bits bytes.now) }
        ensures { result ≡ take len (bits bytes.now) }
    {
        BitSlice {
            bytes,
            offset: 0,
            len,
        }
    }

    /// The same bits.
    #[inline(always)]
    pub fn all(&self) -> BitSlice<'a>
        ensures { result ≡ self.now }
    {
        BitSlice {
            bytes: self.bytes,
            offset: self.offset,
            len: self.len,
        }
    }

    /// How many bits there are.
    pub fn len(&self) -> usize
        ensures { result ≡ length self.now }
    {
        self.len
    }

    /// Whether there are no bits.
    pub fn is_empty(&self) -> bool
        ensures { result ≡ (length self.now == 0) }
    {
        self.len == 0
    }

    /// The bit `index` bits after the first. `None` exactly if that is past the end.
    pub fn bit(&self, index: usize) -> Option<bool>
        ensures { result ≡ (if nat_lt index (length self.now) then Some (slice_index_or self.now index false) else None) }
    {
        let number = self.number(index, 1)?;
        Some(number == 1)
    }

    /// The `len` bits after the first `from` of these. `None` exactly if those go past the end.
    pub fn cut(&self, from: usize, len: usize) -> Option<BitSlice<'a>>
        ensures { result ≡ (if nat_le (from + len) (length self.now) then Some (part from len self.now) else None) }
    {
        if from > self.len || len > self.len - from {
            return None;
        }
        let (at, offset) = byte_of(self.offset, from);
        Some(BitSlice {
            bytes: &self.bytes[at..],
            offset,
            len,
        })
    }

    /// The number in the `width` bits after the first `from` of these, most significant bit first. `None` exactly if
    /// those go past the end. `width` must be at most 64.
    #[inline(always)]
    pub fn number(&self, from: usize, width: usize) -> Option<u64>
        requires { width ≤ 64 }
        ensures { result ≡ number_at from width self.now }
    {
        if from > self.len || width > self.len - from {
            return None;
        }
        match self.number_in_word(from, width) {
            Some(number) => Some(number),
            None => self.number_at_end(from, width),
        }
    }

    /// As `number`, of bits that are inside, if the eight bytes from the first of them on hold them.
    /// It may always return `None`.
    #[inline(always)]
    fn number_in_word(&self, from: usize, width: usize) -> Option<u64>
        requires width { width ≤ 64 }
        requires inside { from + width ≤ length self.now }
        ensures { IfSome result (λ n. number_at from width self.now ≡ Some n) }
    {
        let start = self.offset.checked_add(from)?;
        peek_word(self.bytes, start, width)
    }

    /// The eight bytes from the bit `from` on, that bit highest, and how many of these bits are the slice's.
    /// It may always return `None`.
    #[inline(always)]
    pub(crate) fn word_from(&self, from: usize) -> Option<(u64, usize)>
        requires { from ≤ length self.now }
        ensures { IfSome result (λ r. Keeps r.0 r.1 self.now (from + r.1)) }
    {
        let start = self.offset.checked_add(from)?;
        let at = start / 8;
        if at + 8 > self.bytes.len() {
            return None;
        }
        let count = (64 - start % 8).min(self.len - from);
        Some((first_word(&self.bytes[at..]) << (start % 8), count))
    }

    /// The 64 bits from `from` on as a number, that bit highest, with zeros after the last of the slice. `from` must be
    /// inside the slice.
    #[inline(always)]
    pub fn word(&self, from: usize) -> u64
        requires { from < length self.now }
        ensures { num 64 result ≡ take 64 (drop from self.now ++ replicate 64 false) }
    {
        let left = self.len - from;
        let word = match self.nine_bytes(from) {
            Some(word) => word,
            None => self.word_at_end(from),
        };
        if left >= 64 {
            return word;
        }
        (word >> (64 - left)) << (64 - left)
    }

    /// The 64 bits from `from` on, if nine bytes hold them: those of the slice, and anything after its last. It
    /// may always return `None`.
    #[inline(always)]
    fn nine_bytes(&self, from: usize) -> Option<u64>
        requires { from < length self.now }
        ensures { IfSome result (λ w. BeginsWith w self.now from) }
    {
        let start = self.offset.checked_add(from)?;
        let at = start / 8;
        if at + 9 > self.bytes.len() {
            return None;
        }
        Some(word_at(&self.bytes[at..], start % 8))
    }

    /// The same, however many bytes hold them.
    #[inline(never)]
    fn word_at_end(&self, from: usize) -> u64
        requires { from < length self.now }
        ensures { BeginsWith result self.now from }
    {
        let (at, offset) = byte_of(self.offset, from);
        let rest = &self.bytes[at..];
        if rest.len() > 8 {
            return word_at(rest, offset);
        }
        last_word(rest) << offset
    }

    /// As `number`, of bits that are inside.
    #[inline(never)]
    fn number_at_end(&self, from: usize, width: usize) -> Option<u64>
        requires width { width ≤ 64 }
        requires inside { from + width ≤ length self.now }
        ensures { result ≡ number_at from width self.now }
    {
        if width == 0 {
            return Some(0);
        }
        Some(self.word_at_end(from) >> (64 - width))
    }

    /// Copies this many words after the first `from` of these bits to the front of `to`.
    pub(crate) fn copy_words(&self, from: usize, to: &mut [u8], words: usize)
        requires inside { from + 64 * words + 8 ≤ length self.now }
        requires room { 8 * words ≤ length to.old }
        ensures { bits to.new ≡ replaced 0 (part from (64 * words) self.now) (bits to.old) }
    {
        let (at, offset) = byte_of(self.offset, from);
        copy_words(&self.bytes[at..], offset, to, words);
    }
}
