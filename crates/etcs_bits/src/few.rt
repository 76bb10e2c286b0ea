//! Bits that lie in the value itself.

ghost use Rattle.std.specs.Prelude.{◌≡◌, ◌↔◌, ◌+◌, ◌^◌, ◌<◌, ◌≤◌, ◌==◌, [], ◌++◌, length, take, IsTrue};
ghost use Rattle.etcs_bits.specs.Bits.{num};

use super::inner;
use super::slice::BitSlice;
use std::marker::Model;

/// How many bits lie in the value at most.
const MOST: usize = 56;

/// At most 56 bits.
#[derive(Debug, Drop)]
pub(crate) struct Few {
    bytes: [u8; 7],
    len: u8,
}

impl Model for Few {
    ghost use Rattle.std.specs.Prelude.{◌≤◌, Bool, List, take};
    ghost use Rattle.etcs_bits.specs.Bits.{bits};

    ghost Value = { List Bool };

    ghost view = { λ f. take f.len (bits f.bytes) };

    ghost invariant = { λ f. f.len ≤ 56 };
}

impl Few {
    /// No bits.
    #[inline]
    pub(crate) fn new() -> Few
        ensures { result ≡ [] }
    {
        Few {
            bytes: [0; 7],
            len: 0,
        }
    }

    /// Whether there is room for this many bits more.
    #[inline]
    pub(crate) fn has_room(&self, more: usize) -> bool
        ensures { IsTrue result ↔ (length self.now + more ≤ 56) }
    {
        more <= MOST - self.len()
    }

    /// Adds a number of `width` bits at the end, most significant bit first.
    pub(crate) fn push_number(&mut self, width: usize, value: u64)
        requires room { length self.old + width ≤ 56 }
        requires fits { value < 2 ^ width }
        ensures { self.new ≡ self.old ++ num width value }
    {
        let len = self.len();
        inner::write(&mut self.bytes, len, width, value);
        self.len += width as u8;
    }

    /// Adds the bits of `slice` at the end.
    #[inline]
    pub(crate) fn push_slice(&mut self, slice: &BitSlice<'_>)
        requires room { length self.old + length slice.now ≤ 56 }
        ensures { self.new ≡ self.old ++ slice.now }
    {
        if slice.is_empty() {
            return;
        }
        let len = self.len();
        if len == 0 {
            self.bytes
                .copy_from_slice(&slice.word(0).to_be_bytes()[..7]);
            self.len = slice.len() as u8;
            return;
        }
        inner::write_slice(&mut self.bytes, len, slice);
        self.len += slice.len() as u8;
    }

    /// Keeps the first `len` bits.
    pub(crate) fn truncate(&mut self, len: usize)
        requires { len ≤ length self.old }
        ensures { self.new ≡ take len self.old }
    {
        self.len = len.min(self.len()) as u8;
    }

    /// How many bits there are.
    #[inline]
    pub(crate) fn len(&self) -> usize
        ensures is { result ≡ length self.now }
        ensures most { result ≤ 56 }
    {
        usize::from(self.len)
    }

    /// Whether there are no bits.
    #[inline]
    pub(crate) fn is_empty(&self) -> bool
        ensures { result ≡ (length self.now == 0) }
    {
        self.len == 0
    }

    /// All bits as a slice of the bytes that they need.
    #[inline]
    pub(crate) fn as_slice(&self) -> BitSlice<'_>
        ensures { result ≡ self.now }
    {
        let len = self.len();
        BitSlice::whole(&self.bytes[..len.div_ceil(8)], len)
    }
}
