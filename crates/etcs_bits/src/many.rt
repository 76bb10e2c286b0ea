//! Bits that lie in an allocation.

ghost use Rattle.std.specs.Prelude.{◌≡◌, ◌+◌, ◌*◌, ◌^◌, ◌<◌, ◌≤◌, ◌==◌, [], ◌++◌, length, take, OnOk, OnErr};
ghost use Rattle.etcs_bits.specs.Bits.{num, bits};
ghost use Rattle.std.specs.Prelude.{vec_len, vec_capacity};

use super::inner;
use super::slice::BitSlice;
use std::alloc::{AllocError, Global};
use std::marker::Model;

/// Bits in as few bytes as hold them.
#[derive(Debug, Drop)]
pub(crate) struct Many {
    bytes: Vec<u8>,
    len: usize,
}

impl Model for Many {
    ghost use Rattle.std.specs.Prelude.{◌≡◌, ◌+◌, ◌*◌, ◌<◌, ◌≤◌, Bool, List, length, take};
    ghost use Rattle.etcs_bits.specs.Bits.{bits};

    ghost Value = { List Bool };

    ghost view = { λ b. take b.len (bits b.bytes.items) };

    ghost invariant = { λ b. (b.len ≤ 8 * length b.bytes.items) × (8 * length b.bytes.items < b.len + 8) };
}

impl Many {
    /// No bits. Nothing is allocated.
    pub(crate) fn new(alloc: Global) -> Many
        ensures { result ≡ [] }
    {
        Many {
            bytes: Vec::new(alloc),
            len: 0,
        }
    }

    /// Adds a number of `width` bits at the end, most significant bit first.
    ///
    /// # Errors
    ///
    /// `AllocError` if memory runs out. The bits then stay as they were.
    pub(crate) fn push_number(&mut self, width: usize, value: u64) -> Result<(), AllocError>
        requires width { width ≤ 64 }
        requires fits { value < 2 ^ width }
        requires room { length self.old + width < 2 ^ 64 }
        ensures ok { OnOk result (self.new ≡ self.old ++ num width value) }
        ensures err { OnErr result (self.new ≡ self.old) }
    {
        let len = self.len + width;
        self.bytes.resize(len.div_ceil(8), 0)?;
        inner::write(self.bytes.as_mut_slice(), self.len, width, value);
        self.len = len;
        Ok(())
    }

    /// Adds the bits of `slice` at the end. If memory runs out the bits stay as they were.
    #[inline]
    pub(crate) fn push_slice(&mut self, slice: &BitSlice<'_>) -> Result<(), AllocError>
        requires { length self.old + length slice.now < 2 ^ 64 }
        ensures ok { OnOk result (self.new ≡ self.old ++ slice.now) }
        ensures err { OnErr result (self.new ≡ self.old) }
    {
        if self.len == 0 {
            return self.fill(slice);
        }
        let len = self.len + slice.len();
        self.bytes.resize(len.div_ceil(8), 0)?;
        inner::write_slice(self.bytes.as_mut_slice(), self.len, slice);
        self.len = len;
        Ok(())
    }

    /// Takes the bits of `slice` if there are none yet. If memory runs out there are none.
    #[inline]
    fn fill(&mut self, slice: &BitSlice<'_>) -> Result<(), AllocError>
        requires { self.old ≡ [] }
        ensures ok { OnOk result (self.new ≡ slice.now) }
        ensures err { OnErr result (self.new ≡ []) }
    {
        let len = slice.len();
        self.bytes.reserve(len.div_ceil(8))?;
        let mut left = len;
        while left >= 64 {
            push_bytes(&mut self.bytes, slice.word(len - left), 8);
            left -= 64;
        }
        if left > 0 {
            push_bytes(&mut self.bytes, slice.word(len - left), left.div_ceil(8));
        }
        self.len = len;
        Ok(())
    }

    /// Keeps the first `len` bits.
    pub(crate) fn truncate(&mut self, len: usize)
        requires { len ≤ length self.old }
        ensures { self.new ≡ take len self.old }
    {
        self.bytes.truncate(len.div_ceil(8));
        self.len = len;
    }

    /// How many bits there are.
    pub(crate) fn len(&self) -> usize
        ensures { result ≡ length self.now }
    {
        self.len
    }

    /// Whether there are no bits.
    #[inline]
    pub(crate) fn is_empty(&self) -> bool
        ensures { result ≡ (length self.now == 0) }
    {
        self.len == 0
    }

    /// All bits as a slice.
    pub(crate) fn as_slice(&self) -> BitSlice<'_>
        ensures { result ≡ self.now }
    {
        BitSlice::whole(self.bytes.as_slice(), self.len)
    }
}

/// Adds the first bytes of a word, for which there is room.
#[inline(always)]
fn push_bytes(bytes: &mut Vec<u8>, word: u64, count: usize)
    requires count { count ≤ 8 }
    requires room { vec_len bytes.old + count ≤ vec_capacity bytes.old }
    ensures bits { bits bytes.new.items ≡ bits bytes.old.items ++ take (8 * count) (num 64 word) }
    ensures len { vec_len bytes.new ≡ vec_len bytes.old + count }
    ensures capacity { vec_capacity bytes.old ≤ vec_capacity bytes.new }
{
    match bytes.extend_from_slice(&word.to_be_bytes()[..count]) {
        Ok(()) => {}
        Err(_) => unreachable!(),
    }
}
