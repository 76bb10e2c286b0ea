//! Bits put over those of bytes, a word at a time.

ghost use Rattle.std.specs.Prelude.{◌≡◌, ◌+◌, ◌-◌, ◌<◌, ◌≤◌, ◌%◌, [], length, take};
ghost use Rattle.etcs_bits.specs.Bits.{num};
ghost use Rattle.etcs_vars.specs.Reading.{spelled};
ghost use Rattle.etcs_vars.specs.Words.{with_front};

use crate::Var;
use crate::inner::VarSink;
use crate::joining::joined;
use crate::word::Word;
use etcs_bits::BitSlice;
use std::alloc::AllocError;

/// Bytes over whose first bits others are put, one after another. If these have no room, no clause says what the bytes
/// hold.
#[derive(Drop)]
pub struct WordSink<'a> {
    bytes: &'a mut [u8],
    /// How many bytes are written.
    at: usize,
    /// The bits after them.
    word: Word,
}

impl<'a> WordSink<'a> {
    ghost use Rattle.etcs_vars.specs.WordSinks.{pushed, and_bits, IsWritten};

    /// A sink over the first bits of these bytes, into which nothing is put yet.
    pub fn new(bytes: &'a mut [u8]) -> WordSink<'a>
        ensures lent { result.bytes.ghost_name ≡ bytes.entry.ghost_name }
        ensures bytes { result.bytes.now ≡ bytes.old }
        ensures at { result.at ≡ 0 }
        ensures word { result.word ≡ [] }
    {
        WordSink {
            bytes,
            at: 0,
            word: Word::new(),
        }
    }

    /// Puts the lowest `width` bits of a number after the bits before, most significant bit first. `width` must be 1 to
    /// 64.
    #[inline(always)]
    pub fn put(&mut self, width: usize, number: u64)
        requires some { 0 < width }
        requires width { width ≤ 64 }
        ensures { self.new ≡ and_bits self.old (num width number) }
    {
        if let Some(word) = self.word.put(width, number) {
            self.push(word);
        }
    }

    /// Writes a word over the next eight bytes, if it has room.
    #[inline(always)]
    fn push(&mut self, word: u64)
        ensures { self.new ≡ pushed self.old (num 64 word) }
    {
        if self.bytes.len().saturating_sub(self.at) >= 8 {
            let bytes = &mut *self.bytes;
            write_front(bytes, self.at, word, 8);
            self.at += 8;
        }
    }

    /// Puts the bits of a slice after the bits before, in order.
    #[inline(always)]
    pub fn put_slice(&mut self, slice: &BitSlice<'_>)
        ensures { self.new ≡ and_bits self.old slice.now }
    {
        let mut left = slice.len();
        while left >= 64 {
            self.put(64, slice.word(slice.len() - left));
            left -= 64;
        }
        if left > 0 {
            self.put(left, slice.word(slice.len() - left) >> (64 - left));
        }
    }

    /// Puts the lowest bits of a number after the bits before, as many as are left up to whole bytes, at most 7.
    pub fn fill_up(&mut self, number: u64)
        ensures { self.new ≡ and_bits self.old (num ((8 - length self.old.word % 8) % 8) number) }
    {
        let width = (8 - self.word.len() % 8) % 8;
        if width > 0 {
            self.put(width, number);
        }
    }

    /// Puts the first of some variables after the others, as one number, and returns how many.
    #[inline(always)]
    fn put_front(&mut self, sent: &[(Var, u64)]) -> usize
        requires { 0 < length sent.now }
        ensures some { 0 < result }
        ensures most { result ≤ length sent.now }
        ensures sent { self.new ≡ and_bits self.old (spelled (take result sent.now)) }
    {
        let front = joined(sent);
        self.put(front.width, front.number);
        front.count
    }

    /// Puts variables after the others, as few numbers as they take.
    #[inline(never)]
    fn put_rest(&mut self, sent: &[(Var, u64)])
        ensures { self.new ≡ and_bits self.old (spelled sent.now) }
    {
        let mut done = 0;
        while done < sent.len() {
            done += self.put_front(&sent[done..]);
        }
    }

    /// Puts variables after the bits before, in order, each in its width with the lowest bits of its number.
    #[inline(always)]
    pub fn put_reading(&mut self, sent: &[(Var, u64)])
        ensures { self.new ≡ and_bits self.old (spelled sent.now) }
    {
        if !sent.is_empty() {
            let done = self.put_front(sent);
            if done < sent.len() {
                self.put_rest(&sent[done..]);
            }
        }
    }

    /// Ends the writing: the first bits of the bytes are then those that were put, in order, if these had room. The
    /// last bits, fewer than 64, are written with zeros after them, eight bytes in all, or as many as are left; of what
    /// is after the bits that were put there is no clause.
    pub fn finish(self)
        ensures { IsWritten self.entry self.exit.0.now }
    {
        let WordSink { bytes, at, word } = self;
        if at < bytes.len() {
            let count = (bytes.len() - at).min(8);
            write_front(bytes, at, word.number(), count);
        }
    }
}

/// Writes the first bytes of a word over those from one on.
#[inline(always)]
pub(crate) fn write_front(bytes: &mut [u8], at: usize, word: u64, count: usize)
    requires word { count ≤ 8 }
    requires inside { at + count ≤ length bytes.old }
    ensures { bytes.new ≡ with_front bytes.old at word count }
{
    bytes[at..at + count].copy_from_slice(&word.to_be_bytes()[..count]);
}

impl<'a> VarSink for WordSink<'a> {
    ghost use Rattle.etcs_vars.specs.Reading.{spelled};
    ghost use Rattle.etcs_vars.specs.WordSinks.{and_bits};
    ghost use Rattle.etcs_vars.specs.laws.WordSinks.{spelled_none, spelled_both};

    ghost with = { λ s r. and_bits s (spelled r) };

    ghost failed = { λ s t. ⊥ };

    ghost with_none = { spelled_none };

    ghost with_both = { spelled_both };

    ghost failed_after = { λ s a t h. h };

    /// Puts the variables after the bits before, in order, each in its width. It never fails.
    #[inline(always)]
    fn send(&mut self, sent: &[(Var, u64)]) -> Result<(), AllocError> {
        self.put_reading(sent);
        Ok(())
    }
}
