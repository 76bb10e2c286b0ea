//! Fewer than 64 bits.

ghost use Rattle.std.specs.Prelude.{◌≡◌, ◌<◌, ◌≤◌, [], ◌++◌, length, take, IfSome, IsNone};
ghost use Rattle.etcs_bits.specs.Bits.{num};

use std::marker::Model;

/// Fewer than 64 bits, put one after another.
#[derive(Drop)]
pub(crate) struct Word {
    /// The first one highest, with zeros after the last.
    held: u64,
    count: usize,
}

impl Model for Word {
    ghost use Rattle.std.specs.Prelude.{Bool, List, take};
    ghost use Rattle.etcs_bits.specs.Bits.{num};
    ghost use Rattle.etcs_vars.specs.Words.{IsWord};

    ghost Value = { List Bool };

    ghost view = { λ w. take w.count (num 64 w.held) };

    ghost invariant = { λ w. IsWord w.held w.count };
}

impl Word {
    /// No bits.
    pub(crate) fn new() -> Word
        ensures { result ≡ [] }
    {
        Word { held: 0, count: 0 }
    }

    /// How many bits there are.
    #[inline(always)]
    pub(crate) fn len(&self) -> usize
        ensures { result ≡ length self.now }
    {
        self.count
    }

    /// The bits, the first one highest, with zeros after the last.
    pub(crate) fn number(&self) -> u64
        ensures bits { take (length self.now) (num 64 result) ≡ self.now }
        ensures few { length self.now < 64 }
    {
        let _ = self.count;
        self.held
    }

    /// Puts the lowest bits of a number after the others. Returns the first 64 if there are that many, and keeps those
    /// after them.
    #[inline(always)]
    pub(crate) fn put(&mut self, width: usize, number: u64) -> Option<u64>
        requires some { 0 < width }
        requires width { width ≤ 64 }
        ensures before { length self.old < 64 }
        ensures after { length self.new < 64 }
        ensures none { IsNone result → self.new ≡ self.old ++ num width number }
        ensures full { IfSome result (λ word. num 64 word ++ self.new ≡ self.old ++ num width number) }
    {
        let top = number << (64 - width);
        let word = self.held + (top >> self.count);
        let count = self.count + width;
        if count < 64 {
            self.held = word;
            self.count = count;
            return None;
        }
        self.held = (top << 1) << (63 - self.count);
        self.count = count - 64;
        Some(word)
    }
}
