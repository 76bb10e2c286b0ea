//! Numbers of a slice's bits, one after another.

ghost use Rattle.std.specs.Prelude.{◌≡◌, ℕ, ◌+◌, ◌-◌, ◌<◌, ◌≤◌, Bool, List, None, Some, IfSome, IsNone, if◌then◌else◌, is_some, length, nat_le};
ghost use Rattle.etcs_bits.specs.Bits.{number_at};
ghost use Rattle.etcs_bits.specs.SliceWalker.{Keeps};

use crate::slice::BitSlice;
use std::marker::Model;

/// Bits that are one after another, the first one highest in the word. Below them anything may be.
#[derive(Clone, Copy)]
struct NextBits {
    word: u64,
    count: usize,
}

/// The number in the first `width` bits, and what is kept after them.
#[inline(always)]
fn first_of(next: NextBits, width: usize) -> (u64, NextBits)
    requires some { 0 < width }
    requires enough { width ≤ next.count }
    requires small { next.count ≤ 64 }
    ensures next { (bs : List Bool) (end : ℕ) → Keeps next.word next.count bs end → (number_at (end - next.count) width bs ≡ Some result.0) × Keeps result.1.word result.1.count bs end }
    ensures count { result.1.count + width ≡ next.count }
{
    let beyond = NextBits {
        word: next.word.wrapping_shl(width as u32),
        count: next.count - width,
    };
    (next.word >> (64 - width), beyond)
}

/// The bits from `at` on, at most 64 of them, and at least `width`. `None` only if that many go past the end.
fn next_bits_from(bits: &BitSlice<'_>, at: usize, width: usize) -> Option<NextBits>
    requires some { 0 < width }
    requires width { width ≤ 64 }
    requires inside { at ≤ length bits.now }
    ensures next { IfSome result (λ k. Keeps k.word k.count bits.now (at + k.count)) }
    ensures enough { IfSome result (λ k. width ≤ k.count) }
    ensures none { IsNone result → number_at at width bits.now ≡ None }
{
    let left = bits.len() - at;
    if width > left {
        return None;
    }
    match bits.word_from(at) {
        Some((word, count)) if width <= count => Some(NextBits { word, count }),
        _ => {
            let count = left.min(64);
            let number = bits.number(at, count)?;
            Some(NextBits {
                word: number << (64 - count),
                count,
            })
        }
    }
}

/// Reads numbers from the bits of a slice, one after another. It keeps the next bits, at most 64, in a word, so that
/// few reads look at the bytes.
#[derive(Drop)]
pub struct SliceWalker<'a> {
    bits: BitSlice<'a>,
    /// How many of the bits the walker has passed or keeps.
    end: usize,
    next: NextBits,
}

impl<'a> Model for SliceWalker<'a> {
    ghost use Rattle.std.specs.Prelude.{◌-◌};
    ghost use Rattle.etcs_bits.specs.SliceWalker.{SliceWalk, Keeps};

    ghost Value = { SliceWalk };

    ghost view = { λ w. record { bits = w.bits; place = w.end - w.next.count } };

    ghost invariant = { λ w. Keeps w.next.word w.next.count w.bits w.end };
}

impl<'a> SliceWalker<'a> {
    /// A walker at the first bit of the slice.
    pub fn new(bits: BitSlice<'a>) -> SliceWalker<'a>
        ensures { result ≡ record { bits = bits.entry; place = 0 } }
    {
        SliceWalker {
            bits,
            end: 0,
            next: NextBits { word: 0, count: 0 },
        }
    }

    /// The number in the next `width` bits, most significant bit first; the walker moves past them. `None` exactly if
    /// these go past the end; the walker then stays at its place. `width` must be at most 64.
    #[inline(always)]
    pub fn next(&mut self, width: usize) -> Option<u64>
        requires { width ≤ 64 }
        ensures number { result ≡ number_at self.old.place width self.old.bits }
        ensures moved { self.new ≡ record self.old { place = if is_some result then self.old.place + width else self.old.place } }
    {
        if width == 0 {
            return self.bits.number(self.place(), width);
        }
        if width > self.next.count {
            let place = self.place();
            let next = next_bits_from(&self.bits, place, width)?;
            prove!(next.count <= self.bits.len() - place);
            self.end = place + next.count;
            self.next = next;
        }
        let (number, beyond) = first_of(self.next, width);
        self.next = beyond;
        Some(number)
    }

    /// How many bits of the slice the walker has passed.
    pub fn place(&self) -> usize
        ensures { result ≡ self.now.place }
    {
        self.end - self.next.count
    }

    /// Whether the walker has passed all bits of the slice.
    pub fn is_at_end(&self) -> bool
        ensures { result ≡ nat_le (length self.now.bits) self.now.place }
    {
        self.place() >= self.bits.len()
    }
}
