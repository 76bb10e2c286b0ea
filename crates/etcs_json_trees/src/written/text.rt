//! What is left of a text.

ghost use Rattle.std.specs.Prelude.{◌≡◌, ◌+◌, ◌^◌, ◌<◌, ◌≤◌, ◌++◌, ◌∷◌, ℕ, List, IfSome, IsTrue, OnSome, false, length, take, drop, map};
ghost use Rattle.std.specs.Fmt.{decimal};
ghost use Rattle.etcs_bits.specs.Bits.{num};
ghost use Rattle.etcs_packet_text.specs.Show.{bit_digit};

use crate::written::digits::few_bits;
use crate::written::fronts::{same_eight, same_four};
use crate::written::pair_numbers::decimal_number;
use memchr::memchr;
use std::marker::Model;

/// What is left of a text. What a call takes did come next, as the call describes it. When a call succeeds isn't promised,
/// nor what is left after `None`.
#[derive(Drop)]
pub struct Text<'a> {
    left: &'a [u8],
}

impl<'a> Model for Text<'a> {
    ghost use Rattle.std.specs.Prelude.{ℕ, List};

    ghost Value = { List ℕ };

    ghost view = { λ t. t.left.now };
}

impl<'a> Text<'a> {
    /// All of a text.
    #[inline(always)]
    pub fn new(text: &'a [u8]) -> Text<'a>
        ensures { result ≡ text.now }
    {
        Text { left: text }
    }

    /// What is left.
    #[inline(always)]
    pub fn left(&self) -> &'a [u8]
        ensures { result.now ≡ self.now }
    {
        self.left
    }

    /// Takes `count` bytes.
    #[inline(always)]
    pub fn take(&mut self, count: usize)
        requires { count ≤ length self.old }
        ensures { self.new ≡ drop count self.old }
    {
        self.left = &self.left[count..];
    }

    /// Takes these bytes if they come next, and returns whether it did. If `false`, the text is as before.
    #[inline(always)]
    pub fn skip<const N: usize>(&mut self, front: &[u8; N]) -> bool
        ensures taken { IsTrue result → self.old ≡ front.now ++ self.new }
        ensures none { result ≡ false → self.new ≡ self.old }
    {
        match self.left.split_first_chunk::<N>() {
            Some((first, left)) if are_same(first, front) => {
                self.left = left;
                true
            }
            _ => false,
        }
    }

    /// Takes these bytes, which have to come next.
    #[inline(always)]
    pub fn pass<const N: usize>(&mut self, front: &[u8; N]) -> Option<()>
        ensures { OnSome result (self.old ≡ front.now ++ self.new) }
    {
        if !self.skip(front) {
            return None;
        }
        Some(())
    }

    /// Takes the bytes up to the quotation mark that comes next, and the mark.
    #[inline(always)]
    pub fn quoted(&mut self) -> Option<&'a [u8]>
        ensures { IfSome result (λ t. self.old ≡ t.now ++ 34 ∷ self.new) }
    {
        let count = memchr(b'"', self.left)?;
        match self.left.split_at_checked(count) {
            Some((front, [b'"', left @ ..])) => {
                self.left = left;
                Some(front)
            }
            _ => None,
        }
    }

    /// Takes a decimal number below 256 and this byte after it, and returns the number.
    #[inline(always)]
    pub fn byte_and(&mut self, end: u8) -> Option<u8>
        ensures { IfSome result (λ n. self.old ≡ decimal n ++ end ∷ self.new) }
    {
        let next = self.left.first_chunk::<64>()?;
        let (number, count) = decimal_number(next, 0, 8, end)?;
        if number > 255 {
            return None;
        }
        self.left = &self.left[count..];
        Some(number as u8)
    }

    /// Takes digits 0 and 1, as far as they go, and returns how many there are, at most seven, and the number of their
    /// bits, the first one the highest.
    #[inline(always)]
    pub fn padding(&mut self) -> Option<(usize, u8)>
        ensures count { IfSome result (λ p. p.0 ≤ 7) }
        ensures small { IfSome result (λ p. p.1 < 2 ^ p.0) }
        ensures bits { IfSome result (λ p. self.old ≡ map bit_digit (num p.0 p.1) ++ self.new) }
    {
        let (count, number, left) = few_bits(self.left)?;
        self.left = left;
        Some((count, number))
    }

    /// Takes some text and the end of this member's front, which has no quotation mark before its name. The name's first
    /// letter must not be in the text: names of variables have no small letter, and hexadecimal digits none after f.
    #[inline(always)]
    pub fn before<const N: usize>(&mut self, member: &[u8; N]) -> Option<()>
        ensures { OnSome result ((t : List ℕ) × (self.old ≡ t ++ (member.now ++ self.new))) }
    {
        let first = member.first()?;
        let count = memchr(*first, self.left)?;
        let (_, left) = self.left.split_at_checked(count)?;
        self.left = left;
        self.pass(member)
    }
}

/// Whether bytes are the same, compared eight or four at a time.
#[inline(always)]
fn are_same<const N: usize>(first: &[u8; N], second: &[u8; N]) -> bool
    ensures { IsTrue result → first.now ≡ second.now }
{
    if N < 4 {
        return are_same_bytes(first, second);
    }
    if N < 8 {
        return same_four(first, second, 0) && same_four(first, second, N - 4);
    }
    are_same_words(first, second) && same_eight(first, second, N - 8)
}

/// Whether bytes are the same, compared one at a time.
#[inline(always)]
fn are_same_bytes<const N: usize>(first: &[u8; N], second: &[u8; N]) -> bool
    ensures { IsTrue result → first.now ≡ second.now }
{
    let mut at = 0;
    while at < N {
        if first[at] != second[at] {
            return false;
        }
        at += 1;
    }
    true
}

/// Whether all but the last bytes, at most eight, are the same, compared eight at a time.
#[inline(always)]
fn are_same_words<const N: usize>(first: &[u8; N], second: &[u8; N]) -> bool
    requires { 8 ≤ N }
    ensures { IsTrue result → (n : ℕ) × (N ≤ n + 8) × (take n first.now ≡ take n second.now) }
{
    let mut at = 0;
    while at < N - 8 {
        if !same_eight(first, second, at) {
            return false;
        }
        at += 8;
    }
    true
}
