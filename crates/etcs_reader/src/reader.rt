//! Bits of a piece, after what is left of a language.

ghost use Rattle.std.specs.Prelude.{◌≡◌, ℕ, ◌+◌, ◌-◌, ◌*◌, ◌/◌, ◌^◌, ◌<◌, ◌≤◌, ◌++◌, Bool, List, length, take, Some, MatchResult, IfOk, IfErr};
ghost use Rattle.etcs_bits.specs.Bits as bit_lists;
ghost use Rattle.etcs_bits.specs.Bits.{bits, part, num};
ghost use Rattle.etcs_vars.specs.Vars.{width};
ghost use Rattle.etcs_vars.specs.Walking.{Refuses};
ghost use Rattle.etcs_reader.specs.Rests.{Starts, Goes};

use crate::rest::Rest;
use etcs_bits::inner::{peek_at_end, peek_word};
use etcs_vars::Var;

/// Why a reader takes no more of a piece. Bits count from the piece's first.
#[derive(Clone, Copy)]
pub(crate) enum Halt {
    /// Nothing continues with this bit, and the variable holds it.
    Refused { at: usize, var: Var },
    /// Memory ran out after this many bits.
    Memory { at: usize },
}

/// What is left of a language, and the bits so far of the variable that comes next.
#[derive(Drop)]
pub(crate) struct Reader<R> {
    pub(crate) rest: R,
    /// The bits so far of the variable that comes next, as a number.
    pub(crate) number: u64,
    /// How many there are.
    pub(crate) taken: usize,
}

/// The number in `count` bits of a piece from the bit `at` on, most significant bit first. They must be inside the
/// piece, and at most 64.
#[inline(always)]
pub fn number_at(piece: &[u8], at: usize, count: usize) -> u64
    requires width { count ≤ 64 }
    requires inside { at + count ≤ length (bits piece.now) }
    ensures bits { num count result ≡ part at count (bits piece.now) }
    ensures fits { result < 2 ^ count }
{
    match peek_word(piece, at, count) {
        Some(number) => number,
        None => number_at_end(piece, at, count),
    }
}

/// As [`number_at`], near the end of the piece.
#[inline(always)]
fn number_at_end(piece: &[u8], at: usize, count: usize) -> u64
    requires width { count ≤ 64 }
    requires inside { at + count ≤ length (bits piece.now) }
    ensures { bit_lists.number_at at count (bits piece.now) ≡ Some result }
{
    match peek_at_end(piece, at, count) {
        Some(number) => number,
        None => unreachable!(),
    }
}

/// The number of `taken` bits and `count` more.
#[inline(always)]
fn joined(high: u64, taken: usize, low: u64, count: usize) -> u64
    requires room { taken + count ≤ 64 }
    requires high { high < 2 ^ taken }
    requires low { low < 2 ^ count }
    ensures { result ≡ high * 2 ^ count + low }
{
    if count < 64 {
        (high << count) + low
    } else {
        low
    }
}

impl<R: Rest> Reader<R> {
    ghost use Rattle.etcs_reader.specs.Readers.{IsReader, Passed, part_of, Takes, Advances, Halts, HaltsIn, place_of};

    /// A reader of what is left, of which no bit is taken.
    pub(crate) fn new(rest: R) -> Reader<R>
        requires { Goes (R.left rest) }
        ensures rest { result.rest ≡ rest }
        ensures reader { IsReader R R.left R.next result }
        ensures none { result.taken ≡ 0 }
    {
        Reader {
            rest,
            number: 0,
            taken: 0,
        }
    }

    /// How many of the next `count` bits come before the first one with which no number continues, and the
    /// number of all bits up to there. It is found by bisection.
    #[cold]
    #[inline(never)]
    fn refused(&self, var: Var, bits: u64, count: usize) -> (usize, u64)
        requires reader { IsReader R R.left R.next self.now }
        requires next { R.next self.now.rest ≡ Some var }
        requires within { self.now.taken + count ≤ width var }
        requires fits { bits < 2 ^ count }
        requires none { Starts (R.left self.now.rest) var (width var - (self.now.taken + count)) (self.now.number * 2 ^ count + bits) → ⊥ }
        ensures within { result.0 < count }
        ensures refuses { Refuses (R.left self.now.rest) (num self.now.taken self.now.number ++ num count bits) (self.now.taken + result.0) var }
        ensures number { result.1 ≡ self.now.number * 2 ^ result.0 + bits / 2 ^ (count - result.0) }
    {
        let mut number = self.number;
        let mut more = 0;
        let mut end = count;
        while end - more > 1 {
            let middle = more + (end - more) / 2;
            let first = bits >> (count - middle);
            let longer = joined(self.number, self.taken, first, middle);
            let rest = var.width() - (self.taken + middle);
            if self.rest.begins(var, rest, longer) {
                number = longer;
                more = middle;
            } else {
                end = middle;
            }
        }
        (more, number)
    }

    /// Takes what a piece has of the next variable, from the bit `at` on, and returns how many bits it was.
    #[cold]
    #[inline(never)]
    pub(crate) fn step(&mut self, var: Var, piece: &[u8], at: usize) -> Result<usize, Halt>
        requires reader { IsReader R R.left R.next self.old }
        requires next { R.next self.old.rest ≡ Some var }
        requires inside { at < length (bits piece.now) }
        requires small { length (bits piece.now) < 2 ^ 64 }
        ensures ok { IfOk result (λ n. Advances R R.left R.next R.follows self.old (bits piece.now) at n self.new) }
        ensures err { IfErr result (λ h. Halts R R.left R.next R.follows R.fails self.old (bits piece.now) at h self.new) }
        ensures fits { self.new.number < 2 ^ self.new.taken }
    {
        let wanted = var.width() - self.taken;
        let count = wanted.min(piece.len() * 8 - at);
        let bits = number_at(piece, at, count);
        let number = joined(self.number, self.taken, bits, count);
        let rest = wanted - count;
        if !self.rest.begins(var, rest, number) {
            let (more, number) = self.refused(var, bits, count);
            self.number = number;
            self.taken += more;
            return Err(Halt::Refused { at: at + more, var });
        }
        if rest > 0 {
            self.number = number;
            self.taken += count;
            return Ok(count);
        }
        match self.rest.pass(var, number) {
            Ok(()) => {
                self.number = 0;
                self.taken = 0;
                Ok(count)
            }
            Err(_) => Err(Halt::Memory { at }),
        }
    }

    /// Takes the next variable, of which no bit is taken, at once if the piece has it.
    #[inline(always)]
    fn whole(&mut self, var: Var, piece: &[u8], at: usize) -> Result<usize, Halt>
        requires reader { IsReader R R.left R.next self.old }
        requires none { self.old.taken ≤ 0 }
        requires next { R.next self.old.rest ≡ Some var }
        requires inside { at < length (bits piece.now) }
        requires small { length (bits piece.now) < 2 ^ 64 }
        ensures ok { IfOk result (λ n. Advances R R.left R.next R.follows self.old (bits piece.now) at n self.new) }
        ensures err { IfErr result (λ h. Halts R R.left R.next R.follows R.fails self.old (bits piece.now) at h self.new) }
        ensures fits { self.new.number < 2 ^ self.new.taken }
    {
        let width = var.width();
        if piece.len() * 8 - at < width {
            return self.step(var, piece, at);
        }
        let number = number_at(piece, at, width);
        if !self.rest.begins(var, 0, number) {
            return self.step(var, piece, at);
        }
        match self.rest.pass(var, number) {
            Ok(()) => Ok(width),
            Err(_) => Err(Halt::Memory { at }),
        }
    }

    /// Takes whole variables together if a piece has such, and else what it has of the next one, and
    /// returns how many bits it was.
    #[inline(always)]
    fn advance(&mut self, var: Var, piece: &[u8], at: usize) -> Result<usize, Halt>
        requires reader { IsReader R R.left R.next self.old }
        requires next { R.next self.old.rest ≡ Some var }
        requires inside { at < length (bits piece.now) }
        requires small { length (bits piece.now) < 2 ^ 64 }
        ensures ok { IfOk result (λ n. Advances R R.left R.next R.follows self.old (bits piece.now) at n self.new) }
        ensures err { IfErr result (λ h. Halts R R.left R.next R.follows R.fails self.old (bits piece.now) at h self.new) }
        ensures fits { self.new.number < 2 ^ self.new.taken }
    {
        if self.taken > 0 {
            return self.step(var, piece, at);
        }
        match self.rest.leap(piece, at) {
            Ok(Some(count)) => Ok(count),
            Ok(None) => self.whole(var, piece, at),
            Err(_) => Err(Halt::Memory { at }),
        }
    }

    /// Takes the bits of a piece from the bit `at` on, up to the language's end, and returns how many they were with
    /// those in front.
    ///
    /// # Errors
    ///
    /// `Refused` with the first bit with which nothing continues; those before it are taken. `Memory`
    /// with a bit that continues; no clause says what is left then.
    pub(crate) fn push(&mut self, piece: &[u8], at: usize) -> Result<usize, Halt>
        requires reader { IsReader R R.left R.next self.old }
        requires inside { at ≤ length (bits piece.now) }
        requires small { length (bits piece.now) < 2 ^ 64 }
        ensures reader { IfOk result (λ _. IsReader R R.left R.next self.new) }
        ensures ok { IfOk result (λ n. (s : R) (b : List Bool) → Passed (λ p. R.follows s p self.old.rest) (b ++ take at (bits piece.now)) (part_of self.old) → Takes R R.left R.next R.follows s b (bits piece.now) n self.new.rest (part_of self.new)) }
        ensures err { IfErr result (λ h. (s : R) (b : List Bool) → Passed (λ p. R.follows s p self.old.rest) (b ++ take at (bits piece.now)) (part_of self.old) → HaltsIn R R.left R.next R.follows R.fails s b (bits piece.now) h self.new) }
        ensures within { MatchResult result (λ n. n ≤ length (bits piece.now)) (λ h. place_of h ≤ length (bits piece.now)) }
        ensures fits { self.new.number < 2 ^ self.new.taken }
    {
        let end = piece.len() * 8;
        let mut at = at;
        while at < end {
            let Some(var) = self.rest.var() else {
                return Ok(at);
            };
            at += self.advance(var, piece, at)?;
        }
        Ok(at)
    }
}
