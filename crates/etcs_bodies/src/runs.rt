//! Variables one after another, whose numbers are taken together.

ghost use Rattle.std.specs.Prelude.{◌≡◌, ℕ, ◌+◌, ◌/◌, ◌%◌, ◌^◌, ◌<◌};

use crate::numbers::NextNumber;
use etcs_vars::Var;

/// Variables one after another, whose numbers are taken together: a variable, a flag, or two runs, one after the other.
/// Each proves the clauses.
pub trait Run: Copy {
    ghost use Rattle.std.specs.Prelude.{◌≡◌, ℕ, ◌+◌, ◌<◌, List, Bool, ◌⊎◌, IfSome, IfNone, drop};
    ghost use Rattle.etcs_bodies.specs.Taking.{Left, in_bits};
    ghost use Rattle.etcs_bodies.specs.Runs.{TakesBits, LiesAt};

    /// The numbers of the variables.
    type Taken: Copy;

    /// How many bits the variables take together.
    ghost bits: { Self → ℕ };

    /// These numbers are taken from what is left, and this is left after them.
    ghost Takes: { Self → Left → Self.Taken → Left → Type 0 };

    /// One of the numbers isn't there or isn't admitted.
    ghost Lacks: { Self → Left → Type 0 };

    /// Bits begin with the numbers of the run, or lack one.
    ghost either: { (r : Self) (b : List Bool) (k : ℕ) → Lacks r (in_bits (drop k b)) ⊎ TakesBits (Takes r) (bits r) b k };

    /// How many bits the variables take together, which must be fewer than 64.
    fn width(self) -> usize
        requires { bits self < 64 }
        ensures { result ≡ bits self };

    /// Takes the numbers of the variables, one after another. `None` only if one of them isn't there or isn't admitted;
    /// no clause says what is left then.
    fn each<N: NextNumber>(self, numbers: &mut N) -> Option<Self::Taken>
        ensures some { IfSome result (λ ns. Takes self (N.left numbers.old) ns (N.left numbers.new)) }
        ensures none { IfNone result (Lacks self (N.left numbers.old)) };

    /// The numbers of the variables in a word whose lowest bits they are, with `beyond` bits after them. `None` only if
    /// one of them isn't admitted. All these bits must be fewer than 64.
    fn split(self, word: u64, beyond: usize) -> Option<Self::Taken>
        requires { bits self + beyond < 64 }
        ensures some { IfSome result (λ ns. (b : List Bool) (k : ℕ) → LiesAt word (bits self + beyond) b k → Takes self (in_bits (drop k b)) ns (in_bits (drop (k + bits self) b))) }
        ensures none { IfNone result ((b : List Bool) (k : ℕ) → LiesAt word (bits self + beyond) b k → Lacks self (in_bits (drop k b))) };
}

/// The number in `width` bits of a word, with this many bits after them.
#[inline(always)]
fn field(word: u64, width: usize, beyond: usize) -> u64
    requires { width + beyond < 64 }
    ensures { result ≡ word / 2 ^ beyond % 2 ^ width }
{
    (word >> beyond) % (1 << width)
}

/// A variable of one bit.
#[derive(Clone, Copy)]
pub struct Flag(pub Var);

impl Run for Flag {
    ghost use Rattle.std.specs.Prelude.{◌≡◌, Some, None};
    ghost use Rattle.etcs_bodies.specs.Taking.{next_flag};
    ghost use Rattle.etcs_bodies.specs.laws.Runs.{flag_or_none};

    type Taken = bool;

    ghost bits = { λ f. 1 };

    ghost Takes = { λ f s b t. next_flag f.0 s ≡ Some (b, t) };

    ghost Lacks = { λ f s. next_flag f.0 s ≡ None };

    ghost either = { λ f. flag_or_none f.0 };

    #[inline(always)]
    fn width(self) -> usize {
        1
    }

    #[inline(always)]
    fn each<N: NextNumber>(self, numbers: &mut N) -> Option<bool> {
        numbers.flag(self.0)
    }

    #[inline(always)]
    fn split(self, word: u64, beyond: usize) -> Option<bool> {
        Some(field(word, 1, beyond) == 1)
    }
}

impl Run for Var {
    ghost use Rattle.std.specs.Prelude.{◌≡◌, None};
    ghost use Rattle.etcs_vars.specs.Vars.{width};
    ghost use Rattle.etcs_bodies.specs.Taking.{next_number};
    ghost use Rattle.etcs_bodies.specs.Runs.{TakesNumber};
    ghost use Rattle.etcs_bodies.specs.laws.Runs.{number_or_none};

    type Taken = u64;

    ghost bits = { λ v. width v };

    ghost Takes = { TakesNumber };

    ghost Lacks = { λ v s. next_number v s ≡ None };

    ghost either = { number_or_none };

    #[inline(always)]
    fn width(self) -> usize {
        Var::width(self)
    }

    #[inline(always)]
    fn each<N: NextNumber>(self, numbers: &mut N) -> Option<u64> {
        numbers.next(self)
    }

    #[inline(always)]
    fn split(self, word: u64, beyond: usize) -> Option<u64> {
        let number = field(word, Var::width(self), beyond);
        if !self.admits(number) {
            return None;
        }
        Some(number)
    }
}

impl<A: Run, B: Run> Run for (A, B) {
    ghost use Rattle.std.specs.Prelude.{◌+◌};
    ghost use Rattle.etcs_bodies.specs.Runs.{TakesBoth, LacksOne};
    ghost use Rattle.etcs_bodies.specs.laws.Runs.{both_or_none};

    type Taken = (A::Taken, B::Taken);

    ghost bits = { λ r. A.bits r.0 + B.bits r.1 };

    ghost Takes = { λ r. TakesBoth (A.Takes r.0) (B.Takes r.1) };

    ghost Lacks = { λ r. LacksOne (A.Takes r.0) (A.Lacks r.0) (B.Lacks r.1) };

    ghost either = { λ r. both_or_none (A.Takes r.0) (A.Lacks r.0) (A.bits r.0) (B.Takes r.1) (B.Lacks r.1) (B.bits r.1) (A.either r.0) (B.either r.1) };

    #[inline(always)]
    fn width(self) -> usize {
        self.0.width() + self.1.width()
    }

    #[inline(always)]
    fn each<N: NextNumber>(self, numbers: &mut N) -> Option<(A::Taken, B::Taken)> {
        let first = self.0.each(numbers)?;
        let second = self.1.each(numbers)?;
        Some((first, second))
    }

    #[inline(always)]
    fn split(self, word: u64, beyond: usize) -> Option<(A::Taken, B::Taken)> {
        let first = self.0.split(word, self.1.width() + beyond)?;
        let second = self.1.split(word, beyond)?;
        Some((first, second))
    }
}
