//! Pairs taken from a text, one after another.

ghost use Rattle.std.specs.Prelude.{◌≡◌, ◌^◌, ◌<◌, ◌≤◌, ◌++◌, ◌∷◌, ℕ, List, IfSome, IfNone, length, drop};
ghost use Rattle.etcs_vars.specs.Vars.{width};
ghost use Rattle.etcs_bodies.specs.Taking.{named_as, in_hexadecimal};
ghost use Rattle.etcs_json_trees.specs.PairTexts.{pair_text, limit, IsOpened, Lacks};

use crate::written::fronts::front_len;
use crate::written::pair_numbers::{decimal_number, hexadecimal_number};
use etcs_bodies::{NextNumber, Numbers, Run};
use etcs_vars::Var;

/// The pairs of a list in a text of JSON, one after another, as they are written: `["NAME",12],["NAME",3]`.
///
/// A number is in decimal; that of NID_RADIO is sixteen hexadecimal digits in lower case, in quotes. 64 bytes of the text
/// are looked at for each pair: if there are fewer, no number is next, and something is left.
#[derive(Drop)]
pub struct PairText<'a> {
    left: &'a [u8],
    /// What came after the pairs that were taken: a comma before the next, a bracket after the last.
    after: u8,
}

impl<'a> PairText<'a> {
    /// The pairs of the list that the text begins with.
    #[inline(always)]
    pub fn new(text: &'a [u8]) -> Option<PairText<'a>>
        ensures { IfSome result (λ p. IsOpened text.now p.after p.left.now) }
    {
        let (left, after) = match text {
            [b'[', b']', left @ ..] => (left, b']'),
            [b'[', left @ ..] => (left, b','),
            _ => return None,
        };
        Some(PairText { left, after })
    }

    /// What is after the list, if all its pairs were taken.
    #[inline(always)]
    pub fn end(&self) -> Option<&'a [u8]>
        ensures { IfSome result (λ t. (self.now.after ≡ 93) × (t.now ≡ self.now.left.now)) }
    {
        if self.after != b']' {
            return None;
        }
        Some(self.left)
    }

    /// Takes the variable's pair and returns its number, if it has no more digits than those that the variable admits.
    #[inline(always)]
    fn number(&mut self, var: Var) -> Option<u64>
        ensures small { IfSome result (λ n. n < limit (in_hexadecimal var)) }
        ensures long { IfSome result (λ n. 64 ≤ length self.old.left.now) }
        ensures some { IfSome result (λ n. self.old.after ∷ self.old.left.now ≡ 44 ∷ (pair_text (named_as (var, n)) ++ self.new.after ∷ self.new.left.now)) }
        ensures none { IfNone result (Lacks var (self.old.after ∷ self.old.left.now)) }
    {
        if self.after != b',' {
            return None;
        }
        let next = self.left.first_chunk::<64>()?;
        let (number, len) = pair_in(next, var)?;
        self.after = next[len];
        self.left = &self.left[len + 1..];
        Some(number)
    }

    /// As it is, to be taken from by itself.
    #[inline(always)]
    fn copy(&self) -> PairText<'a>
        ensures left { result.left.now ≡ self.now.left.now }
        ensures after { result.after ≡ self.now.after }
    {
        PairText {
            left: self.left,
            after: self.after,
        }
    }
}

/// The number of the variable's pair, if a text begins with it, and how many bytes the pair has.
#[inline(always)]
fn pair_in(text: &[u8; 64], var: Var) -> Option<(u64, usize)>
    ensures small { IfSome result (λ r. r.0 < limit (in_hexadecimal var)) }
    ensures inside { IfSome result (λ r. r.1 < 64) }
    ensures some { IfSome result (λ r. text.now ≡ pair_text (named_as (var, r.0)) ++ drop r.1 text.now) }
    ensures none { IfNone result ((n : ℕ) (s : List ℕ) → n < 2 ^ width var → text.now ≡ pair_text (named_as (var, n)) ++ s → ⊥) }
{
    let front = front_len(text, var)?;
    match var {
        Var::NID_RADIO => hexadecimal_number(text, front),
        _ => decimal_number(text, front, var.width(), b']'),
    }
}

impl<'a> NextNumber for PairText<'a> {
    ghost use Rattle.etcs_bodies.specs.Taking.{named};
    ghost use Rattle.etcs_json_trees.specs.PairTexts.{pairs_left};

    ghost left = { λ s. named (pairs_left s.after s.left.now) };

    /// What is after the list is always left.
    #[tactic(auto, using(crate::proofs::PairReading::some_left))]
    #[inline(always)]
    fn is_empty(&self) -> bool {
        false
    }

    #[tactic(auto, using(etcs_bodies::specs::laws::Takes::number_ok))]
    #[inline(always)]
    fn next(&mut self, var: Var) -> Option<u64> {
        let number = self.number(var)?;
        if !var.admits(number) {
            return None;
        }
        Some(number)
    }

    #[inline(always)]
    fn flag(&mut self, var: Var) -> Option<bool> {
        let number = self.number(var)?;
        if number > 1 {
            return None;
        }
        Some(number == 1)
    }
}

impl<'a> Numbers for PairText<'a> {
    #[inline(always)]
    fn run<R: Run>(&mut self, run: R) -> Option<R::Taken> {
        let mut pairs = self.copy();
        let taken = run.each(&mut pairs)?;
        self.left = pairs.left;
        self.after = pairs.after;
        Some(taken)
    }
}
