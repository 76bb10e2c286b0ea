//! What takes the sums of lengths that a walk finds.

ghost use Rattle.std.specs.Prelude.{◌≡◌, ◌↔◌, IsTrue, IfSome, []};
ghost use Rattle.etcs_rows.specs.Totals.{InSums, InAdded};
ghost use Rattle.etcs_rows.specs.Sums.{Plus};
ghost use Rattle.etcs_rows.specs.Nearest.{IsNear};

use crate::near::Near;
use crate::total::{Added, Total};
use arrayvec::ArrayVec;

/// What takes the sums of lengths that a walk finds.
pub(crate) trait Taker: Sized {
    ghost use Rattle.std.specs.Prelude.{ℕ, Bool, IsTrue, IfSome};
    ghost use Rattle.etcs_rows.specs.Totals.{InTotal};
    ghost use Rattle.etcs_rows.specs.Takers.{TakerLaws};

    /// It is the other after these sums, and if the flag is set, it needs no more.
    ghost Took: { Self → Self → Bool → (ℕ → Type 0) → Type 0 };

    /// It has no use for numbers from this one on.
    ghost Past: { Self → ℕ → Type 0 };

    ghost laws: { TakerLaws Self Took Past };

    /// Takes sums. Returns whether it needs no more, and `None` if there is no room.
    fn take(&mut self, sum: Total) -> Option<bool>
        ensures { IfSome result (λ b. Took self.old self.new b (InTotal sum)) };

    /// Whether it has no use for numbers from this one on.
    fn is_past(&self, first: usize) -> bool
        ensures { IsTrue result → Past self.now first };
}

/// A number that one of the sums is to be.
#[derive(Drop)]
pub struct Sought {
    pub bits: usize,
}

impl Taker for Sought {
    ghost use Rattle.std.specs.Prelude.{◌≡◌, ◌↔◌, ◌<◌, IsTrue};
    ghost use Rattle.etcs_rows.specs.laws.Takers.{sought_laws};

    ghost Took = { λ s t b A. (s ≡ t) × (IsTrue b ↔ A s.bits) };

    ghost Past = { λ s m. s.bits < m };

    ghost laws = { sought_laws };

    #[inline(always)]
    fn take(&mut self, sum: Total) -> Option<bool> {
        sum.holds(self.bits)
    }

    #[inline(always)]
    fn is_past(&self, first: usize) -> bool {
        first > self.bits
    }
}

/// How many sums are kept at most.
const MOST_SUMS: usize = 8;

/// All sums up to 8,191.
#[derive(Drop)]
pub struct Kept {
    pub sums: ArrayVec<Total, MOST_SUMS>,
}

impl Kept {
    /// None.
    pub(crate) fn new() -> Kept
        ensures { result.sums.items ≡ [] }
    {
        Kept {
            sums: ArrayVec::new(),
        }
    }

    /// Those next to a number.
    pub(crate) fn around(&self, number: usize) -> Option<Near>
        ensures { IfSome result (λ n. IsNear (InSums self.now.sums.items) number n) }
    {
        sums_around(self.sums.as_slice(), number)
    }

    /// Whether one with this added makes the number.
    pub(crate) fn any(&self, added: Added, number: usize) -> Option<bool>
        ensures { IfSome result (λ b. IsTrue b ↔ Plus (InSums self.now.sums.items) (InAdded added) number) }
    {
        any_sum(self.sums.as_slice(), added, number)
    }
}

/// Those of the sums that are next to a number.
fn sums_around(sums: &[Total], number: usize) -> Option<Near>
    ensures { IfSome result (λ n. IsNear (InSums sums.now) number n) }
{
    match sums.split_first() {
        None => Some(Near::none()),
        Some((sum, rest)) => {
            let near = sum.around(number)?;
            Some(near.or(sums_around(rest, number)?))
        }
    }
}

/// Whether one of the sums with this added makes the number.
fn any_sum(sums: &[Total], added: Added, number: usize) -> Option<bool>
    ensures { IfSome result (λ b. IsTrue b ↔ Plus (InSums sums.now) (InAdded added) number) }
{
    match sums.split_first() {
        None => Some(false),
        Some((sum, rest)) => {
            if sum.with(added)?.holds(number)? {
                return Some(true);
            }
            any_sum(rest, added, number)
        }
    }
}

impl Taker for Kept {
    ghost use Rattle.std.specs.Prelude.{◌≡◌, ◌↔◌, ◌≤◌, ◌<◌, ◌⊎◌, ℕ, false};
    ghost use Rattle.etcs_rows.specs.Totals.{InSums};
    ghost use Rattle.etcs_rows.specs.laws.Takers.{kept_laws};

    ghost Took = { λ s t b A. (b ≡ false) × ((m : ℕ) → m ≤ 8191 → InSums t.sums.items m ↔ (InSums s.sums.items m ⊎ A m)) };

    ghost Past = { λ s m. 8191 < m };

    ghost laws = { kept_laws };

    fn take(&mut self, sum: Total) -> Option<bool> {
        match self.sums.try_push(sum) {
            Ok(()) => Some(false),
            Err(_) => None,
        }
    }

    fn is_past(&self, first: usize) -> bool {
        first > 8191
    }
}
