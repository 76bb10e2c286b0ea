//! What is left of a language.

ghost use Rattle.std.specs.Prelude.{◌≡◌, ◌↔◌, ℕ, ◌+◌, ◌-◌, ◌^◌, ◌<◌, ◌≤◌, List, [], ◌∷◌, ◌++◌, length, IsTrue, Option, Some, None, OnOk, OnErr, IfOk, IfSome, IsNone};
ghost use Rattle.etcs_bits.specs.Bits.{bits, part};
ghost use Rattle.etcs_vars.specs.declared.var.Var.{Var};
ghost use Rattle.etcs_vars.specs.Vars.{width};
ghost use Rattle.etcs_vars.specs.Reading.{Reading, Viable};
ghost use Rattle.etcs_vars.specs.Walking.{Residual};
ghost use Rattle.etcs_vars.proofs.Walk.{Regular};
ghost use Rattle.etcs_reader.specs.Rests.{Starts, Goes, BeginsWith, Ended, LeapsBy};

use etcs_vars::Var;
use std::alloc::AllocError;

/// What is left of a language after the variables that were read, and what is kept of them. Each implementation proves
/// the clauses and the laws.
///
/// The reader asks `var`, and then tests the bits of that variable by `begins`, many at once if a
/// piece has them. If a number is whole, `pass` continues after it. If no bit of a variable is there,
/// `leap` may take several whole variables at once.
pub trait Rest {
    /// The readings that are left.
    ghost left: { Self → Reading → Type 0 };

    /// The variable that comes next, if there is one.
    ghost next: { Self → Option Var };

    /// After these variables of the first the second is left, with all that it keeps of them.
    ghost follows: { Self → Reading → Self → Type 0 };

    /// Memory may run out after what was read so far. Always false of a rest that allocates none, so
    /// that its reader never returns `Memory`.
    ghost fails: { Self → Type 0 };

    /// The variable that comes next. `None` exactly if none is left.
    fn var(&self) -> Option<Var>
        ensures { result ≡ next self.now };

    /// Whether something continues with a number of the variable that comes next, `var`, that begins with the bits of
    /// `number` and has `rest` bits more after these.
    ///
    /// Something must be left, `rest` must be less than the width of `var`, and `number` must fit the other bits.
    fn begins(&self, var: Var, rest: usize, number: u64) -> bool
        requires next { next self.now ≡ Some var }
        requires rest { rest < width var }
        requires fits { number < 2 ^ (width var - rest) }
        requires goes { Goes (left self.now) }
        ensures { IsTrue result ↔ Starts (left self.now) var rest number };

    /// Continues after a number of the variable that comes next: what is left is then what `follows` has for it.
    /// Something must continue with this number.
    ///
    /// # Errors
    ///
    /// `AllocError` if memory runs out, only at a state at which it may (`fails`). No clause says what is left then.
    fn pass(&mut self, var: Var, number: u64) -> Result<(), AllocError>
        requires next { next self.old ≡ Some var }
        requires goes { Starts (left self.old) var 0 number }
        ensures ok { OnOk result (follows self.old ((var, number) ∷ []) self.new) }
        ensures err { OnErr result (fails self.old) };

    /// Takes several whole variables of a piece at once, from the bit `at` on, and returns how many bits they are: at
    /// least one, which spell these variables, and what is left is then what `follows` has for them, and something is.
    /// `None` takes nothing and changes nothing; it may always be returned, and the other calls then take the
    /// variables.
    ///
    /// Something must be left, `at` must be inside the piece, and the piece must have fewer than 2^64 bits.
    ///
    /// # Errors
    ///
    /// `AllocError` if memory runs out, only at a state at which it may (`fails`). Something continues with the bit at
    /// `at` then, so that a reader never returns `Memory` at a refused bit; no more is promised, since what runs out of
    /// memory inside of a packet doesn't know its last bits. No clause says what is left then.
    fn leap(&mut self, piece: &[u8], at: usize) -> Result<Option<usize>, AllocError>
        requires inside { at < length (bits piece.now) }
        requires small { length (bits piece.now) < 2 ^ 64 }
        requires goes { Goes (left self.old) }
        ensures none { IfOk result (λ o. IsNone o → self.new ≡ self.old) }
        ensures some { IfOk result (λ o. IfSome o (λ n. LeapsBy (left self.new) (λ p. follows self.old p self.new) (bits piece.now) at n)) }
        ensures err { OnErr result (fails self.old) }
        ensures viable { OnErr result (Viable (left self.old) (part at 1 (bits piece.now))) }
    {
        Ok(None)
    }

    /// Two readings that are left are equal or part first at two numbers of one variable, and each number fits its
    /// variable's width.
    ghost regular: { (s : Self) → Regular (left s) };

    /// If a variable comes next, all that is left begins with it.
    ghost begins_with: { (s : Self) (x : Var) → next s ≡ Some x → BeginsWith (left s) x };

    /// If none comes next, no variable is left.
    ghost ended: { (s : Self) → next s ≡ None → Ended (left s) };

    /// What follows variables has exactly the readings with which the first continues after them.
    ghost residual: { (s t : Self) (p : Reading) → follows s p t → Residual (left s) p (left t) };

    /// After no variables the same is left.
    ghost none: { (s : Self) → follows s [] s };

    /// What follows variables and then more variables follows both together.
    ghost both: { (s t u : Self) (p q : Reading) → follows s p t → follows t q u → follows s (p ++ q) u };
}
