//! What is left of a row of a known number of bits.

ghost use Rattle.std.specs.Prelude.{◌≡◌, ◌↔◌, ◌<◌, ◌≤◌, ◌+◌, ◌-◌, ◌*◌, ◌^◌, [], ◌∷◌, length, Some, IsTrue, IsSome, IfSome, IsNone, None};
ghost use Rattle.etcs_bits.specs.Bits.{bits};
ghost use Rattle.etcs_vars.specs.Vars.{width, admits};
ghost use Rattle.etcs_vars.specs.Walking.{Residual};
ghost use Rattle.etcs_reader.specs.Rests.{Goes, Starts};
ghost use Rattle.etcs_tables.specs.Layouts.{layout, looks, Lengths, ReadsIn};
ghost use Rattle.etcs_rows.specs.Lengths.{FitsWithin};
ghost use Rattle.etcs_rows.specs.Places.{first_variable, after_number};
ghost use Rattle.etcs_rows.specs.Runs.{RunsTo};
ghost use Rattle.etcs_rows.specs.Walks.{Follows};
ghost use Rattle.etcs_rows.specs.laws.RestLaws.{regular, row_begins_with, row_ended, follows_none, follows_along};

use crate::place::{Place, reaches};
use crate::speeds::EntryNumbers;
use etcs_reader::Rest;
use etcs_tables::Row;
use etcs_vars::Var;
use std::alloc::AllocError;

/// Whether some number of the next variable begins with these bits and continues to the row's end.
#[inline(always)]
fn may_begin(place: &Place, var: Var, bits: u64, taken: usize, len: usize) -> bool
    requires next { first_variable place.now ≡ Some var }
    requires some { 0 < taken }
    requires taken { taken ≤ width var }
    requires small { bits < 2 ^ taken }
    requires reaches { FitsWithin place.now 0 (2 ^ width var - 1) len }
    ensures { IsTrue result ↔ FitsWithin place.now (bits * 2 ^ (width var - taken)) (bits * 2 ^ (width var - taken) + (2 ^ (width var - taken) - 1)) len }
{
    if place.is_free() {
        return if taken == var.width() {
            var.admits(bits)
        } else {
            var.admits_prefix(bits, taken)
        };
    }
    let rest = var.width() - taken;
    let low = bits << rest;
    let high = low + ((1 << rest) - 1);
    place.fits(low, high, len)
}

/// What is left of a row, in `len` bits: a rest for the reader. It allocates nothing, so that its reader never returns
/// `Memory`.
#[derive(Drop)]
pub struct RowRest {
    pub place: Place,
    pub len: usize,
    pub ghost looks_well: { IsTrue (looks None place) },
    pub ghost short: { len ≤ 8191 },
}

impl RowRest {
    /// What is left at the beginning of a row of `len` bits: all of it, and something is. `None` exactly if the row has
    /// no spelling of `len` bits, at most 8,191.
    pub fn start(row: Row, len: usize) -> Option<RowRest>
        ensures some { IsSome result ↔ Lengths (layout row.items.now) [] len }
        ensures rest { IfSome result (λ s. (s.place ≡ layout row.items.now) × (s.len ≡ len) × Goes (ReadsIn s.place s.len)) }
    {
        let place = Place::start(row);
        if len > 8191 || !reaches(&place, len) {
            return None;
        }
        Some(RowRest { place, len })
    }

    /// What is left at the beginning of a row of `len` bits: all of it, and something is. The row must have a spelling
    /// of `len` bits, at most 8,191.
    pub fn begin(row: Row, len: usize) -> RowRest
        requires { Lengths (layout row.items.now) [] len }
        ensures { (result.place ≡ layout row.items.now) × (result.len ≡ len) × Goes (ReadsIn result.place result.len) }
    {
        RowRest {
            place: Place::start(row),
            len,
        }
    }

    /// Whether all of an entry of a speed profile comes next.
    #[inline(always)]
    pub fn is_at_entry(&self) -> bool {
        self.place.is_at_entry()
    }

    /// Moves past the entry of a speed profile that comes next, if the piece has it from `at` on, its numbers are admitted,
    /// and the row can end in its bits with it; and returns how many bits it has. The numbers are then those of the entry.
    /// It may always return `None`.
    #[inline(always)]
    pub(crate) fn pass_entry(
        &mut self,
        piece: &[u8],
        at: usize,
        numbers: &mut EntryNumbers,
    ) -> Option<usize>
        requires inside { at ≤ length (bits piece.now) }
        requires small { length (bits piece.now) < 2 ^ 64 }
        requires goes { Goes (ReadsIn self.old.place self.old.len) }
        ensures none { IsNone result → self.new ≡ self.old }
        ensures some { IfSome result (λ n. 0 < n) }
        ensures len { IfSome result (λ n. self.new.len + n ≡ self.old.len) }
        ensures goes { IfSome result (λ n. Goes (ReadsIn self.new.place self.new.len)) }
        ensures run { IfSome result (λ n. RunsTo self.old.place self.old.len (bits piece.now) at n numbers.new.items self.new.place self.new.len) }
    {
        let count = self.place.pass_entry(piece, at, self.len, numbers)?;
        self.len -= count;
        Some(count)
    }

    /// The same once more.
    pub(crate) fn copied(&self) -> RowRest
        ensures place { result.place ≡ self.now.place }
        ensures len { result.len ≡ self.now.len }
    {
        RowRest {
            place: self.place.copied(),
            len: self.len,
        }
    }

    /// Continues after an admitted number of the variable that comes next, whether or not the row can end in its bits
    /// then.
    #[inline(always)]
    pub(crate) fn pass_admitted(&mut self, var: Var, number: u64)
        requires next { first_variable self.old.place ≡ Some var }
        requires admitted { IsTrue (admits var number) }
        requires room { width var ≤ self.old.len }
        ensures len { self.old.len ≡ width var + self.new.len }
        ensures after { after_number self.old.place number ≡ Some self.new.place }
        ensures left { Residual (ReadsIn self.old.place self.old.len) ((var, number) ∷ []) (ReadsIn self.new.place self.new.len) }
    {
        self.place.pass(number);
        self.len -= var.width();
    }

    /// Continues after a number of the variable that comes next: what is left is what the row leaves there, in as many
    /// bits less. `var` must come next, and something must continue with this number.
    #[inline]
    pub fn continue_with(&mut self, var: Var, number: u64)
        requires next { first_variable self.old.place ≡ Some var }
        requires goes { Starts (ReadsIn self.old.place self.old.len) var 0 number }
        ensures len { self.old.len ≡ width var + self.new.len }
        ensures after { after_number self.old.place number ≡ Some self.new.place }
        ensures left { Residual (ReadsIn self.old.place self.old.len) ((var, number) ∷ []) (ReadsIn self.new.place self.new.len) }
    {
        self.pass_admitted(var, number);
    }
}

impl Rest for RowRest {
    ghost left = { λ s. ReadsIn s.place s.len };

    ghost next = { λ s. first_variable s.place };

    ghost follows = { λ s p t. Follows s.place s.len p t.place t.len };

    ghost fails = { λ s. ⊥ };

    #[inline]
    fn var(&self) -> Option<Var> {
        self.place.var()
    }

    #[inline]
    fn begins(&self, var: Var, rest: usize, number: u64) -> bool {
        may_begin(&self.place, var, number, var.width() - rest, self.len)
    }

    #[inline]
    fn pass(&mut self, var: Var, number: u64) -> Result<(), AllocError> {
        self.continue_with(var, number);
        Ok(())
    }

    ghost regular = { λ s. regular s.place s.len };

    ghost begins_with = { λ s. row_begins_with s.place s.len };

    ghost ended = { λ s. row_ended s.place s.len s.looks_well };

    ghost residual = { λ s t p h. h.residual };

    ghost none = { λ s. follows_none s.place s.len };

    ghost both = { λ s t u p q h k. follows_along s.place s.len p t.place t.len q u.place u.len h k };
}
