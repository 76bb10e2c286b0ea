//! Several variables of a row at once.

ghost use Rattle.std.specs.Prelude.{◌≡◌, ◌+◌, ◌<◌, ◌≤◌, ◌^◌, length, IfSome, IsNone};
ghost use Rattle.arrayvec.specs.ArrayVec.{array_vec_len};
ghost use Rattle.etcs_bits.specs.Bits.{bits};
ghost use Rattle.etcs_reader.specs.Rests.{Goes, Starts};
ghost use Rattle.etcs_tables.specs.Layouts.{ReadsIn};
ghost use Rattle.etcs_rows.specs.Runs.{NextIn, RunsTo};

use crate::place::reaches;
use crate::rest::RowRest;
use crate::speeds::EntryNumbers;
use arrayvec::ArrayVec;
use etcs_bits::peek;
use etcs_reader::Rest;
use etcs_vars::Var;

/// Variables of a row one after another: their numbers, how many bits they are, and what is left of the row then.
#[derive(Drop)]
pub struct RowRun {
    pub rest: RowRest,
    pub numbers: ArrayVec<u64, 32>,
    pub bits: usize,
    /// Whether they were taken one by one, so that the next one has to be tested by itself.
    pub singly: bool,
}

impl RowRun {
    /// The variable that comes next with its number, if the piece has it whole from `at` on, the number is admitted and
    /// the row has room for it. It may always return `None`, as it does where an entry begins that is taken at once.
    #[inline(always)]
    fn next(&self, piece: &[u8], at: usize) -> Option<(Var, u64)>
        requires inside { at ≤ length (bits piece.now) }
        requires small { length (bits piece.now) < 2 ^ 64 }
        ensures room { IfSome result (λ p. array_vec_len self.now.numbers < 32) }
        ensures next { IfSome result (λ p. NextIn self.now.rest.place self.now.rest.len (bits piece.now) at p.0 p.1) }
    {
        if self.numbers.is_full() {
            return None;
        }
        if self.bits > 0 && self.rest.is_at_entry() {
            return None;
        }
        let var = self.rest.place.var()?;
        let width = var.width();
        if width > self.rest.len || width > piece.len() * 8 - at {
            return None;
        }
        let number = peek(piece, at, width)?;
        if !var.admits(number) {
            return None;
        }
        Some((var, number))
    }

    /// The next variables of a row, several at once: bits of the piece from `at` on, at least one, spell them with
    /// these numbers, and what is left of the row has a reading in the bits that are left of it. It may always return
    /// `None`, which promises nothing. `at` must not be past the end of the piece, which has fewer than 2^64 bits.
    #[inline(always)]
    pub fn ahead(row: &RowRest, piece: &[u8], at: usize) -> Option<RowRun>
        requires inside { at ≤ length (bits piece.now) }
        requires small { length (bits piece.now) < 2 ^ 64 }
        ensures some { IfSome result (λ r. 0 < r.bits) }
        ensures goes { IfSome result (λ r. Goes (ReadsIn r.rest.place r.rest.len)) }
        ensures run { IfSome result (λ r. RunsTo row.now.place row.now.len (bits piece.now) at r.bits r.numbers.items r.rest.place r.rest.len) }
    {
        let mut run = RowRun {
            rest: row.copied(),
            numbers: ArrayVec::new(),
            bits: 0,
            singly: false,
        };
        while let Some((var, number)) = run.next(piece, at + run.bits) {
            run.numbers.push(number);
            run.rest.pass_admitted(var, number);
            run.bits += var.width();
        }
        if run.bits == 0 {
            return None;
        }
        if !reaches(&run.rest.place, run.rest.len) {
            return RowRun::one_by_one(row, piece, at);
        }
        Some(run)
    }

    /// The next variable as `next` gives it, if the row can end in its bits after it.
    fn fitting(&self, piece: &[u8], at: usize) -> Option<(Var, u64)>
        requires goes { Goes (ReadsIn self.now.rest.place self.now.rest.len) }
        requires inside { at ≤ length (bits piece.now) }
        requires small { length (bits piece.now) < 2 ^ 64 }
        ensures room { IfSome result (λ p. array_vec_len self.now.numbers < 32) }
        ensures next { IfSome result (λ p. NextIn self.now.rest.place self.now.rest.len (bits piece.now) at p.0 p.1) }
        ensures starts { IfSome result (λ p. Starts (ReadsIn self.now.rest.place self.now.rest.len) p.0 0 p.1) }
    {
        let (var, number) = self.next(piece, at)?;
        if self.rest.begins(var, 0, number) {
            Some((var, number))
        } else {
            None
        }
    }

    /// The same as `ahead`, up to the first variable after which the row can't end in its bits.
    #[cold]
    #[inline(never)]
    fn one_by_one(row: &RowRest, piece: &[u8], at: usize) -> Option<RowRun>
        requires inside { at ≤ length (bits piece.now) }
        requires small { length (bits piece.now) < 2 ^ 64 }
        ensures some { IfSome result (λ r. 0 < r.bits) }
        ensures goes { IfSome result (λ r. Goes (ReadsIn r.rest.place r.rest.len)) }
        ensures run { IfSome result (λ r. RunsTo row.now.place row.now.len (bits piece.now) at r.bits r.numbers.items r.rest.place r.rest.len) }
    {
        if !reaches(&row.place, row.len) {
            return None;
        }
        let mut run = RowRun {
            rest: row.copied(),
            numbers: ArrayVec::new(),
            bits: 0,
            singly: true,
        };
        while let Some((var, number)) = run.fitting(piece, at + run.bits) {
            run.numbers.push(number);
            run.rest.continue_with(var, number);
            run.bits += var.width();
        }
        if run.bits == 0 {
            return None;
        }
        Some(run)
    }
}

/// Entries of a row's speed profile, one after another: the numbers of the last one, and what is left of the row then.
#[derive(Drop)]
pub struct EntryRun {
    pub rest: RowRest,
    pub numbers: EntryNumbers,
}

impl EntryRun {
    /// Before the first one, which begins where the row is.
    #[inline(always)]
    pub fn new(row: &RowRest) -> EntryRun
        ensures place { result.rest.place ≡ row.now.place }
        ensures len { result.rest.len ≡ row.now.len }
    {
        EntryRun {
            rest: row.copied(),
            numbers: ArrayVec::new(),
        }
    }

    /// Takes the next one, if bits of the piece from `at` on spell it and the row can end in its bits after it, and returns
    /// how many bits it has. It may always return `None`, and then the row stays as it was.
    #[inline(always)]
    pub fn next(&mut self, piece: &[u8], at: usize) -> Option<usize>
        requires inside { at ≤ length (bits piece.now) }
        requires small { length (bits piece.now) < 2 ^ 64 }
        requires goes { Goes (ReadsIn self.old.rest.place self.old.rest.len) }
        ensures none { IsNone result → self.new.rest ≡ self.old.rest }
        ensures some { IfSome result (λ n. 0 < n) }
        ensures len { IfSome result (λ n. self.new.rest.len + n ≡ self.old.rest.len) }
        ensures goes { IfSome result (λ n. Goes (ReadsIn self.new.rest.place self.new.rest.len)) }
        ensures run { IfSome result (λ n. RunsTo self.old.rest.place self.old.rest.len (bits piece.now) at n self.new.numbers.items self.new.rest.place self.new.rest.len) }
    {
        self.rest.pass_entry(piece, at, &mut self.numbers)
    }
}
