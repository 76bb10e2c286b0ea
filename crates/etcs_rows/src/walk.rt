//! Rows of a known number of bits, bit by bit.

ghost use Rattle.std.specs.Prelude.{◌≡◌, ◌↔◌, ◌<◌, ◌≤◌, ◌+◌, ◌^◌, [], length, IsTrue, IsSome, IfSome, IsNone, Some};
ghost use Rattle.etcs_bits.specs.Bits.{bit, num};
ghost use Rattle.etcs_vars.specs.Vars.{width};
ghost use Rattle.etcs_tables.specs.Layouts.{layout, whole, Lengths};
ghost use Rattle.etcs_rows.specs.Places.{first_variable};
ghost use Rattle.etcs_rows.specs.Texts.{stopped_text};
ghost use Rattle.etcs_rows.specs.Walks.{TakesBit, IsDone};

use crate::place::Place;
use crate::rest::RowRest;
use etcs_reader::{Feeder, Stop};
use etcs_tables::Row;
use etcs_vars::Var;
use std::error::Error;
use std::fmt;
use std::marker::Model;

/// What the bits that were taken completed.
#[derive(Clone, Copy, Debug, PartialEq, Eq)]
pub enum Step {
    /// The variable isn't whole yet.
    More,
    /// This variable is whole, with its number, and the row continues.
    Number(Var, u64),
    /// This variable is whole, with its number, and the row with it.
    Whole(Var, u64),
}

/// Why a walk takes no bit.
#[derive(Clone, Copy, Debug, PartialEq, Eq)]
pub enum Stopped {
    /// No spelling of the row continues with this bit, which the variable holds.
    Refused(Var),
    /// The row was whole before.
    Ended,
}

/// Prints a fixed text for each, of a refusal with the name of the variable.
impl fmt::Display for Stopped {
    ghost output = { λ stopped. Some (stopped_text stopped) };

    fn fmt<W: fmt::Write>(&self, f: &mut fmt::Formatter<W>) -> fmt::Result {
        match self {
            Stopped::Refused(var) => write!(f, "refused at {var}"),
            Stopped::Ended => f.write_str("the row was whole before"),
        }
    }
}

impl Error for Stopped {}

/// A row of a known number of bits that is being read.
///
/// It keeps a place in the row's table, how many bits are left, and one unfinished variable of at most 64
/// bits; none of the numbers that were read.
#[derive(Drop)]
pub struct RowWalk {
    feeder: Feeder<RowRest>,
}

impl Model for RowWalk {
    ghost use Rattle.etcs_rows.specs.Walks.{WalkValue, WalkKept, walk_of};
    ghost use Rattle.etcs_rows.specs.laws.Walks.{walk_code};

    ghost Value = { WalkValue };

    ghost coded = { walk_code };

    ghost view = { λ s. walk_of s.feeder.rest.place s.feeder.rest.len s.feeder.part s.feeder.stop };

    ghost invariant = { λ s. WalkKept s.feeder.rest.place s.feeder.rest.len s.feeder.part s.feeder.count s.feeder.stop };
}

/// One bit as a number.
fn digit(b: bool) -> u64
    ensures { result ≡ bit b }
{
    if b { 1 } else { 0 }
}

impl RowWalk {
    /// A walk before the first bit of a row that takes `len` bits. `None` exactly if the row has no spelling of `len`
    /// bits, at most 8,191.
    pub fn start(row: Row, len: usize) -> Option<RowWalk>
        ensures some { IsSome result ↔ Lengths (layout row.items.now) [] len }
        ensures walk { IfSome result (λ w. (w.left ≡ layout row.items.now) × (w.len ≡ len) × (w.part ≡ []) × (w.refused ≡ None)) }
    {
        match RowRest::start(row, len) {
            Some(rest) => Some(RowWalk {
                feeder: Feeder::new(rest),
            }),
            None => None,
        }
    }

    /// Whether the row is whole: nothing is left of it.
    pub fn is_whole(&self) -> bool
        ensures { IsTrue result ↔ (self.now.left ≡ whole) }
    {
        self.feeder.rest().place.var().is_none()
    }

    /// The variable that comes next, which holds the next bit. `None` if the row is whole.
    pub fn var(&self) -> Option<Var>
        ensures { result ≡ first_variable self.now.left }
    {
        self.holder()
    }

    /// What is left of the row after the variables that are whole, as a place.
    pub fn place(&self) -> &Place
        ensures { result.now ≡ self.now.left }
    {
        &self.feeder.rest().place
    }

    /// The variable that holds the next bit. `None` if the row is whole: no bit is left.
    fn holder(&self) -> Option<Var>
        ensures next { result ≡ first_variable self.now.left }
        ensures done { IsNone result → IsDone self.now }
    {
        self.feeder.var()
    }

    /// The bits of the unfinished variable as a number, and how many there are.
    pub(crate) fn unfinished(&self) -> (u64, usize)
        ensures bits { self.now.part ≡ num result.1 result.0 }
        ensures small { result.0 < 2 ^ result.1 }
    {
        self.feeder.unfinished()
    }

    /// How many bits are left of the next variable. 0 if the row is whole.
    pub(crate) fn wanted(&self) -> usize
        ensures next { (x : Var) → first_variable self.now.left ≡ Some x → length self.now.part + result ≡ width x }
        ensures whole { self.now.left ≡ whole → result ≡ 0 }
    {
        match self.feeder.var() {
            Some(var) => var.width() - self.feeder.unfinished().1,
            None => 0,
        }
    }

    /// Takes a bit: `Whole` if the row ends with it, `Number` if a variable ends with it and the row continues, both
    /// with the variable and its number, else `More`, inside a variable.
    ///
    /// # Errors
    ///
    /// `Refused` exactly if no reading of what is left of the row, in as many bits as are left, continues with this
    /// bit; the variable named holds it in every such reading that continues with the bits before. Each later call
    /// returns the same and changes nothing. `Ended` if the row was whole before; nothing changes.
    pub fn bit(&mut self, b: bool) -> Result<Step, Stopped>
        ensures { TakesBit self.old b result self.new }
    {
        let Some(var) = self.holder() else {
            return Err(Stopped::Ended);
        };
        let (bits, taken) = self.feeder.unfinished();
        let number = bits * 2 + digit(b);
        match self.feeder.bit(b) {
            Ok(()) if taken + 1 < var.width() => Ok(Step::More),
            Ok(()) => match self.feeder.var() {
                Some(_) => Ok(Step::Number(var, number)),
                None => Ok(Step::Whole(var, number)),
            },
            Err(Stop::Refused { var, .. }) => Err(Stopped::Refused(var)),
            Err(Stop::Memory) => unreachable!(),
        }
    }
}
