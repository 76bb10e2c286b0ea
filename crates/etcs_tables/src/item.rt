//! Items of tables.

ghost use Rattle.std.specs.Prelude.{◌≡◌};
ghost use Rattle.etcs_tables.specs.Layouts.{passes};

use etcs_vars::Var;

/// What a guard tests of a number.
#[derive(Clone, Copy, Debug, PartialEq, Eq)]
pub enum Test {
    /// It is 0.
    IsZero,
    /// It is 1.
    IsOne,
    /// It is 1 or 2.
    IsOneOrTwo,
    /// It isn't 0.
    IsNotZero,
}

impl Test {
    /// Whether the number passes the test.
    pub fn passes(self, number: u64) -> bool
        ensures { result ≡ passes self number }
    {
        match self {
            Test::IsZero => number == 0,
            Test::IsOne => number == 1,
            Test::IsOneOrTwo => number == 1 || number == 2,
            Test::IsNotZero => number > 0,
        }
    }
}

/// A test on the number of the nearest variable of a name before it.
#[derive(Clone, Copy, Debug, PartialEq, Eq)]
pub struct Guard {
    /// The variable that is looked at.
    pub var: Var,
    /// The test of its number.
    pub test: Test,
}

/// An item of a row.
#[derive(Clone, Copy, Debug, PartialEq, Eq)]
pub enum RowItem {
    /// A variable.
    One(Var),
    /// The next `n` items (those of nested groups count) are there only if the guard holds.
    When(Guard, usize),
    /// The next `n` items (those of nested groups count) are there as often as the number of the variable just
    /// before.
    Many(usize),
}
