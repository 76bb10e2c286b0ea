//! How often a variable is refused, by cause.

ghost use Rattle.std.specs.Prelude.{◌≡◌, Some};
ghost use Rattle.std.specs.Fmt.{WritesOnOk};
ghost use Rattle.etcs_log.specs.Counts.{causes_text, next, one_refused, refused_text};

use etcs_rows::Cause;
use etcs_vars::Var;
use std::fmt;

/// One more, unless the number is 2^64 - 1.
pub(crate) fn count(number: &mut u64)
    ensures { number.new ≡ next number.old }
{
    *number = number.saturating_add(1);
}

/// How often a variable was refused: because no number that fits begins with its bits, or none that the tables have.
#[derive(Clone, Copy)]
pub(crate) struct RefusalCount {
    pub(crate) var: Var,
    unfit: u64,
    spare: u64,
}

impl RefusalCount {
    /// It was refused once, for this cause.
    pub(crate) fn new(var: Var, cause: Cause) -> RefusalCount
        ensures { result ≡ one_refused cause (record { var = var; unfit = 0; spare = 0 }) }
    {
        let mut refusals = RefusalCount {
            var,
            unfit: 0,
            spare: 0,
        };
        refusals.add(cause);
        refusals
    }

    /// It was refused once more, for this cause.
    pub(crate) fn add(&mut self, cause: Cause)
        ensures { self.new ≡ one_refused cause self.old }
    {
        match cause {
            Cause::Unfit(_) => count(&mut self.unfit),
            Cause::Spare => count(&mut self.spare),
        }
    }
}

/// Writes how many refusals have which cause.
#[tactic(auto, using(std::proofs::Common::append_assoc), unfolding(crate::specs::Counts::causes_text))]
fn write_causes<W: fmt::Write>(unfit: u64, spare: u64, f: &mut fmt::Formatter<W>) -> fmt::Result
    ensures { WritesOnOk W.write_str_gives f.old result (causes_text unfit spare) f.new }
{
    if spare == 0 {
        return write!(f, " ({unfit} unfit)");
    }
    if unfit == 0 {
        return write!(f, " ({spare} spare)");
    }
    write!(f, " ({unfit} unfit, {spare} spare)")
}

impl fmt::Display for RefusalCount {
    ghost output = { λ refusals. Some (refused_text refusals) };

    #[tactic(auto, using(std::proofs::Common::append_assoc), unfolding(crate::specs::Counts::refused_text))]
    fn fmt<W: fmt::Write>(&self, f: &mut fmt::Formatter<W>) -> fmt::Result {
        let (var, count) = (self.var, self.unfit.saturating_add(self.spare));
        write!(f, "refused {var} {count}")?;
        write_causes(self.unfit, self.spare, f)
    }
}
