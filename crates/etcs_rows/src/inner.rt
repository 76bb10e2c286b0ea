//! For the crates above: what is left of a walk's variable, what readers of telegrams and messages need of their
//! packets, and rows written without allocating.

ghost use Rattle.std.specs.Prelude.{◌≡◌, ◌<◌, ◌+◌, ◌^◌, length, Some};
ghost use Rattle.etcs_bits.specs.Bits.{num};
ghost use Rattle.etcs_vars.specs.declared.var.Var.{Var};
ghost use Rattle.etcs_vars.specs.Vars.{width};
ghost use Rattle.etcs_tables.specs.Layouts.{whole};
ghost use Rattle.etcs_rows.specs.Places.{first_variable};

pub use crate::frames::{Carrier, MOST_PADDING, length_fits, number_fits};
pub use crate::message::message_lengths;
pub use crate::rest::RowRest;
pub use crate::row_run::{EntryRun, RowRun};
use crate::walk::RowWalk;
pub use crate::write::put_row;

/// How many bits are left of the next variable of a walk. 0 if the row is whole.
pub fn wanted(walk: &RowWalk) -> usize
    ensures next { (x : Var) → first_variable walk.now.left ≡ Some x → length walk.now.part + result ≡ width x }
    ensures whole { walk.now.left ≡ whole → result ≡ 0 }
{
    walk.wanted()
}

/// The bits so far of a walk's unfinished variable as a number, the first one most significant, and how many there are.
pub fn unfinished(walk: &RowWalk) -> (u64, usize)
    ensures bits { walk.now.part ≡ num result.1 result.0 }
    ensures small { result.0 < 2 ^ result.1 }
{
    walk.unfinished()
}
