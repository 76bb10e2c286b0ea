//! The test of a count.

ghost use Rattle.std.specs.Prelude.{◌≡◌, None, Some, OnOk, IfErr};
ghost use Rattle.etcs_bodies.specs.Faults.{count_fault};

use etcs_vars::{BuildFault, Var};

/// Whether the variable of a count admits the count of a list: succeeds exactly if it does.
///
/// # Errors
///
/// [`BuildFault::TooMany`] with the variable of the count if it doesn't.
#[tactic(auto, using(crate::specs::laws::Takes::count_ok, crate::specs::laws::Takes::count_bad))]
pub fn check_count(var: Var, count: usize) -> Result<(), BuildFault>
    ensures ok { OnOk result (count_fault var count ≡ None) }
    ensures fault { IfErr result (λ e. count_fault var count ≡ Some e) }
{
    if var.admits(count as u64) {
        Ok(())
    } else {
        Err(BuildFault::TooMany(var))
    }
}
