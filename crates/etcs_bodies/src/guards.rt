//! Tests of groups against their guards.

ghost use Rattle.std.specs.Prelude.{◌≡◌, None, Some, OnOk, IfErr};
ghost use Rattle.etcs_bodies.specs.Guards.{guard_fault};

use etcs_vars::{BuildFault, Var};

/// Whether a group is there as its guard requires: succeeds exactly if `wanted`, whether the guard holds, and `there`,
/// whether the group is there, are the same.
///
/// # Errors
///
/// [`BuildFault::Guard`] with the guard's variable if they aren't.
#[tactic(auto, using(crate::specs::laws::Guards::guard_ok, crate::specs::laws::Guards::guard_missing, crate::specs::laws::Guards::guard_spare))]
pub fn check_guard(var: Var, wanted: bool, there: bool) -> Result<(), BuildFault>
    ensures ok { OnOk result (guard_fault var wanted there ≡ None) }
    ensures fault { IfErr result (λ e. guard_fault var wanted there ≡ Some e) }
{
    match (wanted, there) {
        (true, true) | (false, false) => Ok(()),
        (true, false) | (false, true) => Err(BuildFault::Guard(var)),
    }
}
