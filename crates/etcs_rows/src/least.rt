//! A number of bits that a row takes, found by one pass over its items.

ghost use Rattle.std.specs.Prelude.{◌≡◌, IsTrue, IfSome};
ghost use Rattle.etcs_vars.specs.Vars.{admits};
ghost use Rattle.etcs_tables.specs.Layouts.{layout};
ghost use Rattle.etcs_rows.specs.Lengths.{LengthsBy};

use crate::head::{Head, first_item};
use etcs_tables::RowItem;
use etcs_vars::Var;

/// The least number that a variable admits.
fn least_of(var: Var) -> Option<u64>
    ensures { IfSome result (λ n. IsTrue (admits var n)) }
{
    let (least, _) = *var.ranges().first()?;
    if var.admits(least) { Some(least) } else { None }
}

/// How many bits a row takes after a number, if each variable has its least number. `None` if a group would be
/// counted by a number above 0.
pub(crate) fn some_length(items: &'static [RowItem], before: u64) -> Option<usize>
    ensures { IfSome result (λ m. LengthsBy (layout items.now) before m) }
{
    match first_item(items) {
        Head::End => Some(0),
        Head::One(var, rest) => {
            let beyond = some_length(rest, least_of(var)?)?;
            beyond.checked_add(var.width())
        }
        Head::When(guard, group, rest) => {
            let beyond = some_length(rest, before)?;
            if guard.test.passes(before) {
                beyond.checked_add(some_length(group, before)?)
            } else {
                Some(beyond)
            }
        }
        Head::Many(_, rest) => {
            if before > 0 {
                return None;
            }
            some_length(rest, before)
        }
    }
}
