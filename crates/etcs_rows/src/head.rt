//! What comes first in a row.

ghost use Rattle.std.specs.Prelude.{◌≡◌, ◌≤◌, false, length, IsTrue, IfSome};
ghost use Rattle.etcs_tables.specs.Layouts.{layout};
ghost use Rattle.etcs_rows.specs.Lengths.{beyond, begins_with_group};
ghost use Rattle.etcs_rows.specs.Heads.{IsHead, IsAlone};

use etcs_tables::{Guard, RowItem};
use etcs_vars::Var;

/// What comes first in a row, and what follows it.
#[derive(Clone, Copy)]
pub enum Head {
    /// Nothing: the row has ended.
    End,
    /// A variable.
    One(Var, &'static [RowItem]),
    /// A guarded group.
    When(Guard, &'static [RowItem], &'static [RowItem]),
    /// A counted group.
    Many(&'static [RowItem], &'static [RowItem]),
}

/// The first item of a row, with the items of its group.
#[inline(always)]
pub(crate) fn first_item(items: &'static [RowItem]) -> Head
    ensures { IsHead result items.now }
{
    match items.split_first() {
        None => Head::End,
        Some((RowItem::One(var), rest)) => Head::One(*var, rest),
        Some((RowItem::When(guard, count), rest)) => {
            let (group, rest) = rest.split_at(rest.len().min(*count));
            Head::When(*guard, group, rest)
        }
        Some((RowItem::Many(count), rest)) => {
            let (group, rest) = rest.split_at(rest.len().min(*count));
            Head::Many(group, rest)
        }
    }
}

/// What follows the groups in front.
pub(crate) fn after_groups(items: &'static [RowItem]) -> &'static [RowItem]
    ensures beyond { layout result.now ≡ beyond (layout items.now) }
    ensures shorter { length result.now ≤ length items.now }
{
    match first_item(items) {
        Head::When(_, _, rest) => after_groups(rest),
        Head::Many(_, rest) => after_groups(rest),
        _ => items,
    }
}

/// Whether a group is in front, which looks at the number before it.
pub(crate) fn has_group(items: &'static [RowItem]) -> bool
    ensures { result ≡ begins_with_group (layout items.now) }
{
    match items.split_first() {
        Some((RowItem::When(_, _), _)) => true,
        Some((RowItem::Many(_), _)) => true,
        _ => false,
    }
}

/// A variable whose number groups look at, and what follows it.
#[derive(Clone, Copy)]
pub struct Looked {
    pub var: Var,
    pub rest: &'static [RowItem],
}

/// The only group that looks at a number.
#[derive(Clone, Copy)]
pub enum Alone {
    /// It is there if the number passes the test.
    When(Guard, &'static [RowItem]),
    /// It is there as often as the number.
    Many(&'static [RowItem]),
}

/// Whether neither the group nor what follows it begins with a group.
fn none_looks(group: &'static [RowItem], rest: &'static [RowItem]) -> bool
    ensures group { IsTrue result → begins_with_group (layout group.now) ≡ false }
    ensures rest { IsTrue result → begins_with_group (layout rest.now) ≡ false }
{
    !has_group(group) && !has_group(rest)
}

/// The group in front, if no other looks at the number before it.
pub(crate) fn only_group(items: &'static [RowItem]) -> Option<Alone>
    ensures { IfSome result (λ a. IsAlone a items.now) }
{
    match first_item(items) {
        Head::When(guard, group, rest) if none_looks(group, rest) => {
            Some(Alone::When(guard, group))
        }
        Head::Many(group, rest) if none_looks(group, rest) => Some(Alone::Many(group)),
        _ => None,
    }
}
