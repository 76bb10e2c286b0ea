//! How many bits a row may take.

ghost use Rattle.std.specs.Prelude.{◌≡◌, ◌↔◌, ℕ, ◌+◌, ◌≤◌, ◌<◌, length, false, IsTrue};
ghost use Rattle.etcs_tables.specs.Layouts.{layout};
ghost use Rattle.etcs_rows.specs.Lengths.{LengthsBy, front, beyond, begins_with_group, GroupsWithin, FirstWithin, SetsWithin};
ghost use Rattle.etcs_rows.specs.Sums.{SumOf};
ghost use Rattle.etcs_rows.specs.Sets.{IsSet, In};

use crate::head::{Alone, Head, after_groups, first_item, has_group, only_group};
use crate::length_set::LengthSet;
use etcs_tables::RowItem;
use etcs_vars::Var;

/// How many bits a row may take after a number.
#[cycle(lengths)]
pub(crate) fn lengths_of(items: &'static [RowItem], before: u64) -> LengthSet
    ensures { IsSet result (LengthsBy (layout items.now) before) }
{
    groups_at(items, before).plus(&open_lengths(after_groups(items)))
}

/// The same of a row that doesn't begin with a group.
#[cycle(lengths)]
fn open_lengths(items: &'static [RowItem]) -> LengthSet
    ensures { begins_with_group (layout items.now) ≡ false → IsSet result (LengthsBy (layout items.now) 0) }
{
    match first_item(items) {
        Head::One(var, rest) => {
            if has_group(rest) {
                first_lengths(var, rest, 0, u64::MAX)
            } else {
                open_lengths(rest).shift(var.width())
            }
        }
        _ => LengthSet::single(0),
    }
}

/// How many bits the groups in front may take after a number.
#[cycle(lengths)]
fn groups_at(items: &'static [RowItem], before: u64) -> LengthSet
    ensures { IsSet result (LengthsBy (front (layout items.now)) before) }
{
    match first_item(items) {
        Head::When(guard, group, rest) => {
            let beyond = groups_at(rest, before);
            if guard.test.passes(before) {
                lengths_of(group, before).plus(&beyond)
            } else {
                beyond
            }
        }
        Head::Many(group, rest) => lengths_of(group, before)
            .times(before)
            .plus(&groups_at(rest, before)),
        Head::One(_, _) => LengthSet::single(0),
        Head::End => LengthSet::single(0),
    }
}

/// How many bits a group may take that occurs as often as the number of a variable, from low to high.
fn counted_within(var: Var, group: &LengthSet, low: u64, high: u64) -> LengthSet
    ensures { IsSet result (SetsWithin var (λ n. SumOf n (In group.now)) low high) }
{
    let most = u64::MAX >> (64 - var.width());
    let mut power = group.times(low);
    let mut all = LengthSet::empty();
    for number in low..=high.min(most) {
        if var.admits(number) {
            all = all.join(&power);
        }
        power = group.plus(&power);
    }
    all
}

/// How many bits the groups in front may take after a number of a variable from low to high.
#[cycle(lengths)]
fn groups_within(var: Var, rest: &'static [RowItem], low: u64, high: u64) -> LengthSet
    ensures { IsSet result (GroupsWithin var (layout rest.now) low high) }
{
    match only_group(rest) {
        Some(Alone::Many(group)) => counted_within(var, &lengths_of(group, 0), low, high),
        _ => groups_each(var, rest, low, high),
    }
}

/// The same, number by number.
#[cycle(lengths)]
fn groups_each(var: Var, rest: &'static [RowItem], low: u64, high: u64) -> LengthSet
    ensures { IsSet result (GroupsWithin var (layout rest.now) low high) }
{
    let most = u64::MAX >> (64 - var.width());
    let mut all = LengthSet::empty();
    for number in low..=high.min(most) {
        if var.admits(number) {
            all = all.join(&groups_at(rest, number));
        }
    }
    all
}

/// How many bits a variable and the rest may take, if its number is from low to high.
#[cycle(lengths)]
pub(crate) fn first_lengths(var: Var, rest: &'static [RowItem], low: u64, high: u64) -> LengthSet
    ensures { IsSet result (FirstWithin var (layout rest.now) low high) }
{
    groups_within(var, rest, low, high)
        .shift(var.width())
        .plus(&open_lengths(after_groups(rest)))
}
