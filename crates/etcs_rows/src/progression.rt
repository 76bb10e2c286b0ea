//! Numbers in equal steps.

ghost use Rattle.std.specs.Prelude.{◌≡◌, ◌↔◌, ℕ, ◌+◌, ◌*◌, ◌<◌, ◌≤◌, true, false, IsTrue, IfSome, ◌⊎◌, length};

use crate::head::{Alone, Head, Looked, after_groups, first_item, has_group, only_group};
use crate::near::Near;
use etcs_tables::{RowItem, Test};
use etcs_vars::Var;

/// The numbers first, first + step and so on, count + 1 of them.
#[derive(Clone, Copy)]
pub struct Progression {
    pub first: usize,
    pub step: usize,
    pub count: usize,
}

impl Progression {
    ghost use Rattle.etcs_rows.specs.Progressions.{InProgression, IsProgression, InAny, AtMost};
    ghost use Rattle.etcs_rows.specs.Sums.{Plus, SumOf};
    ghost use Rattle.etcs_rows.specs.Nearest.{IsLast, IsFirst, IsNear};

    /// One number.
    pub(crate) fn single(number: usize) -> Progression
        ensures { IsProgression result (λ m. m ≡ number) }
    {
        Progression {
            first: number,
            step: 0,
            count: 0,
        }
    }

    /// Whether the number is one of them.
    pub(crate) fn holds(self, number: usize) -> bool
        ensures { IsTrue result ↔ InProgression self number }
    {
        if number < self.first {
            return false;
        }
        let over = number - self.first;
        if self.count == 0 || self.step == 0 {
            return over == 0;
        }
        over % self.step == 0 && over / self.step <= self.count
    }

    /// Whether one of them and at most `slack` more make the number.
    pub(crate) fn near(self, slack: usize, number: usize) -> bool
        ensures { IsTrue result ↔ Plus (InProgression self) (AtMost slack) number }
    {
        if number < self.first {
            return false;
        }
        let over = number - self.first;
        if self.step == 0 {
            return over <= slack;
        }
        let index = (over / self.step).min(self.count);
        over - index * self.step <= slack
    }

    /// The greatest that isn't above a number.
    fn last_to(self, number: usize) -> Option<usize>
        ensures { IsLast (λ m. InProgression self m × (m ≤ number)) result }
    {
        if number < self.first {
            return None;
        }
        if self.step == 0 {
            return Some(self.first);
        }
        let index = ((number - self.first) / self.step).min(self.count);
        Some(self.first + index * self.step)
    }

    /// The least that isn't below a number, if any. `None` if it is too great for a `usize`.
    fn first_from(self, number: usize) -> Option<Option<usize>>
        ensures { IfSome result (λ n. IsFirst (λ m. InProgression self m × (number ≤ m)) n) }
    {
        if number <= self.first {
            return Some(Some(self.first));
        }
        if self.step == 0 {
            return Some(None);
        }
        let index = (number - self.first - 1) / self.step + 1;
        if index > self.count {
            return Some(None);
        }
        Some(Some(self.at(index)?))
    }

    /// Those next to a number.
    pub(crate) fn around(self, number: usize) -> Option<Near>
        ensures { IfSome result (λ n. IsNear (InProgression self) number n) }
    {
        Some(Near {
            below: self.last_to(number),
            above: self.first_from(number)?,
        })
    }

    /// The number after this many steps.
    pub(crate) fn at(self, index: usize) -> Option<usize>
        ensures { IfSome result (λ m. self.first + index * self.step ≡ m) }
    {
        self.first.checked_add(index.checked_mul(self.step)?)
    }

    /// The sums of a number of each, if they are in equal steps.
    pub(crate) fn plus(self, other: Progression) -> Option<Progression>
        ensures { IfSome result (λ s. IsProgression s (Plus (InProgression self) (InProgression other))) }
    {
        let first = self.first.checked_add(other.first)?;
        if other.count == 0 {
            return Some(Progression { first, ..self });
        }
        if self.count == 0 {
            return Some(Progression { first, ..other });
        }
        if self.step != other.step {
            return None;
        }
        let count = self.count.checked_add(other.count)?;
        Some(Progression {
            first,
            count,
            ..self
        })
    }

    /// The sums of this many of its numbers.
    pub(crate) fn times(self, times: u64) -> Option<Progression>
        ensures { IfSome result (λ s. IsProgression s (SumOf times (InProgression self))) }
    {
        let first = self.first.checked_mul(times as usize)?;
        let count = self.count.checked_mul(times as usize)?;
        Some(Progression {
            first,
            count,
            ..self
        })
    }

    /// Its numbers and one more, if they are in equal steps.
    fn with(self, number: usize) -> Option<Progression>
        ensures { IfSome result (λ s. (m : ℕ) → InProgression s m ↔ (InProgression self m ⊎ (m ≡ number))) }
    {
        if self.holds(number) {
            return Some(self);
        }
        if self.count == 0 {
            return Some(Progression {
                first: self.first.min(number),
                step: self.first.abs_diff(number),
                count: 1,
            });
        }
        let count = self.count.checked_add(1)?;
        if self.at(count)? == number {
            Some(Progression { count, ..self })
        } else {
            None
        }
    }

    /// The numbers of both, if they are in equal steps.
    pub(crate) fn join(all: Option<Progression>, more: Progression) -> Option<Progression>
        ensures { IfSome result (λ s. (m : ℕ) → InProgression s m ↔ (InAny all m ⊎ InProgression more m)) }
    {
        match all {
            None => Some(more),
            Some(steps) => {
                if more.count > 0 {
                    None
                } else {
                    steps.with(more.first)
                }
            }
        }
    }
}

ghost use Rattle.etcs_vars.specs.Vars.{admits};
ghost use Rattle.etcs_tables.specs.Layouts.{layout, passes};
ghost use Rattle.etcs_rows.specs.Lengths.{LengthsBy, front, beyond, GroupsWithin, SetsWithin};
ghost use Rattle.etcs_rows.specs.Progressions.{IsProgression, InGuarded, InProgression, TimesWithin};
ghost use Rattle.etcs_rows.specs.Sums.{Plus, SumOf};
ghost use Rattle.etcs_rows.specs.Heads.{AfterLooked};

/// The first and the last number from low to high that a variable admits, if it admits all between them.
fn admitted_between(var: Var, low: u64, high: u64) -> Option<(u64, u64)>
    ensures order { IfSome result (λ r. r.0 ≤ r.1) }
    ensures all { IfSome result (λ r. (n : ℕ) → (r.0 ≤ n × n ≤ r.1) ↔ (low ≤ n × n ≤ high × IsTrue (admits var n))) }
{
    match var.ranges() {
        [only] => {
            let first = low.max(only.0);
            let last = high.min(only.1);
            if first <= last {
                Some((first, last))
            } else {
                None
            }
        }
        _ => None,
    }
}

/// How many bits a group may take that occurs from first to last times.
pub(crate) fn times_steps(group: Progression, first: u64, last: u64) -> Option<Progression>
    requires { first ≤ last }
    ensures { IfSome result (λ s. IsProgression s (TimesWithin group first last)) }
{
    if first == last {
        return group.times(first);
    }
    if group.count > 0 {
        return None;
    }
    let fewest = group.first.checked_mul(first as usize)?;
    Some(Progression {
        first: fewest,
        step: group.first,
        count: (last - first) as usize,
    })
}

/// How many bits a row may take after a number, if that is in equal steps.
#[cycle(steps)]
pub(crate) fn steps_of(items: &'static [RowItem], before: u64) -> Option<Progression>
    ensures { IfSome result (λ s. IsProgression s (LengthsBy (layout items.now) before)) }
{
    let groups = groups_steps(items, before)?;
    groups.plus(open_steps(after_groups(items))?)
}

/// The same of a group that occurs more than once. How long others are each time isn't worked out.
pub(crate) fn steps_again(group: &'static [RowItem], times: u64) -> Option<Progression>
    ensures { IfSome result (λ s. IsProgression s (LengthsBy (layout group.now) times)) }
{
    if times > 1 {
        steps_of(group, times)
    } else {
        None
    }
}

/// The width of the variables in front with the first that a group looks at, and that one, if there is one.
pub(crate) fn leading(items: &'static [RowItem]) -> Option<(usize, Option<Looked>)>
    ensures sum { IfSome result (λ r. (m : ℕ) → LengthsBy (layout items.now) 0 m ↔ Plus (λ k. k ≡ r.0) (AfterLooked r.1) m) }
    ensures shorter { IfSome result (λ r. IfSome r.1 (λ l. length l.rest.now < length items.now)) }
{
    let mut width = 0usize;
    let mut left = items;
    while let Some((RowItem::One(var), rest)) = left.split_first() {
        width = width.checked_add(var.width())?;
        if has_group(rest) {
            return Some((width, Some(Looked { var: *var, rest })));
        }
        left = rest;
    }
    if left.is_empty() {
        Some((width, None))
    } else {
        None
    }
}

/// The width of a group of variables that no group looks at.
fn plain_width(group: &'static [RowItem]) -> Option<usize>
    ensures { IfSome result (λ w. (n : ℕ) → (m : ℕ) → (m ≡ w) ↔ LengthsBy (layout group.now) n m) }
{
    if has_group(group) {
        return None;
    }
    let (width, looked) = leading(group)?;
    match looked {
        None => Some(width),
        Some(_) => None,
    }
}

/// The width of such a group if a number passes the test, and else 0.
fn guarded_width(test: Test, group: &'static [RowItem], before: u64) -> Option<usize>
    ensures passed { passes test before ≡ true → IfSome result (λ w. (m : ℕ) → (m ≡ w) ↔ LengthsBy (layout group.now) before m) }
    ensures skipped { passes test before ≡ false → IfSome result (λ w. w ≡ 0) }
{
    if test.passes(before) {
        plain_width(group)
    } else {
        Some(0)
    }
}

/// The width of the groups in front after a number, and what follows them, if all are guarded and
/// in those that are there no variable is looked at.
fn plain_groups(items: &'static [RowItem], before: u64) -> Option<(usize, &'static [RowItem])>
    ensures width { IfSome result (λ r. (m : ℕ) → (m ≡ r.0) ↔ LengthsBy (front (layout items.now)) before m) }
    ensures beyond { IfSome result (λ r. layout r.1.now ≡ beyond (layout items.now)) }
    ensures shorter { IfSome result (λ r. length r.1.now ≤ length items.now) }
{
    let mut width = 0usize;
    let mut left = items;
    while let Head::When(guard, group, rest) = first_item(left) {
        let more = guarded_width(guard.test, group, before)?;
        width = width.checked_add(more)?;
        left = rest;
    }
    if has_group(left) {
        None
    } else {
        Some((width, left))
    }
}

/// How many bits a row may take that begins with a variable.
#[cycle(steps)]
fn open_steps(items: &'static [RowItem]) -> Option<Progression>
    ensures { IfSome result (λ s. IsProgression s (LengthsBy (layout items.now) 0)) }
{
    let (width, looked) = leading(items)?;
    let front = Progression::single(width);
    match looked {
        None => Some(front),
        Some(Looked { var, rest }) => {
            let groups = steps_within(var, rest, 0, u64::MAX)?;
            let tail = groups.plus(open_steps(after_groups(rest))?)?;
            front.plus(tail)
        }
    }
}

/// How many bits the groups in front may take after a number.
#[cycle(steps)]
pub(crate) fn groups_steps(items: &'static [RowItem], before: u64) -> Option<Progression>
    ensures { IfSome result (λ s. IsProgression s (LengthsBy (front (layout items.now)) before)) }
{
    if let Some((width, _)) = plain_groups(items, before) {
        return Some(Progression::single(width));
    }
    match first_item(items) {
        Head::When(guard, group, rest) => {
            if guard.test.passes(before) {
                let own = steps_of(group, before)?;
                own.plus(groups_steps(rest, before)?)
            } else {
                groups_steps(rest, before)
            }
        }
        Head::Many(group, rest) => {
            let all = steps_of(group, before)?.times(before)?;
            all.plus(groups_steps(rest, before)?)
        }
        _ => None,
    }
}

/// The counted group in front that alone looks at a variable, and how often it may occur if the
/// number of the variable is from low to high.
#[cycle(steps)]
pub(crate) fn counted_within(
    var: Var,
    rest: &'static [RowItem],
    low: u64,
    high: u64,
) -> Option<(Progression, u64, u64)>
    ensures order { IfSome result (λ r. r.1 ≤ r.2) }
    ensures all { IfSome result (λ r. (m : ℕ) → TimesWithin r.0 r.1 r.2 m ↔ GroupsWithin var (layout rest.now) low high m) }
{
    match only_group(rest)? {
        Alone::Many(group) => {
            let (first, last) = admitted_between(var, low, high)?;
            Some((open_steps(group)?, first, last))
        }
        Alone::When(_, _) => None,
    }
}

/// How many bits the groups in front may take after a number of a variable from low to high.
#[cycle(steps)]
fn steps_within(var: Var, rest: &'static [RowItem], low: u64, high: u64) -> Option<Progression>
    ensures { IfSome result (λ s. IsProgression s (GroupsWithin var (layout rest.now) low high)) }
{
    match counted_within(var, rest, low, high) {
        Some((group, first, last)) => times_steps(group, first, last),
        None => steps_each(var, rest, low, high),
    }
}

/// The same, if no counted group alone looks at the variable.
#[cycle(steps)]
pub(crate) fn steps_each(
    var: Var,
    rest: &'static [RowItem],
    low: u64,
    high: u64,
) -> Option<Progression>
    ensures { IfSome result (λ s. IsProgression s (GroupsWithin var (layout rest.now) low high)) }
{
    match only_group(rest) {
        Some(Alone::When(guard, group)) => {
            guarded_each(var, guard.test, open_steps(group)?, low, high)
        }
        _ => groups_each(var, rest, low, high),
    }
}

/// The steps if a number passes the test, and else 0.
fn guarded_at(test: Test, group: Progression, number: u64) -> Progression
    ensures { IsProgression result (InGuarded test group number) }
{
    if test.passes(number) {
        group
    } else {
        Progression::single(0)
    }
}

/// How many bits a guarded group may take after a number of a variable from low to high.
fn guarded_each(
    var: Var,
    test: Test,
    group: Progression,
    low: u64,
    high: u64,
) -> Option<Progression>
    ensures { IfSome result (λ s. IsProgression s (SetsWithin var (InGuarded test group) low high)) }
{
    let most = u64::MAX >> (64 - var.width());
    let end = high.min(most).checked_add(1)?;
    if end.saturating_sub(low) > 32 {
        return None;
    }
    let mut all = None;
    for number in low..end {
        if var.admits(number) {
            all = Some(Progression::join(all, guarded_at(test, group, number))?);
        }
    }
    all
}

/// How many bits any groups in front may take, number by number.
#[cycle(steps)]
fn groups_each(var: Var, rest: &'static [RowItem], low: u64, high: u64) -> Option<Progression>
    ensures { IfSome result (λ s. IsProgression s (GroupsWithin var (layout rest.now) low high)) }
{
    let most = u64::MAX >> (64 - var.width());
    let end = high.min(most).checked_add(1)?;
    if end.saturating_sub(low) > 32 {
        return None;
    }
    let mut all = None;
    for number in low..end {
        if var.admits(number) {
            let groups = groups_steps(rest, number)?;
            all = Some(Progression::join(all, groups)?);
        }
    }
    all
}
