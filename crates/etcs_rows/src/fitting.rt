//! How many bits what is left of a row may take, by sums of lengths in equal steps: whether this many (`fits_at`,
//! `fits_by_steps`), whether any between two numbers (`meets_by_steps`), and all sums (`kept_by_steps`,
//! `around_first`).
//!
//! There are two ways, the cheaper first. `fits_at` takes one number, if all that waits was worked out when its
//! group was opened. The others walk over the groups that wait; if lengths aren't in equal
//! steps, `choose_each` and `spread_each` try them one by one, as packets 12, 15, 41, 46, 68, 72 and 76 and the two
//! position reports need. `None` means that there are too many for that, which no row of the tables has; then the sets
//! of lengths decide. The walks give their sums to a taker, which looks for one number or keeps them all.

ghost use Rattle.std.specs.Prelude.{◌≡◌, ◌↔◌, ℕ, ◌+◌, ◌≤◌, IsTrue, IfSome, reverse};
ghost use Rattle.etcs_vars.specs.Vars.{width, admits};
ghost use Rattle.etcs_tables.specs.Layouts.{layout};
ghost use Rattle.etcs_rows.specs.Lengths.{LengthsBy, beyond, GroupsWithin, FitsWithin};
ghost use Rattle.etcs_rows.specs.Sums.{Plus, SumOf};
ghost use Rattle.etcs_rows.specs.Progressions.{InProgression, IsProgression};
ghost use Rattle.etcs_rows.specs.Totals.{InTotal, InSums, InAdded};
ghost use Rattle.etcs_rows.specs.Cursors.{waiting, left_of, Nests, WaitsNest, KnowsSteps};
ghost use Rattle.etcs_rows.specs.Waiting.{Agains, Tails, Onward};

use crate::head::{Looked, after_groups};
use crate::place::{Cursor, Pending};
use crate::progression::{
    Progression, counted_within, groups_steps, leading, steps_each, steps_of, times_steps,
};
use crate::takers::{Kept, Sought, Taker};
use crate::total::{Added, Times, Total};
use etcs_tables::RowItem;
use etcs_vars::Var;

/// How many bits a group may take, as often as it still occurs.
fn again_steps(pending: &Pending) -> Option<Progression>
    requires { KnowsSteps pending.now }
    ensures { IfSome result (λ s. IsProgression s (SumOf pending.now.times (LengthsBy (layout pending.now.group.now) pending.now.before))) }
{
    if pending.times == 0 {
        return Some(Progression::single(0));
    }
    pending.steps?.times(pending.times)
}

/// How many bits the groups that wait may take, as often as they still occur.
fn waiting_steps(waiting: &[Pending]) -> Option<Progression>
    requires { WaitsNest (reverse waiting.now) }
    ensures { IfSome result (λ s. IsProgression s (Agains (reverse waiting.now))) }
{
    match waiting.split_last() {
        None => Some(Progression::single(0)),
        Some((pending, outer)) => again_steps(pending)?.plus(waiting_steps(outer)?),
    }
}

/// How many bits may be left after the current items, if that is known without a walk over the groups that wait.
pub(crate) fn known_steps(outer: &[Pending]) -> Option<Progression>
    requires { WaitsNest (reverse outer.now) }
    ensures { IfSome result (λ s. IsProgression s (LengthsBy (waiting (reverse outer.now)) 0)) }
{
    match outer.split_last() {
        None => Some(Progression::single(0)),
        Some((pending, _)) => {
            let tail = pending.tail?;
            again_steps(pending)?.plus(tail)
        }
    }
}

/// How many bits may be left, if these items come next after a number.
#[inline]
pub(crate) fn tail_steps(
    items: &'static [RowItem],
    before: u64,
    outer: &[Pending],
) -> Option<Progression>
    requires { WaitsNest (reverse outer.now) }
    ensures { IfSome result (λ s. IsProgression s (Plus (LengthsBy (layout items.now) before) (LengthsBy (waiting (reverse outer.now)) 0))) }
{
    let all = known_steps(outer)?;
    steps_of(items, before)?.plus(all)
}

/// Whether a number of a variable and what may be left after it take this many bits.
fn fits_with(var: Var, number: u64, left: Progression, bits: usize) -> bool
    ensures { IsTrue result ↔ (IsTrue (admits var number) × ((j : ℕ) × InProgression left j × (width var + j ≡ bits)) × (bits ≤ 8191)) }
{
    let width = var.width();
    if bits > 8191 {
        return false;
    }
    if bits < width {
        return false;
    }
    if !var.admits(number) {
        return false;
    }
    left.holds(bits - width)
}

/// Whether this many bits may be left of the row, if this is the number of the variable in front.
#[inline(always)]
pub(crate) fn fits_at(cursor: &Cursor, number: u64, bits: usize) -> Option<bool>
    requires { Nests cursor.now }
    ensures { IfSome result (λ b. IsTrue b ↔ FitsWithin (left_of cursor.now) number number bits) }
{
    match cursor.items.split_first() {
        Some((RowItem::One(var), rest)) => {
            let left = tail_steps(rest, number, cursor.pending.as_slice())?;
            Some(fits_with(*var, number, left, bits))
        }
        _ => None,
    }
}

/// How many bits the groups in front may take after a number of a variable from low to high.
fn groups_within(var: Var, rest: &'static [RowItem], low: u64, high: u64) -> Option<Added>
    ensures { IfSome result (λ a. (m : ℕ) → InAdded a m ↔ GroupsWithin var (layout rest.now) low high m) }
{
    match counted_within(var, rest, low, high) {
        Some((group, first, last)) => match times_steps(group, first, last) {
            Some(all) => Some(Added::Steps(all)),
            None => Some(Added::Times(Times { group, first, last })),
        },
        None => Some(Added::Steps(steps_each(var, rest, low, high)?)),
    }
}

/// Gives out the sums that items which begin with a variable, and what is after the groups that wait, bring this sum
/// to. Returns whether no others are needed.
#[cycle(fitting)]
fn onward<T: Taker>(
    sum: Total,
    items: &'static [RowItem],
    waiting: &[Pending],
    out: &mut T,
) -> Option<bool>
    ensures { IfSome result (λ b. T.Took out.old out.new b (Plus (InTotal sum) (Onward items.now waiting.now))) }
{
    let (width, looked) = leading(items)?;
    let sum = sum.plus(Progression::single(width))?;
    if out.is_past(sum.steps.first) {
        return Some(false);
    }
    match looked {
        None => leave(sum, waiting, out),
        Some(Looked { var, rest }) => choose(sum, var, rest, 0, u64::MAX, waiting, out),
    }
}

/// Gives out the sums that what is after the groups that wait brings this sum to.
#[cycle(fitting)]
fn leave<T: Taker>(sum: Total, waiting: &[Pending], out: &mut T) -> Option<bool>
    ensures { IfSome result (λ b. T.Took out.old out.new b (Plus (InTotal sum) (Tails (reverse waiting.now)))) }
{
    match waiting.split_last() {
        None => out.take(sum),
        Some((pending, outer)) => {
            if pending.items.is_empty() {
                return leave(sum, outer, out);
            }
            let groups = groups_steps(pending.items, pending.before)?;
            spread(sum, groups, after_groups(pending.items), outer, out)
        }
    }
}

/// Gives out the sums that the groups after a number of a variable from low to high, and what follows, bring this sum
/// to.
#[cycle(fitting)]
fn choose<T: Taker>(
    sum: Total,
    var: Var,
    rest: &'static [RowItem],
    low: u64,
    high: u64,
    waiting: &[Pending],
    out: &mut T,
) -> Option<bool>
    ensures { IfSome result (λ b. T.Took out.old out.new b (Plus (InTotal sum) (Plus (GroupsWithin var (layout rest.now) low high) (Plus (LengthsBy (beyond (layout rest.now)) 0) (Tails (reverse waiting.now)))))) }
{
    let beyond = after_groups(rest);
    if low == high {
        if !var.admits(low) {
            return Some(false);
        }
        return spread(sum, groups_steps(rest, low)?, beyond, waiting, out);
    }
    match groups_within(var, rest, low, high) {
        Some(Added::Steps(all)) => spread(sum, all, beyond, waiting, out),
        Some(more) => onward(sum.with(more)?, beyond, waiting, out),
        None => choose_each(sum, var, rest, low, high, waiting, out),
    }
}

/// The same as `choose`, number by number.
#[cycle(fitting)]
fn choose_each<T: Taker>(
    sum: Total,
    var: Var,
    rest: &'static [RowItem],
    low: u64,
    high: u64,
    waiting: &[Pending],
    out: &mut T,
) -> Option<bool>
    ensures { IfSome result (λ b. T.Took out.old out.new b (Plus (InTotal sum) (Plus (GroupsWithin var (layout rest.now) low high) (Plus (LengthsBy (beyond (layout rest.now)) 0) (Tails (reverse waiting.now)))))) }
{
    let most = u64::MAX >> (64 - var.width());
    let end = high.min(most).checked_add(1)?;
    if end.saturating_sub(low) > 256 {
        return None;
    }
    let beyond = after_groups(rest);
    for number in low..end {
        if var.admits(number) {
            let groups = groups_steps(rest, number)?;
            if spread(sum, groups, beyond, waiting, out)? {
                return Some(true);
            }
        }
    }
    Some(false)
}

/// Gives out the sums that a number of `more`, and then what `onward` counts, bring this sum to.
#[cycle(fitting)]
fn spread<T: Taker>(
    sum: Total,
    more: Progression,
    items: &'static [RowItem],
    waiting: &[Pending],
    out: &mut T,
) -> Option<bool>
    ensures { IfSome result (λ b. T.Took out.old out.new b (Plus (InTotal sum) (Plus (InProgression more) (Onward items.now waiting.now)))) }
{
    match sum.plus(more) {
        Some(all) => {
            if items.is_empty() {
                if waiting.is_empty() {
                    return out.take(all);
                }
            }
            onward(all, items, waiting, out)
        }
        None => {
            if more.count > sum.steps.count {
                spread_each(sum.with_steps(more), sum.steps, items, waiting, out)
            } else {
                spread_each(sum, more, items, waiting, out)
            }
        }
    }
}

/// The same as `spread`, number by number.
#[cycle(fitting)]
fn spread_each<T: Taker>(
    sum: Total,
    more: Progression,
    items: &'static [RowItem],
    waiting: &[Pending],
    out: &mut T,
) -> Option<bool>
    ensures { IfSome result (λ b. T.Took out.old out.new b (Plus (InTotal sum) (Plus (InProgression more) (Onward items.now waiting.now)))) }
{
    if more.count > 31 {
        return None;
    }
    for index in 0..more.count + 1 {
        let one = Progression::single(more.at(index)?);
        if onward(sum.plus(one)?, items, waiting, out)? {
            return Some(true);
        }
    }
    Some(false)
}

/// Whether this many bits may be left of the row, if the number of the variable in front is from low to high.
pub(crate) fn fits_by_steps(cursor: &Cursor, low: u64, high: u64, bits: usize) -> Option<bool>
    requires { Nests cursor.now }
    ensures { IfSome result (λ b. IsTrue b ↔ FitsWithin (left_of cursor.now) low high bits) }
{
    match cursor.items.split_first() {
        Some((RowItem::One(var), rest)) => {
            if bits > 8191 {
                return Some(false);
            }
            let waiting = cursor.pending.as_slice();
            let sum = waiting_steps(waiting)?.plus(Progression::single(var.width()))?;
            choose(
                Total::new(sum, 0),
                *var,
                rest,
                low,
                high,
                waiting,
                &mut Sought { bits },
            )
        }
        _ => None,
    }
}

/// Whether a number of bits from low to high may be left of the row.
pub(crate) fn meets_by_steps(cursor: &Cursor, low: usize, high: usize) -> Option<bool>
    requires { Nests cursor.now }
    ensures { IfSome result (λ b. IsTrue b ↔ ((m : ℕ) × LengthsBy (left_of cursor.now) 0 m × (m ≤ 8191) × (low ≤ m) × (m ≤ high))) }
{
    let high = high.min(8191);
    if high < low {
        return Some(false);
    }
    let waiting = cursor.pending.as_slice();
    let again = waiting_steps(waiting)?;
    let groups = groups_steps(cursor.items, cursor.before)?;
    let sum = Total::new(again, high - low);
    spread(
        sum,
        groups,
        after_groups(cursor.items),
        waiting,
        &mut Sought { bits: high },
    )
}

/// How many bits may be left of the row, up to 8,191, as a few sums.
pub(crate) fn kept_by_steps(cursor: &Cursor) -> Option<Kept>
    requires { Nests cursor.now }
    ensures { IfSome result (λ k. (m : ℕ) → m ≤ 8191 → InSums k.sums.items m ↔ LengthsBy (left_of cursor.now) 0 m) }
{
    let waiting = cursor.pending.as_slice();
    let again = waiting_steps(waiting)?;
    let groups = groups_steps(cursor.items, cursor.before)?;
    let items = after_groups(cursor.items);
    let mut sums = Kept::new();
    spread(Total::new(again, 0), groups, items, waiting, &mut sums)?;
    Some(sums)
}

/// A variable, the groups that look at its number, and how many bits all else may take that is left of a row.
#[derive(Drop)]
pub struct Around {
    pub var: Var,
    pub rest: &'static [RowItem],
    pub sums: Kept,
}

/// What is left of the row, around the groups that look at the variable in front. The sums are those up to 8,191.
pub(crate) fn around_first(cursor: &Cursor) -> Option<Around>
    requires { Nests cursor.now }
    ensures { IfSome result (λ a. (low high m : ℕ) → m ≤ 8191 → Plus (InSums a.sums.sums.items) (GroupsWithin a.var (layout a.rest.now) low high) m ↔ FitsWithin (left_of cursor.now) low high m) }
{
    match cursor.items.split_first() {
        Some((RowItem::One(var), rest)) => {
            let waiting = cursor.pending.as_slice();
            let sum = waiting_steps(waiting)?.plus(Progression::single(var.width()))?;
            let mut sums = Kept::new();
            onward(Total::new(sum, 0), after_groups(rest), waiting, &mut sums)?;
            Some(Around {
                var: *var,
                rest,
                sums,
            })
        }
        _ => None,
    }
}

impl Around {
    /// Whether a number of the variable from low to high, with its groups and all else, makes this many bits.
    pub(crate) fn any(&self, low: u64, high: u64, bits: usize) -> Option<bool>
        ensures { IfSome result (λ b. IsTrue b ↔ Plus (InSums self.now.sums.sums.items) (GroupsWithin self.now.var (layout self.now.rest.now) low high) bits) }
    {
        let groups = groups_within(self.var, self.rest, low, high)?;
        self.sums.any(groups, bits)
    }
}
