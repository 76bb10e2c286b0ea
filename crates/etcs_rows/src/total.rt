//! Sums of lengths whose parts are added one after another.

ghost use Rattle.std.specs.Prelude.{◌↔◌, ℕ, IsTrue, IfSome};
ghost use Rattle.etcs_rows.specs.Progressions.{InProgression, TimesWithin, AtMost};
ghost use Rattle.etcs_rows.specs.Totals.{InTotal, InAdded, AreTotal};
ghost use Rattle.etcs_rows.specs.Sums.{Plus};
ghost use Rattle.etcs_rows.specs.Nearest.{IsNear};

use crate::near::Near;
use crate::progression::Progression;

/// How many bits a group takes each time, and how often it may occur.
#[derive(Clone, Copy)]
pub struct Times {
    pub group: Progression,
    pub first: u64,
    pub last: u64,
}

/// The sums of numbers in equal steps, of a group as often as it may be there, and of at most `slack` more. How often
/// it occurs is tried only at the end.
#[derive(Clone, Copy)]
pub struct Total {
    pub steps: Progression,
    pub times: Option<Times>,
    pub slack: usize,
}

impl Default for Total {
    fn default() -> Total {
        Total {
            steps: Progression {
                first: 0,
                step: 0,
                count: 0,
            },
            times: None,
            slack: 0,
        }
    }
}

/// What is added to sums.
#[derive(Clone, Copy)]
pub enum Added {
    /// Numbers in equal steps.
    Steps(Progression),
    /// A group.
    Times(Times),
}

impl Total {
    /// Numbers in equal steps, with at most `slack` more.
    pub(crate) fn new(steps: Progression, slack: usize) -> Total
        ensures { AreTotal result (Plus (InProgression steps) (AtMost slack)) }
    {
        Total {
            steps,
            times: None,
            slack,
        }
    }

    /// With a number of other steps added, if all are in equal steps.
    pub(crate) fn plus(self, more: Progression) -> Option<Total>
        ensures { IfSome result (λ t. AreTotal t (Plus (InTotal self) (InProgression more))) }
    {
        let steps = self.steps.plus(more)?;
        Some(Total { steps, ..self })
    }

    /// With other steps in place of its own.
    pub(crate) fn with_steps(self, steps: Progression) -> Total
        ensures { (m : ℕ) → Plus (InTotal result) (InProgression self.steps) m ↔ Plus (InTotal self) (InProgression steps) m }
    {
        Total { steps, ..self }
    }

    /// With a part added, if the sum is of this form again.
    pub(crate) fn with(self, added: Added) -> Option<Total>
        ensures { IfSome result (λ t. AreTotal t (Plus (InTotal self) (InAdded added))) }
    {
        match added {
            Added::Steps(more) => self.plus(more),
            Added::Times(times) => self.with_times(times),
        }
    }

    /// With a group that occurs from first to last times, if it has none.
    fn with_times(self, times: Times) -> Option<Total>
        ensures { IfSome result (λ t. AreTotal t (Plus (InTotal self) (TimesWithin times.group times.first times.last))) }
    {
        match self.times {
            None => Some(Total {
                times: Some(times),
                ..self
            }),
            Some(_) => None,
        }
    }

    /// Those next to a number, if there is no slack.
    pub(crate) fn around(self, number: usize) -> Option<Near>
        ensures { IfSome result (λ n. IsNear (InTotal self) number n) }
    {
        if self.slack > 0 {
            return None;
        }
        match self.times {
            None => self.steps.around(number),
            Some(times) => times_around(self.steps, times, number),
        }
    }

    /// Whether the number is one of the sums.
    pub(crate) fn holds(self, number: usize) -> Option<bool>
        ensures { IfSome result (λ b. IsTrue b ↔ InTotal self number) }
    {
        match self.times {
            None => Some(self.steps.near(self.slack, number)),
            Some(times) => any_times(self.steps, times, self.slack, number),
        }
    }
}

/// Whether a number of the steps, a group as often as it may be there, and at most `slack` more make the number.
fn any_times(sum: Progression, times: Times, slack: usize, number: usize) -> Option<bool>
    ensures { IfSome result (λ b. IsTrue b ↔ Plus (InProgression sum) (Plus (TimesWithin times.group times.first times.last) (AtMost slack)) number) }
{
    let end = times.last.checked_add(1)?;
    for count in times.first..end {
        let all = times.group.times(count)?;
        if sum.first.checked_add(all.first)? > number {
            return Some(false);
        }
        if sum.plus(all)?.near(slack, number) {
            return Some(true);
        }
    }
    Some(false)
}

/// The sums next to a number of a number of the steps and a group as often as it may be there.
fn times_around(sum: Progression, times: Times, number: usize) -> Option<Near>
    ensures { IfSome result (λ n. IsNear (Plus (InProgression sum) (TimesWithin times.group times.first times.last)) number n) }
{
    let end = times.last.checked_add(1)?;
    let mut near = Near::none();
    for count in times.first..end {
        let all = sum.plus(times.group.times(count)?)?;
        near = near.or(all.around(number)?);
    }
    Some(near)
}
