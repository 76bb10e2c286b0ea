//! The numbers of a set next to a number.

ghost use Rattle.std.specs.Prelude.{◌≡◌, None};
ghost use Rattle.etcs_rows.specs.Nearest.{greater, less, up_to};

/// The numbers of a set next to a number, each `None` if there is no such number.
#[derive(Clone, Copy)]
pub struct Near {
    /// The greatest that isn't above it.
    pub below: Option<usize>,
    /// The least that isn't below it.
    pub above: Option<usize>,
}

/// The greater one, of those that are there.
fn greater_of(first: Option<usize>, second: Option<usize>) -> Option<usize>
    ensures { result ≡ greater first second }
{
    match first {
        None => second,
        Some(a) => match second {
            None => Some(a),
            Some(b) => Some(if a < b { b } else { a }),
        },
    }
}

/// The lesser one, of those that are there.
fn less_of(first: Option<usize>, second: Option<usize>) -> Option<usize>
    ensures { result ≡ less first second }
{
    match first {
        None => second,
        Some(a) => match second {
            None => Some(a),
            Some(b) => Some(if b < a { b } else { a }),
        },
    }
}

impl Near {
    /// Those of no numbers.
    pub(crate) fn none() -> Near
        ensures below { result.below ≡ None }
        ensures above { result.above ≡ None }
    {
        Near {
            below: None,
            above: None,
        }
    }

    /// Those of the numbers of two sets.
    pub(crate) fn or(self, other: Near) -> Near
        ensures below { result.below ≡ greater self.below other.below }
        ensures above { result.above ≡ less self.above other.above }
    {
        Near {
            below: greater_of(self.below, other.below),
            above: less_of(self.above, other.above),
        }
    }

    /// The same of the numbers up to `most`: the one above is left out if it is greater. Meant for a `most` that isn't
    /// below the number that they are next to; the one below is kept in any case.
    pub fn to(self, most: usize) -> Near
        ensures below { result.below ≡ self.below }
        ensures above { result.above ≡ up_to most self.above }
    {
        match self.above {
            None => self,
            Some(above) => Near {
                below: self.below,
                above: if above > most { None } else { Some(above) },
            },
        }
    }
}
