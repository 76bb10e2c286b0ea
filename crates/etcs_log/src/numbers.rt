//! Sets of numbers of packets or messages.

ghost use Rattle.std.specs.Prelude.{◌≡◌};
ghost use Rattle.etcs_log.specs.Numbers.{has_number, no_numbers, with_number};

/// A set of numbers from 0 to 255.
#[derive(Clone, Copy, Debug, PartialEq, Eq)]
pub struct NumberSet {
    /// Whether it has any.
    pub(crate) any: bool,
    /// Whether it has the number of this place.
    numbers: [bool; 256],
}

impl NumberSet {
    /// Returns the empty set.
    pub fn new() -> NumberSet
        ensures { result ≡ no_numbers }
    {
        NumberSet {
            any: false,
            numbers: [false; 256],
        }
    }

    /// Returns this set and this number.
    pub fn with(self, number: u8) -> NumberSet
        ensures { result ≡ with_number self number }
    {
        let mut set = self;
        set.any = true;
        set.numbers[usize::from(number)] = true;
        set
    }

    /// Returns whether it has this number.
    pub fn contains(&self, number: u8) -> bool
        ensures { result ≡ has_number self.now number }
    {
        self.numbers[usize::from(number)]
    }
}
