//! A list of items that has a value.

ghost use Rattle.std.specs.Prelude.{◌≡◌, ℕ, List, length};
ghost use Rattle.std.specs.Cmp.Lexicographic.{lists_per, lists_equiv, pointwise};

use std::marker::Model;

/// A list; contracts see its items alone.
#[derive(Debug, Drop)]
pub struct ListOf<T> {
    held: Vec<T>,
}

impl<T> Model for ListOf<T> {
    ghost Value = { List T };

    ghost view = { λ s. s.held.items };
}

impl<T> ListOf<T> {
    /// The list of these items, in order.
    pub fn from_vec(held: Vec<T>) -> ListOf<T>
        ensures { result ≡ held.items }
    {
        ListOf { held }
    }

    /// The items as a vector, in order.
    pub fn into_vec(self) -> Vec<T>
        ensures { result.items ≡ self }
    {
        let ListOf { held } = self;
        held
    }

    /// The items, borrowed, in order.
    pub fn as_slice(&self) -> &[T]
        ensures { result.now ≡ self.now }
    {
        self.held.as_slice()
    }

    /// How many items there are.
    pub fn len(&self) -> usize
        ensures { result ≡ length self.now }
    {
        self.held.len()
    }
}

impl<T: PartialEq> PartialEq for ListOf<T> {
    ghost eq = { pointwise T.eq };

    ghost laws = { lists_per T.laws };

    fn eq(&self, other: &ListOf<T>) -> bool {
        self.held == other.held
    }
}

impl<T: Eq> Eq for ListOf<T> {
    ghost laws = { lists_equiv T.Eq.laws };
}
