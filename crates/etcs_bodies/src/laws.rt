//! A law, the contract of a function: `==` is equality of values.

ghost use Rattle.std.specs.Prelude.{◌≡◌, ◌↔◌, IsTrue};

/// A type of which `==` is equality of values: it returns true exactly if both are the same value. Each type proves it.
pub trait Exact: PartialEq {
    ghost use Rattle.etcs_bodies.specs.Equality.{IsExact};

    ghost exact: { IsExact Self.eq };
}

/// `==` of two values is equality of the values: it returns true exactly if they are equal, and its body is `==`.
pub fn exact_equality<T: Exact>(first: &T, second: &T) -> bool
    ensures { IsTrue result ↔ (first.now ≡ second.now) }
{
    first == second
}
