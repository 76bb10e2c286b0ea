//! Laws, each the contract of a function.

ghost use Rattle.std.specs.Prelude.{◌≡◌, ◌↔◌, IsTrue};

use crate::flat::Flat;
use crate::marker::Marker;
use crate::other::Other;

/// True exactly if the packets have the same direction and the same numbers; this is `==`.
pub fn exact_flat<const NID: u8>(first: &Flat<NID>, second: &Flat<NID>) -> bool
    ensures { IsTrue result ↔ (first.now ≡ second.now) }
{
    first == second
}

/// True exactly if the kept packets have the same number, direction and bits; this is `==`.
pub fn exact_other(first: &Other, second: &Other) -> bool
    ensures { IsTrue result ↔ (first.now ≡ second.now) }
{
    first == second
}

/// True exactly if the markers have the same number; this is `==`.
pub fn exact_marker(first: &Marker, second: &Marker) -> bool
    ensures { IsTrue result ↔ (first.now ≡ second.now) }
{
    first == second
}
