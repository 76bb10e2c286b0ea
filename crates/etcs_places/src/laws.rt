//! Laws, each the contract of a function.

ghost use Rattle.etcs_places.specs.Places.{TwoDeep};

/// No row has more than two repeated groups inside one another, so a place has room for the entry of each of them.
pub fn two_deep()
    ensures { TwoDeep }
{}
