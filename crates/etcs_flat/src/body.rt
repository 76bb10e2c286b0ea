//! The numbers of packets without groups.

ghost use Rattle.std.specs.Prelude.{IsSome};
ghost use Rattle.std.proofs.Common.{refl};
ghost use Rattle.etcs_flat.specs.Flats.{flat_row};

use crate::flat::Flat;

/// `N` is the number of a typed packet to the train whose row has no groups.
pub trait FlatNumber<const N: u8> {
    ghost flat: { IsSome (flat_row N) };
}

/// The numbers.
#[rattlefmt::skip]
mod numbers {
    use super::{Flat, FlatNumber};

    impl FlatNumber<2> for Flat<2> { ghost flat = { refl }; }
    impl FlatNumber<16> for Flat<16> { ghost flat = { refl }; }
    impl FlatNumber<42> for Flat<42> { ghost flat = { refl }; }
    impl FlatNumber<45> for Flat<45> { ghost flat = { refl }; }
    impl FlatNumber<57> for Flat<57> { ghost flat = { refl }; }
    impl FlatNumber<64> for Flat<64> { ghost flat = { refl }; }
    impl FlatNumber<65> for Flat<65> { ghost flat = { refl }; }
    impl FlatNumber<66> for Flat<66> { ghost flat = { refl }; }
    impl FlatNumber<131> for Flat<131> { ghost flat = { refl }; }
    impl FlatNumber<132> for Flat<132> { ghost flat = { refl }; }
    impl FlatNumber<135> for Flat<135> { ghost flat = { refl }; }
    impl FlatNumber<137> for Flat<137> { ghost flat = { refl }; }
    impl FlatNumber<140> for Flat<140> { ghost flat = { refl }; }
    impl FlatNumber<141> for Flat<141> { ghost flat = { refl }; }
    impl FlatNumber<145> for Flat<145> { ghost flat = { refl }; }
    impl FlatNumber<254> for Flat<254> { ghost flat = { refl }; }
}
