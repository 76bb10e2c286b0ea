//! The static speed profile.

ghost use Rattle.std.specs.Prelude.{◌≡◌, Some, None, IfOk, IfErr};
ghost use Rattle.etcs_grouped.specs.Chains.{chain_value, speed_profile_fault};

use crate::chain::{Chain, Chained};
use etcs_parts::Speed;
use etcs_vars::BuildFault;

/// The static speeds ahead (packet 27; SUBSET-026, 7.4.2).
pub type SpeedProfile = Chain<Speed>;

impl Chained for Speed {
    ghost use Rattle.std.specs.Prelude.{refl};

    const PACKET: u8 = 27;

    ghost PACKET = { 27 };

    ghost typed = { refl };
}

impl Chain<Speed> {
    /// The profile of these speeds, returned exactly if none of the errors below applies. Speeds are values already,
    /// and aren't checked again.
    ///
    /// - `dir`: Q_DIR, for which direction of the train it holds (0 reverse, 1 nominal, 2 both);
    /// - `q_scale`: the unit of all distances (0: 10 cm, 1: 1 m, 2: 10 m);
    /// - `first`: the first speed, whose distance counts from the reference point of the packet;
    /// - `further`: the speeds after it, in order, each at its distance from the one before.
    ///
    /// # Errors
    ///
    /// The first of these that applies, with the first speed and the further ones that were given:
    ///
    /// - `NotAdmitted` with Q_DIR, then with Q_SCALE: the number is above 2.
    /// - `TooMany(N_ITER)`: `further` has more than 31 speeds.
    /// - `TooLong`: the variables after L_PACKET take more than 8,168 bits.
    pub fn new(
        dir: u8,
        q_scale: u8,
        first: Speed,
        further: Vec<Speed>,
    ) -> Result<SpeedProfile, (BuildFault, Speed, Vec<Speed>)>
        ensures ok { IfOk result (λ p. p ≡ chain_value dir q_scale first further.items) }
        ensures none { IfOk result (λ p. speed_profile_fault (chain_value dir q_scale first further.items) ≡ None) }
        ensures fault { IfErr result (λ e. speed_profile_fault (chain_value dir q_scale first further.items) ≡ Some e.0) }
        ensures first { IfErr result (λ e. e.1 ≡ first) }
        ensures further { IfErr result (λ e. e.2.items ≡ further.items) }
    {
        Chain::build(dir, q_scale, first, further)
    }

    /// The first speed.
    pub fn first(&self) -> &Speed
        ensures { result.now ≡ self.now.first }
    {
        self.first_entry()
    }
}
