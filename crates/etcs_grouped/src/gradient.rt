//! The gradients ahead.

ghost use Rattle.std.specs.Prelude.{◌≡◌, Some, None, IfOk, IfErr};
ghost use Rattle.etcs_grouped.specs.Chains.{chain_value, gradient_fault};

use crate::chain::{Chain, Chained};
use etcs_parts::Slope;
use etcs_vars::BuildFault;

/// The gradients ahead (packet 21; SUBSET-026, 7.4.2).
pub type Gradient = Chain<Slope>;

impl Chained for Slope {
    ghost use Rattle.std.specs.Prelude.{refl};

    const PACKET: u8 = 21;

    ghost PACKET = { 21 };

    ghost typed = { refl };
}

impl Chain<Slope> {
    /// The packet of these slopes, returned exactly if none of the errors below applies. Slopes are values already, and
    /// aren't checked again.
    ///
    /// - `dir`: Q_DIR, for which direction of the train they hold (0 reverse, 1 nominal, 2 both);
    /// - `q_scale`: the unit of all distances (0: 10 cm, 1: 1 m, 2: 10 m);
    /// - `first`: the first slope, whose distance counts from the reference point of the packet;
    /// - `further`: the slopes after it, in order, each at its distance from the one before.
    ///
    /// # Errors
    ///
    /// The first of these that applies, with the further slopes that were given:
    ///
    /// - `NotAdmitted` with Q_DIR, then with Q_SCALE: the number is above 2.
    /// - `TooMany(N_ITER)`: `further` has more than 31 slopes.
    pub fn new(
        dir: u8,
        q_scale: u8,
        first: Slope,
        further: Vec<Slope>,
    ) -> Result<Gradient, (BuildFault, Vec<Slope>)>
        ensures ok { IfOk result (λ p. p ≡ chain_value dir q_scale first further.items) }
        ensures none { IfOk result (λ p. gradient_fault (chain_value dir q_scale first further.items) ≡ None) }
        ensures fault { IfErr result (λ e. gradient_fault (chain_value dir q_scale first further.items) ≡ Some e.0) }
        ensures further { IfErr result (λ e. e.1.items ≡ further.items) }
    {
        Chain::build(dir, q_scale, first, further).map_err(|(fault, _, further)| (fault, further))
    }

    /// The first slope.
    pub fn first(&self) -> Slope
        ensures { result ≡ self.now.first }
    {
        *self.first_entry()
    }
}
