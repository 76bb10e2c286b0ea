//! The areas ahead in which the train runs in another mode.

ghost use Rattle.std.specs.Prelude.{◌≡◌, Some, None, IfOk, IfErr};
ghost use Rattle.etcs_grouped.specs.Chains.{chain_value, mode_profile_fault};

use crate::chain::{Chain, Chained};
use etcs_parts::ModeSection;
use etcs_vars::BuildFault;

/// The areas ahead in which the train runs on sight, in shunting or under limited supervision (packet 80; SUBSET-026,
/// 7.4.2).
pub type ModeProfile = Chain<ModeSection>;

impl Chained for ModeSection {
    ghost use Rattle.std.specs.Prelude.{refl};

    const PACKET: u8 = 80;

    ghost PACKET = { 80 };

    ghost typed = { refl };
}

impl Chain<ModeSection> {
    /// The packet of these areas, returned exactly if none of the errors below applies. Areas are values already, and
    /// aren't checked again.
    ///
    /// - `dir`: Q_DIR, for which direction of the train they hold (0 reverse, 1 nominal, 2 both);
    /// - `q_scale`: the unit of all distances (0: 10 cm, 1: 1 m, 2: 10 m);
    /// - `first`: the first area, whose distance counts from the reference point of the packet;
    /// - `further`: the areas after it, in order, each at its distance from the one before.
    ///
    /// # Errors
    ///
    /// The first of these that applies, with the further areas that were given:
    ///
    /// - `NotAdmitted` with Q_DIR, then with Q_SCALE: the number is above 2.
    /// - `TooMany(N_ITER)`: `further` has more than 31 areas.
    pub fn new(
        dir: u8,
        q_scale: u8,
        first: ModeSection,
        further: Vec<ModeSection>,
    ) -> Result<ModeProfile, (BuildFault, Vec<ModeSection>)>
        ensures ok { IfOk result (λ p. p ≡ chain_value dir q_scale first further.items) }
        ensures none { IfOk result (λ p. mode_profile_fault (chain_value dir q_scale first further.items) ≡ None) }
        ensures fault { IfErr result (λ e. mode_profile_fault (chain_value dir q_scale first further.items) ≡ Some e.0) }
        ensures further { IfErr result (λ e. e.1.items ≡ further.items) }
    {
        Chain::build(dir, q_scale, first, further).map_err(|(fault, _, further)| (fault, further))
    }

    /// The first area.
    pub fn first(&self) -> ModeSection
        ensures { result ≡ self.now.first }
    {
        *self.first_entry()
    }
}
