//! The linked balise groups ahead.

ghost use Rattle.std.specs.Prelude.{◌≡◌, Some, None, IfOk, IfErr};
ghost use Rattle.etcs_grouped.specs.Chains.{chain_value, linking_fault};

use crate::chain::{Chain, Chained};
use etcs_parts::Link;
use etcs_vars::BuildFault;

/// The linked balise groups ahead (packet 5; SUBSET-026, 7.4.2).
pub type Linking = Chain<Link>;

impl Chained for Link {
    ghost use Rattle.std.specs.Prelude.{refl};

    const PACKET: u8 = 5;

    ghost PACKET = { 5 };

    ghost typed = { refl };
}

impl Chain<Link> {
    /// The packet of these groups, returned exactly if none of the errors below applies. Groups are values already, and
    /// aren't checked again.
    ///
    /// - `dir`: Q_DIR, for which direction of the train they hold (0 reverse, 1 nominal, 2 both);
    /// - `q_scale`: the unit of all distances (0: 10 cm, 1: 1 m, 2: 10 m);
    /// - `first`: the first group, whose distance counts from the reference point of the packet;
    /// - `further`: the groups after it, in order, each at its distance from the one before.
    ///
    /// # Errors
    ///
    /// The first of these that applies, with the further groups that were given:
    ///
    /// - `NotAdmitted` with Q_DIR, then with Q_SCALE: the number is above 2.
    /// - `TooMany(N_ITER)`: `further` has more than 31 groups.
    pub fn new(
        dir: u8,
        q_scale: u8,
        first: Link,
        further: Vec<Link>,
    ) -> Result<Linking, (BuildFault, Vec<Link>)>
        ensures ok { IfOk result (λ p. p ≡ chain_value dir q_scale first further.items) }
        ensures none { IfOk result (λ p. linking_fault (chain_value dir q_scale first further.items) ≡ None) }
        ensures fault { IfErr result (λ e. linking_fault (chain_value dir q_scale first further.items) ≡ Some e.0) }
        ensures further { IfErr result (λ e. e.1.items ≡ further.items) }
    {
        Chain::build(dir, q_scale, first, further).map_err(|(fault, _, further)| (fault, further))
    }

    /// The first group.
    pub fn first(&self) -> Link
        ensures { result ≡ self.now.first }
    {
        *self.first_entry()
    }
}
