//! The conditional level transition order.

ghost use Rattle.std.specs.Prelude.{◌≡◌, None, Some, IfOk, IfErr};
ghost use Rattle.etcs_grouped.specs.ConditionalLevelOrders.{conditional_level_order_value, conditional_level_order_fault};

use etcs_bodies::laws::Exact;
use etcs_bodies::{Body, Entries, Numbers, Part, Passing, check_field, taken};
use etcs_parts::Level;
use etcs_tables::Way;
use etcs_vars::inner::{VarSink, Variables};
use etcs_vars::{BuildFault, Var};
use std::alloc::{AllocError, Global};
use std::marker::Model;

/// The conditional level transition order: to one of these levels, if the train isn't in one of them (packet 46;
/// SUBSET-026, 7.4.2).
#[derive(Debug, Drop, PartialEq, Eq)]
pub struct ConditionalLevelOrder {
    dir: u8,
    levels: Entries<Level>,
}

impl Model for ConditionalLevelOrder {
    ghost use Rattle.etcs_bodies.specs.PacketFormats.{IsPacketOf};
    ghost use Rattle.etcs_grouped.specs.ConditionalLevelOrders.{conditional_level_order_packet, ConditionalLevelOrderValue, conditional_level_order_value};

    ghost Value = { ConditionalLevelOrderValue };

    ghost view = { λ s. conditional_level_order_value s.dir s.levels.0 s.levels.1 };

    ghost invariant = { λ s. IsPacketOf conditional_level_order_packet (conditional_level_order_value s.dir s.levels.0 s.levels.1) };

    ghost inverse = { λ s. record { dir = s.dir; levels = (s.first, s.further) } };
}

impl ConditionalLevelOrder {
    /// The order to these levels, returned exactly if none of the errors below applies. Levels are values already, and
    /// aren't checked again.
    ///
    /// - `dir`: Q_DIR, for which direction of the train it holds (0 reverse, 1 nominal, 2 both);
    /// - `first`: the level of the highest priority;
    /// - `further`: the other levels, in falling priority.
    ///
    /// # Errors
    ///
    /// The first of these that applies, with the further levels that were given:
    ///
    /// - `NotAdmitted(Q_DIR)`: the direction is above 2.
    /// - `TooMany(N_ITER)`: `further` has more than 31 levels.
    pub fn new(
        dir: u8,
        first: Level,
        further: Vec<Level>,
    ) -> Result<ConditionalLevelOrder, (BuildFault, Vec<Level>)>
        ensures ok { IfOk result (λ p. p ≡ conditional_level_order_value dir first further.items) }
        ensures none { IfOk result (λ p. conditional_level_order_fault (conditional_level_order_value dir first further.items) ≡ None) }
        ensures fault { IfErr result (λ e. conditional_level_order_fault (conditional_level_order_value dir first further.items) ≡ Some e.0) }
        ensures further { IfErr result (λ e. e.1.items ≡ further.items) }
    {
        check_field!([further] dir Q_DIR u8);
        let levels = Entries::new(first, further).map_err(|(fault, _, further)| (fault, further))?;
        Ok(ConditionalLevelOrder { dir, levels })
    }

    /// The level of the highest priority.
    pub fn first(&self) -> Level
        ensures { result ≡ self.now.first }
    {
        *self.levels.first()
    }

    /// The other levels, in falling priority.
    pub fn further(&self) -> &[Level]
        ensures { result.now ≡ self.now.further }
    {
        self.levels.further()
    }
}

impl Variables for ConditionalLevelOrder {
    ghost use Rattle.etcs_bodies.specs.PacketFormats.{packet_reading};
    ghost use Rattle.etcs_grouped.specs.ConditionalLevelOrders.{conditional_level_order_packet};

    ghost reading_of = { λ p. packet_reading conditional_level_order_packet p };

    fn bits(&self) -> usize {
        self.levels.bits()
    }

    fn send<S: VarSink>(&self, out: &mut S) -> Result<(), AllocError> {
        self.levels.send(out)
    }
}

impl Body for ConditionalLevelOrder {
    ghost use Rattle.etcs_tables.specs.declared.row.Way.TheVariants.{ToTrain};
    ghost use Rattle.etcs_bodies.specs.PacketFormats.{IsPacketOf, packet_left};
    ghost use Rattle.etcs_grouped.specs.ConditionalLevelOrders.{conditional_level_order_packet};
    ghost use Rattle.etcs_grouped.specs.laws.ConditionalLevelOrders.{conditional_level_order_codes};

    const NID: u8 = 46;

    const WAY: Way = Way::ToTrain;

    ghost NID = { 46 };

    ghost WAY = { ToTrain };

    ghost direction = { λ p. p.dir };

    ghost is_value = { λ p. IsPacketOf conditional_level_order_packet p };

    ghost read_from = { λ dir s. packet_left conditional_level_order_packet dir s };

    ghost codes = { conditional_level_order_codes };

    fn q_dir(&self) -> u8 {
        self.dir
    }

    #[tactic(auto, using(etcs_bodies::specs::laws::Takes::number_ok), unfolding(etcs_bodies::specs::PacketCodes::directed_from))]
    fn take<L: Numbers>(
        alloc: Global,
        dir: u8,
        numbers: &mut L,
    ) -> Result<Option<Self>, AllocError> {
        let levels = taken!(Entries::take(alloc, numbers)?);
        Ok(Some(ConditionalLevelOrder { dir, levels }))
    }

    #[inline(always)]
    fn pass<L: Numbers, S: VarSink>(numbers: &mut L, out: &mut S) -> Result<bool, AllocError> {
        Entries::<Level>::pass(numbers, out)
    }

    fn copy(&self, alloc: Global) -> Result<ConditionalLevelOrder, AllocError> {
        Ok(ConditionalLevelOrder {
            dir: self.dir,
            levels: self.levels.try_clone(alloc)?,
        })
    }
}

impl Exact for ConditionalLevelOrder {
    ghost use Rattle.etcs_grouped.specs.laws.ConditionalLevelOrders.{conditional_level_order_exact};

    ghost exact = { conditional_level_order_exact };
}
