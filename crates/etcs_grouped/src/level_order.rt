//! The level transition order.

ghost use Rattle.std.specs.Prelude.{◌≡◌, None, Some, IfOk, IfErr};
ghost use Rattle.etcs_grouped.specs.LevelOrders.{level_order_value, level_order_fault};

use etcs_bodies::laws::Exact;
use etcs_bodies::{
    Body, Entries, Numbers, Part, Passing, build_packet, copy_fields, send_fields, take_fields,
};
use etcs_parts::LevelAck;
use etcs_tables::Way;
use etcs_vars::inner::{VarSink, Variables};
use etcs_vars::{BuildFault, Var};
use std::alloc::{AllocError, Global};
use std::marker::Model;

/// Its fields in the order of its row.
macro_rules! fields {
    ($then:ident: $($with:tt)*) => { $then! { { $($with)* } q_scale: Q_SCALE u8, d_leveltr: D_LEVELTR u16; levels: Entries } };
}

/// The level transition order: to which level the train changes, and where (packet 41; SUBSET-026, 7.4.2).
#[derive(Debug, Drop, PartialEq, Eq)]
pub struct LevelOrder {
    dir: u8,
    q_scale: u8,
    d_leveltr: u16,
    levels: Entries<LevelAck>,
}

impl Model for LevelOrder {
    ghost use Rattle.etcs_bodies.specs.PacketFormats.{IsPacketOf};
    ghost use Rattle.etcs_grouped.specs.LevelOrders.{level_order_packet, LevelOrderValue, level_order_value};

    ghost Value = { LevelOrderValue };

    ghost view = { λ s. level_order_value s.dir s.q_scale s.d_leveltr s.levels.0 s.levels.1 };

    ghost invariant = { λ s. IsPacketOf level_order_packet (level_order_value s.dir s.q_scale s.d_leveltr s.levels.0 s.levels.1) };

    ghost inverse = { λ s. record { dir = s.dir; q_scale = s.q_scale; d_leveltr = s.d_leveltr; levels = (s.first, s.further) } };
}

impl LevelOrder {
    /// The order to these levels, returned exactly if none of the errors below applies. Levels are values already, and
    /// aren't checked again.
    ///
    /// - `dir`: Q_DIR, for which direction of the train it holds (0 reverse, 1 nominal, 2 both);
    /// - `q_scale`: the unit of the distance and of the lengths of acknowledgement (0: 10 cm, 1: 1 m, 2: 10 m);
    /// - `d_leveltr`: the distance to the place of the transition, 0 to 32,766 units; 32,767 is now;
    /// - `first`: the level of the highest priority;
    /// - `further`: the other levels, in falling priority.
    ///
    /// # Errors
    ///
    /// The first of these that applies, with the further levels that were given:
    ///
    /// - `NotAdmitted` with the first of Q_DIR (0 to 2), Q_SCALE (0 to 2) and D_LEVELTR (15 bits) that doesn't admit
    ///   its number.
    /// - `TooMany(N_ITER)`: `further` has more than 31 levels.
    pub fn new(
        dir: u8,
        q_scale: u8,
        d_leveltr: u16,
        first: LevelAck,
        further: Vec<LevelAck>,
    ) -> Result<LevelOrder, (BuildFault, Vec<LevelAck>)>
        ensures ok { IfOk result (λ p. p ≡ level_order_value dir q_scale d_leveltr first further.items) }
        ensures none { IfOk result (λ p. level_order_fault (level_order_value dir q_scale d_leveltr first further.items) ≡ None) }
        ensures fault { IfErr result (λ e. level_order_fault (level_order_value dir q_scale d_leveltr first further.items) ≡ Some e.0) }
        ensures further { IfErr result (λ e. e.1.items ≡ further.items) }
    {
        fields!(build_packet: [further] dir; q_scale, d_leveltr; match Entries::new(first, further) {
            Ok(levels) => levels,
            Err((fault, _, further)) => return Err((fault, further)),
        })
    }

    /// Q_SCALE: the unit of the distance and of the lengths of acknowledgement (0: 10 cm, 1: 1 m, 2: 10 m).
    pub fn q_scale(&self) -> u8
        ensures { result ≡ self.now.q_scale }
    {
        self.q_scale
    }

    /// D_LEVELTR: the distance to the place of the transition, in units of Q_SCALE; 32,767 is now.
    pub fn d_leveltr(&self) -> u16
        ensures { result ≡ self.now.d_leveltr }
    {
        self.d_leveltr
    }

    /// The level of the highest priority.
    pub fn first(&self) -> LevelAck
        ensures { result ≡ self.now.first }
    {
        *self.levels.first()
    }

    /// The other levels, in falling priority.
    pub fn further(&self) -> &[LevelAck]
        ensures { result.now ≡ self.now.further }
    {
        self.levels.further()
    }
}

impl Variables for LevelOrder {
    ghost use Rattle.etcs_bodies.specs.PacketFormats.{packet_reading};
    ghost use Rattle.etcs_grouped.specs.LevelOrders.{level_order_packet};

    ghost reading_of = { λ p. packet_reading level_order_packet p };

    #[tactic(auto, using(crate::specs::laws::LevelOrders::level_order_length))]
    fn bits(&self) -> usize {
        17 + self.levels.bits()
    }

    fn send<S: VarSink>(&self, out: &mut S) -> Result<(), AllocError> {
        fields!(send_fields: self, out)
    }
}

impl Body for LevelOrder {
    ghost use Rattle.etcs_tables.specs.declared.row.Way.TheVariants.{ToTrain};
    ghost use Rattle.etcs_bodies.specs.PacketFormats.{IsPacketOf, packet_left};
    ghost use Rattle.etcs_grouped.specs.LevelOrders.{level_order_packet};
    ghost use Rattle.etcs_grouped.specs.laws.LevelOrders.{level_order_codes};

    const NID: u8 = 41;

    const WAY: Way = Way::ToTrain;

    ghost NID = { 41 };

    ghost WAY = { ToTrain };

    ghost direction = { λ p. p.dir };

    ghost is_value = { λ p. IsPacketOf level_order_packet p };

    ghost read_from = { λ dir s. packet_left level_order_packet dir s };

    ghost codes = { level_order_codes };

    fn q_dir(&self) -> u8 {
        self.dir
    }

    #[tactic(auto, using(etcs_bodies::specs::laws::Takes::number_ok), unfolding(etcs_bodies::specs::PacketCodes::directed_from))]
    fn take<L: Numbers>(
        alloc: Global,
        dir: u8,
        numbers: &mut L,
    ) -> Result<Option<Self>, AllocError> {
        fields!(take_fields: alloc, numbers, dir)
    }

    #[inline(always)]
    fn pass<L: Numbers, S: VarSink>(numbers: &mut L, out: &mut S) -> Result<bool, AllocError> {
        let run = (Var::Q_SCALE, Var::D_LEVELTR);
        let Some((q_scale, d_leveltr)) = numbers.run(run) else {
            return Ok(false);
        };
        out.send(&[(Var::Q_SCALE, q_scale), (Var::D_LEVELTR, d_leveltr)])?;
        Entries::<LevelAck>::pass(numbers, out)
    }

    fn copy(&self, alloc: Global) -> Result<LevelOrder, AllocError> {
        fields!(copy_fields: self, alloc, dir)
    }
}

impl Exact for LevelOrder {
    ghost use Rattle.etcs_grouped.specs.laws.LevelOrders.{level_order_exact};

    ghost exact = { level_order_exact };
}
