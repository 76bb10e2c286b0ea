//! A level with its length of acknowledgement.

ghost use Rattle.std.specs.Prelude.{◌≡◌, None, Some, IfOk, IfErr, OnOk};

use crate::level::Level;
use etcs_bodies::laws::Exact;
use etcs_bodies::{Entry, Numbers, Part, Plain, build_part, read_fields, send_fields};
use etcs_vars::inner::{VarSink, Variables};
use etcs_vars::{BuildFault, Var};
use std::alloc::{AllocError, Global};
use std::marker::Model;

/// Its fields in the order of its row.
macro_rules! fields {
    ($then:ident: $($with:tt)*) => { $then! { { $($with)* } level: Level; l_ackleveltr: L_ACKLEVELTR u16 } };
}

/// A level of a level transition order (packet 41; SUBSET-026, 7.4 and 7.5).
///
/// Its length is in steps of Q_SCALE: 0 is 10 cm, 1 is 1 m, 2 is 10 m.
#[derive(Clone, Copy, Debug, PartialEq, Eq)]
pub struct LevelAck {
    l_ackleveltr: u16,
    level: Level,
}

impl Model for LevelAck {
    ghost use Rattle.etcs_bodies.specs.Formats.{Is};
    ghost use Rattle.etcs_parts.specs.LevelAcks.{LevelAck, level_ack_format};

    ghost Value = { LevelAck };

    ghost view = { λ s. s };

    ghost invariant = { Is level_ack_format };

    ghost inverse = { λ s. s };
}

impl LevelAck {
    ghost use Rattle.etcs_parts.specs.LevelAcks.{level_ack_value, level_ack_fault};

    /// A level and its length of acknowledgement, returned exactly if none of the errors below applies.
    ///
    /// `m_leveltr` is 0 for level 0, 1 for level NTC, 2 for level 1, 3 for level 2, 4 for level 3.
    /// `nid_ntc` is the national system, given for level NTC alone. `l_ackleveltr` is the
    /// length before the transition in which the driver has to acknowledge it, in steps of
    /// Q_SCALE.
    ///
    /// # Errors
    ///
    /// The first of these that applies:
    ///
    /// - `NotAdmitted(M_LEVELTR)`: the level is above 4.
    /// - `Guard(M_LEVELTR)`: level NTC has no national system, or another level has one.
    /// - `NotAdmitted(L_ACKLEVELTR)`: the length is above 32,767.
    pub fn new(
        m_leveltr: u8,
        nid_ntc: Option<u8>,
        l_ackleveltr: u16,
    ) -> Result<LevelAck, BuildFault>
        ensures ok { IfOk result (λ l. l ≡ level_ack_value m_leveltr nid_ntc l_ackleveltr) }
        ensures fits { OnOk result (level_ack_fault (level_ack_value m_leveltr nid_ntc l_ackleveltr) ≡ None) }
        ensures fault { IfErr result (λ e. level_ack_fault (level_ack_value m_leveltr nid_ntc l_ackleveltr) ≡ Some e) }
    {
        fields!(build_part: Level::new(m_leveltr, nid_ntc)?; l_ackleveltr)
    }

    /// M_LEVELTR of its level: 0 for level 0, 1 for level NTC, 2 for level 1, 3 for level 2, 4 for level 3.
    pub fn m_leveltr(&self) -> u8
        ensures { result ≡ self.now.level.m_leveltr }
    {
        self.level.m_leveltr()
    }

    /// NID_NTC of its level, the national system of level NTC; `None` for another level.
    pub fn nid_ntc(&self) -> Option<u8>
        ensures { result ≡ self.now.level.nid_ntc }
    {
        self.level.nid_ntc()
    }

    /// The length of acknowledgement, in steps of Q_SCALE.
    pub fn l_ackleveltr(&self) -> u16
        ensures { result ≡ self.now.l_ackleveltr }
    {
        self.l_ackleveltr
    }
}

impl Variables for LevelAck {
    ghost use Rattle.etcs_bodies.specs.Formats.{reading};
    ghost use Rattle.etcs_parts.specs.LevelAcks.{level_ack_format};

    ghost reading_of = { λ p. reading level_ack_format p };

    #[tactic(auto, using(etcs_bodies::specs::laws::Repeats::bit_count_is))]
    fn bits(&self) -> usize {
        self.level.bits() + 15
    }

    #[inline(always)]
    fn send<S: VarSink>(&self, out: &mut S) -> Result<(), AllocError> {
        fields!(send_fields: self, out)
    }
}

impl Part for LevelAck {
    ghost use Rattle.etcs_tables.specs.Rows.{level_ack};
    ghost use Rattle.etcs_bodies.specs.Formats.{from, Is};
    ghost use Rattle.etcs_parts.specs.LevelAcks.{level_ack_format};
    ghost use Rattle.etcs_bodies.specs.laws.Formats.{codes_of};
    ghost use Rattle.etcs_parts.specs.laws.Levels.{level_ack_ok};

    ghost row = { level_ack };

    ghost read_from = { from level_ack_format };

    ghost is_part = { λ p. Is level_ack_format p };

    ghost codes = { codes_of level_ack_format level_ack_ok };

    fn holds(&self) {
        let _ = &self.l_ackleveltr;
    }

    #[inline(always)]
    fn take<L: Numbers>(_alloc: Global, numbers: &mut L) -> Result<Option<LevelAck>, AllocError> {
        Ok(LevelAck::read(numbers))
    }

    fn try_clone(&self, _alloc: Global) -> Result<LevelAck, AllocError> {
        Ok(*self)
    }
}

impl Plain for LevelAck {
    #[inline(always)]
    fn read<L: Numbers>(numbers: &mut L) -> Option<LevelAck> {
        fields!(read_fields: numbers)
    }
}

impl Entry for LevelAck {
    ghost use Rattle.std.specs.Prelude.{refl};
    ghost use Rattle.etcs_bodies.specs.laws.Formats.{at_most};
    ghost use Rattle.etcs_parts.specs.LevelAcks.{level_ack_format};

    const MOST: usize = 26;

    ghost MOST = { 26 };

    ghost most = { λ p h. at_most level_ack_format p h };

    ghost short = { refl };
}

impl Exact for LevelAck {
    ghost use Rattle.etcs_parts.specs.laws.Levels.{level_ack_exact};

    ghost exact = { level_ack_exact };
}
