//! A level.

ghost use Rattle.std.specs.Prelude.{◌≡◌, None, Some, IfOk, IfErr, OnOk};

use etcs_bodies::laws::Exact;
use etcs_bodies::{Entry, Numbers, Part, Plain, check, check_guard};
use etcs_vars::inner::{VarSink, Variables};
use etcs_vars::{BuildFault, Var};
use std::alloc::{AllocError, Global};
use std::marker::Model;

/// A level of a conditional level transition (packet 46; SUBSET-026, 7.4 and 7.5).
#[derive(Clone, Copy, Debug, PartialEq, Eq)]
pub struct Level {
    m_leveltr: u8,
    nid_ntc: Option<u8>,
}

impl Model for Level {
    ghost use Rattle.etcs_bodies.specs.Formats.{Is};
    ghost use Rattle.etcs_parts.specs.Levels.{Level, level_format};

    ghost Value = { Level };

    ghost view = { λ s. s };

    ghost invariant = { Is level_format };

    ghost inverse = { λ s. s };
}

impl Level {
    ghost use Rattle.etcs_parts.specs.Levels.{level_value, level_fault};

    /// The level of these numbers, returned exactly if none of the errors below applies.
    ///
    /// `m_leveltr` is 0 for level 0, 1 for level NTC, 2 for level 1, 3 for level 2, 4 for level 3.
    /// `nid_ntc` is the national system, given for level NTC alone.
    ///
    /// # Errors
    ///
    /// The first of these that applies:
    ///
    /// - `NotAdmitted(M_LEVELTR)`: the level is above 4.
    /// - `Guard(M_LEVELTR)`: level NTC has no national system, or another level has one.
    pub fn new(m_leveltr: u8, nid_ntc: Option<u8>) -> Result<Level, BuildFault>
        ensures ok { IfOk result (λ l. l ≡ level_value m_leveltr nid_ntc) }
        ensures fits { OnOk result (level_fault (level_value m_leveltr nid_ntc) ≡ None) }
        ensures fault { IfErr result (λ e. level_fault (level_value m_leveltr nid_ntc) ≡ Some e) }
    {
        check(Var::M_LEVELTR, u64::from(m_leveltr))?;
        check_guard(Var::M_LEVELTR, m_leveltr == 1, nid_ntc.is_some())?;
        if let Some(system) = nid_ntc {
            check(Var::NID_NTC, u64::from(system))?;
        }
        Ok(Level { m_leveltr, nid_ntc })
    }

    /// M_LEVELTR: 0 for level 0, 1 for level NTC, 2 for level 1, 3 for level 2, 4 for level 3.
    pub fn m_leveltr(&self) -> u8
        ensures { result ≡ self.now.m_leveltr }
    {
        self.m_leveltr
    }

    /// NID_NTC, the national system of level NTC; `None` for another level.
    pub fn nid_ntc(&self) -> Option<u8>
        ensures { result ≡ self.now.nid_ntc }
    {
        self.nid_ntc
    }
}

impl Variables for Level {
    ghost use Rattle.etcs_bodies.specs.Formats.{reading};
    ghost use Rattle.etcs_parts.specs.Levels.{level_format};

    ghost reading_of = { λ p. reading level_format p };

    #[tactic(auto, using(crate::specs::laws::Levels::level_bits))]
    fn bits(&self) -> usize {
        3 + 8 * usize::from(self.nid_ntc.is_some())
    }

    #[inline(always)]
    fn send<S: VarSink>(&self, out: &mut S) -> Result<(), AllocError> {
        match self.nid_ntc {
            None => out.send(&[(Var::M_LEVELTR, u64::from(self.m_leveltr))]),
            Some(system) => out.send(&[
                (Var::M_LEVELTR, u64::from(self.m_leveltr)),
                (Var::NID_NTC, u64::from(system)),
            ]),
        }
    }
}

impl Part for Level {
    ghost use Rattle.etcs_tables.specs.Rows.{level};
    ghost use Rattle.etcs_bodies.specs.Formats.{from, Is};
    ghost use Rattle.etcs_parts.specs.Levels.{level_format};
    ghost use Rattle.etcs_bodies.specs.laws.Formats.{codes_of};
    ghost use Rattle.etcs_parts.specs.laws.Levels.{level_ok};

    ghost row = { level };

    ghost read_from = { from level_format };

    ghost is_part = { λ p. Is level_format p };

    ghost codes = { codes_of level_format level_ok };

    fn holds(&self) {
        let _ = &self.m_leveltr;
    }

    #[inline(always)]
    fn take<L: Numbers>(_alloc: Global, numbers: &mut L) -> Result<Option<Level>, AllocError> {
        Ok(Level::read(numbers))
    }

    fn try_clone(&self, _alloc: Global) -> Result<Level, AllocError> {
        Ok(*self)
    }
}

impl Plain for Level {
    #[tactic(auto, using(etcs_bodies::specs::laws::Guards::guard_ok), unfolding(etcs_bodies::specs::Guards::guard_fault))]
    #[inline(always)]
    fn read<L: Numbers>(numbers: &mut L) -> Option<Level> {
        let m_leveltr = numbers.next(Var::M_LEVELTR)? as u8;
        let nid_ntc = if m_leveltr == 1 {
            Some(numbers.next(Var::NID_NTC)? as u8)
        } else {
            None
        };
        Some(Level { m_leveltr, nid_ntc })
    }
}

impl Entry for Level {
    ghost use Rattle.std.specs.Prelude.{refl};
    ghost use Rattle.etcs_bodies.specs.laws.Formats.{at_most};
    ghost use Rattle.etcs_parts.specs.Levels.{level_format};

    const MOST: usize = 11;

    ghost MOST = { 11 };

    ghost most = { λ p h. at_most level_format p h };

    ghost short = { refl };
}

impl Exact for Level {
    ghost use Rattle.etcs_bodies.specs.laws.Formats.{exact_of};
    ghost use Rattle.etcs_parts.specs.Levels.{level_format};
    ghost use Rattle.etcs_parts.specs.laws.Levels.{level_ok};

    ghost exact = { exact_of level_format level_ok };
}
