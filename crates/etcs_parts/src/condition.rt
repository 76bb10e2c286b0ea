//! A track condition.

ghost use Rattle.std.specs.Prelude.{◌≡◌, None, Some, IfOk, IfErr, OnOk};

use etcs_bodies::laws::Exact;
use etcs_bodies::{Entry, Numbers, Part, Plain, build_part, read_fields, send_fields};
use etcs_vars::inner::{VarSink, Variables};
use etcs_vars::{BuildFault, Var};
use std::alloc::{AllocError, Global};
use std::marker::Model;

/// Its fields in the order of its row.
macro_rules! fields {
    ($then:ident: $($with:tt)*) => {
        $then! { { $($with)* } d_trackcond: D_TRACKCOND u16, l_trackcond: L_TRACKCOND u16, m_trackcond: M_TRACKCOND u8 }
    };
}

/// A track condition (packet 68; SUBSET-026, 7.4 and 7.5).
///
/// Distances are in steps of Q_SCALE: 0 is 10 cm, 1 is 1 m, 2 is 10 m.
#[derive(Clone, Copy, Debug, PartialEq, Eq)]
pub struct Condition {
    d_trackcond: u16,
    l_trackcond: u16,
    m_trackcond: u8,
}

impl Model for Condition {
    ghost use Rattle.etcs_bodies.specs.Formats.{Is};
    ghost use Rattle.etcs_parts.specs.Conditions.{Condition, condition_format};

    ghost Value = { Condition };

    ghost view = { λ s. s };

    ghost invariant = { Is condition_format };

    ghost inverse = { λ s. s };
}

impl Condition {
    ghost use Rattle.etcs_parts.specs.Conditions.{condition_value, condition_fault};

    /// The condition `m_trackcond` from `d_trackcond` on, over `l_trackcond`, both in steps of Q_SCALE; returned
    /// exactly if none of the errors below applies.
    ///
    /// # Errors
    ///
    /// `NotAdmitted` with the first of D_TRACKCOND (15 bits), L_TRACKCOND (15) and M_TRACKCOND (4) that doesn't admit
    /// its number.
    pub fn new(d_trackcond: u16, l_trackcond: u16, m_trackcond: u8) -> Result<Condition, BuildFault>
        ensures ok { IfOk result (λ c. c ≡ condition_value d_trackcond l_trackcond m_trackcond) }
        ensures fits { OnOk result (condition_fault (condition_value d_trackcond l_trackcond m_trackcond) ≡ None) }
        ensures fault { IfErr result (λ e. condition_fault (condition_value d_trackcond l_trackcond m_trackcond) ≡ Some e) }
    {
        fields!(build_part: d_trackcond, l_trackcond, m_trackcond)
    }

    /// The distance to the condition, in steps of Q_SCALE from the one before.
    pub fn d_trackcond(&self) -> u16
        ensures { result ≡ self.now.d_trackcond }
    {
        self.d_trackcond
    }

    /// The length over which the condition holds, in steps of Q_SCALE.
    pub fn l_trackcond(&self) -> u16
        ensures { result ≡ self.now.l_trackcond }
    {
        self.l_trackcond
    }

    /// The kind of the condition.
    pub fn m_trackcond(&self) -> u8
        ensures { result ≡ self.now.m_trackcond }
    {
        self.m_trackcond
    }
}

impl Variables for Condition {
    ghost use Rattle.etcs_bodies.specs.Formats.{reading};
    ghost use Rattle.etcs_parts.specs.Conditions.{condition_format};

    ghost reading_of = { λ p. reading condition_format p };

    #[tactic(auto, using(crate::specs::laws::Conditions::condition_bits))]
    fn bits(&self) -> usize {
        34
    }

    #[inline(always)]
    fn send<S: VarSink>(&self, out: &mut S) -> Result<(), AllocError> {
        fields!(send_fields: self, out)
    }
}

impl Part for Condition {
    ghost use Rattle.etcs_tables.specs.Rows.{condition};
    ghost use Rattle.etcs_bodies.specs.Formats.{from, Is};
    ghost use Rattle.etcs_parts.specs.Conditions.{condition_format};
    ghost use Rattle.etcs_bodies.specs.laws.Formats.{codes_of};
    ghost use Rattle.etcs_parts.specs.laws.Conditions.{condition_ok};

    ghost row = { condition };

    ghost read_from = { from condition_format };

    ghost is_part = { λ p. Is condition_format p };

    ghost codes = { codes_of condition_format condition_ok };

    fn holds(&self) {
        let _ = &self.d_trackcond;
    }

    #[inline(always)]
    fn take<L: Numbers>(_alloc: Global, numbers: &mut L) -> Result<Option<Condition>, AllocError> {
        Ok(Condition::read(numbers))
    }

    fn try_clone(&self, _alloc: Global) -> Result<Condition, AllocError> {
        Ok(*self)
    }
}

impl Plain for Condition {
    #[inline(always)]
    fn read<L: Numbers>(numbers: &mut L) -> Option<Condition> {
        fields!(read_fields: numbers)
    }
}

impl Entry for Condition {
    ghost use Rattle.std.specs.Prelude.{refl};
    ghost use Rattle.etcs_bodies.specs.laws.Formats.{at_most};
    ghost use Rattle.etcs_parts.specs.Conditions.{condition_format};

    const MOST: usize = 34;

    ghost MOST = { 34 };

    ghost most = { λ p h. at_most condition_format p h };

    ghost short = { refl };
}

impl Exact for Condition {
    ghost use Rattle.etcs_bodies.specs.laws.Formats.{exact_of};
    ghost use Rattle.etcs_parts.specs.Conditions.{condition_format};
    ghost use Rattle.etcs_parts.specs.laws.Conditions.{condition_ok};

    ghost exact = { exact_of condition_format condition_ok };
}
