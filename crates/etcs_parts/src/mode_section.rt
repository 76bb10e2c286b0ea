//! An area of a mode.

ghost use Rattle.std.specs.Prelude.{◌≡◌, None, Some, IfOk, IfErr, OnOk};

use etcs_bodies::laws::Exact;
use etcs_bodies::{Entry, Numbers, Part, Plain, build_part, read_fields, send_fields};
use etcs_vars::inner::{VarSink, Variables};
use etcs_vars::{BuildFault, Var};
use std::alloc::{AllocError, Global};
use std::marker::Model;

/// Its fields in the order of its row.
macro_rules! fields {
    ($then:ident: $($with:tt)*) => {
        $then! { { $($with)* }
            d_mamode: D_MAMODE u16, m_mamode: M_MAMODE u8, v_mamode: V_MAMODE u8, l_mamode: L_MAMODE u16,
            l_ackmamode: L_ACKMAMODE u16, q_mamode: Q_MAMODE bool }
    };
}

/// An area in which the train runs in a mode (packet 80; SUBSET-026, 7.4 and 7.5).
///
/// Distances are in steps of Q_SCALE: 0 is 10 cm, 1 is 1 m, 2 is 10 m.
#[derive(Clone, Copy, Debug, PartialEq, Eq)]
pub struct ModeSection {
    d_mamode: u16,
    m_mamode: u8,
    v_mamode: u8,
    l_mamode: u16,
    l_ackmamode: u16,
    q_mamode: bool,
}

impl Model for ModeSection {
    ghost use Rattle.etcs_bodies.specs.Formats.{Is};
    ghost use Rattle.etcs_parts.specs.ModeSections.{ModeSection, mode_section_format};

    ghost Value = { ModeSection };

    ghost view = { λ s. s };

    ghost invariant = { Is mode_section_format };

    ghost inverse = { λ s. s };
}

impl ModeSection {
    ghost use Rattle.etcs_parts.specs.ModeSections.{mode_section_value, mode_section_fault};

    /// The area from `d_mamode` on, over `l_mamode`, in which the train runs in the mode `m_mamode` and at most at
    /// `v_mamode`, in steps of 5 km/h; returned exactly if none of the errors below applies. The driver may acknowledge
    /// the mode over `l_ackmamode` before it. `q_mamode` is `true` if the start of the area is the end of authority
    /// alone, and not the supervised location too.
    ///
    /// # Errors
    ///
    /// `NotAdmitted` with the first of D_MAMODE (15 bits), M_MAMODE (0 to 2), V_MAMODE (0 to 120, 127), L_MAMODE (15
    /// bits) and L_ACKMAMODE (15) that doesn't admit its number.
    pub fn new(
        d_mamode: u16,
        m_mamode: u8,
        v_mamode: u8,
        l_mamode: u16,
        l_ackmamode: u16,
        q_mamode: bool,
    ) -> Result<ModeSection, BuildFault>
        ensures ok { IfOk result (λ m. m ≡ mode_section_value d_mamode m_mamode v_mamode l_mamode l_ackmamode q_mamode) }
        ensures fits { OnOk result (mode_section_fault (mode_section_value d_mamode m_mamode v_mamode l_mamode l_ackmamode q_mamode) ≡ None) }
        ensures fault { IfErr result (λ e. mode_section_fault (mode_section_value d_mamode m_mamode v_mamode l_mamode l_ackmamode q_mamode) ≡ Some e) }
    {
        fields!(build_part: d_mamode, m_mamode, v_mamode, l_mamode, l_ackmamode, q_mamode)
    }

    /// The distance to the area, in steps of Q_SCALE from the one before.
    pub fn d_mamode(&self) -> u16
        ensures { result ≡ self.now.d_mamode }
    {
        self.d_mamode
    }

    /// The mode: 0 on sight, 1 shunting, 2 limited supervision.
    pub fn m_mamode(&self) -> u8
        ensures { result ≡ self.now.m_mamode }
    {
        self.m_mamode
    }

    /// The speed in the area, in steps of 5 km/h; 127 is the national value for the mode.
    pub fn v_mamode(&self) -> u8
        ensures { result ≡ self.now.v_mamode }
    {
        self.v_mamode
    }

    /// The length of the area, in steps of Q_SCALE.
    pub fn l_mamode(&self) -> u16
        ensures { result ≡ self.now.l_mamode }
    {
        self.l_mamode
    }

    /// The length before the area over which the driver may acknowledge the mode, in steps of Q_SCALE.
    pub fn l_ackmamode(&self) -> u16
        ensures { result ≡ self.now.l_ackmamode }
    {
        self.l_ackmamode
    }

    /// Whether the start of the area is the end of authority alone, and not the supervised location too.
    pub fn q_mamode(&self) -> bool
        ensures { result ≡ self.now.q_mamode }
    {
        self.q_mamode
    }
}

impl Variables for ModeSection {
    ghost use Rattle.etcs_bodies.specs.Formats.{reading};
    ghost use Rattle.etcs_parts.specs.ModeSections.{mode_section_format};

    ghost reading_of = { λ p. reading mode_section_format p };

    #[tactic(auto, using(crate::specs::laws::ModeSections::mode_section_bits))]
    fn bits(&self) -> usize {
        55
    }

    #[inline(always)]
    fn send<S: VarSink>(&self, out: &mut S) -> Result<(), AllocError> {
        fields!(send_fields: self, out)
    }
}

impl Part for ModeSection {
    ghost use Rattle.etcs_tables.specs.Rows.{mode_section};
    ghost use Rattle.etcs_bodies.specs.Formats.{from, Is};
    ghost use Rattle.etcs_parts.specs.ModeSections.{mode_section_format};
    ghost use Rattle.etcs_bodies.specs.laws.Formats.{codes_of};
    ghost use Rattle.etcs_parts.specs.laws.ModeSections.{mode_section_ok};

    ghost row = { mode_section };

    ghost read_from = { from mode_section_format };

    ghost is_part = { λ p. Is mode_section_format p };

    ghost codes = { codes_of mode_section_format mode_section_ok };

    fn holds(&self) {
        let _ = &self.d_mamode;
    }

    #[inline(always)]
    fn take<L: Numbers>(
        _alloc: Global,
        numbers: &mut L,
    ) -> Result<Option<ModeSection>, AllocError> {
        Ok(ModeSection::read(numbers))
    }

    fn try_clone(&self, _alloc: Global) -> Result<ModeSection, AllocError> {
        Ok(*self)
    }
}

impl Plain for ModeSection {
    #[inline(always)]
    fn read<L: Numbers>(numbers: &mut L) -> Option<ModeSection> {
        fields!(read_fields: numbers)
    }
}

impl Entry for ModeSection {
    ghost use Rattle.std.specs.Prelude.{refl};
    ghost use Rattle.etcs_bodies.specs.laws.Formats.{at_most};
    ghost use Rattle.etcs_parts.specs.ModeSections.{mode_section_format};

    const MOST: usize = 55;

    ghost MOST = { 55 };

    ghost most = { λ p h. at_most mode_section_format p h };

    ghost short = { refl };
}

impl Exact for ModeSection {
    ghost use Rattle.etcs_parts.specs.laws.ModeSections.{mode_section_exact};

    ghost exact = { mode_section_exact };
}
