//! In which mode and level a text is shown.

ghost use Rattle.std.specs.Prelude.{◌≡◌, None, Some, IfOk, IfErr, OnOk};

use etcs_bodies::laws::Exact;
use etcs_bodies::{Numbers, Part, Plain, check, check_guard};
use etcs_vars::inner::{VarSink, Variables};
use etcs_vars::{BuildFault, Var};
use std::alloc::{AllocError, Global};
use std::marker::Model;

/// In which mode and level the display of a text begins or ends (packets 72 and 76; SUBSET-026, 7.4.2).
#[derive(Clone, Copy, Debug, PartialEq, Eq)]
pub struct Shown {
    m_modetextdisplay: u8,
    m_leveltextdisplay: u8,
    nid_ntc: Option<u8>,
}

impl Model for Shown {
    ghost use Rattle.etcs_bodies.specs.Formats.{Is};
    ghost use Rattle.etcs_parts.specs.Displays.{Shown, shown_format};

    ghost Value = { Shown };

    ghost view = { λ s. s };

    ghost invariant = { Is shown_format };

    ghost inverse = { λ s. s };
}

impl Shown {
    ghost use Rattle.etcs_parts.specs.Displays.{shown_value, shown_fault};

    /// The mode (M_MODETEXTDISPLAY, SUBSET-026, 7.5: 0 to 15), the level (M_LEVELTEXTDISPLAY: 0 to 5), and for
    /// level NTC, which is 1, the national system (NID_NTC); returned exactly if none of the errors below applies.
    ///
    /// # Errors
    ///
    /// The first of these that applies:
    ///
    /// - `NotAdmitted` with M_MODETEXTDISPLAY, then with M_LEVELTEXTDISPLAY: the variable doesn't admit its number.
    /// - `Guard(M_LEVELTEXTDISPLAY)`: the level is 1 and `nid_ntc` is missing, or it isn't 1 and `nid_ntc` is there.
    pub fn new(
        m_modetextdisplay: u8,
        m_leveltextdisplay: u8,
        nid_ntc: Option<u8>,
    ) -> Result<Shown, BuildFault>
        ensures ok { IfOk result (λ s. s ≡ shown_value m_modetextdisplay m_leveltextdisplay nid_ntc) }
        ensures fits { OnOk result (shown_fault (shown_value m_modetextdisplay m_leveltextdisplay nid_ntc) ≡ None) }
        ensures fault { IfErr result (λ e. shown_fault (shown_value m_modetextdisplay m_leveltextdisplay nid_ntc) ≡ Some e) }
    {
        check(Var::M_MODETEXTDISPLAY, u64::from(m_modetextdisplay))?;
        check(Var::M_LEVELTEXTDISPLAY, u64::from(m_leveltextdisplay))?;
        check_guard(
            Var::M_LEVELTEXTDISPLAY,
            m_leveltextdisplay == 1,
            nid_ntc.is_some(),
        )?;
        if let Some(system) = nid_ntc {
            check(Var::NID_NTC, u64::from(system))?;
        }
        Ok(Shown {
            m_modetextdisplay,
            m_leveltextdisplay,
            nid_ntc,
        })
    }

    /// The mode: M_MODETEXTDISPLAY.
    pub fn m_modetextdisplay(&self) -> u8
        ensures { result ≡ self.now.m_modetextdisplay }
    {
        self.m_modetextdisplay
    }

    /// The level: M_LEVELTEXTDISPLAY.
    pub fn m_leveltextdisplay(&self) -> u8
        ensures { result ≡ self.now.m_leveltextdisplay }
    {
        self.m_leveltextdisplay
    }

    /// The national system of level NTC: NID_NTC; `None` for another level.
    pub fn nid_ntc(&self) -> Option<u8>
        ensures { result ≡ self.now.nid_ntc }
    {
        self.nid_ntc
    }
}

impl Variables for Shown {
    ghost use Rattle.etcs_bodies.specs.Formats.{reading};
    ghost use Rattle.etcs_parts.specs.Displays.{shown_format};

    ghost reading_of = { λ p. reading shown_format p };

    #[tactic(auto, using(crate::specs::laws::Displays::shown_bits))]
    fn bits(&self) -> usize {
        7 + 8 * usize::from(self.nid_ntc.is_some())
    }

    #[inline(always)]
    fn send<S: VarSink>(&self, out: &mut S) -> Result<(), AllocError> {
        match self.nid_ntc {
            None => out.send(&[
                (Var::M_MODETEXTDISPLAY, u64::from(self.m_modetextdisplay)),
                (Var::M_LEVELTEXTDISPLAY, u64::from(self.m_leveltextdisplay)),
            ]),
            Some(system) => out.send(&[
                (Var::M_MODETEXTDISPLAY, u64::from(self.m_modetextdisplay)),
                (Var::M_LEVELTEXTDISPLAY, u64::from(self.m_leveltextdisplay)),
                (Var::NID_NTC, u64::from(system)),
            ]),
        }
    }
}

impl Part for Shown {
    ghost use Rattle.etcs_tables.specs.Rows.{shown};
    ghost use Rattle.etcs_bodies.specs.Formats.{from, Is};
    ghost use Rattle.etcs_parts.specs.Displays.{shown_format};
    ghost use Rattle.etcs_bodies.specs.laws.Formats.{codes_of};
    ghost use Rattle.etcs_parts.specs.laws.Displays.{shown_ok};

    ghost row = { shown };

    ghost read_from = { from shown_format };

    ghost is_part = { λ p. Is shown_format p };

    ghost codes = { codes_of shown_format shown_ok };

    fn holds(&self) {
        let _ = &self.m_modetextdisplay;
    }

    #[inline(always)]
    fn take<L: Numbers>(_alloc: Global, numbers: &mut L) -> Result<Option<Shown>, AllocError> {
        Ok(Shown::read(numbers))
    }

    fn try_clone(&self, _alloc: Global) -> Result<Shown, AllocError> {
        Ok(*self)
    }
}

impl Plain for Shown {
    #[tactic(auto, using(etcs_bodies::specs::laws::Guards::guard_ok), unfolding(etcs_bodies::specs::Guards::guard_fault))]
    #[inline(always)]
    fn read<L: Numbers>(numbers: &mut L) -> Option<Shown> {
        let (mode, level) = numbers.run((Var::M_MODETEXTDISPLAY, Var::M_LEVELTEXTDISPLAY))?;
        let m_modetextdisplay = mode as u8;
        let m_leveltextdisplay = level as u8;
        let nid_ntc = if m_leveltextdisplay == 1 {
            Some(numbers.next(Var::NID_NTC)? as u8)
        } else {
            None
        };
        Some(Shown {
            m_modetextdisplay,
            m_leveltextdisplay,
            nid_ntc,
        })
    }
}

impl Exact for Shown {
    ghost use Rattle.etcs_bodies.specs.laws.Formats.{exact_of};
    ghost use Rattle.etcs_parts.specs.Displays.{shown_format};
    ghost use Rattle.etcs_parts.specs.laws.Displays.{shown_ok};

    ghost exact = { exact_of shown_format shown_ok };
}
