//! A balise group of a list.

ghost use Rattle.std.specs.Prelude.{◌≡◌, None, Some, IfOk, IfErr, OnOk};

use etcs_bodies::laws::Exact;
use etcs_bodies::{Entry, Numbers, Part, Plain, check};
use etcs_vars::inner::{VarSink, Variables};
use etcs_vars::{BuildFault, Var};
use std::alloc::{AllocError, Global};
use std::marker::Model;

/// A balise group in a list of groups (packets 5, 49 and 63; SUBSET-026, 7.4 and 7.5).
#[derive(Clone, Copy, Debug, PartialEq, Eq)]
pub struct BaliseAt {
    nid_c: Option<u16>,
    nid_bg: u16,
}

impl Model for BaliseAt {
    ghost use Rattle.etcs_bodies.specs.Formats.{Is};
    ghost use Rattle.etcs_parts.specs.BalisesAt.{BaliseAt, balise_at_format};

    ghost Value = { BaliseAt };

    ghost view = { λ s. s };

    ghost invariant = { Is balise_at_format };

    ghost inverse = { λ s. s };
}

impl BaliseAt {
    ghost use Rattle.etcs_parts.specs.BalisesAt.{balise_at_value, balise_at_fault};

    /// The group `nid_bg`, returned exactly if none of the errors below applies; `nid_c` is given if its country or
    /// region isn't that of the group before.
    ///
    /// # Errors
    ///
    /// `NotAdmitted` with the first of NID_C (10 bits) and NID_BG (14) that doesn't admit its number.
    pub fn new(nid_c: Option<u16>, nid_bg: u16) -> Result<BaliseAt, BuildFault>
        ensures ok { IfOk result (λ b. b ≡ balise_at_value nid_c nid_bg) }
        ensures fits { OnOk result (balise_at_fault (balise_at_value nid_c nid_bg) ≡ None) }
        ensures fault { IfErr result (λ e. balise_at_fault (balise_at_value nid_c nid_bg) ≡ Some e) }
    {
        if let Some(country) = nid_c {
            check(Var::NID_C, u64::from(country))?;
        }
        check(Var::NID_BG, u64::from(nid_bg))?;
        Ok(BaliseAt { nid_c, nid_bg })
    }

    /// The group of these numbers, which are admitted.
    #[inline(always)]
    pub(crate) fn of(nid_c: Option<u16>, nid_bg: u16) -> BaliseAt
        requires { balise_at_fault (balise_at_value nid_c nid_bg) ≡ None }
        ensures { result ≡ balise_at_value nid_c nid_bg }
    {
        BaliseAt { nid_c, nid_bg }
    }

    /// NID_C, the group's country or region, if it isn't that of the group before.
    pub fn nid_c(&self) -> Option<u16>
        ensures { result ≡ self.now.nid_c }
    {
        self.nid_c
    }

    /// NID_BG, the group within its country or region.
    pub fn nid_bg(&self) -> u16
        ensures { result ≡ self.now.nid_bg }
    {
        self.nid_bg
    }
}

impl Variables for BaliseAt {
    ghost use Rattle.etcs_bodies.specs.Formats.{reading};
    ghost use Rattle.etcs_parts.specs.BalisesAt.{balise_at_format};

    ghost reading_of = { λ p. reading balise_at_format p };

    #[tactic(auto, using(crate::specs::laws::BalisesAt::balise_at_bits))]
    fn bits(&self) -> usize {
        15 + 10 * usize::from(self.nid_c.is_some())
    }

    #[inline(always)]
    fn send<S: VarSink>(&self, out: &mut S) -> Result<(), AllocError> {
        match self.nid_c {
            None => out.send(&[
                (Var::Q_NEWCOUNTRY, 0),
                (Var::NID_BG, u64::from(self.nid_bg)),
            ]),
            Some(country) => out.send(&[
                (Var::Q_NEWCOUNTRY, 1),
                (Var::NID_C, u64::from(country)),
                (Var::NID_BG, u64::from(self.nid_bg)),
            ]),
        }
    }
}

impl Part for BaliseAt {
    ghost use Rattle.etcs_tables.specs.Rows.{balise_at};
    ghost use Rattle.etcs_bodies.specs.Formats.{from, Is};
    ghost use Rattle.etcs_parts.specs.BalisesAt.{balise_at_format};
    ghost use Rattle.etcs_bodies.specs.laws.Formats.{codes_of};
    ghost use Rattle.etcs_parts.specs.laws.BalisesAt.{balise_at_ok};

    ghost row = { balise_at };

    ghost read_from = { from balise_at_format };

    ghost is_part = { λ p. Is balise_at_format p };

    ghost codes = { codes_of balise_at_format balise_at_ok };

    fn holds(&self) {
        let _ = &self.nid_bg;
    }

    #[inline(always)]
    fn take<L: Numbers>(_alloc: Global, numbers: &mut L) -> Result<Option<BaliseAt>, AllocError> {
        Ok(BaliseAt::read(numbers))
    }

    fn try_clone(&self, _alloc: Global) -> Result<BaliseAt, AllocError> {
        Ok(*self)
    }
}

impl Plain for BaliseAt {
    #[inline(always)]
    fn read<L: Numbers>(numbers: &mut L) -> Option<BaliseAt> {
        let (nid_c, nid_bg) = if numbers.flag(Var::Q_NEWCOUNTRY)? {
            let (country, group) = numbers.run((Var::NID_C, Var::NID_BG))?;
            (Some(country as u16), group as u16)
        } else {
            (None, numbers.next(Var::NID_BG)? as u16)
        };
        Some(BaliseAt { nid_c, nid_bg })
    }
}

impl Entry for BaliseAt {
    ghost use Rattle.std.specs.Prelude.{refl};
    ghost use Rattle.etcs_bodies.specs.laws.Formats.{at_most};
    ghost use Rattle.etcs_parts.specs.BalisesAt.{balise_at_format};

    const MOST: usize = 25;

    ghost MOST = { 25 };

    ghost most = { λ p h. at_most balise_at_format p h };

    ghost short = { refl };
}

impl Exact for BaliseAt {
    ghost use Rattle.etcs_bodies.specs.laws.Formats.{exact_of};
    ghost use Rattle.etcs_parts.specs.BalisesAt.{balise_at_format};
    ghost use Rattle.etcs_parts.specs.laws.BalisesAt.{balise_at_ok};

    ghost exact = { exact_of balise_at_format balise_at_ok };
}
