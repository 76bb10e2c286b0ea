//! A speed for some trains.

ghost use Rattle.std.specs.Prelude.{◌≡◌, None, Some, IfOk, IfErr, OnOk};
ghost use Rattle.etcs_parts.specs.Differings.{category_of};

use etcs_bodies::laws::Exact;
use etcs_bodies::{Entry, Numbers, Part, Plain, check};
use etcs_vars::inner::{VarSink, Variables};
use etcs_vars::{BuildFault, Var};
use std::alloc::{AllocError, Global};
use std::marker::Model;

/// A speed that holds for the trains of a category in place of a static speed (packet 27; SUBSET-026, 7.4 and 7.5).
#[derive(Clone, Copy, Debug, PartialEq, Eq)]
pub struct Differing {
    q_diff: u8,
    category: u8,
    v_diff: u8,
}

impl Model for Differing {
    ghost use Rattle.etcs_bodies.specs.Formats.{Is};
    ghost use Rattle.etcs_parts.specs.Differings.{Differing, differing_format};

    ghost Value = { Differing };

    ghost view = { λ s. s };

    ghost invariant = { Is differing_format };

    ghost inverse = { λ s. s };
}

impl Differing {
    ghost use Rattle.etcs_parts.specs.Differings.{differing_value, differing_fault};

    /// A speed for the trains of a category, returned exactly if none of the errors below applies.
    ///
    /// - `q_diff`: which category it is: 0 of cant deficiency, 1 another one, in place of that of cant deficiency,
    ///   2 another one, beside that of cant deficiency;
    /// - `category`: the number of NC_CDDIFF if `q_diff` is 0, of NC_DIFF if it is 1 or 2;
    /// - `v_diff`: the speed of these trains, in steps of 5 km/h.
    ///
    /// # Errors
    ///
    /// `NotAdmitted` with the first of these that doesn't admit its number: Q_DIFF (0 to 2), NC_CDDIFF or NC_DIFF by
    /// `q_diff` (4 bits), V_DIFF (7).
    pub fn new(q_diff: u8, category: u8, v_diff: u8) -> Result<Differing, BuildFault>
        ensures ok { IfOk result (λ d. d ≡ differing_value q_diff category v_diff) }
        ensures fits { OnOk result (differing_fault (differing_value q_diff category v_diff) ≡ None) }
        ensures fault { IfErr result (λ e. differing_fault (differing_value q_diff category v_diff) ≡ Some e) }
    {
        check(Var::Q_DIFF, u64::from(q_diff))?;
        check(category_var(q_diff), u64::from(category))?;
        check(Var::V_DIFF, u64::from(v_diff))?;
        Ok(Differing {
            q_diff,
            category,
            v_diff,
        })
    }

    /// Q_DIFF: what kind of category it is.
    pub fn q_diff(&self) -> u8
        ensures { result ≡ self.now.q_diff }
    {
        self.q_diff
    }

    /// The number of NC_CDDIFF if Q_DIFF is 0, of NC_DIFF if it is 1 or 2.
    pub fn category(&self) -> u8
        ensures { result ≡ self.now.category }
    {
        self.category
    }

    /// V_DIFF: the speed of the category's trains, in steps of 5 km/h.
    pub fn v_diff(&self) -> u8
        ensures { result ≡ self.now.v_diff }
    {
        self.v_diff
    }
}

/// The variable of the category after Q_DIFF.
#[inline(always)]
fn category_var(q_diff: u8) -> Var
    ensures { result ≡ category_of q_diff }
{
    if q_diff == 0 {
        Var::NC_CDDIFF
    } else {
        Var::NC_DIFF
    }
}

impl Variables for Differing {
    ghost use Rattle.etcs_bodies.specs.Formats.{reading};
    ghost use Rattle.etcs_parts.specs.Differings.{differing_format};

    ghost reading_of = { λ d. reading differing_format d };

    #[tactic(auto, using(crate::specs::laws::Differings::differing_spelled))]
    fn bits(&self) -> usize {
        13
    }

    #[inline(always)]
    fn send<S: VarSink>(&self, out: &mut S) -> Result<(), AllocError> {
        out.send(&[
            (Var::Q_DIFF, u64::from(self.q_diff)),
            (category_var(self.q_diff), u64::from(self.category)),
            (Var::V_DIFF, u64::from(self.v_diff)),
        ])
    }
}

impl Part for Differing {
    ghost use Rattle.etcs_bodies.specs.Formats.{from, Is};
    ghost use Rattle.etcs_parts.specs.Differings.{differing_format, differing_row};
    ghost use Rattle.etcs_bodies.specs.laws.Formats.{codes_of};
    ghost use Rattle.etcs_parts.specs.laws.Differings.{differing_ok};

    ghost row = { differing_row };

    ghost read_from = { from differing_format };

    ghost is_part = { λ d. Is differing_format d };

    ghost codes = { codes_of differing_format differing_ok };

    fn holds(&self) {
        let _ = &self.q_diff;
    }

    #[inline(always)]
    fn take<L: Numbers>(_alloc: Global, numbers: &mut L) -> Result<Option<Differing>, AllocError> {
        Ok(Differing::read(numbers))
    }

    fn try_clone(&self, _alloc: Global) -> Result<Differing, AllocError> {
        Ok(*self)
    }
}

impl Plain for Differing {
    #[inline(always)]
    fn read<L: Numbers>(numbers: &mut L) -> Option<Differing> {
        let q_diff = numbers.next(Var::Q_DIFF)? as u8;
        let (category, v_diff) = if q_diff == 0 {
            numbers.run((Var::NC_CDDIFF, Var::V_DIFF))?
        } else {
            numbers.run((Var::NC_DIFF, Var::V_DIFF))?
        };
        Some(Differing {
            q_diff,
            category: category as u8,
            v_diff: v_diff as u8,
        })
    }
}

impl Entry for Differing {
    ghost use Rattle.std.specs.Prelude.{refl};
    ghost use Rattle.etcs_bodies.specs.laws.Formats.{at_most};
    ghost use Rattle.etcs_parts.specs.Differings.{differing_format};

    const MOST: usize = 13;

    ghost MOST = { 13 };

    ghost most = { λ d h. at_most differing_format d h };

    ghost short = { refl };
}

impl Exact for Differing {
    ghost use Rattle.etcs_parts.specs.laws.Differings.{differing_exact};

    ghost exact = { differing_exact };
}
