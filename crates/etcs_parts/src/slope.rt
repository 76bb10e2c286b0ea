//! A change of gradient.

ghost use Rattle.std.specs.Prelude.{◌≡◌, None, Some, IfOk, IfErr, OnOk};

use etcs_bodies::laws::Exact;
use etcs_bodies::{Entry, Numbers, Part, Plain, build_part, read_fields, send_fields};
use etcs_vars::inner::{VarSink, Variables};
use etcs_vars::{BuildFault, Var};
use std::alloc::{AllocError, Global};
use std::marker::Model;

/// Its fields in the order of its row.
macro_rules! fields {
    ($then:ident: $($with:tt)*) => { $then! { { $($with)* } d_gradient: D_GRADIENT u16, q_gdir: Q_GDIR bool, g_a: G_A u8 } };
}

/// A change of gradient (packet 21; SUBSET-026, 7.4 and 7.5).
///
/// Distances are in steps of Q_SCALE: 0 is 10 cm, 1 is 1 m, 2 is 10 m.
#[derive(Clone, Copy, Debug, PartialEq, Eq)]
pub struct Slope {
    d_gradient: u16,
    q_gdir: bool,
    g_a: u8,
}

impl Model for Slope {
    ghost use Rattle.etcs_bodies.specs.Formats.{Is};
    ghost use Rattle.etcs_parts.specs.Slopes.{Slope, slope_format};

    ghost Value = { Slope };

    ghost view = { λ s. s };

    ghost invariant = { Is slope_format };

    ghost inverse = { λ s. s };
}

impl Slope {
    ghost use Rattle.etcs_parts.specs.Slopes.{slope_value, slope_fault};

    /// A gradient `g_a` from `d_gradient` on, returned exactly if the error below doesn't apply.
    ///
    /// `d_gradient` is the distance to it, in steps of Q_SCALE from the one before. `q_gdir` is `true` if it is uphill.
    /// `g_a` is in per mille; 255 is the end of the profile.
    ///
    /// # Errors
    ///
    /// `NotAdmitted(D_GRADIENT)`: the distance is above 32,767.
    pub fn new(d_gradient: u16, q_gdir: bool, g_a: u8) -> Result<Slope, BuildFault>
        ensures ok { IfOk result (λ s. s ≡ slope_value d_gradient q_gdir g_a) }
        ensures fits { OnOk result (slope_fault (slope_value d_gradient q_gdir g_a) ≡ None) }
        ensures fault { IfErr result (λ e. slope_fault (slope_value d_gradient q_gdir g_a) ≡ Some e) }
    {
        fields!(build_part: d_gradient, q_gdir, g_a)
    }

    /// The distance to the change, in steps of Q_SCALE from the one before.
    pub fn d_gradient(&self) -> u16
        ensures { result ≡ self.now.d_gradient }
    {
        self.d_gradient
    }

    /// Whether it is uphill.
    pub fn q_gdir(&self) -> bool
        ensures { result ≡ self.now.q_gdir }
    {
        self.q_gdir
    }

    /// The gradient in per mille; 255 is the end of the profile.
    pub fn g_a(&self) -> u8
        ensures { result ≡ self.now.g_a }
    {
        self.g_a
    }
}

impl Variables for Slope {
    ghost use Rattle.etcs_bodies.specs.Formats.{reading};
    ghost use Rattle.etcs_parts.specs.Slopes.{slope_format};

    ghost reading_of = { λ p. reading slope_format p };

    #[tactic(auto, using(crate::specs::laws::Slopes::slope_bits))]
    fn bits(&self) -> usize {
        24
    }

    #[inline(always)]
    fn send<S: VarSink>(&self, out: &mut S) -> Result<(), AllocError> {
        fields!(send_fields: self, out)
    }
}

impl Part for Slope {
    ghost use Rattle.etcs_tables.specs.Rows.{slope};
    ghost use Rattle.etcs_bodies.specs.Formats.{from, Is};
    ghost use Rattle.etcs_parts.specs.Slopes.{slope_format};
    ghost use Rattle.etcs_bodies.specs.laws.Formats.{codes_of};
    ghost use Rattle.etcs_parts.specs.laws.Slopes.{slope_ok};

    ghost row = { slope };

    ghost read_from = { from slope_format };

    ghost is_part = { λ p. Is slope_format p };

    ghost codes = { codes_of slope_format slope_ok };

    fn holds(&self) {
        let _ = &self.d_gradient;
    }

    #[inline(always)]
    fn take<L: Numbers>(_alloc: Global, numbers: &mut L) -> Result<Option<Slope>, AllocError> {
        Ok(Slope::read(numbers))
    }

    fn try_clone(&self, _alloc: Global) -> Result<Slope, AllocError> {
        Ok(*self)
    }
}

impl Plain for Slope {
    #[inline(always)]
    fn read<L: Numbers>(numbers: &mut L) -> Option<Slope> {
        fields!(read_fields: numbers)
    }
}

impl Entry for Slope {
    ghost use Rattle.std.specs.Prelude.{refl};
    ghost use Rattle.etcs_bodies.specs.laws.Formats.{at_most};
    ghost use Rattle.etcs_parts.specs.Slopes.{slope_format};

    const MOST: usize = 24;

    ghost MOST = { 24 };

    ghost most = { λ p h. at_most slope_format p h };

    ghost short = { refl };
}

impl Exact for Slope {
    ghost use Rattle.etcs_parts.specs.laws.Slopes.{slope_exact};

    ghost exact = { slope_exact };
}
