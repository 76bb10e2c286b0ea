//! A place at which the train reports its position.

ghost use Rattle.std.specs.Prelude.{◌≡◌, None, Some, IfOk, IfErr, OnOk};

use etcs_bodies::laws::Exact;
use etcs_bodies::{Entry, Numbers, Part, Plain, build_part, read_fields, send_fields};
use etcs_vars::inner::{VarSink, Variables};
use etcs_vars::{BuildFault, Var};
use std::alloc::{AllocError, Global};
use std::marker::Model;

/// Its fields in the order of its row.
macro_rules! fields {
    ($then:ident: $($with:tt)*) => { $then! { { $($with)* } d_loc: D_LOC u16, q_lgtloc: Q_LGTLOC bool } };
}

/// A place at which the train reports its position (packet 58; SUBSET-026, 7.4 and 7.5).
#[derive(Clone, Copy, Debug, PartialEq, Eq)]
pub struct ReportAt {
    d_loc: u16,
    q_lgtloc: bool,
}

impl Model for ReportAt {
    ghost use Rattle.etcs_bodies.specs.Formats.{Is};
    ghost use Rattle.etcs_parts.specs.ReportsAt.{ReportAt, report_at_format};

    ghost Value = { ReportAt };

    ghost view = { λ s. s };

    ghost invariant = { Is report_at_format };

    ghost inverse = { λ s. s };
}

impl ReportAt {
    ghost use Rattle.etcs_parts.specs.ReportsAt.{report_at_value, report_at_fault};

    /// The place `d_loc` after the one before, in steps of Q_SCALE; returned exactly if the error below doesn't apply.
    /// `q_lgtloc` is `true` if the train reports when its front reaches the place, and not its rear.
    ///
    /// # Errors
    ///
    /// `NotAdmitted(D_LOC)`: the distance is above 32,767.
    pub fn new(d_loc: u16, q_lgtloc: bool) -> Result<ReportAt, BuildFault>
        ensures ok { IfOk result (λ r. r ≡ report_at_value d_loc q_lgtloc) }
        ensures fits { OnOk result (report_at_fault (report_at_value d_loc q_lgtloc) ≡ None) }
        ensures fault { IfErr result (λ e. report_at_fault (report_at_value d_loc q_lgtloc) ≡ Some e) }
    {
        fields!(build_part: d_loc, q_lgtloc)
    }

    /// The distance to the place, in steps of Q_SCALE from the one before.
    pub fn d_loc(&self) -> u16
        ensures { result ≡ self.now.d_loc }
    {
        self.d_loc
    }

    /// Whether the train reports when its front reaches the place, and not its rear.
    pub fn q_lgtloc(&self) -> bool
        ensures { result ≡ self.now.q_lgtloc }
    {
        self.q_lgtloc
    }
}

impl Variables for ReportAt {
    ghost use Rattle.etcs_bodies.specs.Formats.{reading};
    ghost use Rattle.etcs_parts.specs.ReportsAt.{report_at_format};

    ghost reading_of = { λ p. reading report_at_format p };

    #[tactic(auto, using(crate::specs::laws::ReportsAt::report_at_bits))]
    fn bits(&self) -> usize {
        16
    }

    #[inline(always)]
    fn send<S: VarSink>(&self, out: &mut S) -> Result<(), AllocError> {
        fields!(send_fields: self, out)
    }
}

impl Part for ReportAt {
    ghost use Rattle.etcs_tables.specs.Rows.{report_at};
    ghost use Rattle.etcs_bodies.specs.Formats.{from, Is};
    ghost use Rattle.etcs_parts.specs.ReportsAt.{report_at_format};
    ghost use Rattle.etcs_bodies.specs.laws.Formats.{codes_of};
    ghost use Rattle.etcs_parts.specs.laws.ReportsAt.{report_at_ok};

    ghost row = { report_at };

    ghost read_from = { from report_at_format };

    ghost is_part = { λ p. Is report_at_format p };

    ghost codes = { codes_of report_at_format report_at_ok };

    fn holds(&self) {
        let _ = &self.d_loc;
    }

    #[inline(always)]
    fn take<L: Numbers>(_alloc: Global, numbers: &mut L) -> Result<Option<ReportAt>, AllocError> {
        Ok(ReportAt::read(numbers))
    }

    fn try_clone(&self, _alloc: Global) -> Result<ReportAt, AllocError> {
        Ok(*self)
    }
}

impl Plain for ReportAt {
    #[inline(always)]
    fn read<L: Numbers>(numbers: &mut L) -> Option<ReportAt> {
        fields!(read_fields: numbers)
    }
}

impl Entry for ReportAt {
    ghost use Rattle.std.specs.Prelude.{refl};
    ghost use Rattle.etcs_bodies.specs.laws.Formats.{at_most};
    ghost use Rattle.etcs_parts.specs.ReportsAt.{report_at_format};

    const MOST: usize = 16;

    ghost MOST = { 16 };

    ghost most = { λ p h. at_most report_at_format p h };

    ghost short = { refl };
}

impl Exact for ReportAt {
    ghost use Rattle.etcs_bodies.specs.laws.Formats.{exact_of};
    ghost use Rattle.etcs_parts.specs.ReportsAt.{report_at_format};
    ghost use Rattle.etcs_parts.specs.laws.ReportsAt.{report_at_ok};

    ghost exact = { exact_of report_at_format report_at_ok };
}
