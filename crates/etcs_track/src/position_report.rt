//! A position report.

ghost use Rattle.std.specs.Prelude.{◌≡◌, None, Some, IfOk, IfErr};
ghost use Rattle.etcs_track.specs.Reports.{position_report_value, position_report_fault};

use crate::located::Located;
use etcs_bodies::{Body, Numbers, Part, Passing, build_part, send_fields, take_fields};
use etcs_tables::Way;
use etcs_vars::inner::{VarSink, Variables};
use etcs_vars::{BuildFault, Var};
use std::alloc::{AllocError, Global};
use std::marker::Model;

/// Its fields in the order of its row.
macro_rules! fields {
    ($then:ident: $($with:tt)*) => {
        $then! { { $($with)* } q_scale: Q_SCALE u8, nid_lrbg: NID_LRBG u32; located: Located }
    };
}

/// The position report of a train (packet 0 to the track; SUBSET-026, 7.4.3).
#[derive(Clone, Copy, Debug, PartialEq, Eq)]
pub struct PositionReport {
    q_scale: u8,
    nid_lrbg: u32,
    located: Located,
}

impl Model for PositionReport {
    ghost use Rattle.etcs_bodies.specs.Formats.{Is};
    ghost use Rattle.etcs_track.specs.Reports.{PositionReport, position_report_format};

    ghost Value = { PositionReport };

    ghost view = { λ s. s };

    ghost invariant = { Is position_report_format };

    ghost inverse = { λ s. s };
}

impl PositionReport {
    /// The report of these parts, returned exactly if none of the errors below applies. `located` is a value already,
    /// and isn't checked again.
    ///
    /// - `q_scale`: the unit of its distances (0: 10 cm, 1: 1 m, 2: 10 m);
    /// - `nid_lrbg`: NID_LRBG, the balise group referred to: its country or region (10 bits), and its number there
    ///   (14 bits);
    /// - `located`: where the train is, and what it does.
    ///
    /// # Errors
    ///
    /// `NotAdmitted` with the first of Q_SCALE (0 to 2) and NID_LRBG (24 bits) that doesn't admit its number.
    #[tactic(auto, unfolding(crate::specs::Locations::IsLocated))]
    pub fn new(q_scale: u8, nid_lrbg: u32, located: Located) -> Result<PositionReport, BuildFault>
        ensures ok { IfOk result (λ p. p ≡ position_report_value q_scale nid_lrbg located) }
        ensures none { IfOk result (λ p. position_report_fault (position_report_value q_scale nid_lrbg located) ≡ None) }
        ensures fault { IfErr result (λ e. position_report_fault (position_report_value q_scale nid_lrbg located) ≡ Some e) }
    {
        fields!(build_part: q_scale, nid_lrbg; located)
    }

    /// Q_SCALE: the unit of its distances (0: 10 cm, 1: 1 m, 2: 10 m).
    pub fn q_scale(&self) -> u8
        ensures { result ≡ self.now.q_scale }
    {
        self.q_scale
    }

    /// NID_LRBG: the balise group referred to.
    pub fn nid_lrbg(&self) -> u32
        ensures { result ≡ self.now.nid_lrbg }
    {
        self.nid_lrbg
    }

    /// Where the train is, and what it does.
    pub fn located(&self) -> Located
        ensures { result ≡ self.now.located }
    {
        self.located
    }
}

impl Variables for PositionReport {
    ghost use Rattle.etcs_bodies.specs.Formats.{reading};
    ghost use Rattle.etcs_track.specs.Reports.{position_report_format};

    ghost reading_of = { λ p. reading position_report_format p };

    #[tactic(auto, using(crate::specs::laws::Reports::report_length, crate::specs::laws::Locations::located_small))]
    fn bits(&self) -> usize {
        26 + self.located.bits()
    }

    fn send<S: VarSink>(&self, out: &mut S) -> Result<(), AllocError> {
        fields!(send_fields: self, out)
    }
}

impl Body for PositionReport {
    ghost use Rattle.etcs_tables.specs.declared.row.Way.TheVariants.{ToTrack};
    ghost use Rattle.etcs_bodies.specs.PacketCodes.{directed_from, never};
    ghost use Rattle.etcs_bodies.specs.Formats.{from, Is};
    ghost use Rattle.etcs_track.specs.Reports.{position_report_format};
    ghost use Rattle.etcs_track.specs.laws.Reports.{position_report_codes};

    const NID: u8 = 0;

    const WAY: Way = Way::ToTrack;

    ghost NID = { 0 };

    ghost WAY = { ToTrack };

    ghost direction = { λ p. 0 };

    ghost is_value = { λ p. Is position_report_format p };

    ghost read_from = { λ dir s. directed_from (from position_report_format) never (λ d p. p) dir s };

    ghost codes = { position_report_codes };

    fn q_dir(&self) -> u8 {
        let _ = &self.q_scale;
        0
    }

    #[tactic(auto, unfolding(etcs_bodies::specs::PacketCodes::directed_from, crate::specs::Locations::IsLocated))]
    fn take<L: Numbers>(
        alloc: Global,
        _dir: u8,
        numbers: &mut L,
    ) -> Result<Option<Self>, AllocError> {
        fields!(take_fields: alloc, numbers)
    }

    #[inline(always)]
    fn pass<L: Numbers, S: VarSink>(numbers: &mut L, out: &mut S) -> Result<bool, AllocError> {
        let run = (Var::Q_SCALE, Var::NID_LRBG);
        let Some((q_scale, nid_lrbg)) = numbers.run(run) else {
            return Ok(false);
        };
        out.send(&[(Var::Q_SCALE, q_scale), (Var::NID_LRBG, nid_lrbg)])?;
        Located::pass(numbers, out)
    }

    fn copy(&self, _alloc: Global) -> Result<PositionReport, AllocError> {
        Ok(*self)
    }
}
