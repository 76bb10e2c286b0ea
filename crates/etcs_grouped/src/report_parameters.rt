//! The parameters of position reports.

ghost use Rattle.std.specs.Prelude.{◌≡◌, None, Some, IfOk, IfErr};
ghost use Rattle.etcs_grouped.specs.ReportParameters.{report_parameters_value, report_parameters_fault};

use etcs_bodies::laws::Exact;
use etcs_bodies::{
    Body, Counted, Numbers, Part, Passing, build_packet, copy_fields, send_fields, take_fields,
};
use etcs_parts::ReportAt;
use etcs_tables::Way;
use etcs_vars::inner::{VarSink, Variables};
use etcs_vars::{BuildFault, Var};
use std::alloc::{AllocError, Global};
use std::marker::Model;

/// Its fields in the order of its row.
macro_rules! fields {
    ($then:ident: $($with:tt)*) => {
        $then! { { $($with)* } q_scale: Q_SCALE u8, t_cycloc: T_CYCLOC u8, d_cycloc: D_CYCLOC u16, m_loc: M_LOC u8; reports: Counted }
    };
}

/// The parameters of position reports: when and where the train reports its position (packet 58; SUBSET-026, 7.4.2).
#[derive(Debug, Drop, PartialEq, Eq)]
pub struct ReportParameters {
    dir: u8,
    q_scale: u8,
    t_cycloc: u8,
    d_cycloc: u16,
    m_loc: u8,
    reports: Counted<ReportAt>,
}

impl Model for ReportParameters {
    ghost use Rattle.etcs_bodies.specs.PacketFormats.{IsPacketOf};
    ghost use Rattle.etcs_grouped.specs.ReportParameters.{report_parameters_packet, ReportParameters};

    ghost Value = { ReportParameters };

    ghost view = { λ s. s };

    ghost invariant = { IsPacketOf report_parameters_packet };

    ghost inverse = { λ s. s };
}

impl ReportParameters {
    /// The parameters of these numbers and places, returned exactly if none of the errors below applies. Places are
    /// values already, and aren't checked again.
    ///
    /// - `dir`: Q_DIR, for which direction of the train they hold (0 reverse, 1 nominal, 2 both);
    /// - `q_scale`: the unit of all distances (0: 10 cm, 1: 1 m, 2: 10 m);
    /// - `t_cycloc`: the time between two reports, in seconds;
    /// - `d_cycloc`: the distance between two reports;
    /// - `m_loc`: where else the train reports (0: now, 1: at each balise group, 2: at no balise group);
    /// - `reports`: the places at which it reports, in order, each at its distance from the one before.
    ///
    /// # Errors
    ///
    /// The first of these that applies, with the places that were given:
    ///
    /// - `NotAdmitted` with the first of Q_DIR (0 to 2), Q_SCALE (0 to 2), D_CYCLOC (15 bits) and M_LOC (3) that
    ///   doesn't admit its number.
    /// - `TooMany(N_ITER)`: there are more than 31 places.
    pub fn new(
        dir: u8,
        q_scale: u8,
        t_cycloc: u8,
        d_cycloc: u16,
        m_loc: u8,
        reports: Vec<ReportAt>,
    ) -> Result<ReportParameters, (BuildFault, Vec<ReportAt>)>
        ensures ok { IfOk result (λ p. p ≡ report_parameters_value dir q_scale t_cycloc d_cycloc m_loc reports.items) }
        ensures none { IfOk result (λ p. report_parameters_fault (report_parameters_value dir q_scale t_cycloc d_cycloc m_loc reports.items) ≡ None) }
        ensures fault { IfErr result (λ e. report_parameters_fault (report_parameters_value dir q_scale t_cycloc d_cycloc m_loc reports.items) ≡ Some e.0) }
        ensures reports { IfErr result (λ e. e.1.items ≡ reports.items) }
    {
        fields!(build_packet: [reports] dir; q_scale, t_cycloc, d_cycloc, m_loc; Counted::new(reports)?)
    }

    /// Q_SCALE: the unit of all distances (0: 10 cm, 1: 1 m, 2: 10 m).
    pub fn q_scale(&self) -> u8
        ensures { result ≡ self.now.q_scale }
    {
        self.q_scale
    }

    /// T_CYCLOC: the time between two reports, in seconds.
    pub fn t_cycloc(&self) -> u8
        ensures { result ≡ self.now.t_cycloc }
    {
        self.t_cycloc
    }

    /// D_CYCLOC: the distance between two reports, in units of Q_SCALE.
    pub fn d_cycloc(&self) -> u16
        ensures { result ≡ self.now.d_cycloc }
    {
        self.d_cycloc
    }

    /// M_LOC: where else the train reports (0: now, 1: at each balise group, 2: at no balise group).
    pub fn m_loc(&self) -> u8
        ensures { result ≡ self.now.m_loc }
    {
        self.m_loc
    }

    /// The places at which the train reports, in order.
    pub fn reports(&self) -> &[ReportAt]
        ensures { result.now ≡ self.now.reports }
    {
        self.reports.as_slice()
    }
}

impl Variables for ReportParameters {
    ghost use Rattle.etcs_bodies.specs.PacketFormats.{packet_reading};
    ghost use Rattle.etcs_grouped.specs.ReportParameters.{report_parameters_packet};

    ghost reading_of = { λ p. packet_reading report_parameters_packet p };

    #[tactic(auto, using(crate::specs::laws::ReportParameters::report_parameters_length))]
    fn bits(&self) -> usize {
        28 + self.reports.bits()
    }

    fn send<S: VarSink>(&self, out: &mut S) -> Result<(), AllocError> {
        fields!(send_fields: self, out)
    }
}

impl Body for ReportParameters {
    ghost use Rattle.etcs_tables.specs.declared.row.Way.TheVariants.{ToTrain};
    ghost use Rattle.etcs_bodies.specs.PacketFormats.{IsPacketOf, packet_left};
    ghost use Rattle.etcs_grouped.specs.ReportParameters.{report_parameters_packet};
    ghost use Rattle.etcs_grouped.specs.laws.ReportParameters.{report_parameters_codes};

    const NID: u8 = 58;

    const WAY: Way = Way::ToTrain;

    ghost NID = { 58 };

    ghost WAY = { ToTrain };

    ghost direction = { λ p. p.dir };

    ghost is_value = { λ p. IsPacketOf report_parameters_packet p };

    ghost read_from = { λ dir s. packet_left report_parameters_packet dir s };

    ghost codes = { report_parameters_codes };

    fn q_dir(&self) -> u8 {
        self.dir
    }

    #[tactic(auto, using(etcs_bodies::specs::laws::Takes::number_ok), unfolding(etcs_bodies::specs::PacketCodes::directed_from))]
    fn take<L: Numbers>(
        alloc: Global,
        dir: u8,
        numbers: &mut L,
    ) -> Result<Option<Self>, AllocError> {
        fields!(take_fields: alloc, numbers, dir)
    }

    #[inline(always)]
    fn pass<L: Numbers, S: VarSink>(numbers: &mut L, out: &mut S) -> Result<bool, AllocError> {
        let run = (Var::Q_SCALE, (Var::T_CYCLOC, (Var::D_CYCLOC, Var::M_LOC)));
        let Some((q_scale, (t_cycloc, (d_cycloc, m_loc)))) = numbers.run(run) else {
            return Ok(false);
        };
        out.send(&[
            (Var::Q_SCALE, q_scale),
            (Var::T_CYCLOC, t_cycloc),
            (Var::D_CYCLOC, d_cycloc),
            (Var::M_LOC, m_loc),
        ])?;
        Counted::<ReportAt>::pass(numbers, out)
    }

    fn copy(&self, alloc: Global) -> Result<ReportParameters, AllocError> {
        fields!(copy_fields: self, alloc, dir)
    }
}

impl Exact for ReportParameters {
    ghost use Rattle.etcs_grouped.specs.laws.ReportParameters.{report_parameters_exact};

    ghost exact = { report_parameters_exact };
}
