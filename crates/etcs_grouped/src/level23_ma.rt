//! The movement authority of levels 2 and 3.

ghost use Rattle.std.specs.Prelude.{◌≡◌, None, Some, IfOk, IfErr};
ghost use Rattle.etcs_grouped.specs.Level23Mas.{level23_ma_value, level23_ma_fault};

use etcs_bodies::laws::Exact;
use etcs_bodies::{
    Body, Numbers, Part, Passing, build_packet, copy_fields, send_fields, take_fields,
};
use etcs_parts::Authority;
use etcs_tables::Way;
use etcs_vars::inner::{VarSink, Variables};
use etcs_vars::{BuildFault, Var};
use std::alloc::{AllocError, Global};
use std::marker::Model;

/// Its fields in the order of its row.
macro_rules! fields {
    ($then:ident: $($with:tt)*) => {
        $then! { { $($with)* } q_scale: Q_SCALE u8, v_loa: V_LOA u8, t_loa: T_LOA u16; authority: Authority }
    };
}

/// The movement authority of levels 2 and 3 (packet 15; SUBSET-026, 7.4.2).
#[derive(Debug, Drop, PartialEq, Eq)]
pub struct Level23Ma {
    dir: u8,
    q_scale: u8,
    v_loa: u8,
    t_loa: u16,
    authority: Authority,
}

impl Model for Level23Ma {
    ghost use Rattle.etcs_bodies.specs.PacketFormats.{IsPacketOf};
    ghost use Rattle.etcs_grouped.specs.Level23Mas.{level23_ma_packet, Level23Ma};

    ghost Value = { Level23Ma };

    ghost view = { λ s. s };

    ghost invariant = { IsPacketOf level23_ma_packet };

    ghost inverse = { λ s. s };
}

impl Level23Ma {
    /// The movement authority of these parts, returned exactly if none of the errors below applies. `authority` is a
    /// value already, and isn't checked again.
    ///
    /// - `dir`: Q_DIR, for which direction of the train it holds (0 reverse, 1 nominal, 2 both);
    /// - `q_scale`: the unit of all distances (0: 10 cm, 1: 1 m, 2: 10 m);
    /// - `v_loa`: V_LOA, the speed at the limit of the authority, in steps of 5 km/h, at most 120 of them;
    /// - `t_loa`: T_LOA, how long that speed holds, in seconds; 1023 is unlimited;
    /// - `authority`: its sections, and what is after them.
    ///
    /// # Errors
    ///
    /// `NotAdmitted` with the first of Q_DIR (0 to 2), Q_SCALE (0 to 2), V_LOA (0 to 120) and T_LOA (10 bits) that
    /// doesn't admit its number, with the authority that was given.
    pub fn new(
        dir: u8,
        q_scale: u8,
        v_loa: u8,
        t_loa: u16,
        authority: Authority,
    ) -> Result<Level23Ma, (BuildFault, Authority)>
        ensures ok { IfOk result (λ p. p ≡ level23_ma_value dir q_scale v_loa t_loa authority) }
        ensures none { IfOk result (λ p. level23_ma_fault (level23_ma_value dir q_scale v_loa t_loa authority) ≡ None) }
        ensures fault { IfErr result (λ e. level23_ma_fault (level23_ma_value dir q_scale v_loa t_loa authority) ≡ Some e.0) }
        ensures authority { IfErr result (λ e. e.1 ≡ authority) }
    {
        fields!(build_packet: [authority] dir; q_scale, v_loa, t_loa; authority)
    }

    /// Q_SCALE: the unit of all distances (0: 10 cm, 1: 1 m, 2: 10 m).
    pub fn q_scale(&self) -> u8
        ensures { result ≡ self.now.q_scale }
    {
        self.q_scale
    }

    /// V_LOA: the speed at the limit of the authority, in steps of 5 km/h, at most 120 of them.
    pub fn v_loa(&self) -> u8
        ensures { result ≡ self.now.v_loa }
    {
        self.v_loa
    }

    /// T_LOA: how long that speed holds, in seconds; 1023 is unlimited.
    pub fn t_loa(&self) -> u16
        ensures { result ≡ self.now.t_loa }
    {
        self.t_loa
    }

    /// Its sections, and what is after them.
    pub fn authority(&self) -> &Authority
        ensures { result.now ≡ self.now.authority }
    {
        &self.authority
    }
}

impl Variables for Level23Ma {
    ghost use Rattle.etcs_bodies.specs.PacketFormats.{packet_reading};
    ghost use Rattle.etcs_grouped.specs.Level23Mas.{level23_ma_packet};

    ghost reading_of = { λ p. packet_reading level23_ma_packet p };

    #[tactic(auto, using(crate::specs::laws::Level23Mas::level23_ma_length, etcs_parts::specs::laws::Authorities::authority_small))]
    fn bits(&self) -> usize {
        19 + self.authority.bits()
    }

    fn send<S: VarSink>(&self, out: &mut S) -> Result<(), AllocError> {
        fields!(send_fields: self, out)
    }
}

impl Body for Level23Ma {
    ghost use Rattle.etcs_tables.specs.declared.row.Way.TheVariants.{ToTrain};
    ghost use Rattle.etcs_bodies.specs.PacketFormats.{IsPacketOf, packet_left};
    ghost use Rattle.etcs_grouped.specs.Level23Mas.{level23_ma_packet};
    ghost use Rattle.etcs_grouped.specs.laws.Level23Mas.{level23_ma_codes};

    const NID: u8 = 15;

    const WAY: Way = Way::ToTrain;

    ghost NID = { 15 };

    ghost WAY = { ToTrain };

    ghost direction = { λ p. p.dir };

    ghost is_value = { λ p. IsPacketOf level23_ma_packet p };

    ghost read_from = { λ dir s. packet_left level23_ma_packet dir s };

    ghost codes = { level23_ma_codes };

    fn q_dir(&self) -> u8 {
        self.dir
    }

    #[tactic(auto, using(etcs_bodies::specs::laws::Takes::number_ok), unfolding(etcs_bodies::specs::PacketCodes::directed_from))]
    fn take<L: Numbers>(
        alloc: Global,
        dir: u8,
        numbers: &mut L,
    ) -> Result<Option<Self>, AllocError> {
        fields!(take_fields: alloc, numbers, dir)
    }

    #[inline(always)]
    fn pass<L: Numbers, S: VarSink>(numbers: &mut L, out: &mut S) -> Result<bool, AllocError> {
        let run = (Var::Q_SCALE, (Var::V_LOA, Var::T_LOA));
        let Some((q_scale, (v_loa, t_loa))) = numbers.run(run) else {
            return Ok(false);
        };
        out.send(&[
            (Var::Q_SCALE, q_scale),
            (Var::V_LOA, v_loa),
            (Var::T_LOA, t_loa),
        ])?;
        Authority::pass(numbers, out)
    }

    fn copy(&self, alloc: Global) -> Result<Level23Ma, AllocError> {
        fields!(copy_fields: self, alloc, dir)
    }
}

impl Exact for Level23Ma {
    ghost use Rattle.etcs_grouped.specs.laws.Level23Mas.{level23_ma_exact};

    ghost exact = { level23_ma_exact };
}
