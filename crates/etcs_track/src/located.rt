//! A train's location and what it does.

ghost use Rattle.std.specs.Prelude.{◌≡◌, None, Some, IfOk, IfErr, IfSome, IfNone, OnOk, OnErr};
ghost use Rattle.etcs_bodies.specs.Formats.{fault, Is, reading, from};
ghost use Rattle.etcs_track.specs.Locations.{integrity_format, level_format};

use etcs_bodies::{Numbers, Part, Plain, check, check_guard, read_run, send_run};
use etcs_vars::inner::{VarSink, Variables};
use etcs_vars::{BuildFault, Var};
use std::alloc::{AllocError, Global};
use std::marker::Model;

/// Where a train is, and what it does (packets 0 and 1 to the track; SUBSET-026, 7.4.3).
///
/// Distances are in steps of the packet's Q_SCALE: 0 is 10 cm, 1 is 1 m, 2 is 10 m.
#[derive(Clone, Copy, Debug, PartialEq, Eq)]
pub struct Located {
    d_lrbg: u16,
    q_dirlrbg: u8,
    q_dlrbg: u8,
    l_doubtover: u16,
    l_doubtunder: u16,
    q_length: u8,
    l_trainint: Option<u16>,
    v_train: u8,
    q_dirtrain: u8,
    m_mode: u8,
    m_level: u8,
    nid_ntc: Option<u8>,
}

impl Model for Located {
    ghost use Rattle.etcs_track.specs.Locations.{Located, IsLocated};

    ghost Value = { Located };

    ghost view = { λ s. s };

    ghost invariant = { IsLocated };

    ghost inverse = { λ s. s };
}

impl Located {
    ghost use Rattle.etcs_track.specs.Locations.{located_value, located_fault};

    /// Where a train is, and what it does, returned exactly if none of the errors below applies. Each argument is a
    /// variable of SUBSET-026, 7.5:
    ///
    /// - `d_lrbg`: D_LRBG, the distance from the balise group referred to, to the train's front, in steps of Q_SCALE.
    /// - `q_dirlrbg`: Q_DIRLRBG, the train's orientation to that group: 0 reverse, 1 nominal, 2 unknown.
    /// - `q_dlrbg`: Q_DLRBG, the side of that group on which the front is: 0 reverse, 1 nominal, 2 unknown.
    /// - `l_doubtover`: L_DOUBTOVER, how much less than measured the train may have run, with the group's inaccuracy,
    ///   in steps of Q_SCALE.
    /// - `l_doubtunder`: L_DOUBTUNDER, how much more than measured it may have run, with the group's inaccuracy, in
    ///   steps of Q_SCALE.
    /// - `q_length`: Q_LENGTH, the train's integrity: 0 no information, 1 confirmed by the monitoring device,
    ///   2 confirmed by the driver, 3 lost.
    /// - `l_trainint`: L_TRAININT, the length for which it is confirmed, in metres, if Q_LENGTH is 1 or 2.
    /// - `v_train`: V_TRAIN, the speed, in steps of 5 km/h.
    /// - `q_dirtrain`: Q_DIRTRAIN, the direction of the movement: 0 reverse, 1 nominal, 2 unknown.
    /// - `m_mode`: M_MODE, the mode of the on-board equipment, 0 to 15.
    /// - `m_level`: M_LEVEL, the level that it works in: 0 level 0, 1 a national system, 2 to 4 levels 1 to 3.
    /// - `nid_ntc`: NID_NTC, the national system, if M_LEVEL is 1.
    ///
    /// # Errors
    ///
    /// The first of these that applies, in the order of the arguments; for Q_LENGTH and M_LEVEL first the number, then
    /// the guard, then the number that it guards:
    ///
    /// - `NotAdmitted` with D_LRBG, L_DOUBTOVER, L_DOUBTUNDER or L_TRAININT, above 32,767; with Q_DIRLRBG, Q_DLRBG,
    ///   Q_LENGTH or Q_DIRTRAIN, above 3; with V_TRAIN, above 127; with M_MODE, above 15; or with M_LEVEL, above 4.
    /// - `Guard(Q_LENGTH)`: L_TRAININT is missing and Q_LENGTH is 1 or 2, or it is given and Q_LENGTH is another.
    /// - `Guard(M_LEVEL)`: NID_NTC is missing and M_LEVEL is 1, or it is given and M_LEVEL is another.
    #[tactic(auto, unfolding(crate::specs::Locations::located_fault, crate::specs::Locations::IsLocated))]
    pub fn new(
        d_lrbg: u16,
        q_dirlrbg: u8,
        q_dlrbg: u8,
        l_doubtover: u16,
        l_doubtunder: u16,
        q_length: u8,
        l_trainint: Option<u16>,
        v_train: u8,
        q_dirtrain: u8,
        m_mode: u8,
        m_level: u8,
        nid_ntc: Option<u8>,
    ) -> Result<Located, BuildFault>
        ensures ok { IfOk result (λ p. p ≡ located_value d_lrbg q_dirlrbg q_dlrbg l_doubtover l_doubtunder q_length l_trainint v_train q_dirtrain m_mode m_level nid_ntc) }
        ensures fits { OnOk result (located_fault (located_value d_lrbg q_dirlrbg q_dlrbg l_doubtover l_doubtunder q_length l_trainint v_train q_dirtrain m_mode m_level nid_ntc) ≡ None) }
        ensures fault { IfErr result (λ e. located_fault (located_value d_lrbg q_dirlrbg q_dlrbg l_doubtover l_doubtunder q_length l_trainint v_train q_dirtrain m_mode m_level nid_ntc) ≡ Some e) }
    {
        check(Var::D_LRBG, u64::from(d_lrbg))?;
        check(Var::Q_DIRLRBG, u64::from(q_dirlrbg))?;
        check(Var::Q_DLRBG, u64::from(q_dlrbg))?;
        check(Var::L_DOUBTOVER, u64::from(l_doubtover))?;
        check(Var::L_DOUBTUNDER, u64::from(l_doubtunder))?;
        check_integrity(q_length, l_trainint)?;
        check(Var::V_TRAIN, u64::from(v_train))?;
        check(Var::Q_DIRTRAIN, u64::from(q_dirtrain))?;
        check(Var::M_MODE, u64::from(m_mode))?;
        check_level(m_level, nid_ntc)?;
        Ok(Located {
            d_lrbg,
            q_dirlrbg,
            q_dlrbg,
            l_doubtover,
            l_doubtunder,
            q_length,
            l_trainint,
            v_train,
            q_dirtrain,
            m_mode,
            m_level,
            nid_ntc,
        })
    }

    /// D_LRBG: the distance from the balise group referred to, to the train's front, in steps of Q_SCALE.
    pub fn d_lrbg(&self) -> u16
        ensures { result ≡ self.now.d_lrbg }
    {
        self.d_lrbg
    }

    /// Q_DIRLRBG: the train's orientation to that group: 0 reverse, 1 nominal, 2 unknown.
    pub fn q_dirlrbg(&self) -> u8
        ensures { result ≡ self.now.q_dirlrbg }
    {
        self.q_dirlrbg
    }

    /// Q_DLRBG: the side of that group on which the train's front is: 0 reverse, 1 nominal, 2 unknown.
    pub fn q_dlrbg(&self) -> u8
        ensures { result ≡ self.now.q_dlrbg }
    {
        self.q_dlrbg
    }

    /// L_DOUBTOVER: how much less than measured the train may have run, in steps of Q_SCALE.
    pub fn l_doubtover(&self) -> u16
        ensures { result ≡ self.now.l_doubtover }
    {
        self.l_doubtover
    }

    /// L_DOUBTUNDER: how much more than measured it may have run, in steps of Q_SCALE.
    pub fn l_doubtunder(&self) -> u16
        ensures { result ≡ self.now.l_doubtunder }
    {
        self.l_doubtunder
    }

    /// Q_LENGTH, the train's integrity: 0 no information, 1 confirmed by the monitoring device, 2 confirmed by the
    /// driver, 3 lost.
    pub fn q_length(&self) -> u8
        ensures { result ≡ self.now.q_length }
    {
        self.q_length
    }

    /// L_TRAININT: the length for which it is confirmed, in metres; `None` unless Q_LENGTH is 1 or 2.
    pub fn l_trainint(&self) -> Option<u16>
        ensures { result ≡ self.now.l_trainint }
    {
        self.l_trainint
    }

    /// V_TRAIN: the speed, in steps of 5 km/h.
    pub fn v_train(&self) -> u8
        ensures { result ≡ self.now.v_train }
    {
        self.v_train
    }

    /// Q_DIRTRAIN: the direction of the movement: 0 reverse, 1 nominal, 2 unknown.
    pub fn q_dirtrain(&self) -> u8
        ensures { result ≡ self.now.q_dirtrain }
    {
        self.q_dirtrain
    }

    /// M_MODE: the mode of the on-board equipment.
    pub fn m_mode(&self) -> u8
        ensures { result ≡ self.now.m_mode }
    {
        self.m_mode
    }

    /// M_LEVEL: the level: 0 level 0, 1 a national system, 2 to 4 levels 1 to 3.
    pub fn m_level(&self) -> u8
        ensures { result ≡ self.now.m_level }
    {
        self.m_level
    }

    /// NID_NTC: the national system; `None` unless M_LEVEL is 1.
    pub fn nid_ntc(&self) -> Option<u8>
        ensures { result ≡ self.now.nid_ntc }
    {
        self.nid_ntc
    }
}

/// Refuses a Q_LENGTH that isn't admitted, and a length that can't follow it.
fn check_integrity(q_length: u8, l_trainint: Option<u16>) -> Result<(), BuildFault>
    ensures is { OnOk result (Is integrity_format (q_length, l_trainint)) }
    ensures ok { OnOk result (fault integrity_format (q_length, l_trainint) ≡ None) }
    ensures fault { IfErr result (λ e. fault integrity_format (q_length, l_trainint) ≡ Some e) }
{
    check(Var::Q_LENGTH, u64::from(q_length))?;
    check_guard(
        Var::Q_LENGTH,
        q_length == 1 || q_length == 2,
        l_trainint.is_some(),
    )?;
    if let Some(length) = l_trainint {
        check(Var::L_TRAININT, u64::from(length))?;
    }
    Ok(())
}

/// Refuses an M_LEVEL that isn't admitted, and a national system that can't follow it.
fn check_level(m_level: u8, nid_ntc: Option<u8>) -> Result<(), BuildFault>
    ensures is { OnOk result (Is level_format (m_level, nid_ntc)) }
    ensures ok { OnOk result (fault level_format (m_level, nid_ntc) ≡ None) }
    ensures fault { IfErr result (λ e. fault level_format (m_level, nid_ntc) ≡ Some e) }
{
    check(Var::M_LEVEL, u64::from(m_level))?;
    check_guard(Var::M_LEVEL, m_level == 1, nid_ntc.is_some())?;
    if let Some(system) = nid_ntc {
        check(Var::NID_NTC, u64::from(system))?;
    }
    Ok(())
}

/// Q_LENGTH, and the length if it is 1 or 2, that the numbers begin with.
#[tactic(auto, using(etcs_bodies::specs::laws::Guards::guard_ok), unfolding(etcs_bodies::specs::Guards::guard_fault))]
#[inline(always)]
fn take_integrity<L: Numbers>(numbers: &mut L) -> Option<(u8, Option<u16>)>
    ensures part { IfSome result (λ p. Is integrity_format (p.0, p.1)) }
    ensures from { IfSome result (λ p. from integrity_format (L.left numbers.old) ≡ Some ((p.0, p.1), L.left numbers.new)) }
    ensures none { IfNone result (from integrity_format (L.left numbers.old) ≡ None) }
{
    let q_length = numbers.next(Var::Q_LENGTH)? as u8;
    let l_trainint = if q_length == 1 || q_length == 2 {
        Some(numbers.next(Var::L_TRAININT)? as u16)
    } else {
        None
    };
    Some((q_length, l_trainint))
}

/// M_LEVEL, and the national system if it is 1, that the numbers begin with.
#[tactic(auto, using(etcs_bodies::specs::laws::Guards::guard_ok), unfolding(etcs_bodies::specs::Guards::guard_fault))]
#[inline(always)]
fn take_level<L: Numbers>(numbers: &mut L) -> Option<(u8, Option<u8>)>
    ensures part { IfSome result (λ p. Is level_format (p.0, p.1)) }
    ensures from { IfSome result (λ p. from level_format (L.left numbers.old) ≡ Some ((p.0, p.1), L.left numbers.new)) }
    ensures none { IfNone result (from level_format (L.left numbers.old) ≡ None) }
{
    let m_level = numbers.next(Var::M_LEVEL)? as u8;
    let nid_ntc = if m_level == 1 {
        Some(numbers.next(Var::NID_NTC)? as u8)
    } else {
        None
    };
    Some((m_level, nid_ntc))
}

/// Sends Q_LENGTH and the length.
#[inline(always)]
fn send_integrity<S: VarSink>(
    q_length: u8,
    l_trainint: Option<u16>,
    out: &mut S,
) -> Result<(), AllocError>
    ensures ok { OnOk result (out.new ≡ S.with out.old (reading integrity_format (q_length, l_trainint))) }
    ensures err { OnErr result (S.failed out.old out.new) }
{
    match l_trainint {
        None => out.send(&[(Var::Q_LENGTH, u64::from(q_length))]),
        Some(length) => out.send(&[
            (Var::Q_LENGTH, u64::from(q_length)),
            (Var::L_TRAININT, u64::from(length)),
        ]),
    }
}

/// Sends M_LEVEL and the national system.
#[inline(always)]
fn send_level<S: VarSink>(m_level: u8, nid_ntc: Option<u8>, out: &mut S) -> Result<(), AllocError>
    ensures ok { OnOk result (out.new ≡ S.with out.old (reading level_format (m_level, nid_ntc))) }
    ensures err { OnErr result (S.failed out.old out.new) }
{
    match nid_ntc {
        None => out.send(&[(Var::M_LEVEL, u64::from(m_level))]),
        Some(system) => out.send(&[
            (Var::M_LEVEL, u64::from(m_level)),
            (Var::NID_NTC, u64::from(system)),
        ]),
    }
}

impl Variables for Located {
    ghost use Rattle.etcs_bodies.specs.Formats.{reading};
    ghost use Rattle.etcs_track.specs.Locations.{located_format};

    ghost reading_of = { λ p. reading located_format p };

    #[tactic(auto, using(crate::specs::laws::Locations::located_bits))]
    fn bits(&self) -> usize {
        67 + 15 * usize::from(self.l_trainint.is_some()) + 8 * usize::from(self.nid_ntc.is_some())
    }

    #[inline(always)]
    fn send<S: VarSink>(&self, out: &mut S) -> Result<(), AllocError> {
        send_run!(self out d_lrbg: D_LRBG u16, q_dirlrbg: Q_DIRLRBG u8, q_dlrbg: Q_DLRBG u8,
            l_doubtover: L_DOUBTOVER u16, l_doubtunder: L_DOUBTUNDER u16)?;
        send_integrity(self.q_length, self.l_trainint, out)?;
        send_run!(self out v_train: V_TRAIN u8, q_dirtrain: Q_DIRTRAIN u8, m_mode: M_MODE u8)?;
        send_level(self.m_level, self.nid_ntc, out)
    }
}

impl Part for Located {
    ghost use Rattle.etcs_tables.specs.Rows.{located};
    ghost use Rattle.etcs_bodies.specs.Formats.{from};
    ghost use Rattle.etcs_track.specs.Locations.{located_format, IsLocated};
    ghost use Rattle.etcs_track.specs.laws.Locations.{located_codes};

    ghost row = { located };

    ghost read_from = { from located_format };

    ghost is_part = { λ p. IsLocated p };

    ghost codes = { located_codes };

    fn holds(&self) {
        let _ = &self.d_lrbg;
    }

    #[inline(always)]
    fn take<L: Numbers>(_alloc: Global, numbers: &mut L) -> Result<Option<Located>, AllocError> {
        Ok(Located::read(numbers))
    }

    fn try_clone(&self, _alloc: Global) -> Result<Located, AllocError> {
        Ok(*self)
    }
}

impl Plain for Located {
    #[tactic(auto, unfolding(crate::specs::Locations::IsLocated))]
    #[inline(always)]
    fn read<L: Numbers>(numbers: &mut L) -> Option<Located> {
        read_run!(numbers d_lrbg: D_LRBG u16, q_dirlrbg: Q_DIRLRBG u8, q_dlrbg: Q_DLRBG u8);
        read_run!(numbers l_doubtover: L_DOUBTOVER u16, l_doubtunder: L_DOUBTUNDER u16);
        let (q_length, l_trainint) = take_integrity(numbers)?;
        read_run!(numbers v_train: V_TRAIN u8, q_dirtrain: Q_DIRTRAIN u8, m_mode: M_MODE u8);
        let (m_level, nid_ntc) = take_level(numbers)?;
        Some(Located {
            d_lrbg,
            q_dirlrbg,
            q_dlrbg,
            l_doubtover,
            l_doubtunder,
            q_length,
            l_trainint,
            v_train,
            q_dirtrain,
            m_mode,
            m_level,
            nid_ntc,
        })
    }
}
