//! A static speed and its differences.

ghost use Rattle.std.specs.Prelude.{◌≡◌, Some, OnOk, IfOk, IfErr, None};

use crate::differing::Differing;
use etcs_bodies::laws::Exact;
use etcs_bodies::{
    Counted, Entry, Flag, Numbers, Part, Passing, build_part, copy_fields, send_fields, take_fields,
};
use etcs_vars::inner::{VarSink, Variables};
use etcs_vars::{BuildFault, Var};
use std::alloc::{AllocError, Global};
use std::marker::Model;

/// Its fields in the order of its row.
macro_rules! fields {
    ($then:ident: $($with:tt)*) => {
        $then! { { $($with)* } d_static: D_STATIC u16, v_static: V_STATIC u8, q_front: Q_FRONT bool; differing: Counted }
    };
}

/// A static speed and where it begins, with the speeds of the trains for which it differs (packet 27; SUBSET-026,
/// 7.4 and 7.5).
#[derive(Debug, Drop, PartialEq, Eq)]
pub struct Speed {
    d_static: u16,
    v_static: u8,
    q_front: bool,
    differing: Counted<Differing>,
}

impl Model for Speed {
    ghost use Rattle.etcs_bodies.specs.Formats.{Is};
    ghost use Rattle.etcs_parts.specs.Speeds.{Speed, speed_format};

    ghost Value = { Speed };

    ghost view = { λ s. s };

    ghost invariant = { Is speed_format };

    ghost inverse = { λ s. s };
}

impl Speed {
    ghost use Rattle.etcs_parts.specs.Speeds.{speed_value, speed_fault};

    /// A speed from its place on, returned exactly if none of the errors below applies. Its entries are values already,
    /// and aren't checked again.
    ///
    /// - `d_static`: how far it begins after the place of the speed before it, in steps of Q_SCALE (0: 10 cm,
    ///   1: 1 m, 2: 10 m);
    /// - `v_static`: the speed in steps of 5 km/h; 127 is the end of the profile;
    /// - `q_front`: whether the speed ends as soon as the front of the train comes to the next one, with no delay by
    ///   the length of the train;
    /// - `differing`: the speeds of categories of trains for which it differs.
    ///
    /// # Errors
    ///
    /// The first of these that applies, with the entries that were given:
    ///
    /// - `NotAdmitted` with D_STATIC, then with V_STATIC: the number is spare or too large for the variable's width.
    /// - `TooMany(N_ITER)`: there are more than 31 entries.
    pub fn new(
        d_static: u16,
        v_static: u8,
        q_front: bool,
        differing: Vec<Differing>,
    ) -> Result<Speed, (BuildFault, Vec<Differing>)>
        ensures ok { IfOk result (λ s. s ≡ speed_value d_static v_static q_front differing.items) }
        ensures fits { OnOk result (speed_fault (speed_value d_static v_static q_front differing.items) ≡ None) }
        ensures fault { IfErr result (λ e. speed_fault (speed_value d_static v_static q_front differing.items) ≡ Some e.0) }
        ensures back { IfErr result (λ e. e.1.items ≡ differing.items) }
    {
        fields!(build_part: [differing] d_static, v_static, q_front; Counted::new(differing)?)
    }

    /// D_STATIC: how far it begins after the place of the speed before it, in steps of Q_SCALE.
    pub fn d_static(&self) -> u16
        ensures { result ≡ self.now.d_static }
    {
        self.d_static
    }

    /// V_STATIC: the speed in steps of 5 km/h; 127 is the end of the profile.
    pub fn v_static(&self) -> u8
        ensures { result ≡ self.now.v_static }
    {
        self.v_static
    }

    /// Q_FRONT: whether it ends with no delay by the length of the train.
    pub fn q_front(&self) -> bool
        ensures { result ≡ self.now.q_front }
    {
        self.q_front
    }

    /// The speeds of categories of trains for which it differs.
    pub fn differing(&self) -> &[Differing]
        ensures { result.now ≡ self.now.differing }
    {
        self.differing.as_slice()
    }
}

impl Variables for Speed {
    ghost use Rattle.etcs_bodies.specs.Formats.{reading};
    ghost use Rattle.etcs_parts.specs.Speeds.{speed_format};

    ghost reading_of = { λ s. reading speed_format s };

    #[tactic(auto, using(crate::specs::laws::Speeds::speed_spelled, crate::specs::laws::Speeds::few_entries))]
    fn bits(&self) -> usize {
        28 + 13 * self.differing.as_slice().len()
    }

    fn send<S: VarSink>(&self, out: &mut S) -> Result<(), AllocError> {
        fields!(send_fields: self, out)
    }
}

impl Part for Speed {
    ghost use Rattle.etcs_tables.specs.Rows.{speed};
    ghost use Rattle.etcs_bodies.specs.Formats.{from, Is};
    ghost use Rattle.etcs_parts.specs.Speeds.{speed_format};
    ghost use Rattle.etcs_bodies.specs.laws.Formats.{codes_of};
    ghost use Rattle.etcs_parts.specs.laws.Speeds.{speed_ok};

    ghost row = { speed };

    ghost read_from = { from speed_format };

    ghost is_part = { λ s. Is speed_format s };

    ghost codes = { codes_of speed_format speed_ok };

    fn holds(&self) {
        let _ = &self.d_static;
    }

    fn take<L: Numbers>(alloc: Global, numbers: &mut L) -> Result<Option<Speed>, AllocError> {
        fields!(take_fields: alloc, numbers)
    }

    fn try_clone(&self, alloc: Global) -> Result<Speed, AllocError> {
        fields!(copy_fields: self, alloc)
    }
}

impl Passing for Speed {
    #[inline(always)]
    fn pass<L: Numbers, S: VarSink>(numbers: &mut L, out: &mut S) -> Result<bool, AllocError> {
        let run = (Var::D_STATIC, (Var::V_STATIC, Flag(Var::Q_FRONT)));
        let Some((d_static, (v_static, q_front))) = numbers.run(run) else {
            return Ok(false);
        };
        out.send(&[
            (Var::D_STATIC, d_static),
            (Var::V_STATIC, v_static),
            (Var::Q_FRONT, u64::from(q_front)),
        ])?;
        Counted::<Differing>::pass(numbers, out)
    }
}

impl Entry for Speed {
    ghost use Rattle.std.specs.Prelude.{refl};
    ghost use Rattle.etcs_bodies.specs.laws.Formats.{at_most};
    ghost use Rattle.etcs_parts.specs.Speeds.{speed_format};

    const MOST: usize = 431;

    ghost MOST = { 431 };

    ghost most = { λ s h. at_most speed_format s h };

    ghost short = { refl };
}

impl Exact for Speed {
    ghost use Rattle.etcs_parts.specs.laws.Speeds.{speed_exact};

    ghost exact = { speed_exact };
}
