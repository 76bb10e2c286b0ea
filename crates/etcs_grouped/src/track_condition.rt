//! The track conditions ahead.

ghost use Rattle.std.specs.Prelude.{◌≡◌, None, Some, IfOk, IfErr};
ghost use Rattle.std.specs.Cmp.{decided, partial_equiv_from_equiv};
ghost use Rattle.etcs_grouped.specs.TrackConditions.{state_of, track_condition_value, track_condition_fault, track_condition_packet};
ghost use Rattle.etcs_bodies.specs.PacketFormats.{packet_equal};
ghost use Rattle.etcs_grouped.specs.laws.TrackConditions.{track_condition_exact};

use crate::track_state::{
    TrackState, check_state, copy_state, pass_state, same_state, send_state, state_bits, take_state,
};
use etcs_bodies::laws::Exact;
use etcs_bodies::{Body, Numbers, check_field, taken};
use etcs_tables::Way;
use etcs_vars::inner::{VarSink, Variables};
use etcs_vars::{BuildFault, Var};
use std::alloc::{AllocError, Global};
use std::marker::Model;

/// The track conditions ahead (packet 68; SUBSET-026, 7.4.2).
#[derive(Debug, Drop)]
pub struct TrackCondition {
    dir: u8,
    q_scale: u8,
    state: TrackState,
}

impl Model for TrackCondition {
    ghost use Rattle.etcs_bodies.specs.PacketFormats.{IsPacketOf};
    ghost use Rattle.etcs_grouped.specs.TrackConditions.{track_condition_packet, TrackConditionValue, track_condition_value, state_of};

    ghost Value = { TrackConditionValue };

    ghost view = { λ s. track_condition_value s.dir s.q_scale (state_of s.state) };

    ghost invariant = { λ s. IsPacketOf track_condition_packet (track_condition_value s.dir s.q_scale (state_of s.state)) };
}

impl TrackCondition {
    /// The packet of this state, returned exactly if none of the errors below applies. Conditions are values already,
    /// and aren't checked again.
    ///
    /// - `dir`: Q_DIR, for which direction of the train they hold (0 reverse, 1 nominal, 2 both);
    /// - `q_scale`: the unit of all distances (0: 10 cm, 1: 1 m, 2: 10 m);
    /// - `state`: from where on the initial states are resumed, or the conditions, in order. The first distance counts
    ///   from the reference point of the packet.
    ///
    /// # Errors
    ///
    /// The first of these that applies, with a state of the same distance or conditions:
    ///
    /// - `NotAdmitted` with the first of Q_DIR (0 to 2), Q_SCALE (0 to 2) and D_TRACKINIT (15 bits) that doesn't admit
    ///   its number.
    /// - `TooMany(N_ITER)`: there are more than 31 further conditions.
    pub fn new(
        dir: u8,
        q_scale: u8,
        state: TrackState,
    ) -> Result<TrackCondition, (BuildFault, TrackState)>
        ensures ok { IfOk result (λ p. p ≡ track_condition_value dir q_scale (state_of state)) }
        ensures none { IfOk result (λ p. track_condition_fault (track_condition_value dir q_scale (state_of state)) ≡ None) }
        ensures fault { IfErr result (λ e. track_condition_fault (track_condition_value dir q_scale (state_of state)) ≡ Some e.0) }
        ensures state { IfErr result (λ e. state_of e.1 ≡ state_of state) }
    {
        check_field!([state] dir Q_DIR u8);
        check_field!([state] q_scale Q_SCALE u8);
        if let Err(fault) = check_state(&state) {
            return Err((fault, state));
        }
        Ok(TrackCondition {
            dir,
            q_scale,
            state,
        })
    }

    /// Q_SCALE: the unit of all distances (0: 10 cm, 1: 1 m, 2: 10 m).
    pub fn q_scale(&self) -> u8
        ensures { result ≡ self.now.q_scale }
    {
        self.q_scale
    }

    /// From where on the initial states are resumed, or the conditions, in order.
    pub fn state(&self) -> &TrackState
        ensures { state_of result.now ≡ self.now.state }
    {
        &self.state
    }
}

impl PartialEq for TrackCondition {
    ghost eq = { packet_equal track_condition_packet };

    ghost laws = { partial_equiv_from_equiv (decided (packet_equal track_condition_packet) track_condition_exact) };

    fn eq(&self, other: &TrackCondition) -> bool {
        self.dir == other.dir
            && self.q_scale == other.q_scale
            && same_state(&self.state, &other.state)
    }
}

impl Eq for TrackCondition {
    ghost laws = { decided (packet_equal track_condition_packet) track_condition_exact };
}

impl Variables for TrackCondition {
    ghost use Rattle.etcs_bodies.specs.PacketFormats.{packet_reading};
    ghost use Rattle.etcs_grouped.specs.TrackConditions.{track_condition_packet};

    ghost reading_of = { λ p. packet_reading track_condition_packet p };

    #[tactic(auto, using(crate::specs::laws::TrackConditions::track_condition_length))]
    fn bits(&self) -> usize {
        2 + state_bits(&self.state)
    }

    fn send<S: VarSink>(&self, out: &mut S) -> Result<(), AllocError> {
        out.send(&[(Var::Q_SCALE, u64::from(self.q_scale))])?;
        send_state(&self.state, out)
    }
}

impl Body for TrackCondition {
    ghost use Rattle.etcs_tables.specs.declared.row.Way.TheVariants.{ToTrain};
    ghost use Rattle.etcs_bodies.specs.PacketFormats.{IsPacketOf, packet_left};
    ghost use Rattle.etcs_grouped.specs.TrackConditions.{track_condition_packet};
    ghost use Rattle.etcs_grouped.specs.laws.TrackConditions.{track_condition_codes};

    const NID: u8 = 68;

    const WAY: Way = Way::ToTrain;

    ghost NID = { 68 };

    ghost WAY = { ToTrain };

    ghost direction = { λ p. p.dir };

    ghost is_value = { λ p. IsPacketOf track_condition_packet p };

    ghost read_from = { λ dir s. packet_left track_condition_packet dir s };

    ghost codes = { track_condition_codes };

    fn q_dir(&self) -> u8 {
        self.dir
    }

    #[tactic(auto, using(etcs_bodies::specs::laws::Takes::number_ok), unfolding(etcs_bodies::specs::PacketCodes::directed_from))]
    fn take<L: Numbers>(
        alloc: Global,
        dir: u8,
        numbers: &mut L,
    ) -> Result<Option<Self>, AllocError> {
        let q_scale = taken!(numbers.next(Var::Q_SCALE)) as u8;
        let state = taken!(take_state(alloc, numbers)?);
        Ok(Some(TrackCondition {
            dir,
            q_scale,
            state,
        }))
    }

    #[inline(always)]
    fn pass<L: Numbers, S: VarSink>(numbers: &mut L, out: &mut S) -> Result<bool, AllocError> {
        let Some(q_scale) = numbers.next(Var::Q_SCALE) else {
            return Ok(false);
        };
        out.send(&[(Var::Q_SCALE, q_scale)])?;
        pass_state(numbers, out)
    }

    fn copy(&self, alloc: Global) -> Result<TrackCondition, AllocError> {
        Ok(TrackCondition {
            dir: self.dir,
            q_scale: self.q_scale,
            state: copy_state(alloc, &self.state)?,
        })
    }
}

impl Exact for TrackCondition {
    ghost use Rattle.etcs_grouped.specs.laws.TrackConditions.{track_condition_exact};

    ghost exact = { track_condition_exact };
}
