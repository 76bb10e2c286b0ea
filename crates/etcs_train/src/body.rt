//! The variables of a message's own.

ghost use Rattle.std.specs.Prelude.{◌≡◌};
ghost use Rattle.etcs_train.specs.Bodies.{is_plain, is_train_time, nid_of_body};

use crate::store::TrainStore;
use etcs_messages::{Head, Own};
use etcs_track::TrainPacket;
use etcs_vars::inner::{VarSink, Variables};
use etcs_vars::{BuildFault, Var, check};
use std::alloc::AllocError;

/// What is in the header of a typed message to the track after its number and length (SUBSET-026, 8).
#[derive(Clone, Copy, Debug, PartialEq, Eq)]
pub struct TrainHead {
    /// T_TRAIN, the time at which the message was sent, in the train's clock: 32 bits, in units of 10 ms.
    pub t_train: u32,
    /// NID_ENGINE, the on-board equipment that sent it: 24 bits.
    pub nid_engine: u32,
}

impl Variables for TrainHead {
    ghost use Rattle.etcs_train.specs.Bodies.{head_variables};

    ghost reading_of = { head_variables };

    #[tactic(auto, using(crate::specs::laws::Heads::head_bits))]
    fn bits(&self) -> usize {
        56
    }

    fn send<S: VarSink>(&self, out: &mut S) -> Result<(), AllocError> {
        out.send(&[
            (Var::T_TRAIN, u64::from(self.t_train)),
            (Var::NID_ENGINE, u64::from(self.nid_engine)),
        ])
    }
}

impl Head for TrainHead {
    ghost use Rattle.etcs_train.specs.Bodies.{train_head};
    ghost use Rattle.etcs_train.specs.laws.Heads.{head_laws};

    type Packet = TrainPacket;

    type Store = TrainStore;

    ghost head = { train_head };

    fn check(self) -> Result<(), BuildFault> {
        check(Var::NID_ENGINE, u64::from(self.nid_engine))
    }

    fn of_numbers(numbers: &[u64]) -> TrainHead {
        TrainHead {
            t_train: numbers[0] as u32,
            nid_engine: numbers[1] as u32,
        }
    }

    ghost laws = { head_laws };
}

/// A typed message to the track: its number and the variables of its own (SUBSET-026, 8).
#[derive(Clone, Copy, Debug, PartialEq, Eq)]
pub enum TrainBody {
    /// Messages 130, 136, 150, 155, 156 and 159, which have no variables of their own.
    Plain { nid: u8 },
    /// Messages 137, 138 and 146: the T_TRAIN of the message that they refer to, in units of 10 ms.
    TrainTime { nid: u8, t_train: u32 },
    /// Message 157: what is known of the position at the start of a mission, Q_STATUS: 0 to 3.
    Status { q_status: u8 },
}

impl TrainBody {
    /// NID_MESSAGE, the number of the message.
    pub fn nid(&self) -> u8
        ensures { result ≡ nid_of_body self.now }
    {
        match self {
            TrainBody::Plain { nid } => *nid,
            TrainBody::TrainTime { nid, .. } => *nid,
            TrainBody::Status { .. } => 157,
        }
    }
}

impl Variables for TrainBody {
    ghost use Rattle.etcs_train.specs.Bodies.{body_reading};

    ghost reading_of = { body_reading };

    #[tactic(auto, using(etcs_bodies::specs::laws::Repeats::bit_count_is))]
    fn bits(&self) -> usize {
        match self {
            TrainBody::Plain { .. } => 0,
            TrainBody::TrainTime { .. } => 32,
            TrainBody::Status { .. } => 2,
        }
    }

    fn send<S: VarSink>(&self, out: &mut S) -> Result<(), AllocError> {
        match self {
            TrainBody::Plain { .. } => out.send(&[]),
            TrainBody::TrainTime { t_train, .. } => {
                out.send(&[(Var::T_TRAIN, u64::from(*t_train))])
            }
            TrainBody::Status { q_status } => out.send(&[(Var::Q_STATUS, u64::from(*q_status))]),
        }
    }
}

impl Own for TrainBody {
    ghost use Rattle.etcs_train.specs.Bodies.{train_body};
    ghost use Rattle.etcs_train.specs.laws.Bodies.{body_laws};

    type Front = TrainHead;

    ghost own = { train_body };

    fn nid(&self) -> u8 {
        TrainBody::nid(self)
    }

    fn is_of_variant(&self) -> bool {
        match self {
            TrainBody::Plain { nid } => is_plain(*nid),
            TrainBody::TrainTime { nid, .. } => is_train_time(*nid),
            TrainBody::Status { .. } => true,
        }
    }

    fn check(self) -> Result<(), BuildFault> {
        match self {
            TrainBody::Status { q_status } => check(Var::Q_STATUS, u64::from(q_status)),
            TrainBody::Plain { .. } | TrainBody::TrainTime { .. } => Ok(()),
        }
    }

    fn of_numbers(nid: u8, numbers: &[u64]) -> TrainBody {
        if is_train_time(nid) {
            return TrainBody::TrainTime {
                nid,
                t_train: numbers[0] as u32,
            };
        }
        if nid == 157 {
            return TrainBody::Status {
                q_status: numbers[0] as u8,
            };
        }
        TrainBody::Plain { nid }
    }

    ghost laws = { body_laws };
}

/// Whether a message of this number is typed and has no variables of its own.
fn is_plain(nid: u8) -> bool
    ensures { result ≡ is_plain nid }
{
    matches!(nid, 130 | 136 | 150 | 155 | 156 | 159)
}

/// Whether a message of this number has T_TRAIN as the one variable of its own.
fn is_train_time(nid: u8) -> bool
    ensures { result ≡ is_train_time nid }
{
    matches!(nid, 137 | 138 | 146)
}
