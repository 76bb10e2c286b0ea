//! All packets to the train, each a variant of [`Packet`]: one for each number that is typed, and all others as bits.
//!
//! A packet stands for (`packet_value`) packet 0's number; a typed packet's number, direction and variables; or a kept
//! packet's number, direction and bits.
#![tactic(auto)]

mod any_packet;
mod copies;
pub mod inner;
pub mod laws;
mod list;
mod packet;
pub mod parts;
mod to_train;
mod typed;
mod variables;
mod write;

pub use etcs_bits::{BitSlice, Bits};
pub use etcs_bodies::Packetlike;
pub use etcs_flat::{Flat, Marker, Other};
pub use etcs_grouped::{
    BaliseList, ConditionalLevelOrder, FixedText, Gradient, InfillLocation, Level1Ma, Level23Ma,
    LevelOrder, Linking, ModeProfile, PlainText, ReportParameters, SpeedProfile, TrackCondition,
    TrackState,
};
pub use etcs_parts::{
    Authority, BaliseAt, Condition, Differing, Level, LevelAck, Link, ModeSection, ReportAt,
    Section, Shown, Slope, Speed, TextFrame,
};
pub use etcs_tables::Way;
pub use etcs_vars::{BuildFault, Var};
pub use packet::Packet;
