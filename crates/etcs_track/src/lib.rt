//! All packets to the track, each a variant of [`TrainPacket`]: one for each number that is typed, and all others as
//! bits.
//!
//! What a packet stands for (`track_value`) is a value of the same type as for packets to the train, of the direction
//! 0, which isn't sent.
#![tactic(auto)]

mod any_packet;
pub mod laws;
mod list;
mod located;
mod position_report;
mod position_report_two;
mod train_flat;
mod train_other;
mod train_packet;
mod variables;

pub use etcs_bits::{BitSlice, Bits};
pub use etcs_packets::Packetlike;
pub use etcs_vars::{BuildFault, Var};
pub use located::Located;
pub use position_report::PositionReport;
pub use position_report_two::PositionReportTwo;
pub use train_flat::TrainFlat;
pub use train_other::TrainOther;
pub use train_packet::TrainPacket;
