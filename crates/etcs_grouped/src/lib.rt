//! The packets to the train with groups or lists: 5, 12, 15, 21, 27, 41, 46, 49, 58, 63, 68, 72, 76, 80 and 136.
//!
//! Each is [`Packetlike`], `Framed` and `Variables`: a packet and its variables determine each other. Packets 5, 21, 27
//! and 80 are one generic packet, [`Chain`].
#![tactic(auto)]

mod balise_list;
mod chain;
mod conditional_level_order;
mod fixed_text;
mod gradient;
mod infill_location;
mod level1_ma;
mod level23_ma;
mod level_order;
mod linking;
mod mode_profile;
mod plain_text;
mod report_parameters;
mod speed_profile;
mod track_condition;
mod track_state;

pub use balise_list::BaliseList;
pub use chain::{Chain, Chained};
pub use conditional_level_order::ConditionalLevelOrder;
pub use etcs_bodies::Packetlike;
pub use etcs_vars::BuildFault;
pub use fixed_text::FixedText;
pub use gradient::Gradient;
pub use infill_location::InfillLocation;
pub use level_order::LevelOrder;
pub use level1_ma::Level1Ma;
pub use level23_ma::Level23Ma;
pub use linking::Linking;
pub use mode_profile::ModeProfile;
pub use plain_text::PlainText;
pub use report_parameters::ReportParameters;
pub use speed_profile::SpeedProfile;
pub use track_condition::TrackCondition;
pub use track_state::TrackState;
