//! The parts that packets with groups repeat or nest, each a run of variables of their rows as a value.
//!
//! Each part is a [`Part`](etcs_bodies::Part): a part and its variables determine each other, and `==` is equality of
//! its numbers.
#![tactic(auto)]

mod authority;
mod authority_groups;
mod balise_at;
mod condition;
mod confirmed;
mod differing;
mod groups;
mod level;
mod level_ack;
mod link;
mod mode_section;
mod report_at;
mod section;
mod shown;
mod slope;
mod speed;
mod text_frame;

pub use authority::Authority;
pub use balise_at::BaliseAt;
pub use condition::Condition;
pub use differing::Differing;
pub use etcs_vars::BuildFault;
pub use level::Level;
pub use level_ack::LevelAck;
pub use link::Link;
pub use mode_section::ModeSection;
pub use report_at::ReportAt;
pub use section::Section;
pub use shown::Shown;
pub use slope::Slope;
pub use speed::Speed;
pub use text_frame::TextFrame;
