//! Text and JSON of variables and packets: lines, pairs of name and number, and digits. They are written in place over a
//! page of bytes; no tree is made. The calls are in `inner`, for the crates above.
#![tactic(auto, using(crate::specs::laws::Fronts::begins_more))]

mod digits;
pub mod inner;
mod json_packets;
mod json_page;
mod packet_page;
mod packets;
mod page;
mod pairs;
mod sources;
mod text;
mod written;
