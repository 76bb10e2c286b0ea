//! The crates below, each with everything in it: also its module for the crates above (`inner`) and its laws (`laws`).

pub use etcs_bits;
pub use etcs_group;
pub use etcs_json;
pub use etcs_packets;
pub use etcs_places;
pub use etcs_radio;
pub use etcs_reasons;
pub use etcs_rows;
pub use etcs_stream;
pub use etcs_tables;
pub use etcs_telegram;
pub use etcs_text;
pub use etcs_track;
pub use etcs_train;
pub use etcs_vars;
