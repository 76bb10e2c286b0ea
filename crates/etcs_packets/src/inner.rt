//! For the crates above: packets of either way, as readers and messages use them, and what packets are made of.

pub use crate::any_packet::{AnyPacket, append_all, room_after};
pub use crate::copies::copy_all;
pub use crate::typed::{
    Formed, Made, Source, copy_of, hold, none_of, packet_of, pass_of, typed_bits, typed_nid,
};
pub use crate::variables::{send_all, send_frame};
pub use crate::write::{append_variables, room_left};
