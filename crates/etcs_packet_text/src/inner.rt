//! For the crates above: the text of packets, numbers, bits and bytes, and in `json_text` variables and packets as JSON.

pub use crate::digits::append_digits;
pub use crate::packet_page::PacketPage;
pub use crate::packets::write_packets;
pub use crate::page::Page;
pub use crate::sources::{Given, InRoom, PacketSource};
pub use crate::text::write_decimal;

/// Variables and packets as JSON.
pub mod json_text {
    pub use crate::json_page::JsonPage;
    pub use crate::pairs::write_variables;
}
