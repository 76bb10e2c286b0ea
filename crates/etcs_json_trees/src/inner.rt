//! For the crates above: the parts of the JSON of items, put as bits: from trees, and from lines that are exactly what
//! `json_line` writes.

pub use crate::digits::{bits_in, byte_in};
pub use crate::fault::Fault;
pub use crate::members::Rest;
pub use crate::packet_trees::put_packet_trees;
pub use crate::row_trees::{MOST_BITS, put_row_tree};
pub use crate::written::digits::put_digits;
pub use crate::written::packets::put_packets;
pub use crate::written::rows::{put_head, put_header, put_row};
pub use crate::written::text::Text;
