//! What `json_line` writes, read without a tree: lists of pairs and of packets, put as bits.

pub(crate) mod digits;
pub(crate) mod fronts;
pub(crate) mod packets;
pub(crate) mod pair_numbers;
pub(crate) mod pair_text;
pub(crate) mod rows;
pub(crate) mod text;
