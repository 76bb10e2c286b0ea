//! For the crates above: lines of JSON as the bits of their items.

pub use crate::line::line_item;
