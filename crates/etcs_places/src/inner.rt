//! For the crates above: the places of pairs that are known to be those of an item.

pub use crate::item::item_places;
