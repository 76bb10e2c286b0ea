//! Where the variables of an item are ([`places`]): in which packet, and in which entry of which repeated group.
//!
//! ```rust
//! let read = read_pairs(alloc, Kind::Long, bytes)?;
//! let pairs = read.fields.as_slice();
//! if let Some(places) = places(alloc, Kind::Long, pairs)? {
//!     for (pair, place) in pairs.iter().zip(places.iter()) {
//!         // a NID_C in packet 1, entry 2 is that of the second link in the list of a packet 5
//!     }
//! }
//! ```
#![tactic(auto)]

pub mod inner;
mod item;
pub mod laws;
mod place;
mod row;
mod walk;

pub use item::{front_places, places};
pub use place::Place;
