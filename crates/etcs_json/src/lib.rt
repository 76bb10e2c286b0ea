//! Items as JSON and back: [`to_value`] makes an item's tree; [`from_value`] and [`from_line`] make the item of a
//! tree or a line, or report a [`JsonFault`]. `etcs_text` writes JSON without a tree; `etcs_json_trees` has the trees
//! of lines and of packets.
//!
//! ```rust
//! match from_line(alloc, Kind::Short, line) {
//!     Ok(entry) => Some(entry),
//!     Err(JsonFault::Shape) => None,          // not the JSON of a telegram of 210 bits
//!     Err(JsonFault::Refused { .. }) => None, // of an older form, with bits that are no telegram
//!     Err(JsonFault::Memory) => None,
//! }
//! ```
#![tactic(auto)]

mod exact;
mod fault;
mod from_page;
pub mod inner;
pub mod laws;
mod line;
mod trees;
mod values;

pub use etcs_text::{Entry, Kind};
pub use etcs_vars::Var;
pub use fault::JsonFault;
pub use serde_json::Value;
pub use values::{from_line, from_value, to_value};
