//! For the crates above: items on a page, parts of JSON, and items that are seen or refused without values.

pub use crate::encodings::check_on;
pub use crate::item_lines::write_item_number;
pub use crate::json_lines::{json_on, json_seen};
pub use crate::refused::{refusal_at, refused_at};
pub use crate::seen::{MOST_BYTES, item_bits, seen};
pub use crate::show::{show_on, show_seen};
