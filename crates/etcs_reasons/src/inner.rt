//! For the crates above: what bytes begin with, how an account is laid out, what numbers of variables mean, why an item is
//! refused or a line has no bytes, what items of a kind have, and bits that are written as digits.

pub use crate::bits::{are_bits, byte_at, packed};
pub use crate::first::{fed_unseen, is_item};
pub use crate::kinds::{user_bits, wanted_bytes, way_of, way_of_message};
pub use crate::meanings::write_meaning;
pub use crate::names::{message_name, packet_name};
pub use crate::no_bytes::write_no_bytes;
pub use crate::numbers::{is_or_are, low_byte, write_bits};
pub use crate::page::{FOOT, HEAD, write_bytes};
pub use crate::reasons::write_not_admitted;
pub use crate::refusal::write_cause;
pub use crate::sheet::Sheet;
pub use crate::table::write_table;
pub use crate::text::Text;
pub use etcs_text::inner::MOST_BYTES;
