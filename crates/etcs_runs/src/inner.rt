//! For the crates above: what runs an engine over the whole input, cuts text into lines, decodes hexadecimal digits, and
//! writes all of a text.

pub use crate::cutter::{LineHandler, Lines};
pub use crate::engine::{Engine, MOST_READ};
pub use crate::hexadecimal::{decode, is_digit};
pub use crate::pump::run_engine;
pub use crate::send::send;
