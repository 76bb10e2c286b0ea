//! What the crates above need of a row, by the names that others know: which numbers and lengths fit, and a row that is
//! written without allocating. It is a part of `inner`.

pub use crate::inner::{length_fits, number_fits, put_row};
