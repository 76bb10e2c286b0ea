//! Why lines of hexadecimal digits have no bytes.

use crate::numbers::write_count_of;
use etcs_runs::NoBytes;
use std::alloc::AllocError;

/// Appends why a line has no bytes, or nothing if it is blank or a comment.
///
/// # Errors
///
/// If memory runs out. A part of the text may then be in `out`.
pub fn write_no_bytes(why: NoBytes, out: &mut String) -> Result<(), AllocError> {
    match why {
        NoBytes::Empty => Ok(()),
        NoBytes::NoDigits => out.push_str("no hexadecimal digits at its end"),
        NoBytes::OddDigits(count) => {
            write_count_of(count, "digit", out)?;
            out.push_str(", an odd number")
        }
    }
}
