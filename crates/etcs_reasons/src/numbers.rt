//! The last byte of a number, and counts in words.

ghost use Rattle.std.specs.Prelude.{◌≡◌, ◌%◌};

use crate::text::Text;
use std::alloc::AllocError;

/// Returns the last 8 bits of a number.
pub fn low_byte(number: u64) -> u8
    ensures { result ≡ number % 256 }
{
    (number & 255) as u8
}

/// Appends a count of what has this name in the singular.
///
/// # Errors
///
/// If memory runs out. A part of the text may then be in `out`.
pub fn write_count_of(count: usize, name: &str, out: &mut String) -> Result<(), AllocError> {
    write!(out, "{count} {name}{}", if count == 1 { "" } else { "s" })
}

/// The verb of a count.
pub fn is_or_are(count: usize) -> &'static str {
    if count == 1 { "is" } else { "are" }
}

/// Appends a count of bits.
pub fn write_bits(count: usize, out: &mut Text) {
    write!(out, "{count} bit{}", if count == 1 { "" } else { "s" })
}
