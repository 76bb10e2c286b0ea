//! The form of an input.

/// The form of the items of an input, or of an output.
#[derive(Clone, Copy, Debug, PartialEq, Eq)]
pub enum Form {
    /// Lines of hexadecimal digits.
    Hex,
    /// The bytes themselves.
    Bin,
    /// Lines of JSON, one for each item.
    Json,
}
