//! What a refused line most often is.

use etcs_reasons::End;
use etcs_reasons::inner::{MOST_BYTES, is_item, wanted_bytes};
use etcs_runs::Form;
use etcs_text::Kind;
use std::alloc::{AllocError, Global};

/// What a line most often is whose bytes are refused as a telegram, but whose last bytes are one.
///
/// # Errors
///
/// If memory runs out.
pub(crate) fn last_telegram(
    alloc: Global,
    from: Form,
    kind: Kind,
    bytes: &[u8],
    end: End,
) -> Result<Option<&'static str>, AllocError> {
    let hint = match kind {
        Kind::Long => "the last 104 bytes are a long telegram: etcs log reads such lines",
        Kind::Short => "the last 27 bytes are a short telegram: etcs log reads such lines",
        Kind::Radio | Kind::Train => return Ok(None),
    };
    // of as many as are shown the last ones may be missing
    if from != Form::Hex || !matches!(end, End::Refused(_, _)) || bytes.len() >= MOST_BYTES {
        return Ok(None);
    }
    let count = wanted_bytes(kind, bytes).unwrap_or(0);
    let last = match bytes.len().checked_sub(count) {
        Some(front) if front > 0 => bytes.get(front..).unwrap_or(bytes),
        _ => return Ok(None),
    };
    Ok(if is_item(alloc, kind, last)? {
        Some(hint)
    } else {
        None
    })
}
