//! Items of lines that are exactly what `json_line` writes.

ghost use Rattle.std.specs.Prelude.{◌≡◌, ◌++◌, ℕ, List, IfOk, IfSome};
ghost use Rattle.etcs_text.specs.Entries.{entry_value};
ghost use Rattle.etcs_json.specs.JsonLines.{SaysItem};

use crate::from_page::item_on;
use crate::line::line_item;
use etcs_text::{Entry, Kind};
use etcs_vars::BitPage;
use std::alloc::{AllocError, Global};

/// The item of the kind that `json_line` writes as this line, without its LF. `None` if none was found: the line may still
/// be JSON of an item, for instance with blanks between its parts.
///
/// # Errors
///
/// `AllocError` if out of memory.
pub(crate) fn exact_item(
    alloc: Global,
    kind: Kind,
    line: &[u8],
) -> Result<Option<Entry>, AllocError>
    ensures { IfOk result (λ o. IfSome o (λ e. SaysItem kind line.now (entry_value e))) }
{
    let text = with_room(alloc, line)?;
    let mut page = BitPage::new();
    let Some(used) = line_item(kind, text.as_slice(), &mut page) else {
        return Ok(None);
    };
    if used != line.len() {
        return Ok(None);
    }
    match item_on(alloc, kind, &page) {
        Ok(entry) => Ok(Some(entry)),
        Err(_) => Err(AllocError),
    }
}

/// A line, and after it the 64 bytes that [`line_item`] looks at.
fn with_room(alloc: Global, line: &[u8]) -> Result<Vec<u8>, AllocError>
    ensures { IfOk result (λ text. (rest : List ℕ) × (text.items ≡ line.now ++ rest)) }
{
    let mut text = Vec::new(alloc);
    text.extend_from_slice(line)?;
    text.extend_from_slice(&[0u8; 64])?;
    Ok(text)
}
