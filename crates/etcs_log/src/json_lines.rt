//! Good lines as JSON.

ghost use Rattle.std.specs.Prelude.{◌≡◌, ◌++◌, OnOk};
ghost use Rattle.std.specs.Str.Lossy.{utf8_lossy};
ghost use Rattle.serde_json.specs.Data.{string};
ghost use Rattle.serde_json.specs.Written.{compact_text};
ghost use Rattle.etcs_text.specs.Entries.{entry_value};
ghost use Rattle.etcs_text.specs.Trees.{json_tree};
ghost use Rattle.etcs_log.specs.JsonLines.{json_item};
ghost use Rattle.etcs_log.specs.Visible.{visible};

use crate::strings::append_visible_string;
use etcs_packet_text::inner::write_decimal;
use etcs_text::{Entry, json_line};
use std::alloc::AllocError;
use std::str;

/// Appends what is before the digits of a line as a string of JSON with its unseen characters escaped.
///
/// # Errors
///
/// If memory runs out.
fn append_front(front: &[u8], out: &mut Vec<u8>) -> Result<(), AllocError>
    ensures { OnOk result (out.new.items ≡ out.old.items ++ visible (compact_text (string (utf8_lossy front.now)))) }
{
    if let Ok(text) = str::from_utf8(front) {
        return append_visible_string(text, out);
    }
    let text = String::from_utf8_lossy(*out.allocator(), front)?;
    append_visible_string(text.as_str(), out)
}

/// Appends an item's tree.
///
/// # Errors
///
/// If memory runs out.
fn append_item(item: &Entry, out: &mut Vec<u8>) -> Result<(), AllocError>
    ensures { OnOk result (out.new.items ≡ out.old.items ++ compact_text (json_tree (entry_value item.now))) }
{
    json_line(item, out)?;
    // without its LF
    out.truncate(out.len() - 1);
    Ok(())
}

/// Appends the line of an item as JSON: an object with the line's number (`line`), what is before its digits (`front`), and
/// the item as `convert --to json` writes it (`item`). Bytes before the digits that aren't UTF-8 are written as U+FFFD.
/// Characters that a terminal may act on are escaped: not only those below U+0020, but also U+007F to U+009F, U+061C, U+200E,
/// U+200F, U+2028 to U+202E and U+2066 to U+2069.
///
/// # Errors
///
/// If memory runs out.
#[tactic(auto, using(std::proofs::Common::append_assoc))]
pub(crate) fn write_json_item(
    number: u64,
    front: &[u8],
    item: &Entry,
    out: &mut Vec<u8>,
) -> Result<(), AllocError>
    ensures { OnOk result (out.new.items ≡ out.old.items ++ json_item number front.now (entry_value item.now)) }
{
    out.extend_from_slice(b"{\"line\":")?;
    write_decimal(number, out)?;
    out.extend_from_slice(b",\"front\":")?;
    append_front(front, out)?;
    out.extend_from_slice(b",\"item\":")?;
    append_item(item, out)?;
    out.extend_from_slice(b"}\n")
}
