//! Texts of items.

ghost use Rattle.std.specs.Prelude.{◌≡◌, [], IfOk, OnOk};
ghost use Rattle.etcs_bits.specs.Bits.{bits};
ghost use Rattle.serde_json.specs.Written.{compact_text};
ghost use Rattle.etcs_text.specs.Entries.{entry_value};
ghost use Rattle.etcs_text.specs.Trees.{json_tree};
ghost use Rattle.etcs_c.specs.Answers.{IsText, SaysText};

use crate::answer::{EtcsAnswer, WHOLE, deliver};
use crate::found::item_of;
use etcs_text::{Entry, Kind, json_line, show_lines};
use std::alloc::{AllocError, Global};

/// What is written of an item.
#[derive(Clone, Copy, PartialEq, Eq)]
pub(crate) enum Wanted {
    /// Its text, as the item of this number.
    Show(u64),
    /// Its JSON.
    Json,
}

/// Appends the JSON of an entry to nothing, without the LF that ends its line.
fn json_of(entry: &Entry, text: &mut Vec<u8>) -> Result<(), AllocError>
    requires { text.old.items ≡ [] }
    ensures ok { OnOk result (text.new.items ≡ compact_text (json_tree (entry_value entry.now))) }
{
    json_line(entry, text)?;
    let count = text.len() - 1;
    text.truncate(count);
    Ok(())
}

/// The text of an entry.
fn text_of(alloc: Global, wanted: Wanted, entry: &Entry) -> Result<Vec<u8>, AllocError>
    ensures { IfOk result (λ text. IsText wanted (entry_value entry.now) text.items) }
{
    let mut text = Vec::new(alloc);
    match wanted {
        Wanted::Show(item) => show_lines(entry, item, &mut text)?,
        Wanted::Json => json_of(entry, &mut text)?,
    }
    Ok(text)
}

/// Returns the status of what the bytes begin with, and writes the text of an item.
pub(crate) fn write_text(
    alloc: Global,
    wanted: Wanted,
    kind: Kind,
    bytes: &[u8],
    out: &mut [u8],
    answer: &mut EtcsAnswer,
) -> u32
    ensures { SaysText wanted kind (bits bytes.now) out.old out.new result answer.new }
{
    match item_of(alloc, kind, bytes, answer) {
        Ok((entry, taken)) => {
            answer.taken = taken;
            deliver(WHOLE, text_of(alloc, wanted, &entry), out, answer)
        }
        Err(status) => status,
    }
}
