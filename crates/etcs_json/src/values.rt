//! Items and their trees.

ghost use Rattle.std.specs.Prelude.{◌≡◌, ℕ, Err, IfOk};
ghost use Rattle.serde_json.specs.View.{view};
ghost use Rattle.etcs_vars.specs.declared.var.Var.{Var};
ghost use Rattle.etcs_vars.specs.Reading.{Reading};
ghost use Rattle.etcs_text.specs.Entries.{EntryValue, Spells, entry_value};
ghost use Rattle.etcs_text.specs.Trees.{json_tree};
ghost use Rattle.etcs_json.specs.JsonLines.{OfLine, SaysItem, SaysRefused};
ghost use Rattle.etcs_json.specs.Loose.{IsLoose, TreeRefused, TreeSays};
ghost use Rattle.etcs_json.specs.TreeReading.{IsTreeOf};

use crate::exact::exact_item;
use crate::fault::JsonFault;
use crate::from_page::item_on;
use crate::trees::put_item_tree;
use etcs_json_trees::inner::Fault;
use etcs_json_trees::tree_of;
use etcs_text::{Entry, Kind, json_line};
use etcs_vars::BitPage;
use serde_json::Value;
use std::alloc::{AllocError, Global};

/// Returns the JSON tree of an item, an object with these members:
///
/// - Of a telegram: `fill`, a text of the digits 0 and 1; `header`, its ten variables; `kind`, `"short"` or `"long"`;
///   `packets`, a list.
/// - Of a typed message: `fields`, the variables of its number; `header`, those after L_MESSAGE: T_TRAIN, M_ACK and
///   NID_LRBG to the train, T_TRAIN and NID_ENGINE to the track; `kind`, `"radio"` to the train and `"train"` to the
///   track; `nid`, its number; `packets`; `padding`, a text of the digits 0 and 1.
/// - Of a message that is kept as bits: `data`, the bits after L_MESSAGE as digits; `kind` and `nid`.
///
/// A packet is an object of `dir`, `fields` and `nid`, and one that is kept as bits of `data`, `dir` and `nid`. Packet 0
/// to the train has no `dir`, nor has any packet to the track. Variables are a list of pairs, each a name and a number;
/// the number of NID_RADIO is a text of 16 hexadecimal digits in lower case.
///
/// # Errors
///
/// `AllocError` if out of memory.
pub fn to_value(alloc: Global, entry: &Entry) -> Result<Value, AllocError>
    ensures { IfOk result (λ v. view v ≡ json_tree (entry_value entry.now)) }
{
    reads(entry);
    let mut line = Vec::new(alloc);
    json_line(entry, &mut line)?;
    let text = line.as_slice();
    match tree_of(alloc, &text[..text.len() - 1])? {
        Some(tree) => Ok(tree),
        None => unreachable!(),
    }
}

/// For proofs: each item has a reading. Does nothing.
fn reads(entry: &Entry)
    ensures { (r : Reading) × Spells (entry_value entry.now) r }
{
    match entry {
        Entry::Telegram(telegram) => etcs_telegram::inner::reads(telegram),
        Entry::Message(message) => etcs_messages::inner::reads(message),
        Entry::Train(message) => etcs_messages::inner::reads(message),
    }
}

/// Returns the one item of the kind whose tree the value is. A packet 49, 57, 58, 63, 68, 80 or 131 to the train may be
/// kept as bits in the tree, as it was stored before these were typed: the item is then the one of the kind that has the
/// same bits.
///
/// A tree of an item is an object of exactly the members of a telegram of the kind's size, or of a message of the kind's
/// way, as [`to_value`](crate::to_value) lists them. Its pairs are in the order of sending, its numbers are whole, without
/// fraction or exponent, and the digits of NID_RADIO may be in either case. With a tree that `to_value` makes of an item
/// that has a spelling, and that item's kind, the result is never `Shape` or `Refused`.
///
/// The caller makes the value, and bears what that takes: with serde_json some 120 bytes for each byte of the text, and
/// stack for each level, which matters if the text isn't trusted. [`from_line`] makes no more of a line than an item
/// may have.
///
/// # Errors
///
/// - [`JsonFault::Shape`] only if the value is no tree of an item of the kind, and none of this older form;
/// - [`JsonFault::Refused`] only if it is such a tree and no item of the kind has its bits: with the first bit with which
///   none continues, and the variable that holds it;
/// - [`JsonFault::Memory`] if out of memory, whatever the value is.
pub fn from_value(alloc: Global, kind: Kind, value: &Value) -> Result<Entry, JsonFault>
    ensures ok { IfOk result (λ e. TreeSays kind (view value.now) (entry_value e)) }
    ensures refused { (i : ℕ) (x : Var) → result ≡ Err (JsonFault.Refused i x) → TreeRefused kind (view value.now) i x }
    ensures shape { result ≡ Err JsonFault.Shape → (o : EntryValue) → IsLoose kind o → IsTreeOf o (view value.now) → ⊥ }
{
    let mut page = BitPage::new();
    match put_item_tree(alloc, kind, value, &mut page) {
        Ok(()) => item_on(alloc, kind, &page),
        Err(Fault::Invalid) => Err(JsonFault::Shape),
        Err(Fault::Memory) => Err(JsonFault::Memory),
    }
}

/// Returns the one item of the kind whose JSON the line is: the line is UTF-8, and is read as a tree of this item, or of
/// older JSON with the same bits, as described for [`from_value`]. No more is made of the line than an item may have: in all
/// that was tried, a line of 1 MiB took at most some 6 MB.
///
/// # Errors
///
/// - [`JsonFault::Shape`] only if the line isn't UTF-8, has no tree, or has one that is no tree of an item of the kind, and
///   none of this older form;
/// - [`JsonFault::Refused`] only if it has such a tree and no item of the kind has its bits: with the first bit with which
///   none continues, and the variable that holds it;
/// - [`JsonFault::Memory`] if out of memory, whatever the line is.
pub fn from_line(alloc: Global, kind: Kind, line: &[u8]) -> Result<Entry, JsonFault>
    ensures ok { IfOk result (λ e. SaysItem kind line.now (entry_value e)) }
    ensures refused { (i : ℕ) (x : Var) → result ≡ Err (JsonFault.Refused i x) → SaysRefused kind line.now i x }
    ensures shape { result ≡ Err JsonFault.Shape → (o : EntryValue) → IsLoose kind o → OfLine (λ d. IsTreeOf o d) line.now → ⊥ }
{
    match exact_item(alloc, kind, line) {
        Ok(Some(entry)) => Ok(entry),
        Ok(None) => from_any_line(alloc, kind, line),
        Err(_) => Err(JsonFault::Memory),
    }
}

/// The item of the kind whose JSON the line is, read by way of its tree. The errors are those of [`from_line`].
fn from_any_line(alloc: Global, kind: Kind, line: &[u8]) -> Result<Entry, JsonFault>
    ensures ok { IfOk result (λ e. SaysItem kind line.now (entry_value e)) }
    ensures refused { (i : ℕ) (x : Var) → result ≡ Err (JsonFault.Refused i x) → SaysRefused kind line.now i x }
    ensures shape { result ≡ Err JsonFault.Shape → (o : EntryValue) → IsLoose kind o → OfLine (λ d. IsTreeOf o d) line.now → ⊥ }
{
    let Ok(tree) = tree_of(alloc, line) else {
        return Err(JsonFault::Memory);
    };
    match tree.as_ref() {
        Some(value) => from_value(alloc, kind, value),
        None => Err(JsonFault::Shape),
    }
}
