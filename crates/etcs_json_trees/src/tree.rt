//! The tree of a line.

ghost use Rattle.std.specs.Prelude.{◌≡◌, Err, IfNone, IfOk, IfSome, IsUtf8, None, Some, option_map};
ghost use Rattle.serde_json.specs.Data.{Data};
ghost use Rattle.serde_json.specs.Read.{read as read_text};
ghost use Rattle.serde_json.specs.View.{view};
ghost use Rattle.etcs_json_trees.specs.Fits.{FitsItem};
ghost use Rattle.etcs_json_trees.specs.Found.{FindsTree};

use crate::fault::Fault;
use crate::place::Place;
use crate::read::read;
use json::{Reader, Scratch};
use serde_json::Value;
use std::alloc::{AllocError, Global};

/// How deep lists and objects of JSON may nest.
const MAX_DEPTH: usize = 127;

/// Returns the tree of a line of JSON if an item may have such a tree. `None` if the line isn't UTF-8, has no tree, or has
/// one that no item may have.
///
/// An item may have a tree if the names in each object are those of an item or of a packet, lists, numbers and texts are at
/// their places, and nothing is larger than its place admits. Of two members of one name the last counts. Nothing is made
/// of what doesn't fit. In tests, lines of 1 MiB of many shapes took at most 4 MB in addition to the line, twice its length
/// included, and 24 KB of stack.
///
/// # Errors
///
/// `AllocError` if out of memory, whatever the line is.
#[inline(never)]
pub fn tree_of(alloc: Global, line: &[u8]) -> Result<Option<Value>, AllocError>
    ensures some { IfOk result (λ o. IfSome o (λ v. IsUtf8 line.now × (read_text line.now ≡ Some (view v)) × FitsItem (view v))) }
    ensures none { IfOk result (λ o. IfNone o ((d : Data) → IsUtf8 line.now → read_text line.now ≡ Some d → FitsItem d → ⊥)) }
{
    let Ok(text) = simdutf8::compat::from_utf8(line) else {
        return Ok(None);
    };
    let mut scratch = Scratch::new(alloc);
    match whole(alloc, text, &mut scratch) {
        Ok(tree) => Ok(tree),
        Err(Fault::Invalid) => Ok(None),
        Err(Fault::Memory) => Err(AllocError),
    }
}

/// The tree of a text of JSON, if an item may have such a tree.
fn whole(alloc: Global, text: &str, scratch: &mut Scratch) -> Result<Option<Value>, Fault>
    ensures ok { IfOk result (λ o. FindsTree (read_text text.now) (option_map view o)) }
    ensures err { result ≡ Err Fault.Invalid → read_text text.now ≡ None }
{
    let mut reader = Reader::new(text, scratch)?;
    let limit = Place::Item.limit();
    let tree = read(alloc, &mut reader, MAX_DEPTH, Place::Item, limit)?;
    if reader.next().is_some() {
        return Err(Fault::Invalid);
    }
    Ok(tree)
}
