//! Items: their texts, their encodings and their trees.

use crate::each::Makes;
use etcs_json::{JsonFault, from_value, to_value};
use etcs_text::{Entry, Kind, encoded, hex_line, json_line, show_lines};
use serde_json::Value;
use std::alloc::{AllocError, Global};

/// What is appended of an item.
#[derive(Clone, Copy)]
pub(crate) enum Text {
    Show,
    Json,
    Hex,
    Encoded,
}

/// A text of an item, after one byte.
#[derive(Drop)]
pub(crate) struct Texts<'a> {
    pub(crate) entry: &'a Entry,
    pub(crate) text: Text,
}

/// Appends a text of an item.
fn append(text: Text, entry: &Entry, out: &mut Vec<u8>) -> Result<(), AllocError> {
    match text {
        Text::Show => show_lines(entry, 1, out),
        Text::Json => json_line(entry, out),
        Text::Hex => hex_line(entry, out),
        Text::Encoded => encoded(entry, out),
    }
}

impl Makes for Texts<'_> {
    type Made = Vec<u8>;

    fn make(&self, alloc: Global, _index: usize) -> Result<Vec<u8>, bool> {
        let mut out = Vec::new(alloc);
        if out.push(0xA5u8).is_err() {
            return Err(out.is_empty());
        }
        if append(self.text, self.entry, &mut out).is_ok() {
            return Ok(out);
        }
        Err(out.as_slice() == [0xA5].as_slice())
    }
}

/// The tree of an item.
#[derive(Drop)]
pub(crate) struct ToTree<'a> {
    pub(crate) entry: &'a Entry,
}

impl Makes for ToTree<'_> {
    type Made = Value;

    fn make(&self, alloc: Global, _index: usize) -> Result<Value, bool> {
        to_value(alloc, self.entry).or(Err(true))
    }
}

/// The item of a tree.
#[derive(Drop)]
pub(crate) struct FromTree {
    pub(crate) kind: Kind,
    pub(crate) tree: Value,
}

impl Makes for FromTree {
    type Made = Entry;

    fn make(&self, alloc: Global, _index: usize) -> Result<Entry, bool> {
        match from_value(alloc, self.kind, &self.tree) {
            Ok(item) => Ok(item),
            Err(fault) => Err(fault == JsonFault::Memory),
        }
    }
}
