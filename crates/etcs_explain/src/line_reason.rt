//! Why a line is not the JSON of an item, as data.

ghost use Rattle.std.specs.Prelude.{◌<◌, length, string_bytes, IfOk};
ghost use Rattle.etcs_reasons.specs.Sentences.{IsWritten};

use crate::json::write_why;
use crate::quoted::Quoted;
use etcs_json::JsonFault;
use etcs_reasons::inner::Text;
use etcs_text::Kind;
use std::alloc::{AllocError, Global};
use std::fmt;

/// Why a line isn't the JSON of an item. Written by `{}` it is the reason.
#[derive(Debug, Drop)]
pub struct JsonReason {
    /// The first part that is wrong, as jq writes it: `.packets[0].fields[3]`. `None` if the line isn't JSON or isn't looked
    /// into, or if the refused bits aren't those of a packet.
    pub path: Option<String>,
    /// The character, counted from 1, at which the line stops being JSON, or at which its lists and objects are nested too
    /// deep. One more than the line has if it ends inside a value.
    pub column: Option<usize>,
    /// What has to be at the path, if that is one thing: `D_LINK`, `an object`, `a whole number from 0 to 255`.
    pub expected: Option<String>,
    /// What is there in its place, where the reason has it: `"D_LIMK"`, a number, `a list`, `a longer string`.
    pub found: Option<String>,
    /// All of it in words, on one line, with no capital and no full stop, as `json_reason` returns it.
    pub reason: String,
}

impl fmt::Display for JsonReason {
    ghost use Rattle.std.specs.Prelude.{Some};

    ghost output = { λ r. Some (string_bytes r.reason) };

    fn fmt<W: fmt::Write>(&self, f: &mut fmt::Formatter<W>) -> fmt::Result {
        f.write_str(self.reason.as_str())
    }
}

/// A text as JSON has it, or `null`.
#[derive(Clone, Copy)]
struct OrNull<'a>(&'a Option<String>);

impl<'a> fmt::Display for OrNull<'a> {
    fn fmt<W: fmt::Write>(&self, f: &mut fmt::Formatter<W>) -> fmt::Result {
        match self.0 {
            Some(text) => write!(f, "{}", Quoted(text.as_str())),
            None => f.write_str("null"),
        }
    }
}

impl JsonReason {
    /// Returns why a line isn't the JSON of an item of the kind, after `from_line` returned this fault for it. The reason
    /// isn't empty; no clause says more about it.
    ///
    /// # Errors
    ///
    /// If memory runs out.
    pub fn of_line(
        alloc: Global,
        kind: Kind,
        line: &[u8],
        fault: JsonFault,
    ) -> Result<JsonReason, AllocError>
        ensures ok { IfOk result (λ r. 0 < length (string_bytes r.reason)) }
    {
        let mut misfit = Misfit::new(alloc);
        let mut reason = Text::new(alloc);
        write_why(kind, line, fault, &mut misfit, &mut reason);
        let Misfit {
            path,
            column,
            expected,
            found,
            ..
        } = misfit;
        Ok(JsonReason {
            path: some_text(path)?,
            column,
            expected: some_text(expected)?,
            found: some_text(found)?,
            reason: reason.into_string()?,
        })
    }

    /// Returns its members as an object of JSON without blanks, each a text, a number or `null`:
    /// `{"column":..,"expected":..,"found":..,"path":..,"reason":..}`. The text isn't empty; no clause says more about it.
    ///
    /// # Errors
    ///
    /// If memory runs out.
    pub fn to_json(&self, alloc: Global) -> Result<String, AllocError>
        ensures ok { IfOk result (λ s. 0 < length (string_bytes s)) }
    {
        let mut out = Text::new(alloc);
        out.push("{\"column\":");
        match self.column {
            Some(column) => write!(out, "{column}"),
            None => out.push("null"),
        }
        write!(out, ",\"expected\":{}", OrNull(&self.expected));
        write!(out, ",\"found\":{}", OrNull(&self.found));
        write!(out, ",\"path\":{}", OrNull(&self.path));
        write!(out, ",\"reason\":{}", Quoted(self.reason.as_str()));
        out.push("}");
        out.into_string()
    }
}

/// A text, unless it is empty.
fn some_text(text: Text) -> Result<Option<String>, AllocError> {
    let text = text.into_string()?;
    Ok(if text.is_empty() { None } else { Some(text) })
}

/// What is wrong, and where, as it is found.
#[derive(Drop)]
pub(crate) struct Misfit {
    pub(crate) path: Text,
    pub(crate) column: Option<usize>,
    pub(crate) expected: Text,
    pub(crate) found: Text,
    /// What the reason has between what is expected and what is found; all of it if nothing is expected.
    pub(crate) rest: Text,
    /// Whether no kind was asked for.
    pub(crate) is_guessed: bool,
}

impl Misfit {
    /// Nothing is found yet.
    pub(crate) fn new(alloc: Global) -> Misfit {
        Misfit {
            path: Text::new(alloc),
            column: None,
            expected: Text::new(alloc),
            found: Text::new(alloc),
            rest: Text::new(alloc),
            is_guessed: false,
        }
    }

    /// Appends the path and the reason.
    pub(crate) fn write(&self, out: &mut Text)
        ensures { IsWritten out.new }
    {
        out.push_whole(&self.path);
        out.push(": ");
        if !self.expected.as_str().is_empty() {
            out.push("expected ");
        }
        out.push_whole(&self.expected);
        out.push_whole(&self.rest);
        if !self.found.as_str().is_empty() {
            out.push(", found ");
        }
        out.push_whole(&self.found);
    }
}
