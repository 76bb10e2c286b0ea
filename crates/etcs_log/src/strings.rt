//! Strings of JSON that a terminal shows and doesn't obey.

ghost use Rattle.std.specs.Prelude.{◌≡◌, ◌++◌, ◌<◌, OnOk};
ghost use Rattle.serde_json.specs.Data.{string};
ghost use Rattle.serde_json.specs.Written.{compact_text};
ghost use Rattle.etcs_log.specs.Visible.{escape_of, is_unseen, visible, visible_char};

use json::Writer;
use std::alloc::AllocError;
use std::{mem, str};

/// Whether a terminal may obey a character that JSON has as it is: DEL, a control of C1, an end of a line or a paragraph, or
/// a mark of the direction of writing.
fn is_unseen(character: char) -> bool
    ensures { result ≡ is_unseen character }
{
    matches!(
        character,
        '\u{7f}'..='\u{9f}'
            | '\u{61c}'
            | '\u{200e}'..='\u{200f}'
            | '\u{2028}'..='\u{202e}'
            | '\u{2066}'..='\u{2069}'
    )
}

/// Appends the escape of a character below 65,536.
///
/// # Errors
///
/// If memory runs out.
fn append_escape(character: char, out: &mut Vec<u8>) -> Result<(), AllocError>
    requires { character < 65536 }
    ensures { OnOk result (out.new.items ≡ out.old.items ++ escape_of character) }
{
    let code = u32::from(character);
    let mut digits = [0; 4];
    let _ = hex::encode_to_slice([(code / 256) as u8, (code % 256) as u8], &mut digits);
    out.extend_from_slice(b"\\u")?;
    out.extend_from_slice(&digits)
}

/// Appends a character, or its escape if it is unseen.
///
/// # Errors
///
/// If memory runs out.
fn append_char(character: char, out: &mut Vec<u8>) -> Result<(), AllocError>
    ensures { OnOk result (out.new.items ≡ out.old.items ++ visible_char character) }
{
    if is_unseen(character) {
        return append_escape(character, out);
    }
    let mut bytes = [0; 4];
    out.extend_from_slice(character.encode_utf8(&mut bytes).as_bytes())
}

/// Appends a text with its unseen characters escaped.
///
/// # Errors
///
/// If memory runs out.
fn append_visible(text: &str, out: &mut Vec<u8>) -> Result<(), AllocError>
    ensures { OnOk result (out.new.items ≡ out.old.items ++ visible text.now) }
{
    for character in text.chars() {
        append_char(character, out)?;
    }
    Ok(())
}

/// Appends a text as a string of JSON.
///
/// # Errors
///
/// If memory runs out.
fn append_string(text: &str, out: &mut Vec<u8>) -> Result<(), AllocError>
    ensures { OnOk result (out.new.items ≡ out.old.items ++ compact_text (string text.now)) }
{
    let empty = Vec::new(*out.allocator());
    let mut writer = Writer::new(mem::replace(out, empty));
    let written = writer.string(text);
    *out = writer.into_inner();
    written
}

/// Appends a text as [`append_visible_string`] does, by a copy of its string.
///
/// # Errors
///
/// If memory runs out.
fn append_escaped_string(text: &str, out: &mut Vec<u8>) -> Result<(), AllocError>
    ensures { OnOk result (out.new.items ≡ out.old.items ++ visible (compact_text (string text.now))) }
{
    let mut string = Vec::new(*out.allocator());
    append_string(text, &mut string)?;
    let Ok(string) = str::from_utf8(&string) else {
        unreachable!()
    };
    append_visible(string, out)
}

/// Appends a text as a string of JSON with its unseen characters escaped.
///
/// # Errors
///
/// If memory runs out.
pub(crate) fn append_visible_string(text: &str, out: &mut Vec<u8>) -> Result<(), AllocError>
    ensures { OnOk result (out.new.items ≡ out.old.items ++ visible (compact_text (string text.now))) }
{
    if text.chars().any(is_unseen) {
        return append_escaped_string(text, out);
    }
    append_string(text, out)
}
