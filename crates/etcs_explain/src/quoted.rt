//! Texts as JSON has them.

use std::fmt;

/// A text as JSON has it, in which each character that doesn't show is escaped.
#[derive(Clone, Copy)]
pub(crate) struct Quoted<'a>(pub(crate) &'a str);

impl<'a> fmt::Display for Quoted<'a> {
    fn fmt<W: fmt::Write>(&self, f: &mut fmt::Formatter<W>) -> fmt::Result {
        f.write_str("\"")?;
        for character in self.0.chars() {
            write_escaped(character, f)?;
        }
        f.write_str("\"")
    }
}

/// A character as it is, or escaped if it doesn't show.
#[derive(Clone, Copy)]
pub(crate) struct Escaped(pub(crate) char);

impl fmt::Display for Escaped {
    fn fmt<W: fmt::Write>(&self, f: &mut fmt::Formatter<W>) -> fmt::Result {
        match self.0 {
            '"' | '\\' => f.write_char(self.0),
            _ => write_escaped(self.0, f),
        }
    }
}

/// Writes a character of a text of JSON.
fn write_escaped<W: fmt::Write>(character: char, f: &mut fmt::Formatter<W>) -> fmt::Result {
    match character {
        '"' => f.write_str("\\\""),
        '\\' => f.write_str("\\\\"),
        '\n' => f.write_str("\\n"),
        '\r' => f.write_str("\\r"),
        '\t' => f.write_str("\\t"),
        '\u{8}' => f.write_str("\\b"),
        '\u{c}' => f.write_str("\\f"),
        _ if is_unseen(character) => write_unit(u32::from(character), f),
        _ => f.write_char(character),
    }
}

/// Writes a character as JSON escapes it: one unit of UTF-16, or two from U+10000 on.
fn write_unit<W: fmt::Write>(character: u32, f: &mut fmt::Formatter<W>) -> fmt::Result {
    match character.checked_sub(0x10000) {
        None => write!(f, "\\u{character:04x}"),
        Some(rest) => write!(
            f,
            "\\u{:04x}\\u{:04x}",
            0xd800 | rest >> 10,
            0xdc00 | rest & 0x3ff
        ),
    }
}

/// Whether a character doesn't show, or a terminal may act on it: a control, a mark of the direction of writing, a mark or a
/// blank without width, or a tag.
fn is_unseen(character: char) -> bool {
    character.is_control()
        || matches!(
            character,
            '\u{ad}' | '\u{61c}' | '\u{180e}' | '\u{200b}'..='\u{200f}' | '\u{2028}'..='\u{202e}'
                | '\u{2060}'..='\u{206f}' | '\u{feff}' | '\u{e0000}'..='\u{e007f}'
        )
}

/// Whether jq takes a name after a point as it is.
pub(crate) fn is_word(name: &str) -> bool {
    let bytes = name.as_bytes();
    bytes.first().is_some_and(|c| !c.is_ascii_digit())
        && bytes
            .iter()
            .all(|c| c.is_ascii_alphanumeric() || *c == b'_')
}
