//! What the first bytes of an input look like.

/// How many bytes are looked at.
const MOST: usize = 64;

/// The first bytes of an input.
#[derive(Clone, Copy)]
pub(crate) struct Front {
    bytes: [u8; MOST],
    count: usize,
}

/// A form that isn't hexadecimal.
#[derive(Clone, Copy, Debug, PartialEq, Eq)]
pub(crate) enum Looks {
    /// What gzip makes.
    Gzip,
    /// Text in two bytes a character, with a mark of their order.
    Utf16,
    /// Not text.
    Bytes,
    /// JSON, one item per line.
    Json,
    /// JSON over several lines.
    JsonLines,
    /// What Python prints of a dictionary.
    Python,
}

impl Front {
    /// No byte has come yet.
    pub(crate) fn new() -> Front {
        Front {
            bytes: [0; MOST],
            count: 0,
        }
    }

    /// Keeps those of the next bytes that are among the first ones.
    pub(crate) fn take(&mut self, bytes: &[u8]) {
        for byte in bytes {
            let Some(place) = self.bytes.get_mut(self.count) else {
                return;
            };
            *place = *byte;
            self.count += 1;
        }
    }

    /// What they look like, if not like hexadecimal or other text.
    pub(crate) fn looks(&self) -> Option<Looks> {
        let bytes = self.bytes.get(..self.count).unwrap_or(&[]);
        if bytes.starts_with(&[0x1F, 0x8B]) {
            Some(Looks::Gzip)
        } else if bytes.starts_with(&[0xFF, 0xFE]) || bytes.starts_with(&[0xFE, 0xFF]) {
            Some(Looks::Utf16)
        } else if is_no_text(bytes) {
            Some(Looks::Bytes)
        } else {
            object_in(bytes)
        }
    }
}

/// Whether text doesn't begin with these bytes: the first one continues a character, or one is a control character that text
/// hasn't.
fn is_no_text(bytes: &[u8]) -> bool {
    if matches!(bytes.first(), Some(0x80..=0xBF)) {
        return true;
    }
    for byte in bytes {
        if *byte < b' ' && !matches!(*byte, b'\t' | b'\n' | b'\x0C' | b'\r' | b'\x1B') {
            return true;
        }
    }
    false
}

/// The bytes without blanks before them.
fn without_blanks(bytes: &[u8]) -> &[u8] {
    let mut rest = bytes;
    for byte in bytes {
        if !matches!(*byte, b' ' | b'\t' | b'\r') {
            break;
        }
        rest = rest.get(1..).unwrap_or(&[]);
    }
    rest
}

/// What an object looks like with which a text begins.
fn object_in(bytes: &[u8]) -> Option<Looks> {
    let text = bytes.strip_prefix(b"\xEF\xBB\xBF").unwrap_or(bytes);
    let object = without_blanks(text).strip_prefix(b"{")?;
    match without_blanks(object).first() {
        Some(b'"') => Some(Looks::Json),
        Some(b'\n') => Some(Looks::JsonLines),
        Some(b'\'') => Some(Looks::Python),
        _ => None,
    }
}

impl Looks {
    /// What may be done about it, after `this looks like `: for a log, or for what is explained.
    pub(crate) fn hint(self, is_log: bool) -> &'static str {
        match (self, is_log) {
            (Looks::Gzip, _) => "gzip: try zcat FILE | etcs ..",
            (Looks::Utf16, _) => "UTF-16: try iconv -f utf-16 -t utf-8 FILE | etcs ..",
            (Looks::Bytes, false) => "bytes: try --from bin",
            (Looks::Bytes, true) => "bytes: try etcs explain --from bin",
            (Looks::Json, false) => "JSON: try --from json",
            (Looks::Json, true) => "JSON: try etcs explain --from json",
            (Looks::JsonLines, _) => {
                "JSON over several lines: try jq -c . FILE | etcs explain --from json"
            }
            (Looks::Python, _) => "Python, not JSON: write it with json.dumps",
        }
    }
}
