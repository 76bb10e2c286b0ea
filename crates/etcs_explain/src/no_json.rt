//! Where a line stops being JSON, or nests lists and objects deeper than any item.

ghost use Rattle.std.specs.Prelude.{IsTrue};
ghost use Rattle.etcs_reasons.specs.Sentences.{IsWritten};

use crate::line_reason::Misfit;
use crate::quoted::Escaped;
use etcs_reasons::inner::Text;

/// The most bytes of a line of JSON for which a reason is looked for.
pub(crate) const MOST_JSON: usize = 65_536;

/// How deep lists and objects are looked into. An item nests them 5 deep.
const MOST_DEEP: usize = 6;

/// The digits of an escape.
const HEX: &[u8] = b"0123456789abcdefABCDEF";

/// The rest of an escape from D800 to DBFF, the first half of a character, and its other half, one from DC00 to DFFF.
const HALVES: &[&[u8]] = &[HEX, HEX, b"\\", b"u", b"dD", b"cdefCDEF", HEX, HEX];

/// A place in JSON: before or after a value, or in one after this part of it.
#[derive(Clone, Copy)]
enum Place {
    Value,
    FirstItem,
    Key,
    FirstKey,
    Colon,
    AfterValue,
    /// In a string, before a byte of each of these.
    Characters(&'static [&'static [u8]]),
    Backslash,
    Unit,
    UnitD,
    AfterString,
    /// In `true`, `false` or `null`, before these.
    Letters(&'static [u8]),
    Minus,
    Zero,
    Whole,
    Point,
    Fraction,
    Exponent,
    Sign,
    Power,
}

impl Place {
    /// The place after this byte of a string, a number or a literal. `None` if it doesn't continue or begin one.
    fn after(self, byte: u8) -> Option<Place> {
        Some(match (self, byte) {
            (Place::Characters([bytes, rest @ ..]), _) if bytes.contains(&byte) =>
                Place::Characters(rest),
            (Place::Characters([]), b'"') => Place::AfterString,
            (Place::Characters([]), b'\\') => Place::Backslash,
            (Place::Characters([]), 32..=255) => self,
            (Place::Backslash, b'u') => Place::Unit,
            (Place::Backslash, _) if b"\"\\/bfnrt".contains(&byte) => Place::Characters(&[]),
            (Place::Unit, b'd' | b'D') => Place::UnitD,
            (Place::Unit, _) if HEX.contains(&byte) => Place::Characters(&[HEX, HEX, HEX]),
            (Place::UnitD, b'0'..=b'7') => Place::Characters(&[HEX, HEX]),
            (Place::UnitD, _) if b"89abAB".contains(&byte) => Place::Characters(HALVES),
            (Place::Value | Place::FirstItem, b't') => Place::Letters(b"rue"),
            (Place::Value | Place::FirstItem, b'f') => Place::Letters(b"alse"),
            (Place::Value | Place::FirstItem, b'n') => Place::Letters(b"ull"),
            (Place::Letters([letter, rest @ ..]), _) if byte == *letter => Place::Letters(rest),
            (Place::Value | Place::FirstItem, b'-') => Place::Minus,
            (Place::Value | Place::FirstItem | Place::Minus, b'0') => Place::Zero,
            (Place::Value | Place::FirstItem | Place::Minus | Place::Whole, b'0'..=b'9') =>
                Place::Whole,
            (Place::Zero | Place::Whole, b'.') => Place::Point,
            (Place::Point | Place::Fraction, b'0'..=b'9') => Place::Fraction,
            (Place::Zero | Place::Whole | Place::Fraction, b'e' | b'E') => Place::Exponent,
            (Place::Exponent, b'+' | b'-') => Place::Sign,
            (Place::Exponent | Place::Sign | Place::Power, b'0'..=b'9') => Place::Power,
            _ => return None,
        })
    }
}

/// The front of a JSON text.
#[derive(Drop)]
struct Front {
    place: Place,
    /// The lists and objects that are open, the innermost last, as the bits of a number after its first 1: 1 is an object.
    open: usize,
    /// Whether its last string is a key.
    is_key: bool,
}

impl Front {
    /// Appends a byte. `None` if no JSON begins so, or none that is looked into.
    fn push(&mut self, byte: u8) -> Option<()> {
        self.place = match self.place.after(byte) {
            Some(place) => place,
            None => self.after_mark(self.outside()?, byte)?,
        };
        Some(())
    }

    /// The place outside of strings, numbers and literals, if it isn't inside one.
    fn outside(&self) -> Option<Place> {
        match self.place {
            Place::AfterString if self.is_key => Some(Place::Colon),
            Place::AfterString | Place::Letters([]) => Some(Place::AfterValue),
            Place::Zero | Place::Whole | Place::Fraction | Place::Power => Some(Place::AfterValue),
            Place::Value | Place::FirstItem | Place::Key | Place::FirstKey => Some(self.place),
            Place::Colon | Place::AfterValue => Some(self.place),
            _ => None,
        }
    }

    /// The place after a blank, a mark, or the quote that begins a string.
    fn after_mark(&mut self, place: Place, byte: u8) -> Option<Place> {
        let end = match self.open {
            0 | 1 => None,
            open if open % 2 == 0 => Some(b']'),
            _ => Some(b'}'),
        };
        match (place, byte) {
            (_, b' ' | b'\t' | b'\n' | b'\r') => Some(place),
            (Place::Value | Place::FirstItem | Place::Key | Place::FirstKey, b'"') => {
                self.is_key = matches!(place, Place::Key | Place::FirstKey);
                Some(Place::Characters(&[]))
            }
            (Place::Value | Place::FirstItem, b'[') => self.open(0, Place::FirstItem),
            (Place::Value | Place::FirstItem, b'{') => self.open(1, Place::FirstKey),
            (Place::Colon, b':') => Some(Place::Value),
            (Place::AfterValue, b',') if end == Some(b']') => Some(Place::Value),
            (Place::AfterValue, b',') if end == Some(b'}') => Some(Place::Key),
            (Place::AfterValue | Place::FirstItem | Place::FirstKey, _) if end == Some(byte) => {
                self.open /= 2;
                Some(Place::AfterValue)
            }
            _ => None,
        }
    }

    /// The place in a list (0) or an object (1) that begins, if it is looked into.
    fn open(&mut self, bit: usize, first: Place) -> Option<Place> {
        self.open = self.open.saturating_mul(2).saturating_add(bit);
        if self.is_deep() { None } else { Some(first) }
    }

    /// Whether more lists and objects are open than are looked into.
    fn is_deep(&self) -> bool {
        self.open >> MOST_DEEP > 1
    }
}

/// The front of bytes that is UTF-8.
pub(crate) fn text_of(bytes: &[u8]) -> &str {
    match std::str::from_utf8(bytes) {
        Ok(text) => text,
        Err(error) => std::str::from_utf8(
            bytes.get(..error.valid_up_to()).unwrap_or(&[]),
        ).unwrap_or(""),
    }
}

/// Appends where a line stops being JSON, or is nested too deep, and notes the column. Returns false, with nothing appended,
/// if the line is JSON, except that a number may be too large.
pub(crate) fn write_stop(line: &[u8], misfit: &mut Misfit, out: &mut Text) -> bool
    ensures { IsTrue result → IsWritten out.new }
{
    let mut front = Front {
        place: Place::Value,
        open: 1,
        is_key: false,
    };
    let text = text_of(line).as_bytes();
    let stop = text.iter().position(|byte| front.push(*byte).is_none());
    let (before, rest) = line.split_at(stop.unwrap_or(text.len()).min(line.len()));
    if rest.is_empty() && front.open == 1 && matches!(front.outside(), Some(Place::AfterValue)) {
        return false;
    }
    let last = text_of(before).chars().count();
    let column = last.saturating_add(1);
    misfit.column = Some(column);
    if front.is_deep() {
        write!(
            out,
            "lists and objects are nested more than {MOST_DEEP} deep at column {column}"
        );
        out.push(", and an item has 5 levels");
        return true;
    }
    match text_of(rest).chars().next() {
        _ if rest.is_empty() => {
            write!(
                out,
                "not JSON: the line ends at column {last}, inside a value"
            );
            out.push("; jq -c . joins several lines into one");
            return true;
        }
        Some(' ') => out.push("not JSON: unexpected space"),
        Some(character) => write!(out, "not JSON: unexpected {}", Escaped(character)),
        None => write!(
            out,
            "not JSON: unexpected byte {:02X}",
            rest.first().copied().unwrap_or(0)
        ),
    }
    write!(out, " at column {column}");
    if rest.first() == Some(&b'\'') {
        out.push("; this looks like Python, whose json.dumps writes JSON");
    }
    true
}
