//! Why JSON is not an item: the path of the first part that is wrong, as jq writes it, and the reason.

ghost use Rattle.std.specs.Prelude.{◌<◌, length, string_bytes, IfOk};
ghost use Rattle.etcs_reasons.specs.Sentences.{IsWritten};

use crate::line_reason::{JsonReason, Misfit};
use crate::no_json::{MOST_JSON, write_stop};
use crate::quoted::{Quoted, is_word};
use etcs_json::JsonFault;
use etcs_json_trees::tree_of;
use etcs_reasons::inner::{
    Text, is_or_are, low_byte, user_bits, way_of, write_bits, write_not_admitted,
};
use etcs_rows::Place;
use etcs_tables::{
    CLOSING, CLOSING_BITS, MARKER_BITS, Row, RowItem, Way, frame_bits, head_row, header_row,
    is_framed, message_row, row_of,
};
use etcs_text::Kind;
use etcs_vars::Var;
use serde_json::{Map, Value};
use std::alloc::{AllocError, Global};
use std::fmt;

/// Notes that a part is wrong, by what is expected and found there, with words between them, or by words alone, and returns
/// none.
macro_rules! wrong {
    ($part:expr, $out:ident; expected [$($expected:tt)*] found $found:expr) => {
        wrong!($part, $out; expected [$($expected)*] [""] found $found)
    };
    ($part:expr, $out:ident; expected [$($expected:tt)*] [$($rest:tt)*] found $found:expr) => {{
        write!($out.found, "{}", $found);
        wrong!($part, $out; expected [$($expected)*] [$($rest)*])
    }};
    ($part:expr, $out:ident; expected [$($expected:tt)*] [$($rest:tt)*]) => {{
        write!($out.expected, $($expected)*);
        wrong!($part, $out; $($rest)*)
    }};
    ($part:expr, $out:ident; $($text:tt)*) => {{
        $part.write_path(&mut $out.path);
        write!($out.rest, $($text)*);
        return None;
    }};
}

/// The row of packet 0.
const MARKER: Row = Row {
    items: &[RowItem::One(Var::NID_VBCMK)],
};

/// How a whole number is written.
const PLAIN: &str = "without a point or an exponent";

/// Whether a number has a point, an exponent or more than 64 bits.
fn is_float(value: &Value) -> bool {
    value.as_f64().is_some() && value.as_u64().is_none() && value.as_i64().is_none()
}

/// The word of a kind.
fn word(kind: Kind) -> &'static str {
    match kind {
        Kind::Long => "long",
        Kind::Short => "short",
        Kind::Radio => "radio",
        Kind::Train => "train",
    }
}

/// What comes before a pair in its list.
#[derive(Clone, Copy)]
enum After<'a> {
    Nothing,
    Number(Var, u64),
    Digits(Var, &'a str),
}

impl<'a> fmt::Display for After<'a> {
    fn fmt<W: fmt::Write>(&self, f: &mut fmt::Formatter<W>) -> fmt::Result {
        match self {
            After::Nothing => f.write_str("first"),
            After::Number(var, number) => write!(f, "after {var} {number}"),
            After::Digits(var, digits) => write!(f, "after {var} {}", Quoted(digits)),
        }
    }
}

/// A value in few words.
#[derive(Clone, Copy)]
struct Brief<'a>(&'a Value);

impl<'a> fmt::Display for Brief<'a> {
    fn fmt<W: fmt::Write>(&self, f: &mut fmt::Formatter<W>) -> fmt::Result {
        match self.0 {
            Value::Array(_) => f.write_str("a list"),
            Value::Object(_) => f.write_str("an object"),
            Value::String(text) if text.len() > 40 => f.write_str("a longer string"),
            Value::String(text) => write!(f, "{}", Quoted(text.as_str())),
            value => write!(f, "{value}"),
        }
    }
}

/// A part of a tree, with its path: in which packet it is, which member, and which entry of that.
#[derive(Clone, Copy)]
struct Part<'a> {
    value: &'a Value,
    packet: Option<usize>,
    name: Option<&'a str>,
    entry: Option<usize>,
}

impl<'a> Part<'a> {
    /// All of a tree.
    fn whole(value: &'a Value) -> Part<'a> {
        Part {
            value,
            packet: None,
            name: None,
            entry: None,
        }
    }

    /// Writes its path.
    fn write_path(self, out: &mut Text) {
        out.push(".");
        if let Some(packet) = self.packet {
            write!(out, "packets[{packet}]");
        }
        match self.name {
            Some(name) if is_word(name) => {
                out.push(if self.packet.is_some() { "." } else { "" });
                out.push(name);
            }
            Some(name) => write!(out, "[{}]", Quoted(name)),
            None => {}
        }
        if let Some(entry) = self.entry {
            write!(out, "[{entry}]");
        }
    }

    /// The member of a name, as a path alone.
    fn named(mut self, name: &'a str) -> Part<'a> {
        self.name = Some(name);
        self
    }

    /// Whether it has a member of this name.
    fn has(self, name: &str) -> bool {
        self.value.get(name).is_some()
    }

    /// The object that it is.
    fn object(self, out: &mut Misfit) -> Option<&'a Map<String, Value>> {
        match self.value.as_object() {
            Some(map) => Some(map),
            None => wrong!(self, out; expected ["an object"] found Brief(self.value)),
        }
    }

    /// The member of a name.
    fn member(self, name: &'static str, out: &mut Misfit) -> Option<Part<'a>> {
        let part = self.named(name);
        match self.object(out)?.get(name) {
            Some(value) => Some(Part { value, ..part }),
            None => wrong!(part, out; "this member is missing"),
        }
    }

    /// Tests that it is an object with no members but these.
    fn test_names(self, names: &[&str], out: &mut Misfit) -> Option<()> {
        for (name, _) in self.object(out)?.iter() {
            if !(&*names).contains(&name.as_str()) {
                wrong!(self.named(name.as_str()), out; "unexpected member");
            }
        }
        Some(())
    }

    /// The whole number that it is.
    fn number(self, most: u64, out: &mut Misfit) -> Option<u64> {
        match self.value.as_u64() {
            Some(number) if number <= most => Some(number),
            _ if is_float(self.value) =>
                wrong!(self, out; expected ["a whole number from 0 to {most}"] [", {PLAIN}"]),
            _ =>
                wrong!(self, out; expected ["a whole number from 0 to {most}"] found Brief(self.value)),
        }
    }

    /// The NID_MESSAGE or NID_PACKET of an item.
    fn nid(self, out: &mut Misfit) -> Option<u8> {
        Some(low_byte(self.member("nid", out)?.number(255, out)?))
    }

    /// How many bits it has as a text.
    fn bits(self, out: &mut Misfit) -> Option<usize> {
        if let Some(text) = self.value.as_str() {
            if text.as_bytes().iter().all(|c| matches!(*c, b'0' | b'1')) {
                return Some(text.len());
            }
        }
        wrong!(self, out; expected ["a string of zeros and ones"] [""])
    }

    /// Tests that it has this many bits.
    fn test_bits(self, wanted: usize, out: &mut Misfit) -> Option<()> {
        let count = self.bits(out)?;
        if count == wanted {
            return Some(());
        }
        let what = if count > wanted {
            "shorten"
        } else {
            "lengthen"
        };
        let by = count.max(wanted).saturating_sub(count.min(wanted));
        write_bits(count, &mut out.rest);
        let are = is_or_are(wanted);
        wrong!(self, out; ", and {wanted} {are} left: {what} it by {by}")
    }

    /// The number of a variable, if the pair of this path has this value.
    fn number_of(self, value: &Value, var: Var, out: &mut Misfit) -> Option<u64> {
        if var == Var::NID_RADIO {
            let digits = value.as_str().unwrap_or("").as_bytes();
            if digits.len() == 16 && digits.iter().all(u8::is_ascii_hexdigit) {
                return Some(0);
            }
            wrong!(self, out; expected ["a string of 16 hexadecimal digits"] [" for {var}"]);
        }
        let number = value.as_u64();
        match number {
            Some(number) if var.admits(number) => Some(number),
            Some(_) => {
                write_not_admitted(var, number, &mut out.rest);
                wrong!(self, out; "")
            }
            None if is_float(value) =>
                wrong!(self, out; expected ["a whole number of at most 64 bits"] [" for {var}, {PLAIN}"]),
            None =>
                wrong!(self, out; expected ["a whole number"] [" for {var}"] found Brief(value)),
        }
    }

    /// The number in the pair of a variable.
    fn pair(self, var: Var, after: After<'_>, out: &mut Misfit) -> Option<u64> {
        let value = self.value;
        let (name, number) = (value.get(0usize), value.get(1usize));
        let (Some(name), Some(number), None) = (name, number, value.get(2usize)) else {
            wrong!(self, out; expected ["a pair [\"{var}\", number]"] [""]);
        };
        if name.as_str() == Some(var.name()) {
            return self.number_of(number, var, out);
        }
        wrong!(self, out; expected ["{var}"] [" {after}"] found Brief(name))
    }

    /// How many bits the pairs of a row have.
    fn pairs(self, row: Row, out: &mut Misfit) -> Option<usize> {
        let Some(list) = self.value.as_array() else {
            wrong!(self, out; expected ["a list of pairs"] found Brief(self.value));
        };
        let mut place = Place::start(row);
        let mut after = After::Nothing;
        let mut count = 0usize;
        for (index, value) in list.as_slice().iter().enumerate() {
            let mut part = self;
            part.value = value;
            part.entry = Some(index);
            let Some(var) = place.var() else {
                match after {
                    After::Nothing => wrong!(part, out; "unexpected entry"),
                    _ => wrong!(part, out; "unexpected entry {after}"),
                }
            };
            let number = part.pair(var, after, out)?;
            place.pass(number);
            after = match value.get(1usize).and_then(Value::as_str) {
                Some(digits) => After::Digits(var, digits),
                None => After::Number(var, number),
            };
            count = count.saturating_add(var.width());
        }
        match place.var() {
            None => Some(count),
            Some(var) =>
                wrong!(self, out; expected ["{var}"] [" {after}"] found "the end of the list"),
        }
    }

    /// How many bits a packet of an item of a kind has.
    fn packet(self, kind: Kind, out: &mut Misfit) -> Option<usize> {
        let nid = self.nid(out)?;
        let way = way_of(kind);
        if !is_framed(way, nid) {
            return self.unframed(kind, nid, out);
        }
        let row = match (way, nid) {
            // packets that may be bits, as they were before they were typed
            (Way::ToTrain, 49 | 57 | 58 | 63 | 68 | 80 | 131)
                if self.has("data") && !self.has("fields") => None,
            _ => row_of(way, nid),
        };
        let (name, other, what) = match row {
            Some(_) => ("fields", "data", "typed"),
            None => ("data", "fields", "kept as bits"),
        };
        if self.has(other) {
            wrong!(self.named(other), out; "packet {nid} is {what} here: use {name} instead of {other}");
        }
        if way == Way::ToTrain {
            self.test_names(&[name, "dir", "nid"], out)?;
            self.member("dir", out)?.number(2, out)?;
        } else {
            self.test_names(&[name, "nid"], out)?;
        }
        let member = self.member(name, out)?;
        let bits = match row {
            Some(row) => member.pairs(row, out)?,
            None => member.bits(out)?,
        };
        Some(bits.saturating_add(frame_bits(way)))
    }

    /// How many bits packet 0 has, which only telegrams may have; packet 255 isn't listed.
    fn unframed(self, kind: Kind, nid: u8, out: &mut Misfit) -> Option<usize> {
        if kind == Kind::Radio {
            wrong!(self.named("nid"), out; "a message has no packet {nid}");
        }
        if nid == CLOSING {
            wrong!(self.named("nid"), out; "packet {nid} ends every telegram and isn't listed");
        }
        self.test_names(&["fields", "nid"], out)?;
        self.member("fields", out)?.pairs(MARKER, out)?;
        Some(MARKER_BITS)
    }

    /// How many bits the packets of an item of a kind have.
    fn packets(self, kind: Kind, out: &mut Misfit) -> Option<usize> {
        let member = self.member("packets", out)?;
        let Some(list) = member.value.as_array() else {
            wrong!(member, out; expected ["a list"] found Brief(member.value));
        };
        let mut count = 0usize;
        for (index, value) in list.as_slice().iter().enumerate() {
            let mut part = self;
            part.value = value;
            part.packet = Some(index);
            count = count.saturating_add(part.packet(kind, out)?);
        }
        Some(count)
    }

    /// Tests that an item has no members but these, and is of the kind.
    fn test_kind(self, kind: Kind, names: &[&str], out: &mut Misfit) -> Option<()> {
        self.test_names(names, out)?;
        let member = self.member("kind", out)?;
        let word = word(kind);
        if member.value.as_str() == Some(word) {
            return Some(());
        }
        if out.is_guessed {
            wrong!(member, out; expected ["\"long\", \"short\", \"radio\" or \"train\""] found Brief(member.value));
        }
        wrong!(member, out; expected ["\"{word}\""] [", as in --kind"] found Brief(member.value))
    }

    /// How many bits an item has before its packets.
    fn front_bits(self, kind: Kind, out: &mut Misfit) -> Option<usize> {
        if let Kind::Long | Kind::Short = kind {
            return self.member("header", out)?.pairs(header_row(), out);
        }
        let nid = self.nid(out)?;
        let way = way_of(kind);
        let Some(row) = message_row(way, nid) else {
            wrong!(self.named("nid"), out; "message {nid} is kept as bits here: its members are kind, nid and data");
        };
        let header = self.member("header", out)?.pairs(head_row(way), out)?;
        let fields = self.member("fields", out)?.pairs(row, out)?;
        Some(header.saturating_add(fields).saturating_add(18))
    }

    /// Which packet of an item has this bit.
    fn packet_at(self, kind: Kind, bit: usize, out: &mut Misfit) -> Option<usize> {
        let mut end = self.front_bits(kind, out)?;
        let list = self.member("packets", out)?.value.as_array()?;
        for (index, value) in list.as_slice().iter().enumerate() {
            let mut part = self;
            part.value = value;
            part.packet = Some(index);
            end = end.saturating_add(part.packet(kind, out)?);
            if bit < end {
                return Some(index);
            }
        }
        None
    }

    /// Tests a telegram.
    fn test_telegram(self, kind: Kind, out: &mut Misfit) -> Option<()> {
        self.test_kind(kind, &["kind", "header", "packets", "fill"], out)?;
        let front = self.front_bits(kind, out)?;
        let packets = self.packets(kind, out)?;
        let room = user_bits(kind).saturating_sub(front.saturating_add(CLOSING_BITS));
        if packets > room {
            let word = word(kind);
            wrong!(self.named("packets"), out; "{packets} bits, and a {word} telegram has room for {room}");
        }
        self.member("fill", out)?.test_bits(room - packets, out)
    }

    /// Tests a message that isn't kept as bits.
    fn test_message(self, kind: Kind, out: &mut Misfit) -> Option<()> {
        let names = ["kind", "nid", "header", "fields", "packets", "padding"];
        self.test_kind(kind, &names, out)?;
        let front = self.front_bits(kind, out)?;
        let all = self.packets(kind, out)?.saturating_add(front);
        if all > 8184 {
            wrong!(self.named("packets"), out; "the message has {all} bits, more than 1,023 bytes");
        }
        self.member("padding", out)?
            .test_bits(7 - (all + 7) % 8, out)
    }

    /// Its NID_MESSAGE, if such a message is typed.
    fn typed_message(self, kind: Kind) -> Option<u8> {
        let number = self.value.get("nid")?.as_u64()?;
        let nid = low_byte(number);
        message_row(way_of(kind), nid)?;
        if number == u64::from(nid) {
            Some(nid)
        } else {
            None
        }
    }

    /// Tests a message with data, which is kept as bits.
    fn test_kept(self, kind: Kind, out: &mut Misfit) -> Option<()> {
        let typed = self.typed_message(kind);
        let names = match typed {
            Some(_) => &[
                "kind", "nid", "data", "header", "fields", "packets", "padding",
            ],
            None => &["kind", "nid", "data"][..],
        };
        self.test_kind(kind, names, out)?;
        self.nid(out)?;
        if let Some(nid) = typed {
            wrong!(self.named("data"), out; "message {nid} is typed here: its members are kind, nid, header, fields, packets and padding");
        }
        let member = self.member("data", out)?;
        let count = member.bits(out)?;
        if count % 8 != 6 || count > 8166 {
            write_bits(count, &mut out.rest);
            wrong!(member, out; ", but with the 18 before it a message has 3 to 1,023 whole bytes");
        }
        Some(())
    }
}

/// Tests that an item of the kind has a tree. If none is sure to have it, notes the first part that is wrong, and why.
fn test_tree(kind: Kind, tree: &Value, out: &mut Misfit) -> Option<()> {
    let whole = Part::whole(tree);
    match kind {
        Kind::Long | Kind::Short => whole.test_telegram(kind, out),
        Kind::Radio | Kind::Train if whole.has("data") => whole.test_kept(kind, out),
        Kind::Radio | Kind::Train => whole.test_message(kind, out),
    }
}

/// Appends why no item of the kind has a tree.
fn write_no_tree(kind: Kind, tree: &Value, misfit: &mut Misfit, out: &mut Text)
    ensures { IsWritten out.new }
{
    match test_tree(kind, tree, misfit) {
        Some(()) => out.push("no item of the kind has this JSON"),
        None => misfit.write(out),
    }
}

/// Appends why no item of the kind has the JSON of a line.
fn write_shape(kind: Kind, line: &[u8], misfit: &mut Misfit, out: &mut Text)
    ensures { IsWritten out.new }
{
    if line.len() > MOST_JSON {
        write!(out, "{}", line.len());
        return out.push(" bytes: the reason is only looked for in up to 65,536");
    }
    if write_stop(line, misfit, out) {
        return;
    }
    match Value::from_slice(out.alloc(), line) {
        Ok(tree) => write_no_tree(kind, &tree, misfit, out),
        Err(error) if error.is_memory() => out.note(Err(AllocError)),
        Err(_) => out.push("not JSON: the magnitude of a number is more than 1.8e308"),
    }
}

/// Appends that a bit of an item is refused, which is among the bits of a packet in the JSON of a line.
fn write_refused(kind: Kind, line: &[u8], bit: usize, var: Var, misfit: &mut Misfit, out: &mut Text)
    ensures { IsWritten out.new }
{
    let mut unsaid = Misfit::new(out.alloc());
    let Ok(tree) = tree_of(out.alloc(), line) else {
        return out.note(Err(AllocError));
    };
    let packet = match tree.as_ref() {
        Some(tree) => Part::whole(tree).packet_at(kind, bit, &mut unsaid),
        None => None,
    };
    if let Some(packet) = packet {
        write!(misfit.path, ".packets[{packet}].data");
        out.push_whole(&misfit.path);
        out.push(": ");
    }
    out.push("the bits are refused at bit ");
    write!(out, "{bit} of the item, ");
    out.push(var.name());
}

/// Appends why a line of JSON is not an item, after this fault, and notes what is wrong.
pub(crate) fn write_why(
    kind: Kind,
    line: &[u8],
    fault: JsonFault,
    misfit: &mut Misfit,
    out: &mut Text,
)
    ensures { IsWritten out.new }
{
    match fault {
        JsonFault::Shape => write_shape(kind, line, misfit, out),
        JsonFault::Refused { bit, var } => write_refused(kind, line, bit, var, misfit, out),
        JsonFault::Memory => out.note(Err(AllocError)),
    }
}

/// Appends why a line of JSON is not an item of this kind, which may be guessed, after this fault.
pub(crate) fn write_no_item(
    kind: Kind,
    is_guessed: bool,
    line: &[u8],
    fault: JsonFault,
    out: &mut Text,
)
    ensures { IsWritten out.new }
{
    let mut misfit = Misfit::new(out.alloc());
    misfit.is_guessed = is_guessed;
    write_why(kind, line, fault, &mut misfit, out);
}

/// Returns why a line isn't the JSON of an item of the kind, after `from_line` returned this fault for it: the path of the
/// first part that is wrong, as jq writes it, and the reason. The text isn't empty; no clause says more about it.
///
/// # Errors
///
/// If memory runs out.
pub fn json_reason(
    alloc: Global,
    kind: Kind,
    line: &[u8],
    fault: JsonFault,
) -> Result<String, AllocError>
    ensures ok { IfOk result (λ s. 0 < length (string_bytes s)) }
{
    Ok(JsonReason::of_line(alloc, kind, line, fault)?.reason)
}
