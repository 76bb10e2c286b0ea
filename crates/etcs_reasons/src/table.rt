//! The table of an item: a line for each variable, packets and entries with lines of their own.

use crate::meanings::write_meaning;
use crate::names::{message_name, packet_name};
use crate::numbers::{low_byte, write_bits};
use crate::sheet::Sheet;
use crate::text::Text;
use etcs_bits::peek;
use etcs_tables::{CLOSING_BITS, MARKER_BITS, RowItem, Way, row_of};
use etcs_text::{Account, End};
use etcs_vars::Var;

/// Where the writer of a table is among the variables of an account.
#[derive(Drop)]
pub(crate) struct Table<'a> {
    sheet: &'a mut Sheet,
    way: Way,
    bytes: &'a [u8],
    account: &'a Account,
    /// How many variables have their line.
    at: usize,
    /// How many bits those have.
    bit: usize,
    /// The first bit of the packet.
    start: usize,
    scale: Option<u64>,
}

/// Whether a run of bits is shown in one line, although each is a variable of its own.
fn is_kept(var: Var) -> bool {
    matches!(var, Var::FILL | Var::OTHER_DATA | Var::PADDING | Var::PAD)
}

/// Whether a variable fills up an item, after its packets.
fn is_padding(var: Var) -> bool {
    matches!(var, Var::FILL | Var::PADDING | Var::PAD)
}

/// What the variables before the packets are, of an item that begins with this variable.
fn header_of(way: Way, first: Option<Var>) -> &'static str {
    match (way, first) {
        (Way::ToTrain, Some(Var::NID_MESSAGE)) => "header of a message to the train",
        (Way::ToTrain, _) => "header of a telegram",
        (Way::ToTrack, _) => "header of a message to the track",
    }
}

/// Whether one of the guarded groups that come next is entered after a number.
fn enters(items: &[RowItem], number: u64) -> bool {
    let mut left = items;
    for _ in 0..items.len() {
        let Some((RowItem::When(guard, count), rest)) = left.split_first() else {
            return false;
        };
        if guard.test.passes(number) {
            return true;
        }
        left = rest.get(*count..).unwrap_or(&[]);
    }
    false
}

/// Writes the lines of all variables of an account.
pub fn write_table(way: Way, bytes: &[u8], account: &Account, sheet: &mut Sheet) {
    sheet.clear();
    let mut table = Table {
        sheet,
        way,
        bytes,
        account,
        at: 0,
        bit: 0,
        start: 0,
        scale: None,
    };
    let title = header_of(way, table.next());
    table.sheet.open_header(title);
    table.lines();
    table.unfinished();
    table.sheet.close_part();
}

impl<'a> Table<'a> {
    /// The next variable, if it is whole.
    fn field(&self) -> Option<(Var, u64)> {
        self.account.fields.get(self.at).copied()
    }

    /// The variable that comes next, whole or not.
    fn next(&self) -> Option<Var> {
        match (self.field(), self.account.end) {
            (Some(field), _) => Some(field.0),
            (None, End::Open(part) | End::Refused(_, part)) => Some(part.var),
            (None, End::Whole) => None,
        }
    }

    /// Writes the lines of all whole variables.
    fn lines(&mut self) {
        for _ in 0..self.account.fields.len() {
            match self.field() {
                None => return,
                Some((Var::NID_PACKET, number)) => self.packet(number),
                Some((var, _)) if is_kept(var) => self.run(var),
                Some(_) => self.line(0, &[]),
            }
        }
    }

    /// Passes this many variables with this many bits, and returns the first and the last of the bits.
    fn pass(&mut self, count: usize, bits: usize) -> (usize, usize) {
        let first = self.bit;
        self.at = self.at.saturating_add(count);
        self.bit = first.saturating_add(bits);
        (first, self.bit.saturating_sub(1))
    }

    /// Writes the line of the next variable, after which these items of its row come.
    fn line(&mut self, depth: usize, beyond: &[RowItem]) {
        let Some((var, number)) = self.field() else {
            return;
        };
        let bits = self.pass(1, var.width());
        if var == Var::Q_SCALE {
            self.scale = Some(number);
        }
        self.sheet.clear();
        write_number(var, number, &mut self.sheet.value);
        write_meaning(var, number, self.scale, &mut self.sheet.meaning);
        self.write_effect(var, number, beyond);
        self.sheet.line(depth, bits, var, false);
        if var == Var::L_TEXT {
            self.text(depth.saturating_add(1), number);
        }
    }

    /// Writes the line of the text of this many characters that comes next, as far as it is there.
    fn text(&mut self, depth: usize, length: u64) {
        self.sheet.clear();
        let out = &mut self.sheet.meaning;
        let mut count = 0u64;
        let fields = self.account.fields.as_slice();
        for (var, number) in fields.iter().skip(self.at) {
            if *var != Var::X_TEXT {
                break;
            }
            out.push(if count == 0 { "text \"" } else { "" });
            write_character(*number, out);
            count = count.saturating_add(1);
        }
        if count > 0 {
            out.push(if count < length { "\" .." } else { "\"" });
            self.sheet.text(depth);
        }
    }

    /// Appends what a number means for what follows it.
    fn write_effect(&mut self, var: Var, number: u64, beyond: &[RowItem]) {
        let next = self.next();
        let out = &mut self.sheet.meaning;
        match (var, beyond.first()) {
            (Var::L_PACKET, _) => write_end("packet", self.start, number, out),
            (Var::L_MESSAGE, _) => write_end("message", 0, number.saturating_mul(8), out),
            (Var::NID_MESSAGE, _) => out.push(message_name(number).unwrap_or("")),
            (Var::L_TEXT, _) => out.push("characters that follow"),
            (_, Some(RowItem::Many(_))) => match number {
                0 => out.push("no entry follows"),
                1 => out.push("1 entry follows"),
                _ => write!(out, "{number} entries follow"),
            },
            (_, Some(RowItem::When(_, _))) if enters(beyond, number) => {
                if let Some(next) = next {
                    let comma = if out.as_str().is_empty() { "" } else { ", " };
                    write!(out, "{comma}{next} is next");
                }
            }
            _ => {}
        }
    }

    /// Writes the lines of a packet of this number.
    fn packet(&mut self, number: u64) {
        self.start = self.bit;
        self.scale = None;
        self.sheet.close_part();
        self.sheet.clear();
        write!(self.sheet.meaning, "packet {number}");
        if let Some(name) = packet_name(self.way, number) {
            write!(self.sheet.meaning, ", {name}");
        }
        self.write_extent();
        self.sheet.open_part();
        self.line(0, &[]);
        for _ in 0..2 {
            if let Some((Var::Q_DIR | Var::L_PACKET | Var::NID_VBCMK, _)) = self.field() {
                self.line(0, &[]);
            }
        }
        if let Some(row) = row_of(self.way, low_byte(number)) {
            self.row(row.items, 0, 0);
        }
    }

    /// Appends the first and the last bit of the packet whose frame comes next.
    fn write_extent(&mut self) {
        let first = self.bit;
        let out = &mut self.sheet.meaning;
        let fields = self.account.fields.as_slice();
        for field in fields.iter().skip(self.at).take(3) {
            let length = match *field {
                (Var::L_PACKET, length) => length,
                (Var::NID_VBCMK, _) => MARKER_BITS as u64,
                (Var::NID_PACKET, 255) if self.way == Way::ToTrain => CLOSING_BITS as u64,
                (Var::NID_PACKET | Var::Q_DIR, _) => continue,
                _ => break,
            };
            return write!(out, ", bits {first} to {}", last_bit(first, length));
        }
        write!(out, ", from bit {first} on");
    }

    /// Writes the lines of the items of a row, after this number.
    fn row(&mut self, items: &'static [RowItem], before: u64, depth: usize) {
        let Some((item, rest)) = items.split_first() else {
            return;
        };
        match item {
            RowItem::One(_) => {
                if let Some((_, number)) = self.field() {
                    self.line(depth, rest);
                    self.row(rest, number, depth);
                }
            }
            RowItem::When(guard, count) => {
                let (group, rest) = rest.split_at(rest.len().min(*count));
                if guard.test.passes(before) {
                    self.row(group, before, depth);
                }
                self.row(rest, before, depth);
            }
            RowItem::Many(count) => {
                let (group, rest) = rest.split_at(rest.len().min(*count));
                let inner = depth.saturating_add(1);
                for entry in 0..before {
                    if self.field().is_none() {
                        return;
                    }
                    self.sheet.entry(inner, entry.saturating_add(1), before);
                    self.row(group, 0, inner);
                }
                self.row(rest, before, depth);
            }
        }
    }

    /// Begins the lines after the packets, if the variable that comes next is the first of them.
    fn open_padding(&mut self) {
        let before = self.at.saturating_sub(1);
        let is_begun = match self.account.fields.get(before) {
            Some((var, _)) => is_padding(*var),
            None => false,
        };
        if !is_begun && self.next().is_some_and(is_padding) {
            self.sheet.close_part();
            self.sheet.clear();
            self.sheet.open_header("padding");
        }
    }

    /// Writes the line of a run of kept bits.
    fn run(&mut self, var: Var) {
        self.open_padding();
        self.sheet.clear();
        let meaning = &mut self.sheet.meaning;
        let mut count = 0usize;
        let mut ones = 0usize;
        let fields = self.account.fields.as_slice();
        for (next, bit) in fields.iter().skip(self.at) {
            if *next != var {
                break;
            }
            match count {
                0..=63 => write!(meaning, "{bit}"),
                64 => meaning.push(".."),
                _ => {}
            }
            count = count.saturating_add(1);
            ones = ones.saturating_add(*bit as usize);
        }
        if ones == 0 || ones == count {
            meaning.clear();
            meaning.push(if ones == 0 { "all zeros" } else { "all ones" });
        }
        write_bits(count, &mut self.sheet.value);
        let bits = self.pass(count, count);
        self.sheet.line(0, bits, var, false);
    }

    /// Writes the line of the variable that isn't whole, if there is one: its number if the bytes have all of it, else
    /// how many bits they have.
    fn unfinished(&mut self) {
        self.open_padding();
        self.sheet.clear();
        let out = &mut self.sheet.meaning;
        let (var, refused) = match self.account.end {
            End::Open(part) if part.count > 0 => {
                out.push("incomplete");
                (part.var, false)
            }
            End::Refused(bit, part) => {
                write!(out, "refused at bit {bit}");
                (part.var, true)
            }
            _ => return,
        };
        let mut count = var.width();
        match peek(self.bytes, self.bit, count) {
            Some(number) => write_number(var, number, &mut self.sheet.value),
            None => {
                count = self.bytes.len().saturating_mul(8).saturating_sub(self.bit);
                write_bits(count, &mut self.sheet.value);
            }
        }
        let bits = self.pass(0, count);
        self.sheet.line(0, bits, var, refused);
    }
}

/// Appends a number of the variable: NID_RADIO in hexadecimal, all others in decimal, D_REF with its sign.
fn write_number(var: Var, number: u64, out: &mut Text) {
    match var {
        Var::NID_RADIO => write!(out, "{number:016x}"),
        Var::D_REF if number > 32767 => write!(out, "-{}", 65536u64.saturating_sub(number)),
        _ => write!(out, "{number}"),
    }
}

/// Appends a character of a text between quotation marks: printable ASCII as it is, any other byte in hexadecimal.
fn write_character(byte: u64, out: &mut Text) {
    match byte {
        32..=126 if byte != 34 && byte != 92 => {
            write!(out, "{}", char::from((byte & 127) as u8))
        }
        _ => write!(out, "\\x{byte:02X}"),
    }
}

/// The last of this many bits from one on.
fn last_bit(first: usize, count: u64) -> u64 {
    count.saturating_add(first as u64).saturating_sub(1)
}

/// Appends where a part ends that begins at this bit and has this many.
fn write_end(what: &str, first: usize, count: u64, out: &mut Text) {
    let last = last_bit(first, count);
    write!(out, "so the {what} ends with bit {last}");
}
