//! Lines about rows, their places and lengths, and the packets that fit.
//!
//! A row is named by `p` and a packet's number or `m` and a message's number, after a `t` where it goes to the track.

ghost use Rattle.std.specs.Prelude.{◌≡◌, ◌≤◌, Bool, List, [], ◌++◌, length, IsTrue, IfOk};
ghost use Rattle.etcs_tables.specs.Layouts.{layout, AdmitsFields, Spells};

use crate::sets::say_set;
use etcs_bits::Bits;
use etcs_rows::inner::{Carrier, length_fits, number_fits, put_row};
use etcs_rows::{Place, admits_fields, lengths, reaches, write_row};
use etcs_tables::{Row, Way, message_row, row_of};
use etcs_vector_lines::Case;
use std::alloc::{AllocError, Global};

/// Answers a line about rows: whether it is one.
pub(crate) fn answer(case: &mut Case, kind: &str) -> bool {
    match kind {
        "row" => row(case),
        "fields" => fields(case),
        "write" => written(case),
        "put" => put(case),
        "place" | "lengths" | "reaches" => of_place(case, kind),
        "length" | "number" | "packets" => of_carrier(case, kind),
        _ => return false,
    }
    true
}

/// The row of a name.
pub(crate) fn row_named(name: &str) -> Option<Row> {
    let (way, name) = match name.strip_prefix('t') {
        Some(name) => (Way::ToTrack, name),
        None => (Way::ToTrain, name),
    };
    if let Some(number) = name.strip_prefix('p') {
        return row_of(way, number.parse::<u8>().ok()?);
    }
    let number = name.strip_prefix('m')?;
    message_row(way, number.parse::<u8>().ok()?)
}

/// The row of the next word, which has to be one.
pub(crate) fn next_row(case: &mut Case) -> Option<Row> {
    let row = row_named(case.word());
    if row.is_none() {
        case.bad();
    }
    row
}

/// The place after some numbers of a row, and how many bits they take. `None` where one of them
/// isn't admitted.
pub(crate) fn place_beyond(row: Row, numbers: &[u64]) -> Option<(Place, usize)> {
    let mut place = Place::start(row);
    let mut bits = 0usize;
    for number in numbers {
        bits = bits.saturating_add(place.var()?.width());
        place = place.after(*number)?;
    }
    Some((place, bits))
}

/// `row ROW`: how many items its table has, or `none`.
fn row(case: &mut Case) {
    let row = row_named(case.word());
    case.say_found(row.map(|row| row.items.len() as u64));
}

/// `fields ROW NUMBER ..`: whether the row admits the numbers.
fn fields(case: &mut Case) {
    if let Some(row) = next_row(case) {
        let numbers = case.numbers();
        case.say_truth(admits_fields(row, numbers.as_slice()));
    }
}

/// Appends a row, if it admits the numbers, and says whether it does.
pub fn append_row(row: Row, fields: &[u64], out: &mut Bits) -> Result<bool, AllocError>
    requires { length out.old ≤ 64 }
    ensures admitted { IfOk result (λ good. IsTrue good → AdmitsFields (layout row.items.now) fields.now) }
    ensures spelled { IfOk result (λ good. IsTrue good → (b : List Bool) × Spells (layout row.items.now) [] fields.now b × (out.new ≡ out.old ++ b)) }
{
    if !admits_fields(row, fields) {
        return Ok(false);
    }
    write_row(row, fields, out)?;
    Ok(true)
}

/// `write DIGITS ROW NUMBER ..`: the bits with the row of the numbers after them, or `not admitted`.
fn written(case: &mut Case) {
    let digits = case.word();
    let mut held = case.bits_between("", digits, "");
    if let Some(row) = next_row(case) {
        let numbers = case.numbers();
        if held.len() > 64 {
            return case.bad();
        }
        match case.got(append_row(row, numbers.as_slice(), &mut held)) {
            Some(true) => case.say_bits(&held.as_slice()),
            _ => case.say("not admitted"),
        }
    }
}

/// Writes a row over bits from `start` on, and returns the place after it. `None` where the row
/// doesn't admit the numbers or the bytes have no room.
fn put_over(
    alloc: Global,
    row: Row,
    fields: &[u64],
    bytes: &mut [u8],
    start: usize,
) -> Result<Option<usize>, AllocError> {
    let mut out = Bits::new(alloc);
    let admitted = append_row(row, fields, &mut out)?;
    if !admitted || start > 64 || bytes.len() > 64 || out.len() > bytes.len() * 8 {
        return Ok(None);
    }
    if start > bytes.len() * 8 - out.len() {
        return Ok(None);
    }
    Ok(Some(put_row(row, fields, bytes, start)))
}

/// `put BYTES START ROW NUMBER ..`: the place after the row of the numbers, written over the bytes
/// from the bit START on, and the bytes then; or `not put`.
fn put(case: &mut Case) {
    let mut held = case.bytes();
    let start = case.place();
    if let Some(row) = next_row(case) {
        let fields = case.numbers();
        let alloc = case.alloc();
        match case.got(put_over(alloc, row, fields.as_slice(), held.as_mut_slice(), start)) {
            Some(Some(end)) => {
                case.say_next(end as u64);
                case.say_hex(held.as_slice());
            }
            _ => case.say("not put"),
        }
    }
}

/// `place ROW NUMBER ..`: the variable that comes next after the numbers, `whole` or `not admitted`.
/// `lengths MOST ROW NUMBER ..`: how many bits up to MOST may be left after the numbers.
/// `reaches BITS ROW NUMBER ..`: whether this many bits may be left after the numbers.
fn of_place(case: &mut Case, kind: &str) {
    let bits = if kind == "place" { 0 } else { case.place() };
    if let Some(row) = next_row(case) {
        let numbers = case.numbers();
        match place_beyond(row, numbers.as_slice()) {
            Some((place, _)) => say_place(case, kind, &place, bits),
            None => case.say("not admitted"),
        }
    }
}

fn say_place(case: &mut Case, kind: &str, place: &Place, bits: usize) {
    match kind {
        "lengths" => say_set(case, &lengths(place), bits),
        "reaches" => case.say_truth(reaches(place, bits)),
        _ => match place.var() {
            Some(var) => case.say(var.name()),
            None => {
                case.say("whole");
                case.check(place.after(0).is_none(), "more");
            }
        },
    }
}

/// What is asked of packets in what carries them.
fn of_carrier(case: &mut Case, kind: &str) {
    let carrier = match case.word() {
        "telegram" => Carrier::Telegram,
        "message" => Carrier::Message(Way::ToTrain),
        "track" => Carrier::Message(Way::ToTrack),
        _ => return case.bad(),
    };
    match kind {
        "length" => length(case, carrier),
        "number" => number(case, carrier),
        _ => packets(case, carrier),
    }
}

/// `length CARRIER NID ROOM REST BITS`: whether some length of a packet fits that is BITS with REST bits more.
fn length(case: &mut Case, carrier: Carrier) {
    let nid = case.byte();
    let room = case.place();
    let rest = case.up_to(13) as usize;
    let bits = case.bits_of(13 - rest);
    case.say_truth(length_fits(carrier, nid, room, rest, bits));
}

/// `number CARRIER ROOM REST BITS`: whether some number of a packet fits that is BITS with REST bits more.
fn number(case: &mut Case, carrier: Carrier) {
    let room = case.place();
    let rest = case.up_to(8) as usize;
    let bits = case.bits_of(8 - rest);
    case.say_truth(number_fits(carrier, room, rest, bits));
}

/// `packets CARRIER ROOM`: the numbers of the packets that fit.
fn packets(case: &mut Case, carrier: Carrier) {
    let room = case.place();
    for nid in 0..256u64 {
        if number_fits(carrier, room, 0, nid) {
            case.say_next(nid);
        }
    }
}
