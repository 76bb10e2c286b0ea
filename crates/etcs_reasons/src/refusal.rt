//! Why bytes are not an item.

ghost use Rattle.std.specs.Prelude.{◌≡◌, ℕ, take, IfOk, IfSome, IsNone};
ghost use Rattle.etcs_bits.specs.Bits.{bits};
ghost use Rattle.etcs_vars.specs.declared.var.Var.{Var};
ghost use Rattle.etcs_vars.specs.Reading.{readings_of};
ghost use Rattle.etcs_vars.specs.Walking.{Refuses};
ghost use Rattle.etcs_rows.specs.Refusals.{Explains};
ghost use Rattle.etcs_text.specs.Entries.{EntryReads};
ghost use Rattle.etcs_text.specs.declared.account.End.{End};
ghost use Rattle.etcs_text.specs.declared.account.Part.{Part};
ghost use Rattle.etcs_reasons.specs.Sentences.{IsWritten};

use crate::first::is_item;
use crate::kinds::{wanted_bytes, way_of, way_of_message};
use crate::numbers::is_or_are;
use crate::reasons::{often, write_meant, write_refusal};
use crate::text::Text;
use etcs_rows::{Cause, Here, Refusal};
use etcs_tables::{Way, message_row};
use etcs_text::inner::refusal_at;
use etcs_text::{Account, End, Kind};
use etcs_vars::Var;
use std::alloc::{AllocError, Global};

/// Where bytes stop being an item, and why.
#[derive(Debug, Drop)]
pub struct Reason {
    /// The first bit with which no item continues, the variable that holds it, and why no number of this variable may come
    /// that begins with its bits up to there. Written by `{}` it is a sentence with no capital and no full stop.
    pub refusal: Refusal,
    /// What such a refusal most often comes from, as such a sentence, if there is something to name.
    pub often: Option<&'static str>,
}

/// What to do if the bytes are an item of another kind.
#[rattlefmt::skip]
static ADVICE: [(Kind, &str); 4] = [
    (Kind::Long, "these bytes are a long telegram: --kind long"),
    (Kind::Short, "these bytes are a short telegram: --kind short"),
    (Kind::Radio, "these bytes are a message to the train: --kind radio"),
    (Kind::Train, "these bytes are a message to the track: --kind train"),
];

/// Whether the bytes are an item of a kind, other than a message that is kept as bits, which nearly any bytes may be.
fn is_meant(alloc: Global, kind: Kind, bytes: &[u8]) -> Result<bool, AllocError> {
    if let (Kind::Radio | Kind::Train, Some(number)) = (kind, bytes.first()) {
        if message_row(way_of(kind), *number).is_none() {
            return Ok(false);
        }
    }
    // no item of the kind has another number of bytes
    if wanted_bytes(kind, bytes) != Some(bytes.len()) {
        return Ok(false);
    }
    is_item(alloc, kind, bytes)
}

/// What to do if the bytes are an item of another kind.
fn advice(alloc: Global, kind: Kind, bytes: &[u8]) -> Result<Option<&'static str>, AllocError> {
    for (other, text) in &ADVICE {
        if *other != kind && is_meant(alloc, *other, bytes)? {
            return Ok(Some(*text));
        }
    }
    Ok(None)
}

/// What it most often comes from that a bit of this variable is refused, if there is something to name.
fn most_often(
    alloc: Global,
    kind: Kind,
    bytes: &[u8],
    var: Var,
) -> Result<Option<&'static str>, AllocError> {
    Ok(advice(alloc, kind, bytes)?.or(often(kind, bytes, var)))
}

/// What a message is that is kept as bits and has a number of the other way.
fn other_way(kind: Kind, bytes: &[u8]) -> Option<&'static str> {
    let way = way_of_message(bytes.first().copied()?)?;
    match (kind, way) {
        (Kind::Radio, Way::ToTrack) => Some("a message to the track: --kind train"),
        (Kind::Train, Way::ToTrain) => Some("a message to the train: --kind radio"),
        _ => None,
    }
}

/// Appends how many of an item's bytes there are.
fn write_open(kind: Kind, bytes: &[u8], out: &mut Text) {
    let count = bytes.len();
    match wanted_bytes(kind, bytes) {
        Some(wanted) => write!(out, "{count} of {wanted} bytes"),
        None => write!(out, "{count} of at least 3 bytes"),
    }
    write!(out, " {} here", is_or_are(count));
}

/// Appends what the number means that is refused, if the bytes have all of it and the variable admits it nowhere.
fn write_spare(refusal: &Refusal, out: &mut Text)
    ensures { IsWritten out.old → IsWritten out.new }
{
    match (&refusal.here, refusal.cause, refusal.number) {
        (Here::Any | Here::Row(_, _, _), Cause::Spare, Some(number)) => {
            write_meant(refusal.var, number, out);
        }
        _ => {}
    }
}

/// Appends why a bit of the bytes is refused, if one is: its refusal in words, and what its number means.
fn write_refused(kind: Kind, bytes: &[u8], out: &mut Text)
    ensures { (i : ℕ) (x : Var) → Refuses (readings_of (EntryReads kind)) (take 8184 (bits bytes.now)) i x → IsWritten out.new }
{
    if let Some(refusal) = refusal_at(kind, bytes) {
        write_refusal(&refusal, out);
        write_spare(&refusal, out);
    }
}

/// Appends why the bytes of an account are not an item, and returns what this most often comes from. For an item nothing is
/// appended; the result is then what a message is whose number is of the other way. If the account has a refused bit, and one
/// of the bytes' first 8,184 bits is refused, something is appended, or the text notes that memory ran out.
///
/// # Errors
///
/// If memory runs out.
pub fn write_cause(
    kind: Kind,
    bytes: &[u8],
    account: &Account,
    out: &mut Text,
) -> Result<Option<&'static str>, AllocError>
    ensures { (bit : ℕ) (part : Part) → account.now.end ≡ End.Refused bit part → (i : ℕ) (x : Var) → Refuses (readings_of (EntryReads kind)) (take 8184 (bits bytes.now)) i x → IsWritten out.new }
{
    match account.end {
        End::Whole => Ok(other_way(kind, bytes)),
        End::Open(_) => {
            write_open(kind, bytes, out);
            advice(out.alloc(), kind, bytes)
        }
        End::Refused(_, part) => {
            write_refused(kind, bytes, out);
            most_often(out.alloc(), kind, bytes, part.var)
        }
    }
}

/// Returns why the bytes don't begin an item of the kind: of the first 1,023 bytes at most the first bit with which no item
/// continues, which the kind's reader refuses, the variable that holds it, and why no number of this variable may come that
/// begins with its bits up to there. `None` only if there is no such bit: the bytes then begin with an item or end inside one.
///
/// # Errors
///
/// If memory runs out.
pub fn why(alloc: Global, kind: Kind, bytes: &[u8]) -> Result<Option<Reason>, AllocError>
    ensures some { IfOk result (λ o. IfSome o (λ r. Refuses (readings_of (EntryReads kind)) (take 8184 (bits bytes.now)) r.refusal.bit r.refusal.var × Explains (readings_of (EntryReads kind)) (take 8184 (bits bytes.now)) r.refusal)) }
    ensures none { IfOk result (λ o. IsNone o → (i : ℕ) (x : Var) → Refuses (readings_of (EntryReads kind)) (take 8184 (bits bytes.now)) i x → ⊥) }
{
    let Some(refusal) = refusal_at(kind, bytes) else {
        return Ok(None);
    };
    let often = most_often(alloc, kind, bytes, refusal.var)?;
    Ok(Some(Reason { refusal, often }))
}
