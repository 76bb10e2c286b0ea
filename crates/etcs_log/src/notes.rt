//! What is reported of a line that is no item.

ghost use Rattle.std.specs.Prelude.{◌≡◌, ◌++◌, OnOk, Some, string_bytes, take};
ghost use Rattle.std.specs.Fmt.{WritesOnOk};
ghost use Rattle.etcs_bits.specs.Bits.{bits};
ghost use Rattle.etcs_vars.specs.Reading.{readings_of};
ghost use Rattle.etcs_rows.specs.Refusals.{FindsRefusal};
ghost use Rattle.etcs_text.specs.Entries.{EntryReads};
ghost use Rattle.etcs_log.specs.Candidates.{whole_bytes};
ghost use Rattle.etcs_log.specs.Logs.{IsBytesNote, other_note};
ghost use Rattle.etcs_log.specs.Notes.{label, note_text, other_bits_words, other_words, reason};

use crate::byte_count::{ByteCount, plural};
use crate::job::Good;
use crate::kinds::{Kinds, has_length, says_length, telegram_bytes};
use crate::members::write_members;
use crate::needs::{Needs, needs_of};
use etcs_reasons::inner::{are_bits, packed};
use etcs_rows::Refusal;
use etcs_text::Kind;
use etcs_text::inner::refusal_at;
use std::alloc::AllocError;
use std::fmt;

/// Why a line is no item.
#[derive(Drop)]
pub(crate) enum Note {
    /// It has more than 1,048,576 characters.
    TooLong,
    /// It doesn't end with digits.
    NoDigits,
    /// It ends with this number of digits, which is odd.
    OddDigits(usize),
    /// It has this number of bytes, but an item needs another.
    Bytes(Needs, ByteCount),
    /// Its bytes, or the bits that its digits are, are refused as an item of this kind.
    Refused(Kind, Refusal),
    /// It has this number of bytes, which only items of a kind that isn't asked for have.
    Other(ByteCount),
    /// It has the bits of a telegram of this kind, which isn't asked for.
    OtherBits(Kind),
    /// It has an item, and before that another one of this number of bytes.
    Another(ByteCount),
}

/// Which items have this number of bytes.
fn other_words(count: usize) -> &'static str
    ensures { result.now ≡ other_words count }
{
    match count {
        104 => ", as a long telegram has",
        27 => ", as a short telegram has",
        _ => ", as a radio message whose L_MESSAGE says so",
    }
}

/// Which telegram has as many bits.
fn other_bits_words(kind: Kind) -> &'static str
    ensures { result.now ≡ other_bits_words kind }
{
    match kind {
        Kind::Long => "830 bits, as a long telegram has",
        Kind::Short => "210 bits, as a short telegram has",
        Kind::Radio | Kind::Train => "",
    }
}

impl fmt::Display for Note {
    ghost output = { λ note. Some (reason note) };

    #[tactic(auto, using(std::proofs::Common::append_assoc), unfolding(crate::specs::Notes::reason))]
    fn fmt<W: fmt::Write>(&self, f: &mut fmt::Formatter<W>) -> fmt::Result {
        match self {
            Note::TooLong => f.write_str("line longer than 1,048,576 characters"),
            Note::NoDigits => f.write_str("no hexadecimal digits at its end"),
            Note::OddDigits(count) => {
                write!(f, "{count} digit{}, an odd number", plural(*count))
            }
            Note::Bytes(needs, count) => write!(f, "{count}{needs}"),
            Note::Refused(_, refusal) => write!(f, "{refusal}"),
            Note::Other(count) => write!(f, "{count}{}", other_words(count.count)),
            Note::OtherBits(kind) => f.write_str(other_bits_words(*kind)),
            Note::Another(count) => write!(f, "another item before it: {count}"),
        }
    }
}

/// The first kind of those asked for that has items of as many bytes, or of as many bits as there are digits.
fn kind_of_length(kinds: Kinds, bytes: &[u8]) -> Option<Kind> {
    if kinds.long && has_length(Kind::Long, bytes) {
        return Some(Kind::Long);
    }
    if kinds.short && has_length(Kind::Short, bytes) {
        return Some(Kind::Short);
    }
    if kinds.asks_message(bytes) && says_length(bytes) {
        return Some(kinds.message_way(bytes));
    }
    None
}

/// Why these bytes, or the bits that their digits are, are no item of the kind, if a bit is refused.
fn refusal_of(kind: Kind, bytes: &[u8]) -> Option<Refusal>
    ensures { FindsRefusal (readings_of (EntryReads kind)) (take 8184 (bits (whole_bytes kind bytes.now))) result }
{
    if are_bits(kind, bytes) {
        return refusal_at(kind, &packed(bytes)[..telegram_bytes(kind)]);
    }
    refusal_at(kind, bytes)
}

/// Why these bytes are no item of the kinds: why the first kind that has this number of bytes refuses them; if none has, how
/// many there are, and the first of them if they are named.
pub(crate) fn note_of(kinds: Kinds, named: bool, bytes: &[u8]) -> Note
    ensures { IsBytesNote kinds named bytes.now result }
{
    if let Some(kind) = kind_of_length(kinds, bytes) {
        // there always is one: of a length that the kind has, bytes that are no item are refused
        if let Some(refusal) = refusal_of(kind, bytes) {
            return Note::Refused(kind, refusal);
        }
    }
    Note::Bytes(needs_of(kinds, bytes), ByteCount::of(named, bytes))
}

/// What is reported of bytes of another kind: how many they are, or the bits that their digits are.
pub(crate) fn other_note(named: bool, bytes: &[u8]) -> Note
    ensures { result ≡ other_note named bytes.now }
{
    if are_bits(Kind::Long, bytes) {
        return Note::OtherBits(Kind::Long);
    }
    if are_bits(Kind::Short, bytes) {
        return Note::OtherBits(Kind::Short);
    }
    Note::Other(ByteCount::of(named, bytes))
}

/// Appends where the line is refused, or that it isn't bad.
///
/// # Errors
///
/// If memory runs out.
#[tactic(auto, using(std::proofs::Common::append_assoc), unfolding(crate::specs::Notes::label))]
fn write_label(note: &Note, out: &mut String) -> Result<(), AllocError>
    ensures { OnOk result (string_bytes out.new ≡ string_bytes out.old ++ label note.now) }
{
    match note {
        Note::TooLong
        | Note::NoDigits
        | Note::OddDigits(_)
        | Note::Bytes(_, _)
        | Note::Another(_) => Ok(()),
        Note::Refused(_, refusal) => {
            write!(out, "refused at bit {}, {}: ", refusal.bit, refusal.var)
        }
        Note::Other(_) | Note::OtherBits(_) => out.push_str("other: "),
    }
}

/// Appends the note of the line of this number: an object if good lines are written as JSON, and else words.
///
/// # Errors
///
/// If memory runs out. A part of the text may then be in `out`.
#[tactic(auto, using(std::proofs::Common::append_assoc), unfolding(crate::specs::Notes::note_text, crate::specs::Notes::plain_text))]
pub(crate) fn write_note(
    good: Good,
    number: u64,
    note: &Note,
    out: &mut String,
) -> Result<(), AllocError>
    ensures { OnOk result (string_bytes out.new ≡ string_bytes out.old ++ note_text good number note.now) }
{
    match good {
        Good::Json => {
            write!(out, "{{\"line\":{number}")?;
            write_members(note, out)?;
            write!(out, ",\"reason\":\"{note}\"}}\n")
        }
        Good::Left | Good::Digits => {
            write!(out, "line {number}: ")?;
            write_label(note, out)?;
            writeln!(out, "{note}")
        }
    }
}
