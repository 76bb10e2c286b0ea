//! The codec for C, a static library: functions over numbers and the caller's buffers that check, show, convert,
//! build and explain items ([`etcs_check`], [`etcs_fields`], [`etcs_from_fields`] and others), with [`EtcsField`],
//! [`EtcsReason`] and [`EtcsAnswer`]. `etcs.h` declares them. Rust programs use `etcs_codec`.
//!
//! In C a slice is a pointer followed by its length, and `alloc` is no parameter. Nothing is kept between two calls.
//!
//! Each call but [`etcs_line_front`] returns a status. In addition to those that a call's comment names there are
//! `ETCS_OK` if it did what it is for, `ETCS_NO_ROOM` if `out` is shorter than `written` of the answer,
//! `ETCS_NO_MEMORY` if out of memory, and `ETCS_UNKNOWN_KIND` exactly if no kind has the number `kind`. What is
//! written is at the front of `out`, and what follows it there is as before. `out` changes only with `ETCS_OK`, or with
//! another status for which the call's comment names something that is written.
#![tactic(auto)]

mod answer;
mod built;
#[cfg(test)]
mod call_tests;
mod explained;
mod fields;
mod found;
mod groups;
mod json;
mod kind;
mod lines;
mod meanings;
#[cfg(test)]
mod object_tests;
mod places;
mod reason;
mod texts;
mod vars;

ghost use Rattle.std.specs.Prelude.{◌≡◌, ◌++◌, ◌∷◌, [], ⊤, codes, length};
ghost use Rattle.etcs_bits.specs.Bits.{bits};
ghost use Rattle.etcs_runs.specs.Digits.{line_front};
ghost use Rattle.etcs_text.specs.Pairs.{PairsRead};
ghost use Rattle.etcs_c.specs.Answers.{OfKind, SaysBits, SaysLine, SaysText};
ghost use Rattle.etcs_c.specs.Built.{IsBuilt};
ghost use Rattle.etcs_c.specs.Explained.{SaysBefore, SaysLineWhy, SaysReason, SaysWhy};
ghost use Rattle.etcs_c.specs.FieldPlaces.{SaysPlaces};
ghost use Rattle.etcs_c.specs.Groups.{SaysGroup};
ghost use Rattle.etcs_c.specs.ItemFields.{SaysFields};
ghost use Rattle.etcs_c.specs.Lines.{SaysBytes};
ghost use Rattle.etcs_c.specs.Meanings.{SaysMeaning};
ghost use Rattle.etcs_c.specs.Writes.{Writes};
ghost use Rattle.etcs_c.specs.declared.texts.Wanted.TheVariants as wanted;

pub use answer::EtcsAnswer;
use answer::{UNKNOWN_KIND, WHOLE, write_out};
use built::from_fields;
use etcs_runs::line_front;
use explained::{Form, write_before, write_line_why, write_why};
pub use fields::EtcsField;
use fields::write_fields;
use found::check;
use groups::assemble;
pub use groups::{EtcsGroup, EtcsTelegram};
use json::from_json;
use kind::kind_of;
use lines::write_bytes;
use meanings::{Asked, print_meaning};
pub use places::EtcsPlace;
use places::write_places;
pub use reason::EtcsReason;
use reason::write_reason;
use std::alloc::Global;
use texts::{Wanted, write_text};

/// The library's version, and a zero.
const VERSION: &[u8] = b"0.2.0\0";

/// Reports what the bytes begin with, of items of the kind: `ETCS_OK` exactly if it is an item, with the number of its
/// bytes in `taken`; `ETCS_MORE` exactly if they are only the beginning of one; `ETCS_REFUSED` exactly if there is a
/// bit with which none continues, with the first such bit and the variable that holds it in `bit` and `var`. All that
/// holds unless the status is `ETCS_NO_MEMORY` or `ETCS_UNKNOWN_KIND`.
#[unsafe(no_mangle)]
pub extern "C" fn etcs_check(alloc: Global, kind: u32, bytes: &[u8], answer: &mut EtcsAnswer) -> u32
    ensures { OfKind kind (λ k. SaysBits (PairsRead k) (bits bytes.now) result answer.new) ⊤ result }
{
    match kind_of(kind) {
        Some(kind) => check(alloc, kind, bytes, answer),
        None => UNKNOWN_KIND,
    }
}

/// As `etcs_check`, and if the bytes begin with an item, writes exactly its text, as that of the item number `item`. In
/// each other case `out` is as before.
#[unsafe(no_mangle)]
pub extern "C" fn etcs_show(
    alloc: Global,
    kind: u32,
    item: u64,
    bytes: &[u8],
    out: &mut [u8],
    answer: &mut EtcsAnswer,
) -> u32
    ensures { OfKind kind (λ k. SaysText (wanted.Show item) k (bits bytes.now) out.old out.new result answer.new) (out.new ≡ out.old) result }
{
    match kind_of(kind) {
        Some(kind) => write_text(alloc, Wanted::Show(item), kind, bytes, out, answer),
        None => UNKNOWN_KIND,
    }
}

/// As `etcs_check`, and if the bytes begin with an item, writes exactly its JSON, a line without its LF. In each other case
/// `out` is as before.
#[unsafe(no_mangle)]
pub extern "C" fn etcs_to_json(
    alloc: Global,
    kind: u32,
    bytes: &[u8],
    out: &mut [u8],
    answer: &mut EtcsAnswer,
) -> u32
    ensures { OfKind kind (λ k. SaysText wanted.Json k (bits bytes.now) out.old out.new result answer.new) (out.new ≡ out.old) result }
{
    match kind_of(kind) {
        Some(kind) => write_text(alloc, Wanted::Json, kind, bytes, out, answer),
        None => UNKNOWN_KIND,
    }
}

/// Writes the encoding of the item of the kind whose JSON the line is, also of JSON stored when fewer packets were typed.
///
/// `ETCS_BAD_JSON` only if no item of the kind has this JSON; `ETCS_REFUSED` only if it is such older JSON, with bits
/// of a packet that is typed by now, and no item has these bits: with the first bit that is refused and its variable in
/// `bit` and `var`. `out` is then as before.
#[unsafe(no_mangle)]
pub extern "C" fn etcs_from_json(
    alloc: Global,
    kind: u32,
    line: &[u8],
    out: &mut [u8],
    answer: &mut EtcsAnswer,
) -> u32
    ensures { OfKind kind (λ k. SaysLine k line.now out.old out.new result answer.new) (out.new ≡ out.old) result }
{
    match kind_of(kind) {
        Some(kind) => from_json(alloc, kind, line, out, answer),
        None => UNKNOWN_KIND,
    }
}

/// As `etcs_check`, and if the bytes begin with an item, writes exactly its fields, in the order of sending: each is a
/// variable, or up to 64 bits one after another of FILL, OTHER_DATA, PADDING or PAD. In each other case `out` is as before.
#[unsafe(no_mangle)]
pub extern "C" fn etcs_fields(
    alloc: Global,
    kind: u32,
    bytes: &[u8],
    out: &mut [EtcsField],
    answer: &mut EtcsAnswer,
) -> u32
    ensures { OfKind kind (λ k. SaysFields k (bits bytes.now) out.old out.new result answer.new) (out.new ≡ out.old) result }
{
    match kind_of(kind) {
        Some(kind) => write_fields(alloc, kind, bytes, out, answer),
        None => UNKNOWN_KIND,
    }
}

/// As `etcs_fields`, but what is written is the place of each of these fields, in their order: which packet it is of, and which
/// entry of each repeated group it is in.
#[unsafe(no_mangle)]
pub extern "C" fn etcs_places(
    alloc: Global,
    kind: u32,
    bytes: &[u8],
    out: &mut [EtcsPlace],
    answer: &mut EtcsAnswer,
) -> u32
    ensures { OfKind kind (λ k. SaysPlaces k (bits bytes.now) out.old out.new result answer.new) (out.new ≡ out.old) result }
{
    match kind_of(kind) {
        Some(kind) => write_places(alloc, kind, bytes, out, answer),
        None => UNKNOWN_KIND,
    }
}

/// Writes the encoding of the item of the kind that has exactly these fields, as `etcs_fields` writes them. If no item has
/// them, `out` is as before, and the status is one of these:
///
/// - `ETCS_BAD_FIELDS` only if a number has more bits than its width, a width is above 64, or the fields' bits, up to
///   the last whole byte, begin with an item, which then has other fields;
/// - `ETCS_MORE` only if the fields fit their widths, and these bits are only the beginning of an item;
/// - `ETCS_REFUSED` only if the fields fit their widths, and no item continues with one of these bits, however many
///   they are: with the first such bit and its variable in `bit` and `var`.
#[unsafe(no_mangle)]
pub extern "C" fn etcs_from_fields(
    alloc: Global,
    kind: u32,
    fields: &[EtcsField],
    out: &mut [u8],
    answer: &mut EtcsAnswer,
) -> u32
    ensures { OfKind kind (λ k. IsBuilt k fields.now out.old out.new result answer.new) (out.new ≡ out.old) result }
{
    match kind_of(kind) {
        Some(kind) => from_fields(alloc, kind, fields, out, answer),
        None => UNKNOWN_KIND,
    }
}

/// As `etcs_check`, and if a bit is refused, writes why: a sentence in UTF-8, which is exactly the refusal in words
/// (`words`), and isn't empty. The status is then still `ETCS_REFUSED`, or `ETCS_NO_ROOM`. In each other case nothing is
/// written, and `written` is 0. The words may differ in the next version.
#[unsafe(no_mangle)]
pub extern "C" fn etcs_explain(
    alloc: Global,
    kind: u32,
    bytes: &[u8],
    out: &mut [u8],
    answer: &mut EtcsAnswer,
) -> u32
    ensures { OfKind kind (λ k. SaysWhy k (bits bytes.now) out.old out.new result answer.new) (out.new ≡ out.old) result }
{
    match kind_of(kind) {
        Some(kind) => write_why(alloc, kind, bytes, out, answer),
        None => UNKNOWN_KIND,
    }
}

/// As `etcs_check`, and if a bit is refused, writes why, as numbers: exactly those of the refusal. A refused bit is then
/// always reported, also if there is no memory. In each other case `out` is as before.
#[unsafe(no_mangle)]
pub extern "C" fn etcs_refusal(
    alloc: Global,
    kind: u32,
    bytes: &[u8],
    out: &mut EtcsReason,
    answer: &mut EtcsAnswer,
) -> u32
    ensures { OfKind kind (λ k. SaysReason k (bits bytes.now) out.old out.new result answer.new) (out.new ≡ out.old) result }
{
    match kind_of(kind) {
        Some(kind) => write_reason(alloc, kind, bytes, out, answer),
        None => UNKNOWN_KIND,
    }
}

/// As `etcs_check`, and if a bit is refused, writes the fields of all variables before the one that holds it: their bits are
/// the first of the bytes, from their end to the refused bit are fewer bits than that variable has, and in an item of the
/// kind it follows them. The status is then still `ETCS_REFUSED`, or `ETCS_NO_ROOM`. In each other case nothing is written,
/// and `written` is 0.
#[unsafe(no_mangle)]
pub extern "C" fn etcs_fields_before(
    alloc: Global,
    kind: u32,
    bytes: &[u8],
    out: &mut [EtcsField],
    answer: &mut EtcsAnswer,
) -> u32
    ensures { OfKind kind (λ k. SaysBefore k (bits bytes.now) out.old out.new result answer.new) (out.new ≡ out.old) result }
{
    match kind_of(kind) {
        Some(kind) => write_before(alloc, kind, bytes, out, answer),
        None => UNKNOWN_KIND,
    }
}

/// Writes why the line isn't the JSON of an item of the kind, in UTF-8: the path of the first part that is wrong, and a
/// sentence. The text isn't empty; its words aren't promised.
///
/// `ETCS_OK` only if the line is the JSON of an item, as for `etcs_from_json`: nothing is written, and `written` is 0.
/// `ETCS_BAD_JSON` and `ETCS_REFUSED` only as for `etcs_from_json`, and the text is written; or `ETCS_NO_ROOM` in place of
/// either.
#[unsafe(no_mangle)]
pub extern "C" fn etcs_explain_json(
    alloc: Global,
    kind: u32,
    line: &[u8],
    out: &mut [u8],
    answer: &mut EtcsAnswer,
) -> u32
    ensures { OfKind kind (λ k. SaysLineWhy k line.now out.old out.new result answer.new) (out.new ≡ out.old) result }
{
    match kind_of(kind) {
        Some(kind) => write_line_why(alloc, Form::Words, kind, line, out, answer),
        None => UNKNOWN_KIND,
    }
}

/// As `etcs_explain_json`, but what is written is the reason as an object of JSON without blanks: its path, column, what is
/// expected and what is found, each `null` if there is none, and all of it in words ([`etcs_explain::JsonReason`]). The
/// text isn't empty; no more is promised of it.
#[unsafe(no_mangle)]
pub extern "C" fn etcs_json_reason(
    alloc: Global,
    kind: u32,
    line: &[u8],
    out: &mut [u8],
    answer: &mut EtcsAnswer,
) -> u32
    ensures { OfKind kind (λ k. SaysLineWhy k line.now out.old out.new result answer.new) (out.new ≡ out.old) result }
{
    match kind_of(kind) {
        Some(kind) => write_line_why(alloc, Form::Object, kind, line, out, answer),
        None => UNKNOWN_KIND,
    }
}

/// Writes what a number of a variable means in an item of the kind, in the words of `explain`, and gives the variable's
/// name in `var`. Of a number with a special text (`special`), this text is written; the words for any other number
/// aren't promised, nor whether there are any. `ETCS_BAD_FIELDS` exactly if no variable has the number `var`.
///
/// If the number has no meaning, the text is empty. A distance is written in metres by `scale`, a number of Q_SCALE,
/// and has no meaning if that is none of 0, 1 and 2.
#[unsafe(no_mangle)]
pub extern "C" fn etcs_meaning(
    alloc: Global,
    kind: u32,
    var: u32,
    number: u64,
    scale: u32,
    out: &mut [u8],
    answer: &mut EtcsAnswer,
) -> u32
    ensures { OfKind kind (λ k. SaysMeaning var number out.old out.new result answer.new) (out.new ≡ out.old) result }
{
    match kind_of(kind) {
        Some(kind) => {
            let asked = Asked {
                kind,
                var,
                number,
                scale,
            };
            print_meaning(alloc, asked, out, answer)
        }
        None => UNKNOWN_KIND,
    }
}

/// Writes exactly the bytes that the hexadecimal digits of a line stand for, at least one. The digits (`line_digits`)
/// are those that [`etcs_runs::line_bytes`] finds.
///
/// `ETCS_EMPTY_LINE` exactly if the line is blank or a comment. Else `ETCS_NO_DIGITS` exactly if no digits are found:
/// what is at its end isn't of digits, and no words or parts before that are 20 of them, where digits that touch any
/// other letter don't count, since they are a part of a word. `ETCS_ODD_DIGITS` exactly if their number is odd: it is
/// in `taken`. `out` is then as before.
#[unsafe(no_mangle)]
pub extern "C" fn etcs_line_bytes(
    alloc: Global,
    line: &[u8],
    out: &mut [u8],
    answer: &mut EtcsAnswer,
) -> u32
    ensures { SaysBytes line.now out.old out.new result answer.new }
{
    write_bytes(alloc, line, out, answer)
}

/// Returns how many bytes are before the digits of a line, counting neither a byte order mark at its start nor blanks,
/// tabs and CRs just before the digits. If it has no digits, these are all of its bytes, without such a mark and
/// without blanks, tabs and CRs at its end. The digits are those of `etcs_line_bytes`, also of a comment: of `# dead`
/// one byte is before them.
#[unsafe(no_mangle)]
pub extern "C" fn etcs_line_front(line: &[u8]) -> usize
    ensures { result ≡ length (line_front line.now) }
{
    line_front(line).len()
}

/// Puts the telegrams of a balise group together (SUBSET-026, 3.16.2.4), each held beside those before it, and writes
/// to `group` exactly which positions are missing, and that it is complete exactly if something is held and nothing is
/// missing.
///
/// Else `group` is as before, and `taken` is the index of the first telegram that isn't held beside those before it.
/// The status is that of its first clash with them; or that of `etcs_check` for its bytes (`ETCS_REFUSED` with `bit`
/// and `var`); or `ETCS_UNKNOWN_KIND` if its kind isn't that of a telegram.
#[unsafe(no_mangle)]
pub extern "C" fn etcs_assemble(
    alloc: Global,
    telegrams: &[EtcsTelegram],
    group: &mut EtcsGroup,
    answer: &mut EtcsAnswer,
) -> u32
    ensures { SaysGroup telegrams.now group.old group.new result answer.new }
{
    assemble(alloc, telegrams, group, answer)
}

/// Writes exactly the text of the library's version, and a zero after it.
#[unsafe(no_mangle)]
pub extern "C" fn etcs_version(out: &mut [u8], answer: &mut EtcsAnswer) -> u32
    ensures { Writes (codes "0.2.0" ++ 0 ∷ []) out.old out.new result answer.new }
{
    write_out(WHOLE, VERSION, out, answer)
}
