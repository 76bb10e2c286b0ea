//! Why bytes or a line of JSON are no item.

ghost use Rattle.std.specs.Prelude.{◌≡◌, ◌<◌, IfOk, length};
ghost use Rattle.etcs_bits.specs.Bits.{bits};
ghost use Rattle.etcs_rows.specs.Words.{words};
ghost use Rattle.etcs_c.specs.Explained.{SaysBefore, SaysLineWhy, SaysWhy};

use crate::answer::{
    BAD_JSON, EtcsAnswer, MORE, NO_MEMORY, REFUSED, WHOLE, accept, deliver, refuse,
};
use crate::fields::{EtcsField, fields_in};
use crate::reason::refusal_of;
use etcs_explain::JsonReason;
use etcs_json::{JsonFault, from_line};
use etcs_rows::Refusal;
use etcs_text::{End, Kind, read_pairs};
use std::alloc::{AllocError, Global};

/// A refusal in words.
fn sentence_of(alloc: Global, refusal: &Refusal) -> Result<Vec<u8>, AllocError>
    ensures { IfOk result (λ text. text.items ≡ words refusal.now) }
{
    Ok(format!(in alloc; "{refusal}")?.into_bytes())
}

/// Returns the status of what the bytes begin with, and writes why a bit is refused.
pub(crate) fn write_why(
    alloc: Global,
    kind: Kind,
    bytes: &[u8],
    out: &mut [u8],
    answer: &mut EtcsAnswer,
) -> u32
    ensures { SaysWhy kind (bits bytes.now) out.old out.new result answer.new }
{
    match refusal_of(alloc, kind, bytes, answer) {
        Ok(refusal) => {
            let sentence = sentence_of(alloc, &refusal);
            deliver(REFUSED, sentence, out, answer)
        }
        Err(status) => status,
    }
}

/// Returns the status of what the bytes begin with, and writes the fields before a refused bit.
pub(crate) fn write_before(
    alloc: Global,
    kind: Kind,
    bytes: &[u8],
    out: &mut [EtcsField],
    answer: &mut EtcsAnswer,
) -> u32
    ensures { SaysBefore kind (bits bytes.now) out.old out.new result answer.new }
{
    answer.written = 0;
    match read_pairs(alloc, kind, bytes) {
        Ok(account) => match account.end {
            End::Whole => accept(account.bytes(), answer),
            End::Open(_) => MORE,
            End::Refused(bit, part) => {
                refuse(bit, part.var, answer);
                let fields = fields_in(alloc, account.fields.as_slice());
                deliver(REFUSED, fields, out, answer)
            }
        },
        Err(AllocError) => NO_MEMORY,
    }
}

/// How the reason of a line is written.
#[derive(Clone, Copy, PartialEq, Eq)]
pub(crate) enum Form {
    /// In words.
    Words,
    /// As an object of JSON: its path, what is expected there and what is found, and the words.
    Object,
}

/// Why a line for which this fault was returned is the JSON of no item, in this form.
fn line_reason_of(
    alloc: Global,
    form: Form,
    kind: Kind,
    line: &[u8],
    fault: JsonFault,
) -> Result<Vec<u8>, AllocError>
    ensures { IfOk result (λ text. 0 < length text.items) }
{
    let reason = JsonReason::of_line(alloc, kind, line, fault)?;
    let text = match form {
        Form::Words => reason.reason,
        Form::Object => reason.to_json(alloc)?,
    };
    Ok(text.into_bytes())
}

/// Returns the status of the line, as `from_json` does, and writes why it is the JSON of no item, in this form.
pub(crate) fn write_line_why(
    alloc: Global,
    form: Form,
    kind: Kind,
    line: &[u8],
    out: &mut [u8],
    answer: &mut EtcsAnswer,
) -> u32
    ensures { SaysLineWhy kind line.now out.old out.new result answer.new }
{
    match from_line(alloc, kind, line) {
        Ok(_entry) => {
            answer.written = 0;
            WHOLE
        }
        Err(fault) => match fault {
            JsonFault::Refused { bit, var } => {
                refuse(bit, var, answer);
                let text = line_reason_of(alloc, form, kind, line, fault);
                deliver(REFUSED, text, out, answer)
            }
            JsonFault::Shape => {
                let text = line_reason_of(alloc, form, kind, line, fault);
                deliver(BAD_JSON, text, out, answer)
            }
            JsonFault::Memory => NO_MEMORY,
        },
    }
}
