//! Items built from their fields.

ghost use Rattle.std.specs.Prelude.{◌≡◌, ◌≤◌, ◌<◌, ◌⊎◌, All, length, take};
ghost use Rattle.std.specs.Bool.{Decides};
ghost use Rattle.etcs_bits.specs.Bits.{bits, num};
ghost use Rattle.etcs_vars.specs.WordSinks.{and_bits};
ghost use Rattle.etcs_c.specs.Built.{IsBuilt};
ghost use Rattle.etcs_c.specs.Fields.{fields_of};
ghost use Rattle.etcs_c.specs.ItemFields.{AreFit, IsFit, packed, whole_bytes};
ghost use Rattle.etcs_c.specs.Writes.{Starves, Writes};

use crate::answer::{BAD_FIELDS, EtcsAnswer, NO_MEMORY, WHOLE, write_out};
use crate::fields::{EtcsField, fields_in};
use crate::found::variables_of;
use etcs_text::{Account, Kind};
use etcs_vars::WordSink;
use std::alloc::{AllocError, Global};

/// How many bytes the longest item has.
const LONGEST: usize = 1023;

/// Whether a field's width is at most 64 bits, and its number has no more bits than that.
fn is_fit(field: &EtcsField) -> bool
    ensures { Decides result (IsFit field.now) }
{
    let EtcsField { number, width, .. } = *field;
    if width < 64 {
        number >> width == 0
    } else {
        width == 64
    }
}

/// Whether that holds for all fields.
fn are_fit(fields: &[EtcsField]) -> bool
    ensures { Decides result (AreFit fields.now) }
{
    fields.iter().all(|field| is_fit(field))
}

/// Puts the number of a field after the bits before.
fn put(field: &EtcsField, sink: &mut WordSink<'_>)
    requires { IsFit field.now }
    ensures { sink.new ≡ and_bits sink.old (num field.now.width field.now.number) }
{
    if field.width > 0 {
        sink.put(field.width as usize, field.number);
    }
}

/// Writes the numbers of fields one after another, as far as an item has bits, and returns how many whole bytes they are.
fn pack(fields: &[EtcsField], out: &mut [u8]) -> usize
    requires fit { AreFit fields.now }
    requires room { length out.old ≡ 1031 }
    ensures inside { result ≤ length out.new }
    ensures bits { bits (take result out.new) ≡ take 8184 (whole_bytes (packed fields.now)) }
{
    let mut sink = WordSink::new(out);
    let mut bits = 0;
    for field in fields {
        if bits >= 8 * LONGEST {
            break;
        }
        put(field, &mut sink);
        bits += field.width as usize;
    }
    sink.finish();
    bits.min(8 * LONGEST) / 8
}

/// For callers: each byte is below 256.
fn are_bytes(bytes: &[u8])
    ensures { All (λ b. b < 256) bytes.now }
{
    let _ = bytes;
}

/// Writes these bytes, which are those of an item with these variables, if the fields are its fields.
fn build(
    alloc: Global,
    account: &Account,
    fields: &[EtcsField],
    bytes: &[u8],
    out: &mut [u8],
    answer: &mut EtcsAnswer,
) -> u32
    ensures { ((fields.now ≡ fields_of account.now.fields.items) × Writes bytes.now out.old out.new result answer.new) ⊎ (((fields.now ≡ fields_of account.now.fields.items → ⊥) × (result ≡ 7) × (out.new ≡ out.old)) ⊎ Starves out.old out.new result) }
{
    match fields_in(alloc, account.fields.as_slice()) {
        Ok(own) => {
            if own.as_slice() == fields {
                write_out(WHOLE, bytes, out, answer)
            } else {
                BAD_FIELDS
            }
        }
        Err(AllocError) => NO_MEMORY,
    }
}

/// Writes the encoding of the item of the kind whose fields these are: the bytes of their bits.
pub(crate) fn from_fields(
    alloc: Global,
    kind: Kind,
    fields: &[EtcsField],
    out: &mut [u8],
    answer: &mut EtcsAnswer,
) -> u32
    ensures { IsBuilt kind fields.now out.old out.new result answer.new }
{
    if !are_fit(fields) {
        return BAD_FIELDS;
    }
    let mut room = [0; LONGEST + 8];
    let count = pack(fields, &mut room);
    let bytes = &room[..count];
    are_bytes(bytes);
    match variables_of(alloc, kind, bytes, answer) {
        Ok(account) => build(alloc, &account, fields, bytes, out, answer),
        Err(status) => status,
    }
}
