//! What is reported of a line, as members of an object of JSON.

ghost use Rattle.std.specs.Prelude.{◌≡◌, ◌++◌, OnOk, string_bytes};
ghost use Rattle.etcs_log.specs.Notes.{cause_name, here_members, members, number_member, refusal_members};

use crate::kinds::kind_name;
use crate::notes::Note;
use etcs_reasons::inner::user_bits;
use etcs_rows::{Cause, Here, Refusal};
use std::alloc::AllocError;

/// What a cause is called.
fn cause_name(cause: Cause) -> &'static str
    ensures { result.now ≡ cause_name cause }
{
    match cause {
        Cause::Spare => "spare",
        Cause::Unfit(_) => "unfit",
    }
}

/// Appends a number, if there is one.
///
/// # Errors
///
/// If memory runs out.
#[tactic(auto, using(std::proofs::Common::append_assoc), unfolding(crate::specs::Notes::number_member))]
fn write_number(name: &str, number: Option<u64>, out: &mut String) -> Result<(), AllocError>
    ensures { OnOk result (string_bytes out.new ≡ string_bytes out.old ++ number_member name.now number) }
{
    match number {
        Some(number) => write!(out, ",\"{name}\":{number}"),
        None => Ok(()),
    }
}

/// Appends the message or packet whose length is refused, and how many bits are left.
///
/// # Errors
///
/// If memory runs out.
#[tactic(auto, using(std::proofs::Common::append_assoc), unfolding(crate::specs::Notes::here_members))]
fn write_here(here: &Here, out: &mut String) -> Result<(), AllocError>
    ensures { OnOk result (string_bytes out.new ≡ string_bytes out.old ++ here_members here.now) }
{
    match here {
        Here::Any => Ok(()),
        Here::MessageLength(_, nid) => write!(out, ",\"message\":{nid}"),
        Here::PacketNumber(_, room) => write!(out, ",\"room\":{room}"),
        Here::PacketLength(_, nid, room) => write!(out, ",\"packet\":{nid},\"room\":{room}"),
        Here::Row(nid, _, room) => write!(out, ",\"packet\":{nid},\"room\":{room}"),
    }
}

/// Appends where and why a bit is refused.
///
/// # Errors
///
/// If memory runs out. A part of the text may then be in `out`.
#[tactic(auto, using(std::proofs::Common::append_assoc), unfolding(crate::specs::Notes::refusal_members))]
fn write_refusal(refusal: &Refusal, out: &mut String) -> Result<(), AllocError>
    ensures { OnOk result (string_bytes out.new ≡ string_bytes out.old ++ refusal_members refusal.now) }
{
    write!(
        out,
        ",\"bit\":{},\"variable\":\"{}\",\"cause\":\"{}\"",
        refusal.bit,
        refusal.var,
        cause_name(refusal.cause)
    )?;
    write_number("number", refusal.number, out)?;
    write_number("below", refusal.below, out)?;
    write_number("above", refusal.above, out)?;
    write_here(&refusal.here, out)
}

/// Appends the members that report why a line is no item.
///
/// # Errors
///
/// If memory runs out. A part of the text may then be in `out`.
#[tactic(auto, using(std::proofs::Common::append_assoc), unfolding(crate::specs::Notes::members))]
pub(crate) fn write_members(note: &Note, out: &mut String) -> Result<(), AllocError>
    ensures { OnOk result (string_bytes out.new ≡ string_bytes out.old ++ members note.now) }
{
    match note {
        Note::TooLong => out.push_str(",\"cause\":\"too long\""),
        Note::NoDigits => out.push_str(",\"cause\":\"no digits\""),
        Note::OddDigits(count) => write!(out, ",\"cause\":\"odd digits\",\"digits\":{count}"),
        Note::Bytes(_, bytes) => write!(out, ",\"cause\":\"bytes\",\"bytes\":{}", bytes.count),
        Note::Refused(kind, refusal) => {
            write!(out, ",\"kind\":\"{}\"", kind_name(*kind))?;
            write_refusal(refusal, out)
        }
        Note::Other(bytes) => write!(out, ",\"cause\":\"other\",\"bytes\":{}", bytes.count),
        Note::OtherBits(kind) => {
            write!(out, ",\"cause\":\"other\",\"bits\":{}", user_bits(*kind))
        }
        Note::Another(bytes) => {
            write!(out, ",\"cause\":\"another item\",\"bytes\":{}", bytes.count)
        }
    }
}
