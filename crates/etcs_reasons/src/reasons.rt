//! Why a number isn't admitted, and what a refusal most often comes from.

ghost use Rattle.etcs_reasons.specs.Sentences.{IsWritten};

use crate::meanings::write_meaning;
use crate::text::Text;
use etcs_rows::{Cause, Here, Refusal};
use etcs_text::Kind;
use etcs_vars::Var;

/// Whether a number has at most as many bits as a variable.
fn fits(var: Var, number: u64) -> bool {
    number <= u64::MAX >> (64 - var.width())
}

/// Appends in parentheses what a number of the variable means, if it means something.
pub(crate) fn write_meant(var: Var, number: u64, out: &mut Text)
    ensures { IsWritten out.old → IsWritten out.new }
{
    let mut meaning = Text::new(out.alloc());
    write_meaning(var, number, None, &mut meaning);
    match meaning.whole() {
        Ok("") => {}
        Ok(meaning) => {
            out.push(" (");
            out.push(meaning);
            out.push(")");
        }
        Err(refused) => out.note(Err(refused)),
    }
}

/// Appends a refusal in words.
pub(crate) fn write_refusal(refusal: &Refusal, out: &mut Text)
    ensures { IsWritten out.new }
{
    write!(out, "{refusal}");
}

/// Appends which numbers a variable admits, and that this one isn't among them, as a refusal says it, and what it means.
pub fn write_not_admitted(var: Var, number: Option<u64>, out: &mut Text)
    ensures { IsWritten out.new }
{
    let refusal = Refusal {
        bit: 0,
        var,
        bits: 0,
        count: 1,
        number,
        cause: Cause::Spare,
        below: None,
        above: None,
        here: Here::Any,
    };
    write_refusal(&refusal, out);
    match number {
        Some(number) if fits(var, number) => write_meant(var, number, out),
        _ => {}
    }
}

/// What a refusal of these bytes most often means.
pub(crate) fn often(kind: Kind, bytes: &[u8], var: Var) -> Option<&'static str> {
    match var {
        Var::Q_UPDOWN => Some(
            "a message or a text read as a telegram, or a byte too many in an item before this one",
        ),
        // Q_UPDOWN 1, and M_VERSION 16 or 17
        Var::M_VERSION_HEADER if matches!(bytes.first().copied(), Some(0x90 | 0x91)) => {
            Some("a telegram of version 1.0 or 1.1, which has 16 or 17")
        }
        Var::PAD => Some("this item or one before it is a byte short or long"),
        Var::NID_PACKET if kind == Kind::Short && bytes.len() != 27 => {
            Some("a long telegram, or one with a byte missing")
        }
        _ => None,
    }
}
