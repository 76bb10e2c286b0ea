//! What the numbers of variables mean.

ghost use Rattle.std.specs.Prelude.{◌≡◌, IfOk};
ghost use Rattle.etcs_c.specs.Meanings.{IsMeaning, SaysMeaning};

use crate::answer::{BAD_FIELDS, EtcsAnswer, WHOLE, deliver, name_field};
use crate::vars::var_of;
use etcs_reasons::inner::{Text, message_name, packet_name, way_of, write_meaning};
use etcs_text::Kind;
use etcs_vars::Var;
use std::alloc::{AllocError, Global};

/// A variable of an item of a kind, its number, and the Q_SCALE of its distances.
#[derive(Clone, Copy)]
pub(crate) struct Asked {
    pub(crate) kind: Kind,
    pub(crate) var: u32,
    pub(crate) number: u64,
    pub(crate) scale: u32,
}

/// The characters of a text.
fn copied(alloc: Global, text: &str) -> Result<Vec<u8>, AllocError>
    ensures { IfOk result (λ copy. copy.items ≡ text.now) }
{
    let mut copy = Vec::new(alloc);
    copy.extend_from_slice(text.as_bytes())?;
    Ok(copy)
}

/// What a number of the variable means, in the words of `explain`.
fn meaning_of(alloc: Global, var: Var, asked: Asked) -> Result<Vec<u8>, AllocError>
    ensures { IfOk result (λ text. IsMeaning var asked.number text.items) }
{
    let number = asked.number;
    if let Some(text) = var.special(number) {
        return copied(alloc, text);
    }
    let mut text = Text::new(alloc);
    match var {
        Var::NID_PACKET => text.push(packet_name(way_of(asked.kind), number).unwrap_or("")),
        Var::NID_MESSAGE => text.push(message_name(number).unwrap_or("")),
        _ => write_meaning(var, number, Some(u64::from(asked.scale)), &mut text),
    }
    Ok(text.into_string()?.into_bytes())
}

/// Returns the name of the variable, and writes what its number means.
pub(crate) fn print_meaning(
    alloc: Global,
    asked: Asked,
    out: &mut [u8],
    answer: &mut EtcsAnswer,
) -> u32
    ensures { SaysMeaning asked.var asked.number out.old out.new result answer.new }
{
    match var_of(asked.var) {
        Some(var) => {
            answer.var = name_field(var);
            deliver(WHOLE, meaning_of(alloc, var, asked), out, answer)
        }
        None => BAD_FIELDS,
    }
}
