//! Items read from JSON.

ghost use Rattle.std.specs.Prelude.{IfOk};
ghost use Rattle.etcs_text.specs.Entries.{entry_value};
ghost use Rattle.etcs_text.specs.Encodings.{IsEncoded};
ghost use Rattle.etcs_c.specs.Answers.{SaysLine};

use crate::answer::{BAD_JSON, EtcsAnswer, NO_MEMORY, WHOLE, deliver, refuse};
use etcs_json::{JsonFault, from_line};
use etcs_text::{Entry, Kind, encoded};
use std::alloc::{AllocError, Global};

/// The encoding of an entry.
pub(crate) fn encoding_of(alloc: Global, entry: &Entry) -> Result<Vec<u8>, AllocError>
    ensures { IfOk result (λ bytes. IsEncoded (entry_value entry.now) bytes.items) }
{
    let mut bytes = Vec::new(alloc);
    encoded(entry, &mut bytes)?;
    Ok(bytes)
}

/// Writes the encoding of the item of the kind whose JSON the line is.
pub(crate) fn from_json(
    alloc: Global,
    kind: Kind,
    line: &[u8],
    out: &mut [u8],
    answer: &mut EtcsAnswer,
) -> u32
    ensures { SaysLine kind line.now out.old out.new result answer.new }
{
    match from_line(alloc, kind, line) {
        Ok(entry) => deliver(WHOLE, encoding_of(alloc, &entry), out, answer),
        Err(JsonFault::Refused { bit, var }) => refuse(bit, var, answer),
        Err(JsonFault::Shape) => BAD_JSON,
        Err(JsonFault::Memory) => NO_MEMORY,
    }
}
