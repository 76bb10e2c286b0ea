//! The item that bytes begin with.

ghost use Rattle.std.specs.Prelude.{◌≡◌, [], IfOk, IfSome, IfNone};
ghost use Rattle.etcs_bits.specs.Bits.{bits};
ghost use Rattle.etcs_vars.specs.Reading.{NoneYet, readings_of};
ghost use Rattle.etcs_sequence.specs.Firsts.{IsFirst};
ghost use Rattle.etcs_sequence.specs.Progress.{reading};

use crate::item::{ItemReader, ItemRest};
use etcs_vars::{Fed, ReadFault};
use std::alloc::AllocError;

/// The item of the reader's size that these bytes begin with, one that its type admits, and how many of the first bytes
/// are its spelling. `None` only if no front of the bytes is the spelling of an item of this size.
///
/// Requires that the reader has taken no bits.
///
/// # Errors
///
/// `AllocError`: the reader is out of memory.
pub fn first_item<R: ItemRest>(
    reader: ItemReader<R>,
    bytes: &[u8],
) -> Result<Option<(R::Item, usize)>, AllocError>
    requires { reader.progress ≡ reading [] }
    ensures some { IfOk result (λ found. IfSome found (λ t. IsFirst (R.Reads reader.size) R.value R.IsValue bytes.now t.0 t.1)) }
    ensures none { IfOk result (λ found. IfNone found (NoneYet (readings_of (R.Reads reader.size)) (bits bytes.now))) }
{
    let mut reader = reader;
    match reader.feed(bytes) {
        Ok(Fed::Done { taken }) => match reader.take_next() {
            Some(item) => Ok(Some((item, taken))),
            None => unreachable!(),
        },
        Ok(Fed::More) => Ok(None),
        Err(ReadFault::Refused { .. }) => Ok(None),
        Err(ReadFault::Ended) => unreachable!(),
        Err(ReadFault::Memory) => Err(AllocError),
    }
}
