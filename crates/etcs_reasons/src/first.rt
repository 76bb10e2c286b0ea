//! What bytes begin with, in most cases found without a value.

ghost use Rattle.std.specs.Prelude.{[], IfOk};
ghost use Rattle.std.specs.Bool.{Decides};
ghost use Rattle.etcs_bits.specs.Bits.{bits};
ghost use Rattle.etcs_text.specs.Entries.{EntryValue};
ghost use Rattle.etcs_text.specs.Readers.{Feeds, Progress};
ghost use Rattle.etcs_text.specs.Verdicts.{IsItem};

use etcs_text::inner::{refused_at, seen};
use etcs_text::{EntryReader, Kind};
use etcs_vars::{Fed, ReadFault};
use std::alloc::{AllocError, Global};

/// What a reader of the kind that has read nothing returns for these bytes. In most cases no value is made.
///
/// # Errors
///
/// Those of [`fed_unseen`].
#[inline(always)]
fn fed(alloc: Global, kind: Kind, bytes: &[u8]) -> Result<Fed, ReadFault>
    ensures { (at : Progress) × Feeds kind [] (bits bytes.now) result at }
{
    match seen(kind, bytes) {
        Some(taken) => Ok(Fed::Done { taken }),
        None => fed_unseen(alloc, kind, bytes),
    }
}

/// Returns what a reader of the kind that has read nothing returns for these bytes, for a caller who saw no item at their
/// front. Of most refused bytes no value is made.
///
/// # Errors
///
/// Those of [`EntryReader::feed`]; never `Ended`.
#[inline(never)]
pub fn fed_unseen(alloc: Global, kind: Kind, bytes: &[u8]) -> Result<Fed, ReadFault>
    ensures { (at : Progress) × Feeds kind [] (bits bytes.now) result at }
{
    if let Some((bit, var)) = refused_at(kind, bytes) {
        return Err(ReadFault::Refused { bit, var });
    }
    let mut reader = EntryReader::new(alloc, kind);
    reader.feed(bytes)
}

/// Whether bytes are an item of a kind, and nothing else.
///
/// # Errors
///
/// If memory runs out.
#[inline(always)]
pub fn is_item(alloc: Global, kind: Kind, bytes: &[u8]) -> Result<bool, AllocError>
    ensures { IfOk result (λ b. Decides b ((e : EntryValue) × IsItem kind bytes.now e)) }
{
    match fed(alloc, kind, bytes) {
        Ok(Fed::Done { taken }) => Ok(taken == bytes.len()),
        Ok(Fed::More) => Ok(false),
        Err(ReadFault::Refused { .. }) => Ok(false),
        Err(ReadFault::Memory) => Err(AllocError),
        Err(ReadFault::Ended) => unreachable!(),
    }
}
