//! What bytes begin with.

ghost use Rattle.std.specs.Prelude.{◌≡◌, ◌*◌, [], MatchResult};
ghost use Rattle.etcs_bits.specs.Bits.{bits};
ghost use Rattle.etcs_vars.specs.Reading.{IsOutcome, done};
ghost use Rattle.etcs_text.specs.Entries.{EntryReads, entry_value};
ghost use Rattle.etcs_text.specs.Pairs.{PairsRead};
ghost use Rattle.etcs_text.specs.Readers.{reading};
ghost use Rattle.etcs_c.specs.Answers.{SaysBits, SaysNone};

use crate::answer::{EtcsAnswer, MORE, NO_MEMORY, accept, refuse};
use etcs_reasons::inner::fed_unseen;
use etcs_text::inner::seen;
use etcs_text::{Account, End, Entry, EntryReader, Kind, read_pairs};
use etcs_vars::{Fed, ReadFault};
use std::alloc::{AllocError, Global};

/// Returns the status of what the bytes begin with, of items of this kind, and puts the numbers of it into the answer. Most
/// items are accepted or refused without making a value of them.
#[inline(always)]
pub(crate) fn check(alloc: Global, kind: Kind, bytes: &[u8], answer: &mut EtcsAnswer) -> u32
    ensures { SaysBits (EntryReads kind) (bits bytes.now) result answer.new }
{
    match seen(kind, bytes) {
        Some(taken) => accept(taken, answer),
        None => check_unseen(alloc, kind, bytes, answer),
    }
}

/// As [`check`], where no item is seen.
#[inline(never)]
fn check_unseen(alloc: Global, kind: Kind, bytes: &[u8], answer: &mut EtcsAnswer) -> u32
    ensures { SaysBits (EntryReads kind) (bits bytes.now) result answer.new }
{
    match fed_unseen(alloc, kind, bytes) {
        Ok(Fed::Done { taken }) => accept(taken, answer),
        Ok(Fed::More) => MORE,
        Err(ReadFault::Refused { bit, var }) => refuse(bit, var, answer),
        Err(ReadFault::Memory) => NO_MEMORY,
        Err(ReadFault::Ended) => unreachable!(),
    }
}

/// The item that the bytes begin with, and how many bytes it has; or the status of what they begin with in its place.
pub(crate) fn item_of(
    alloc: Global,
    kind: Kind,
    bytes: &[u8],
    answer: &mut EtcsAnswer,
) -> Result<(Entry, usize), u32>
    ensures { MatchResult result (λ m. IsOutcome (EntryReads kind) (bits bytes.now) (done (entry_value m.0) (8 * m.1))) (λ s. SaysNone (EntryReads kind) (bits bytes.now) s answer.new) }
{
    let mut reader = EntryReader::new(alloc, kind);
    let item = first_item(&mut reader, bytes, answer);
    drop(reader);
    item
}

/// The same, by a reader that has taken no bytes.
fn first_item(
    reader: &mut EntryReader,
    bytes: &[u8],
    answer: &mut EtcsAnswer,
) -> Result<(Entry, usize), u32>
    requires { reader.old.progress ≡ reading [] }
    ensures { MatchResult result (λ m. IsOutcome (EntryReads reader.old.kind) (bits bytes.now) (done (entry_value m.0) (8 * m.1))) (λ s. SaysNone (EntryReads reader.old.kind) (bits bytes.now) s answer.new) }
{
    match reader.feed(bytes) {
        Ok(Fed::Done { taken }) => match reader.next() {
            Ok(entry) => Ok((entry, taken)),
            Err(()) => unreachable!(),
        },
        Ok(Fed::More) => Err(MORE),
        Err(ReadFault::Refused { bit, var }) => Err(refuse(bit, var, answer)),
        Err(ReadFault::Memory) => Err(NO_MEMORY),
        Err(ReadFault::Ended) => unreachable!(),
    }
}

/// The account of the item that the bytes begin with, and how many bytes it has in the answer; or the status of what they
/// begin with in its place.
pub(crate) fn variables_of(
    alloc: Global,
    kind: Kind,
    bytes: &[u8],
    answer: &mut EtcsAnswer,
) -> Result<Account, u32>
    ensures { MatchResult result (λ a. IsOutcome (PairsRead kind) (bits bytes.now) (done a.fields.items (8 * answer.new.taken))) (λ s. SaysNone (PairsRead kind) (bits bytes.now) s answer.new) }
{
    match read_pairs(alloc, kind, bytes) {
        Ok(account) => match account.end {
            End::Whole => {
                accept(account.bytes(), answer);
                Ok(account)
            }
            End::Open(_) => Err(MORE),
            End::Refused(bit, part) => Err(refuse(bit, part.var, answer)),
        },
        Err(AllocError) => Err(NO_MEMORY),
    }
}
