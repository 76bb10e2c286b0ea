//! Items as pairs of a variable and its number, without a value of their types.

ghost use Rattle.std.specs.Prelude.{◌≡◌, ◌*◌, ◌<◌, ◌%◌, ◌++◌, length, IfOk, MatchOption, OnErr};
ghost use Rattle.std.specs.Bool.{Decides, MatchBool};
ghost use Rattle.etcs_bits.specs.Bits.{bits};
ghost use Rattle.etcs_vars.specs.Reading.{IsOutcome, spelled};
ghost use Rattle.etcs_text.specs.Entries.{entry_kind, entry_value};
ghost use Rattle.etcs_text.specs.Pairs.{IsEntry, IsUpTo, ItemLanguage, PairsRead, entry_reading, outcome_of};

use crate::seen::MOST_BYTES;
use crate::{Account, End, Entry, Kind};
use etcs_vars::{Var, WordSink};
use std::alloc::{AllocError, Global};

/// Returns the pairs of variable and number of the item of a kind that the bytes begin with, in the order of sending
/// ([`End::Whole`]); or those before the end of the bytes, if an item continues with all of them ([`End::Open`]); or those
/// before the first bit with which no item continues ([`End::Refused`], with the variable that holds it).
///
/// [`Account::bytes`] is how many bytes the item has.
///
/// # Errors
///
/// If memory runs out.
pub fn read_pairs(alloc: Global, kind: Kind, bytes: &[u8]) -> Result<Account, AllocError>
    ensures outcome { IfOk result (λ a. IsOutcome (PairsRead kind) (bits bytes.now) (outcome_of a.fields.items a.end)) }
    ensures before { IfOk result (λ a. IsUpTo (ItemLanguage kind) a.fields.items a.end (bits bytes.now)) }
{
    Account::read(alloc, kind, bytes)
}

/// How many bytes the pairs have; `None` if they aren't whole bytes, or are more than any item has.
fn bytes_of(pairs: &[(Var, u64)]) -> Option<usize>
    ensures { MatchOption result (length (spelled pairs.now) % 8 ≡ 0 → 8184 < length (spelled pairs.now)) (λ n. length (spelled pairs.now) ≡ 8 * n) }
{
    let mut bits = 0;
    for pair in pairs {
        bits += pair.0.width();
        if bits > 8 * MOST_BYTES {
            return None;
        }
    }
    if bits % 8 != 0 {
        return None;
    }
    Some(bits / 8)
}

/// Writes the pairs over exactly their bytes.
fn write_over(pairs: &[(Var, u64)], out: &mut [u8])
    requires { length (spelled pairs.now) ≡ 8 * length out.old }
    ensures { bits out.new ≡ spelled pairs.now }
{
    let mut sink = WordSink::new(out);
    sink.put_reading(pairs);
    sink.finish();
}

/// The bytes of pairs that have this many.
///
/// # Errors
///
/// If memory runs out.
fn spelling_of(alloc: Global, pairs: &[(Var, u64)], count: usize) -> Result<Vec<u8>, AllocError>
    requires { length (spelled pairs.now) ≡ 8 * count }
    ensures { IfOk result (λ bytes. bits bytes.items ≡ spelled pairs.now) }
{
    let mut bytes = Vec::new(alloc);
    bytes.resize(count, 0)?;
    write_over(pairs, bytes.as_mut_slice());
    Ok(bytes)
}

/// Whether the pairs that these bytes spell are those of an item of the kind.
///
/// # Errors
///
/// If memory runs out.
fn are_item(
    alloc: Global,
    kind: Kind,
    pairs: &[(Var, u64)],
    bytes: &[u8],
) -> Result<bool, AllocError>
    requires { bits bytes.now ≡ spelled pairs.now }
    ensures { IfOk result (λ yes. Decides yes (ItemLanguage kind pairs.now)) }
{
    let account = read_pairs(alloc, kind, bytes)?;
    match account.end {
        End::Whole => Ok(account.fields.as_slice() == pairs),
        End::Open(_) => Ok(false),
        End::Refused(_, _) => Ok(false),
    }
}

/// Appends the bytes of the item of a kind that has these pairs of variable and number, and returns `true`; or returns
/// `false` and appends nothing, exactly if no item of the kind has them.
///
/// # Errors
///
/// If memory runs out. `out` then stays as it was.
pub fn write_pairs(
    alloc: Global,
    kind: Kind,
    pairs: &[(Var, u64)],
    out: &mut Vec<u8>,
) -> Result<bool, AllocError>
    ensures ok { IfOk result (λ yes. MatchBool yes (ItemLanguage kind pairs.now × (bits out.new.items ≡ bits out.old.items ++ spelled pairs.now)) ((ItemLanguage kind pairs.now → ⊥) × (out.new.items ≡ out.old.items))) }
    ensures err { OnErr result (out.new.items ≡ out.old.items) }
{
    let Some(count) = bytes_of(pairs) else {
        return Ok(false);
    };
    let bytes = spelling_of(alloc, pairs, count)?;
    if !are_item(alloc, kind, pairs, bytes.as_slice())? {
        return Ok(false);
    }
    out.extend_from_slice(bytes.as_slice())?;
    Ok(true)
}

/// For proofs: each item is one that its type admits. Does nothing.
pub(crate) fn hold(entry: &Entry)
    ensures { IsEntry entry.now }
{
    match entry {
        Entry::Telegram(telegram) => etcs_telegram::inner::hold(telegram),
        Entry::Message(message) => etcs_messages::inner::hold(message),
        Entry::Train(message) => etcs_messages::inner::hold(message),
    }
}

/// Returns whether two items are of one kind and have the same pairs of variable and number: exactly if they are equal.
pub fn same_pairs(first: &Entry, second: &Entry) -> bool
    ensures { Decides result ((entry_kind (entry_value first.now) ≡ entry_kind (entry_value second.now)) × (entry_reading first.now ≡ entry_reading second.now)) }
{
    hold(first);
    hold(second);
    first == second
}
