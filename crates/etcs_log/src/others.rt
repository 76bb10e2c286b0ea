//! Another item before the item of a line.

ghost use Rattle.std.specs.Prelude.{◌*◌, ◌≤◌, ℕ, Bool, List, IfOk, length};
ghost use Rattle.etcs_runs.specs.Answers.{Says};
ghost use Rattle.etcs_runs.specs.Digits.{text_digits};
ghost use Rattle.etcs_runs.specs.RunTexts.{runs_from};
ghost use Rattle.etcs_log.specs.Candidates.{candidates, last_candidate, message_candidate, text_candidates, where_asked, whole_candidate};
ghost use Rattle.etcs_log.specs.Reports.{IsCountBefore, IsCountOf};

use crate::byte_count::ByteCount;
use crate::kinds::{Kinds, may_have, telegram_bytes};
use etcs_reasons::inner::{are_bits, is_item, packed};
use etcs_runs::Run;
use etcs_text::Kind;
use std::alloc::{AllocError, Global};

/// How many bytes these are, if the kind is asked for and they are an item of it.
///
/// # Errors
///
/// If memory runs out.
fn find(
    alloc: Global,
    asked: bool,
    kind: Kind,
    bytes: &[u8],
) -> Result<Option<ByteCount>, AllocError>
    ensures { (is_last : Bool) (text : List ℕ) → IfOk result (IsCountOf (where_asked asked kind is_last text bytes.now)) }
{
    if !asked {
        return Ok(None);
    }
    if !may_have(kind, bytes.len()) {
        return Ok(None);
    }
    if !is_item(alloc, kind, bytes)? {
        return Ok(None);
    }
    Ok(Some(ByteCount::of(true, bytes)))
}

/// The same of all bytes of a run, or of their bits, as a telegram.
///
/// # Errors
///
/// If memory runs out.
fn find_whole(
    alloc: Global,
    kinds: Kinds,
    kind: Kind,
    bytes: &[u8],
) -> Result<Option<ByteCount>, AllocError>
    ensures { (text : List ℕ) → IfOk result (IsCountOf (whole_candidate kinds kind text bytes.now)) }
{
    if are_bits(kind, bytes) {
        let packed = packed(bytes);
        return find(
            alloc,
            kinds.contains(kind),
            kind,
            &packed[..telegram_bytes(kind)],
        );
    }
    find(alloc, kinds.contains(kind), kind, bytes)
}

/// The same of the last bytes of a run, if there are more.
///
/// # Errors
///
/// If memory runs out.
fn find_last(
    alloc: Global,
    kinds: Kinds,
    kind: Kind,
    bytes: &[u8],
) -> Result<Option<ByteCount>, AllocError>
    ensures { (text : List ℕ) → IfOk result (IsCountOf (last_candidate kinds kind text bytes.now)) }
{
    let count = telegram_bytes(kind);
    if bytes.len() <= count {
        return Ok(None);
    }
    find(
        alloc,
        kinds.contains(kind),
        kind,
        &bytes[bytes.len() - count..],
    )
}

/// How many bytes the first candidate has that is an item. Not inlined, so that the bits of digits are on the stack only here.
///
/// # Errors
///
/// If memory runs out.
#[inline(never)]
fn item_in(alloc: Global, kinds: Kinds, bytes: &[u8]) -> Result<Option<ByteCount>, AllocError>
    ensures { (text : List ℕ) → IfOk result (IsCountOf (candidates kinds text bytes.now)) }
{
    if let Some(count) = find_whole(alloc, kinds, Kind::Long, bytes)? {
        return Ok(Some(count));
    }
    if let Some(count) = find_whole(alloc, kinds, Kind::Short, bytes)? {
        return Ok(Some(count));
    }
    let asked = kinds.asks_message(bytes);
    if let Some(count) = find(alloc, asked, kinds.message_way(bytes), bytes)? {
        return Ok(Some(count));
    }
    if let Some(count) = find_last(alloc, kinds, Kind::Long, bytes)? {
        return Ok(Some(count));
    }
    find_last(alloc, kinds, Kind::Short, bytes)
}

/// How many bytes an item of a run has, whose bytes are at the end of the buffer.
///
/// # Errors
///
/// If memory runs out.
fn item_of(
    alloc: Global,
    kinds: Kinds,
    run: &Run<'_>,
    buffer: &[u8],
) -> Result<Option<ByteCount>, AllocError>
    requires { Says (text_digits run.now.text.now) run.now.bytes buffer.now }
    ensures { IfOk result (IsCountOf (text_candidates kinds run.now.text.now)) }
{
    match run.bytes {
        Ok(count) => item_in(alloc, kinds, &buffer[buffer.len() - count..]),
        Err(_) => Ok(None),
    }
}

/// How many bytes the next item before a run has, if there is one.
///
/// # Errors
///
/// If memory runs out.
pub(crate) fn item_before(
    alloc: Global,
    kinds: Kinds,
    run: &Run<'_>,
    buffer: &mut [u8],
) -> Result<Option<ByteCount>, AllocError>
    requires { length run.now.text.now ≤ 2 * length buffer.old }
    ensures { IfOk result (IsCountBefore kinds (runs_from run.now)) }
{
    let mut next = run.before(buffer);
    'runs: while let Some(earlier) = next {
        if let Some(count) = item_of(alloc, kinds, &earlier, buffer)? {
            return Ok(Some(count));
        }
        next = earlier.before(buffer);
    }
    Ok(None)
}
