//! A run: the items of an input, explained one after another.

ghost use Rattle.std.specs.Prelude.{◌≡◌, ◌^◌, ◌<◌, Option, Result};
ghost use Rattle.etcs_runs.specs.Runs.{Ran};
ghost use Rattle.etcs_runs.specs.declared.fault.RunFault.{RunFault};
ghost use Rattle.etcs_explain.specs.Explained.{answer_of, explanations};

use crate::items::Items;
use crate::task::Task;
use etcs_reasons::inner::{FOOT, HEAD};
use etcs_runs::inner::{Lines, run_engine};
use etcs_runs::{Form, RunFault, Sink, Source};
use std::alloc::Global;

/// The most reads that a run may take: more than any run makes.
const MOST_READS: u64 = 1 << 49;

/// Explains the items of an input, one after another: each variable with its bits, its number and its meaning, and for what
/// is refused, everything before the refused bit, and why. The bytes of a line of hexadecimal are those that `line_bytes`
/// finds, or, if its digits are the bits of a telegram of the kind, the bytes of these bits; an item may have several such
/// lines. Each line of JSON is explained by itself, without a byte order mark. Blank lines are skipped, and comments in hexadecimal.
///
/// The input is cut into parts, without gaps:
///
/// - the bytes of an item;
/// - bytes that no item continues from some bit on, or that end inside an item;
/// - a line of JSON that is an item;
/// - a line that isn't: JSON that no item has, or one with a bit that is refused; or hexadecimal without bytes;
/// - a line of more than 1,048,576 characters.
///
/// Lines of hexadecimal are cut so (`AreParts`): as long as an item isn't all there, it goes on with the next line, unless it
/// is refused with it and that line begins another item; a line without bytes ends it, too. Without a kind that of each item is
/// guessed (`kind_of`).
///
/// Each part has one text, which begins with `item` and the item's number in an input of bytes, else with `line` and the
/// number of the line, for bytes that of their first line. No clause says what follows there.
///
/// - `Ok`: the source is at its end, and no part has a fault. The sink took the texts of all parts in order, between the head
///   and the foot of a page if it is one, and was flushed.
/// - [`RunFault::Refused`], [`RunFault::Truncated`], [`RunFault::BadHex`] or [`RunFault::BadJson`]: the same, except that
///   this is the fault of the first part that has one. In an input of bytes a refused item ends the run: what was read is cut
///   into parts, and its texts were written.
///
/// The caller owes that the source's reads and failures and the sink's failures so far are fewer than 2^63 each.
///
/// # Errors
///
/// Besides the faults of the input:
///
/// - [`RunFault::Read`]: a read failed. The sink took the texts of all that was read, but for at most 1,022 bytes at its end;
///   of lines only those with a LF count, and perhaps one after them that is too long;
/// - [`RunFault::Endless`]: the input isn't at its end after 2^49 reads. What was written is the same;
/// - [`RunFault::Memory`]: memory ran out. The sink took the texts of some first parts, at least those that it would have
///   taken had a read failed at most 4,096 bytes earlier;
/// - [`RunFault::Write`]: a write or the flush at the end failed. The sink took the first bytes of the texts of some first
///   parts, or of all that the run writes; the fault has their number, at most 2^64 - 1.
pub fn explain<S: Source, W: Sink>(
    alloc: Global,
    task: Task,
    source: &mut S,
    sink: &mut W,
) -> Result<(), RunFault>
    requires reads { S.reads source.old < 2 ^ 63 }
    requires read_failures { S.failures source.old < 2 ^ 63 }
    requires write_failures { W.failures sink.old < 2 ^ 63 }
    ensures { (ran : Result (Option RunFault) RunFault) × (result ≡ answer_of ran) × Ran (explanations HEAD.now FOOT.now task) (2 ^ 49) (S.remaining source.old) (S.remaining source.new) (S.reads source.old) (S.reads source.new) (S.failures source.old) (S.failures source.new) (W.contents sink.old) (W.contents sink.new) (W.failures sink.old) (W.failures sink.new) (W.flushes sink.old) (W.flushes sink.new) ran }
{
    match run_items(alloc, task, source, sink) {
        Ok(None) => Ok(()),
        Ok(Some(fault)) | Err(fault) => Err(fault),
    }
}

/// Explains the items of an input of this form, and returns what was wrong first.
fn run_items<S: Source, W: Sink>(
    alloc: Global,
    task: Task,
    source: &mut S,
    sink: &mut W,
) -> Result<Option<RunFault>, RunFault>
    requires reads { S.reads source.old < 2 ^ 63 }
    requires read_failures { S.failures source.old < 2 ^ 63 }
    requires write_failures { W.failures sink.old < 2 ^ 63 }
    ensures { Ran (explanations HEAD.now FOOT.now task) (2 ^ 49) (S.remaining source.old) (S.remaining source.new) (S.reads source.old) (S.reads source.new) (S.failures source.old) (S.failures source.new) (W.contents sink.old) (W.contents sink.new) (W.failures sink.old) (W.failures sink.new) (W.flushes sink.old) (W.flushes sink.new) result }
{
    let mut items = Items::new(alloc, task);
    match task.from {
        Form::Bin => {
            let ended = run_engine(&mut items, MOST_READS, alloc, source, sink);
            drop(items);
            ended
        }
        Form::Hex | Form::Json => {
            let mut lines = Lines::new(alloc, items);
            let ended = run_engine(&mut lines, MOST_READS, alloc, source, sink);
            drop(lines);
            ended
        }
    }
}
