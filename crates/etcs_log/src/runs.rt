//! A whole log: from a source to a sink.

ghost use Rattle.std.specs.Prelude.{◌≡◌, ◌+◌, ◌*◌, ◌%◌, ◌<◌, ◌≤◌, ◌^◌, ◌⊎◌, ℕ, List, length, Err, IfOk, IfErr, OnOk};
ghost use Rattle.std.specs.Io.KnownBytes.{Consumes, IsAtEnd};
ghost use Rattle.etcs_runs.specs.Ends.{FailedBy, FlushedOnlyWhere};
ghost use Rattle.etcs_runs.specs.Passes.{counted};
ghost use Rattle.etcs_runs.specs.Pipes.{Piped, PipedFirst};
ghost use Rattle.etcs_runs.specs.Promises.{EndsWhole, StarvesIn};
ghost use Rattle.etcs_runs.specs.declared.fault.RunFault.{RunFault};
ghost use Rattle.etcs_log.specs.Logs.{IsLog};
ghost use Rattle.etcs_log.specs.Promised.{AllOutput, FirstOutput, WholeOutput, log_promises};

use crate::job::{LogJob, LogTally};
use crate::log::{LogEngine, LogLines};
use etcs_runs::inner::{Lines, run_engine};
use etcs_runs::{RunFault, Sink, Source};
use std::alloc::Global;

/// The most reads that a log may take: more than any run makes.
const MOST_READS: u64 = 1 << 49;

/// Reads a log with at most one item of the kinds in each line. It classifies each line once, in order:
///
/// - skipped, if it is blank or a comment;
/// - an item, if one of its candidates is one; the first such candidate counts. Of the bytes of the line's digits, which
///   `line_bytes` finds, these are candidates, as far as their kinds are asked for: all bytes as a long telegram, as a short
///   one (each time the bytes of the bits, if the digits are the bits of such a telegram) and as a message; then, of more
///   bytes, the last 104 as a long telegram and the last 27 as a short one;
/// - of another kind, if no candidate is an item, and only a kind that isn't asked for has items of this number of bytes;
/// - bad in all other cases, and if it has more than 1,048,576 characters.
///
/// If good lines are asked for, the sink takes the line of each item: its digits in upper case, after the kind's name if there
/// are several kinds, or JSON. All else is for `notes`, where a line about a line is JSON if good lines are: no clause says what
/// `notes` takes, and what it doesn't take is lost.
///
/// Otherwise the sink takes, in the order of the log, for each bad line `line`, its number and why it is bad, and for each line
/// of another kind `line`, its number, and the number of its bytes with the items that have it. If the bytes of a bad line, or
/// the bits that its digits are, are refused as an item of a kind, the first bit with which no item of the kind continues is
/// why, with its variable and the refusal in words. After the last line, if counts are asked for, it takes how many lines are
/// items, bad and, if any, of another kind, with further counts; and then, if groups are asked for, a line for each group of
/// the telegrams among the items. No clause says what the further counts are.
///
/// - `Ok`: the source is at its end, and the sink took all of that text and was flushed. The tally has how many lines are
///   items, bad, and of another kind.
///
/// The caller owes that the source's reads and failures and the sink's failures so far are fewer than 2^63 each, and those of
/// `notes` fewer than 2^62.
///
/// # Errors
///
/// - [`RunFault::Read`]: a read failed. The sink took the text of all lines that have a LF in what was read, and perhaps of one
///   after them that is too long;
/// - [`RunFault::Endless`]: the log isn't at its end after 2^49 reads. What was written is the same;
/// - [`RunFault::Memory`]: memory ran out. The sink took the text of some first lines, or of all lines without counts and
///   groups, and at least what it would have taken had a read failed at most 4,096 bytes earlier;
/// - [`RunFault::Write`]: a write or the flush at the end failed. The sink took the first bytes of the text of some first lines,
///   or of all that the run writes; the fault has their number, at most 2^64 - 1.
pub fn run_log<S: Source, W: Sink, N: Sink>(
    alloc: Global,
    job: LogJob,
    source: &mut S,
    sink: &mut W,
    notes: &mut N,
) -> Result<LogTally, RunFault>
    requires reads { S.reads source.old < 2 ^ 63 }
    requires read_failures { S.failures source.old < 2 ^ 63 }
    requires write_failures { W.failures sink.old < 2 ^ 63 }
    requires note_failures { N.failures notes.old < 2 ^ 62 }
    ensures ok { IfOk result (λ tally. Piped (λ given output. IsLog job given output tally) (S.remaining source.old) (S.remaining source.new) (W.contents sink.old) (W.contents sink.new)) }
    ensures at_end { OnOk result (IsAtEnd (S.remaining source.new) × (S.failures source.new ≡ S.failures source.old) × (W.failures sink.new ≡ W.failures sink.old)) }
    ensures one { W.failures sink.new ≤ W.failures sink.old + 1 }
    ensures faults { IfErr result (λ e. (e ≡ RunFault.Read) ⊎ (((n : ℕ) × (e ≡ RunFault.Write n)) ⊎ ((e ≡ RunFault.Endless) ⊎ (e ≡ RunFault.Memory)))) }
    ensures read { result ≡ Err RunFault.Read → Piped (WholeOutput job) (S.remaining source.old) (S.remaining source.new) (W.contents sink.old) (W.contents sink.new) }
    ensures write { (n : ℕ) → result ≡ Err (RunFault.Write n) → (k : ℕ) × (n ≡ counted k) × PipedFirst k (λ given output. (FirstOutput job given output ⊎ AllOutput job given output) ⊎ (IsAtEnd (S.remaining source.new) × EndsWhole (log_promises job) given output)) (S.remaining source.old) (S.remaining source.new) (W.contents sink.old) (W.contents sink.new) }
    ensures endless { result ≡ Err RunFault.Endless → (S.reads source.new ≡ S.reads source.old + 2 ^ 49) × Piped (λ given output. (2 ^ 49 ≤ length given) × WholeOutput job given output) (S.remaining source.old) (S.remaining source.new) (W.contents sink.old) (W.contents sink.new) }
    ensures memory { IfErr result (λ e. e ≡ RunFault.Memory → Piped (StarvesIn (log_promises job)) (S.remaining source.old) (S.remaining source.new) (W.contents sink.old) (W.contents sink.new)) }
    ensures flushed { OnOk result (W.flushes sink.new ≡ (W.flushes sink.old + 1) % 2 ^ 64) }
    ensures unflushed { IfErr result (λ e. FlushedOnlyWhere (W.flushes sink.old) (W.flushes sink.new) (Piped (λ given output. (e ≡ RunFault.Write (counted (length output))) × IsAtEnd (S.remaining source.new) × EndsWhole (log_promises job) given output) (S.remaining source.old) (S.remaining source.new) (W.contents sink.old) (W.contents sink.new))) }
    ensures reads { S.reads source.new ≤ S.reads source.old + 2 ^ 49 }
    ensures failures { IfErr result (λ e. FailedBy e (S.failures source.old) (S.failures source.new) (W.failures sink.old) (W.failures sink.new)) }
    ensures pieces { (given : List ℕ) × Consumes (S.remaining source.old) (S.remaining source.new) given × (length given + 4096 * S.reads source.old ≤ 4096 * S.reads source.new) }
{
    let mut engine = LogEngine {
        lines: Lines::new(alloc, LogLines::new(alloc, job)),
        notes,
    };
    let ended = run_engine(&mut engine, MOST_READS, alloc, source, sink);
    drop(engine);
    ended
}
