//! One run: the items of a source, and what is written of them to a sink.

ghost use Rattle.std.specs.Prelude.{◌≡◌, ◌+◌, ◌*◌, ◌%◌, ◌^◌, ◌<◌, ◌≤◌, ◌⊎◌, ℕ, List, [], length, Err, IfOk, IfErr, OnOk};
ghost use Rattle.std.specs.Io.KnownBytes.{Consumes, IsAtEnd};
ghost use Rattle.etcs_runs.specs.Ends.{FailedBy, FlushedOnlyWhere};
ghost use Rattle.etcs_runs.specs.declared.fault.RunFault.{RunFault};
ghost use Rattle.etcs_runs.specs.Faults.{IsOfEngine};
ghost use Rattle.etcs_stream.specs.Engines.{Outputs, Ends, EndsWhole, Stops, StopsAtEnd, StarvesIn, Prints, promises};
ghost use Rattle.etcs_stream.specs.Printers.{IsGroupable};
ghost use Rattle.etcs_runs.specs.Pipes.{Piped, PipedFirst};
ghost use Rattle.etcs_runs.specs.Runs.{Ran};

use crate::bin::Bin;
use crate::hex_lines::HexLines;
use crate::job::{Job, Tally};
use crate::json_lines::JsonLines;
use etcs_runs::inner::{LineHandler, Lines, run_engine};
use etcs_runs::{Form, RunFault, Sink, Source};
use std::alloc::Global;

/// How many reads a run has at most.
const MOST_READS: u64 = 16_000_000;

/// Does the job: reads the items of an input from the source, and writes to the sink what the command writes of each,
/// once it is whole, and at the end of a group its last lines. It reads at most 16,000,000 times, and each read gives
/// at most 4,096 bytes. In bytes and in hexadecimal the items follow one another, and the end of a line doesn't end an
/// item; in JSON each line is one item. Empty lines are skipped.
///
/// What is promised depends on the result. *Given* are all the bytes that the source gave, and *output* is a text,
/// which the sink took, all of it unless the result is `Write`. Items that are *whole* in what is given are, in
/// hexadecimal and JSON, those of the lines that have a LF.
///
/// - `Ok`: given is the whole input, and is nothing but items of the job's kind in the job's form, at most 1,000,000.
///   Output is what the command writes of them (`OutputsItems`), and after that what it writes at the end (`Closes`):
///   for a group its last lines, else nothing. The tally has how many items there are, and for a group how many of them
///   clash and whether the group is whole, else 0 and true. The source is at its end, no call of source or sink failed,
///   and the sink was flushed exactly once, as counted modulo 2^64.
/// - `Refused`, `Truncated`, `BadHex`, `BadJson`, and `Endless` for an item too many: every input that begins with what
///   is given ends so after the items of output: with this item, bit and variable, with these bits, with this line and
///   place, or with this line. Or the source is at its end, and the input given ends so. No call failed.
/// - `Endless` for reads: there were 16,000,000 reads, and at least as many bytes are given. Output is the text of all
///   items that are whole in them. No call failed.
/// - `Memory`: output is the text of some first items of what is given, and begins with the text of all items that are
///   whole in what is given without its last bytes, at most 4,096. No call failed.
/// - `Read`: output is the text of all items that are whole in what is given. Exactly one call failed, of the source.
/// - `Write { sent }`: output is the text of some first items of what is given; or the source is at its end, and output
///   is all that a run of the given input writes, last lines of a group included. The sink took exactly the first
///   `sent` bytes of it. Exactly one call failed, of the sink.
///
/// After a fault the sink wasn't flushed; or it was once, and the fault is `Write`, `sent` counts all of output, the sink
/// took it, the source is at its end, and output is all that a run of the given input writes.
///
/// Requires a job that groups no messages (`groupable`, [`Job::is_groupable`]), since nothing is promised of one that
/// does, and fewer than 2^63 reads and failed calls so far (`reads`, `read_failures`, `write_failures`).
///
/// # Errors
///
/// - [`RunFault::Refused`] if no item continues with a bit, [`RunFault::Truncated`] if the input ends inside an item;
/// - [`RunFault::BadHex`] if a line isn't pairs of hexadecimal digits or has more than 4,096 characters,
///   [`RunFault::BadJson`] if no item of the kind has the JSON of a line, or the line has more than 1,048,576 characters;
/// - [`RunFault::Read`] if a read failed, [`RunFault::Write`] if a write or the flush failed, or a write took nothing, with
///   how many bytes of the text the sink took;
/// - [`RunFault::Endless`] if the input isn't at its end after 16,000,000 reads, or continues after 1,000,000 items;
/// - [`RunFault::Memory`] if out of memory; when that happens isn't promised.
///
/// After a fault no last lines of a group are written, except perhaps before `Write`.
pub fn run<S: Source, W: Sink>(
    alloc: Global,
    job: Job,
    source: &mut S,
    sink: &mut W,
) -> Result<Tally, RunFault>
    requires groupable { IsGroupable job }
    requires reads { S.reads source.old < 2 ^ 63 }
    requires read_failures { S.failures source.old < 2 ^ 63 }
    requires write_failures { W.failures sink.old < 2 ^ 63 }
    ensures ok { IfOk result (λ tally. Piped (λ given output. Ends job given output tally) (S.remaining source.old) (S.remaining source.new) (W.contents sink.old) (W.contents sink.new)) }
    ensures at_end { OnOk result (IsAtEnd (S.remaining source.new) × (S.failures source.new ≡ S.failures source.old) × (W.failures sink.new ≡ W.failures sink.old)) }
    ensures engine { IfErr result (λ e. IsOfEngine e → Piped (λ given output. Stops job given output e ⊎ ((IsAtEnd (S.remaining source.new) × StopsAtEnd job given output e) ⊎ ((e ≡ RunFault.Endless) × (S.reads source.new ≡ S.reads source.old + 16000000) × (16000000 ≤ length given) × Outputs job given output))) (S.remaining source.old) (S.remaining source.new) (W.contents sink.old) (W.contents sink.new)) }
    ensures read { result ≡ Err RunFault.Read → Piped (Outputs job) (S.remaining source.old) (S.remaining source.new) (W.contents sink.old) (W.contents sink.new) }
    ensures write { (n : ℕ) → result ≡ Err (RunFault.Write n) → PipedFirst n (λ given output. Prints job given output ⊎ (IsAtEnd (S.remaining source.new) × EndsWhole job given output)) (S.remaining source.old) (S.remaining source.new) (W.contents sink.old) (W.contents sink.new) }
    ensures flushed { OnOk result (W.flushes sink.new ≡ (W.flushes sink.old + 1) % 2 ^ 64) }
    ensures unflushed { IfErr result (λ e. FlushedOnlyWhere (W.flushes sink.old) (W.flushes sink.new) (Piped (λ given output. (e ≡ RunFault.Write (length output)) × IsAtEnd (S.remaining source.new) × EndsWhole job given output) (S.remaining source.old) (S.remaining source.new) (W.contents sink.old) (W.contents sink.new))) }
    ensures reads { S.reads source.new ≤ S.reads source.old + 16000000 }
    ensures memory { IfErr result (λ e. e ≡ RunFault.Memory → Piped (StarvesIn job) (S.remaining source.old) (S.remaining source.new) (W.contents sink.old) (W.contents sink.new)) }
    ensures failures { IfErr result (λ e. FailedBy e (S.failures source.old) (S.failures source.new) (W.failures sink.old) (W.failures sink.new)) }
    ensures pieces { (given : List ℕ) × Consumes (S.remaining source.old) (S.remaining source.new) given × (length given + 4096 * S.reads source.old ≤ 4096 * S.reads source.new) }
{
    run_form(alloc, job, source, sink)
}

/// Does the job by the engine of the input's form.
fn run_form<S: Source, W: Sink>(
    alloc: Global,
    job: Job,
    source: &mut S,
    sink: &mut W,
) -> Result<Tally, RunFault>
    requires groupable { IsGroupable job }
    requires reads { S.reads source.old < 2 ^ 63 }
    requires read_failures { S.failures source.old < 2 ^ 63 }
    requires write_failures { W.failures sink.old < 2 ^ 63 }
    ensures { Ran (promises job) 16000000 (S.remaining source.old) (S.remaining source.new) (S.reads source.old) (S.reads source.new) (S.failures source.old) (S.failures source.new) (W.contents sink.old) (W.contents sink.new) (W.failures sink.old) (W.failures sink.new) (W.flushes sink.old) (W.flushes sink.new) result }
{
    match job.from {
        Form::Hex => run_lines(alloc, HexLines::new(alloc, job), source, sink),
        Form::Bin => {
            let mut engine = Bin::new(alloc, job);
            let ended = run_engine(&mut engine, MOST_READS, alloc, source, sink);
            drop(engine);
            ended
        }
        Form::Json => run_lines(alloc, JsonLines::new(alloc, job), source, sink),
    }
}

/// Runs a handler over the lines of the input.
fn run_lines<T: LineHandler + Drop, S: Source, W: Sink>(
    alloc: Global,
    handler: T,
    source: &mut S,
    sink: &mut W,
) -> Result<T::Tally, RunFault>
    requires took { T.took handler [] [] }
    requires reads { S.reads source.old < 2 ^ 63 }
    requires read_failures { S.failures source.old < 2 ^ 63 }
    requires write_failures { W.failures sink.old < 2 ^ 63 }
    ensures { Ran (T.promises (T.job handler)) 16000000 (S.remaining source.old) (S.remaining source.new) (S.reads source.old) (S.reads source.new) (S.failures source.old) (S.failures source.new) (W.contents sink.old) (W.contents sink.new) (W.failures sink.old) (W.failures sink.new) (W.flushes sink.old) (W.flushes sink.new) result }
{
    run_engine(
        &mut Lines::new(alloc, handler),
        MOST_READS,
        alloc,
        source,
        sink,
    )
}
