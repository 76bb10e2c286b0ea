//! Passes the bytes of a source through an engine to a sink.

ghost use Rattle.std.specs.Prelude.{◌≡◌, ◌+◌, ◌-◌, ◌%◌, ◌^◌, ◌<◌, ◌≤◌, ℕ, List, [], length, IfErr, OnErr, OnOk};
ghost use Rattle.std.specs.Io.{ReadsAtMost};
ghost use Rattle.std.specs.Io.KnownBytes.{Appends, ReadConsumes};
ghost use Rattle.etcs_runs.specs.Ends.{failed_calls};
ghost use Rattle.etcs_runs.specs.declared.fault.RunFault.{RunFault};
ghost use Rattle.etcs_runs.specs.Faults.{IsOfEngine};
ghost use Rattle.etcs_runs.specs.Pipes.{Piped};
ghost use Rattle.etcs_runs.specs.Passes.{Closes, ClosesNot, FlushesLast, HasRoom, Passes, PassesNot, Starves, TookFirst, counted};
ghost use Rattle.etcs_runs.specs.Runs.{RanOver};

use crate::ends::{Failed, Sink, Source};
use crate::engine::{Engine, MOST_READ};
use crate::fault::RunFault;
use crate::send::send;
use etcs_packet_text::inner::Page;
use std::alloc::Global;

/// Writes all of the text, and adds to `sent` how many bytes were taken, up to 2^64 - 1.
///
/// # Errors
///
/// `Write` if a write fails or takes nothing, with what `sent` is then.
fn write_all<W: Sink>(sink: &mut W, text: &[u8], sent: &mut u64) -> Result<(), RunFault>
    requires failures { W.failures sink.old < 2 ^ 63 }
    requires room { length text.now < 2 ^ 64 }
    ensures ok { OnOk result (Appends (W.contents sink.old) (W.contents sink.new) text.now) }
    ensures none { OnOk result (W.failures sink.new ≡ W.failures sink.old) }
    ensures sent { (n : ℕ) → sent.old ≡ counted n → OnOk result (sent.new ≡ counted (n + length text.now)) }
    ensures broke { IfErr result (λ e. (k : ℕ) × (e ≡ RunFault.Write k)) }
    ensures one { OnErr result (W.failures sink.new ≡ W.failures sink.old + 1) }
    ensures part { (n : ℕ) → sent.old ≡ counted n → IfErr result (TookFirst W.Sink sink.old sink.new n text.now) }
    ensures unflushed { W.flushes sink.new ≡ W.flushes sink.old }
{
    let mut count = 0;
    let written = send(sink, text, &mut count);
    *sent = sent.saturating_add(count);
    match written {
        Ok(()) => Ok(()),
        Err(Failed) => Err(RunFault::Write { sent: *sent }),
    }
}

/// Passes a piece of the input through to the sink. What was reported before a fault is written first.
fn pass<E: Engine, W: Sink>(
    engine: &mut E,
    piece: &[u8],
    page: &mut Page,
    sink: &mut W,
    sent: &mut u64,
) -> Result<(), RunFault>
    requires stands { HasRoom E.Engine engine.old (length piece.now) }
    requires failures { W.failures sink.old < 2 ^ 63 }
    ensures job { E.job engine.new ≡ E.job engine.old }
    ensures ok { Passes E.Engine engine.old W.Sink sink.old sink.new page.new sent.old engine.new piece.now sent.new result }
    ensures err { PassesNot E.Engine engine.old W.Sink sink.old sink.new page.new sent.old piece.now result }
    ensures said { Starves E.Engine engine.old engine.new page.new result }
    ensures uncounted { IfErr result (λ e. IsOfEngine e → W.failures sink.new ≡ W.failures sink.old) }
    ensures unflushed { W.flushes sink.new ≡ W.flushes sink.old }
{
    page.cut(0);
    let fed = engine.feed(piece, page);
    write_all(sink, page.as_slice(), sent)?;
    fed
}

/// The input is at its end: passes on what is left, and flushes the sink.
fn close<E: Engine, W: Sink>(
    engine: &mut E,
    page: &mut Page,
    sink: &mut W,
    sent: &mut u64,
) -> Result<E::Tally, RunFault>
    requires stands { (given : List ℕ) × (output : List ℕ) × E.stands engine.old given output × (length given < 2 ^ 62) }
    requires failures { W.failures sink.old < 2 ^ 63 }
    ensures ok { Closes E.Engine engine.old W.Sink sink.old sink.new page.new sent.old result }
    ensures err { ClosesNot E.Engine engine.old W.Sink sink.old sink.new page.new sent.old result }
    ensures said { Starves E.Engine engine.old engine.new page.new result }
    ensures uncounted { IfErr result (λ e. IsOfEngine e → W.failures sink.new ≡ W.failures sink.old) }
    ensures flushed { OnOk result (W.flushes sink.new ≡ (W.flushes sink.old + 1) % 2 ^ 64) }
    ensures unflushed { FlushesLast E.Engine engine.old W.Sink sink.old sink.new page.new sent.old result }
{
    page.cut(0);
    let finished = engine.finish(page);
    write_all(sink, page.as_slice(), sent)?;
    let tally = finished?;
    match sink.flush() {
        Ok(()) => Ok(tally),
        Err(Failed) => Err(RunFault::Write { sent: *sent }),
    }
}

/// Reads as many bytes as the engine wants to the front of the buffer.
#[inline(always)]
fn read_wanted<E: Engine, S: Source>(
    engine: &E,
    source: &mut S,
    buffer: &mut [u8],
) -> Result<usize, Failed>
    requires room { length buffer.old ≡ 4096 }
    requires more_reads { S.reads source.old < 2 ^ 64 - 1 }
    requires more_failures { S.failures source.old < 2 ^ 64 - 1 }
    ensures bound { ReadsAtMost result buffer.new }
    ensures bytes { ReadConsumes (S.remaining source.old) (S.remaining source.new) result buffer.new }
    ensures counted { S.reads source.new ≡ S.reads source.old + 1 }
    ensures failed { S.failures source.new ≡ S.failures source.old + failed_calls result }
{
    let wanted = engine.wanted();
    source.read(&mut buffer[..wanted])
}

/// Runs an engine over the whole input: feeds it what the source gives, piece by piece, and writes its text to the sink. It
/// reads at most `most_reads` times, and each read gives at most 4,096 bytes.
///
/// In each case, *given* are all the bytes that the source gave, and *output* is a text which the sink took, all of it
/// unless the result is `Write`. What the engine promises (`Promises`) then holds:
///
/// - `Ok`: given is a whole input with this output and this result (`Ends`). The source is at its end, no call of source or
///   sink failed, and the sink was flushed exactly once, as counted modulo 2^64.
/// - A fault of the engine, as every fault but `Read` and `Write` is: each input that begins with given ends with this
///   fault, after this output (`Stops`); or the source is at its end, and the input given ends with it (`StopsAtEnd`);
///   or it is `Endless` after `most_reads` reads. No call failed.
/// - `Endless` after `most_reads` reads: that many bytes are given, or more, and output is the text of all that is whole in
///   them (`Outputs`).
/// - `Memory`: output is the text of some first items of what is given (`Prints`), and begins with the text of all that is
///   whole in it without its last bytes, at most 4,096 (`StarvesIn`). The engine's `said` holds of output.
/// - `Read`: output is the text of all that is whole in what is given (`Outputs`). Exactly one call failed, of the source.
/// - `Write { sent }`: output is the text of some first items of what is given (`Prints`), or the source is at its end and
///   output is all the text of the whole input given. The sink took exactly its first `sent` bytes, where `sent` is at most
///   2^64 - 1, also if the sink took more. Exactly one call failed, of the sink.
///
/// After a fault the sink wasn't flushed; or it was once, and the fault is `Write`, `sent` counts all of output, the sink
/// took it, the source is at its end, and output is all the text of the whole input given.
///
/// Requires an engine that was fed nothing (`fresh`), at most 2^49 reads (`few`), and fewer than 2^63 reads and
/// failed calls so far (`reads`, `read_failures`, `write_failures`).
///
/// # Errors
///
/// The faults above. When memory is refused isn't promised.
#[inline(never)]
pub fn run_engine<E: Engine, S: Source, W: Sink>(
    engine: &mut E,
    most_reads: u64,
    alloc: Global,
    source: &mut S,
    sink: &mut W,
) -> Result<E::Tally, RunFault>
    requires fresh { E.stands engine.old [] [] }
    requires few { most_reads ≤ 2 ^ 49 }
    requires reads { S.reads source.old < 2 ^ 63 }
    requires read_failures { S.failures source.old < 2 ^ 63 }
    requires write_failures { W.failures sink.old < 2 ^ 63 }
    ensures ran { RanOver S.Source W.Sink (E.promises (E.job engine.old)) most_reads source.old source.new sink.old sink.new result }
    ensures said { IfErr result (λ e. e ≡ RunFault.Memory → Piped (λ given output. E.said engine.new output) (S.remaining source.old) (S.remaining source.new) (W.contents sink.old) (W.contents sink.new)) }
{
    let mut page = Page::after(Vec::new(alloc));
    let mut buffer = [0u8; MOST_READ];
    let mut sent = 0u64;
    for _ in 0..most_reads {
        let count = match read_wanted(engine, source, &mut buffer) {
            Ok(count) => count,
            Err(Failed) => return Err(RunFault::Read),
        };
        if count == 0 {
            return close(engine, &mut page, sink, &mut sent);
        }
        pass(engine, &buffer[..count], &mut page, sink, &mut sent)?;
    }
    Err(RunFault::Endless)
}
