//! Texts to a sink.

ghost use Rattle.std.specs.Prelude.{◌≡◌, ◌+◌, ◌^◌, ◌<◌, ◌≤◌, ℕ, length, take, OnErr, OnOk};
ghost use Rattle.std.specs.Io.KnownBytes.{Appends};

use crate::ends::{Failed, Sink};

/// Writes all of the text, and adds to `sent` how many bytes the sink took. If it succeeds, the sink took all of the text,
/// and no call failed. Nothing is flushed in any case.
///
/// Requires that fewer than 2^63 calls of the sink failed so far (`failures`), and that `sent` and the length of
/// the text make fewer than 2^64 (`room`).
///
/// # Errors
///
/// `Failed` if a write fails or takes nothing: one call failed then, and the sink took the front of the text, as many bytes
/// as were added to `sent`.
pub fn send<W: Sink>(sink: &mut W, text: &[u8], sent: &mut u64) -> Result<(), Failed>
    requires failures { W.failures sink.old < 2 ^ 63 }
    requires room { sent.old + length text.now < 2 ^ 64 }
    ensures ok { OnOk result (Appends (W.contents sink.old) (W.contents sink.new) text.now × (sent.new ≡ sent.old + length text.now)) }
    ensures none { OnOk result (W.failures sink.new ≡ W.failures sink.old) }
    ensures one { OnErr result (W.failures sink.new ≡ W.failures sink.old + 1) }
    ensures part { OnErr result ((n : ℕ) × (n ≤ length text.now) × (sent.new ≡ sent.old + n) × Appends (W.contents sink.old) (W.contents sink.new) (take n text.now)) }
    ensures unflushed { W.flushes sink.new ≡ W.flushes sink.old }
{
    let mut at = 0;
    while at < text.len() {
        let count = sink.write(&text[at..])?;
        if count == 0 {
            return Err(Failed);
        }
        at += count;
        *sent += count as u64;
    }
    Ok(())
}
