//! Bits that are kept, sent as variables.

ghost use Rattle.std.specs.Prelude.{◌≡◌, ◌≤◌, OnOk, OnErr, IfOk, take};
ghost use Rattle.etcs_bits.specs.Bits.{num};
ghost use Rattle.etcs_vars.specs.Reading.{kept};

use crate::sink::VarSink;
use crate::var::Var;
use etcs_bits::BitSlice;
use std::alloc::AllocError;

/// The bits of a byte, each as the variable.
#[inline(always)]
fn of_byte(var: Var, byte: u64) -> [(Var, u64); 8]
    ensures { result ≡ kept var (num 8 byte) }
{
    [
        (var, (byte >> 7) % 2),
        (var, (byte >> 6) % 2),
        (var, (byte >> 5) % 2),
        (var, (byte >> 4) % 2),
        (var, (byte >> 3) % 2),
        (var, (byte >> 2) % 2),
        (var, (byte >> 1) % 2),
        (var, byte % 2),
    ]
}

/// Sends the first `count` bits of a word, highest first, eight at a time as long as there are as many, and returns how
/// many it sent.
///
/// # Errors
///
/// That of the sink.
#[inline]
fn send_bytes<S: VarSink>(
    var: Var,
    word: u64,
    count: usize,
    out: &mut S,
) -> Result<usize, AllocError>
    requires { count ≤ 64 }
    ensures ok { IfOk result (λ n. (n ≤ count) × (out.new ≡ S.with out.old (kept var (take n (num 64 word))))) }
    ensures err { OnErr result (S.failed out.old out.new) }
{
    let mut place = 0;
    while count - place >= 8 {
        out.send(&of_byte(var, (word << place) >> 56))?;
        place += 8;
    }
    Ok(place)
}

/// Sends the first `count` bits of a word, highest first.
///
/// # Errors
///
/// That of the sink.
#[inline]
fn send_word<S: VarSink>(var: Var, word: u64, count: usize, out: &mut S) -> Result<(), AllocError>
    requires { count ≤ 64 }
    ensures ok { OnOk result (out.new ≡ S.with out.old (kept var (take count (num 64 word)))) }
    ensures err { OnErr result (S.failed out.old out.new) }
{
    let sent = send_bytes(var, word, count, out)?;
    for place in sent..count {
        out.send(&[(var, (word << place) >> 63)])?;
    }
    Ok(())
}

/// Sends bits that are kept, in order, each as the variable with the number 0 or 1: if it succeeds, the sink holds what
/// its `with` gives for these.
///
/// # Errors
///
/// That of the sink, whose `failed` then holds.
pub fn send_bits<S: VarSink>(var: Var, bits: &BitSlice<'_>, out: &mut S) -> Result<(), AllocError>
    ensures ok { OnOk result (out.new ≡ S.with out.old (kept var bits.now)) }
    ensures err { OnErr result (S.failed out.old out.new) }
{
    let mut from = 0;
    while from < bits.len() {
        let count = (bits.len() - from).min(64);
        send_word(var, bits.word(from), count, out)?;
        from += count;
    }
    Ok(())
}
