//! Sources and sinks of bytes, with a count of reads, flushes and failures.

ghost use Rattle.std.specs.Prelude.{◌≡◌, ℕ, ◌+◌, ◌-◌, ◌%◌, ◌^◌, ◌<◌, List, Option, Some, codes};
ghost use Rattle.std.specs.Io.KnownBytes.{Keeps, ReadConsumes, WriteAppends};
ghost use Rattle.std.specs.Io.{ReadsAtMost, WritesAtMost};
ghost use Rattle.etcs_runs.specs.Ends.{failed_calls, failed_writes};

use std::error::Error;
use std::fmt;
use std::io::{Read, Write};

/// A call of a reader or a writer failed. It is printed as `a read or a write failed`.
#[derive(Clone, Copy, Debug, PartialEq, Eq)]
pub struct Failed;

impl fmt::Display for Failed {
    ghost output = { λ _. Some (codes "a read or a write failed") };

    fn fmt<W: fmt::Write>(&self, f: &mut fmt::Formatter<W>) -> fmt::Result {
        f.write_str("a read or a write failed")
    }
}

impl Error for Failed {}

/// Gives bytes, and counts its calls and its failures.
pub trait Source {
    ghost remaining: { Self → Option (List ℕ) };

    ghost reads: { Self → ℕ };

    ghost failures: { Self → ℕ };

    /// Reads some bytes, those that come next, to the front of the buffer and returns how many: 0 only at the end, or
    /// if the buffer is empty. The call is counted.
    ///
    /// Requires that fewer than 2^64 - 1 calls were counted, and fewer than 2^64 - 1 failures.
    ///
    /// # Errors
    ///
    /// `Failed` if the reader failed. One failure more is counted, and no byte is lost.
    fn read(&mut self, buffer: &mut [u8]) -> Result<usize, Failed>
        requires more_reads { reads self.old < 2 ^ 64 - 1 }
        requires more_failures { failures self.old < 2 ^ 64 - 1 }
        ensures bound { ReadsAtMost result buffer.new }
        ensures bytes { ReadConsumes (remaining self.old) (remaining self.new) result buffer.new }
        ensures counted { reads self.new ≡ reads self.old + 1 }
        ensures failed { failures self.new ≡ failures self.old + failed_calls result };

    /// Returns how often `read` was called.
    fn reads(&self) -> u64
        ensures { result ≡ reads self.now };

    /// Returns how often `read` failed.
    fn failures(&self) -> u64
        ensures { result ≡ failures self.now };
}

/// Takes bytes, and counts its failures and its flushes.
pub trait Sink {
    ghost contents: { Self → Option (List ℕ) };

    ghost failures: { Self → ℕ };

    /// How often `flush` was called. After 2^64 - 1 comes 0.
    ghost flushes: { Self → ℕ };

    /// Writes some bytes of the piece from its front on and returns how many. If it took none of a piece that has some, one
    /// failure more is counted. Nothing is flushed.
    ///
    /// Requires that fewer than 2^64 - 1 failures were counted.
    ///
    /// # Errors
    ///
    /// `Failed` if the writer failed. One failure more is counted, and no byte was written.
    fn write(&mut self, piece: &[u8]) -> Result<usize, Failed>
        requires { failures self.old < 2 ^ 64 - 1 }
        ensures bound { WritesAtMost result piece.now }
        ensures bytes { WriteAppends (contents self.old) (contents self.new) result piece.now }
        ensures failed { failures self.new ≡ failures self.old + failed_writes result piece.now }
        ensures unflushed { flushes self.new ≡ flushes self.old };

    /// Passes on what the writer may have kept back. The flush is counted, modulo 2^64, whether it fails or not. That it
    /// reaches the writer isn't proved, since std's writers count no flush.
    ///
    /// Requires that fewer than 2^64 - 1 failures were counted.
    ///
    /// # Errors
    ///
    /// `Failed` if the writer failed. One failure more is counted, and what was written before stays written.
    fn flush(&mut self) -> Result<(), Failed>
        requires { failures self.old < 2 ^ 64 - 1 }
        ensures bytes { Keeps (contents self.old) (contents self.new) }
        ensures failed { failures self.new ≡ failures self.old + failed_calls result }
        ensures flushed { flushes self.new ≡ (flushes self.old + 1) % 2 ^ 64 };

    /// Returns how often a call failed, or took no byte of a piece that has some.
    fn failures(&self) -> u64
        ensures { result ≡ failures self.now };
}

/// Counts a failed call, and returns `Failed`.
fn counted(failures: &mut u64) -> Failed
    requires { failures.old < 2 ^ 64 - 1 }
    ensures { failures.new ≡ failures.old + 1 }
{
    *failures += 1;
    Failed
}

/// A source over any reader. That a failure of it is one of the reader is only tested.
#[derive(Drop)]
pub struct Input<R> {
    reader: R,
    reads: u64,
    failures: u64,
}

impl<R: Read> Input<R> {
    /// Returns a source of the bytes that the reader has left, with no read and no failure so far.
    pub fn new(reader: R) -> Input<R>
        ensures bytes { ⟦<Input<R> as Source>⟧.remaining result ≡ R.remaining reader }
        ensures reads { ⟦<Input<R> as Source>⟧.reads result ≡ 0 }
        ensures failures { ⟦<Input<R> as Source>⟧.failures result ≡ 0 }
    {
        Input {
            reader,
            reads: 0,
            failures: 0,
        }
    }
}

impl<R: Read> Source for Input<R> {
    ghost remaining = { λ s. R.remaining s.reader };

    ghost reads = { λ s. s.reads };

    ghost failures = { λ s. s.failures };

    fn read(&mut self, buffer: &mut [u8]) -> Result<usize, Failed> {
        self.reads += 1;
        match self.reader.read(buffer) {
            Ok(count) => Ok(count),
            Err(_) => Err(counted(&mut self.failures)),
        }
    }

    fn reads(&self) -> u64 {
        self.reads
    }

    fn failures(&self) -> u64 {
        self.failures
    }
}

/// A sink over any writer. That a failure of it is one of the writer, and that it flushes the writer, is only tested.
#[derive(Drop)]
pub struct Output<W> {
    writer: W,
    failures: u64,
    flushes: u64,
}

impl<W: Write> Output<W> {
    /// Returns a sink over the writer, whose bytes are those of the writer, with no failure and no flush so far.
    pub fn new(writer: W) -> Output<W>
        ensures bytes { ⟦<Output<W> as Sink>⟧.contents result ≡ W.contents writer }
        ensures failures { ⟦<Output<W> as Sink>⟧.failures result ≡ 0 }
        ensures flushes { ⟦<Output<W> as Sink>⟧.flushes result ≡ 0 }
    {
        Output {
            writer,
            failures: 0,
            flushes: 0,
        }
    }
}

impl<W: Write> Sink for Output<W> {
    ghost contents = { λ s. W.contents s.writer };

    ghost failures = { λ s. s.failures };

    ghost flushes = { λ s. s.flushes };

    fn write(&mut self, piece: &[u8]) -> Result<usize, Failed> {
        match self.writer.write(piece) {
            Ok(count) => {
                if count == 0 && !piece.is_empty() {
                    self.failures += 1;
                }
                Ok(count)
            }
            Err(_) => Err(counted(&mut self.failures)),
        }
    }

    fn flush(&mut self) -> Result<(), Failed> {
        self.flushes = self.flushes.wrapping_add(1);
        match self.writer.flush() {
            Ok(()) => Ok(()),
            Err(_) => Err(counted(&mut self.failures)),
        }
    }

    fn failures(&self) -> u64 {
        self.failures
    }
}
