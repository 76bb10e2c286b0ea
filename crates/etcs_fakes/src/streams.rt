//! Readers and writers that fail where a test says.

use std::io::{self, ErrorKind, Read, Write};

/// How many bytes a reader may be asked for at once.
const MOST: usize = 4096;

/// Gives at most `step` bytes of `rest` at each read; after the last it fails with `fails`, or is at its end. A read of
/// more than 4,096 bytes fails.
#[derive(Drop)]
pub struct Broken<'a> {
    pub rest: &'a [u8],
    pub step: usize,
    pub fails: Option<ErrorKind>,
}

impl Read for Broken<'_> {
    fn read(&mut self, buf: &mut [u8]) -> io::Result<usize> {
        if buf.len() > MOST {
            return Err(ErrorKind::InvalidInput.into());
        }
        let count = self.step.min(self.rest.len()).min(buf.len());
        match self.fails {
            Some(kind) if count == 0 => return Err(kind.into()),
            _ => {}
        }
        buf[..count].copy_from_slice(&self.rest[..count]);
        self.rest = &self.rest[count..];
        Ok(count)
    }
}

/// Gives the same bytes `left` times, and then those of `then`.
#[derive(Drop)]
pub struct Repeated<'a> {
    pub bytes: &'a [u8],
    pub left: u64,
    pub then: Broken<'a>,
}

impl Read for Repeated<'_> {
    fn read(&mut self, buf: &mut [u8]) -> io::Result<usize> {
        if self.left == 0 {
            return self.then.read(buf);
        }
        self.left -= 1;
        let count = self.bytes.len().min(buf.len());
        buf[..count].copy_from_slice(&self.bytes[..count]);
        Ok(count)
    }
}

/// What a writer does when it has no room left.
#[derive(Clone, Copy)]
pub enum Full {
    Fails,
    IsInterrupted,
    TakesNothing,
}

/// Has room for this many bytes. It counts its flushes, which fail unless it `flushes`.
#[derive(Drop)]
pub struct Narrow<'a> {
    pub held: &'a mut Vec<u8>,
    pub room: usize,
    pub full: Full,
    pub flushes: bool,
    pub flushed: u64,
}

impl<'a> Narrow<'a> {
    /// A writer that holds what it takes.
    pub fn new(held: &'a mut Vec<u8>, room: usize, full: Full, flushes: bool) -> Narrow<'a> {
        Narrow {
            held,
            room,
            full,
            flushes,
            flushed: 0,
        }
    }
}

impl Write for Narrow<'_> {
    fn write(&mut self, buf: &[u8]) -> io::Result<usize> {
        let count = buf.len().min(self.room);
        if count == 0 && !buf.is_empty() {
            return match self.full {
                Full::Fails => Err(ErrorKind::StorageFull.into()),
                Full::IsInterrupted => Err(ErrorKind::Interrupted.into()),
                Full::TakesNothing => Ok(0),
            };
        }
        self.held.extend_from_slice(&buf[..count])?;
        self.room -= count;
        Ok(count)
    }

    fn flush(&mut self) -> io::Result<()> {
        self.flushed = self.flushed.saturating_add(1);
        if self.flushes {
            Ok(())
        } else {
            Err(ErrorKind::StorageFull.into())
        }
    }
}
