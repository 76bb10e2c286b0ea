//! A program, and what a call of it does over streams that may fail.

use etcs_fakes::{Broken, Full, Repeated};
use etcs_vector_lines::Case;
use std::alloc::Global;
use std::io::{self, ErrorKind, Read};

/// How many bytes a read gives where it gives all that it is asked for.
const ALL: usize = 4096;

/// A program that lines run.
pub trait Program {
    /// Runs it over words, the first of which is its name, and an input, with room for output and faults.
    fn run(alloc: Global, words: Vec<String>, input: Pieces<'_>, room: Room) -> Ended;
}

/// For how many bytes there is room in the output and in the faults, what a write does where there is none, and whether the
/// output can be flushed.
#[derive(Clone, Copy)]
pub struct Room {
    pub output: usize,
    pub faults: usize,
    pub full: Full,
    pub flushes: bool,
}

impl Room {
    /// Room for all.
    pub(crate) const ENOUGH: Room = Room {
        output: usize::MAX,
        faults: usize::MAX,
        full: Full::Fails,
        flushes: true,
    };
}

/// How a program ended: its status, what it wrote, whether that was flushed, and its faults.
#[derive(Drop)]
pub struct Ended {
    pub status: u8,
    pub output: Vec<u8>,
    pub is_flushed: bool,
    pub faults: Vec<u8>,
}

/// A reader that gives this many bytes a read, and how often it was asked.
#[derive(Drop)]
pub struct Pieces<'a> {
    inner: Repeated<'a>,
    reads: &'a mut u64,
}

impl Read for Pieces<'_> {
    fn read(&mut self, buffer: &mut [u8]) -> io::Result<usize> {
        *self.reads = self.reads.saturating_add(1);
        self.inner.read(buffer)
    }
}

/// The words of a command line, which are between single blanks.
fn line_words(case: &mut Case, line: &str) -> Vec<String> {
    let mut words = Vec::new(case.alloc());
    if !line.is_empty() {
        for word in line.split(' ') {
            if let Some(word) = case.got(word.to_string(case.alloc())) {
                case.kept(words.push(word).is_ok());
            }
        }
    }
    words
}

/// A command line; the LFs before its input, each of which is a read; the input, and how many bytes a read gives; how
/// that fails after its last byte; and the room for what is written.
#[derive(Clone, Copy)]
pub(crate) struct Asked<'a> {
    pub(crate) line: &'a str,
    pub(crate) lines: u64,
    pub(crate) input: &'a [u8],
    pub(crate) step: usize,
    pub(crate) fails: Option<ErrorKind>,
    pub(crate) room: Room,
}

impl<'a> Asked<'a> {
    /// A command line over bytes, with streams that don't fail.
    pub(crate) fn new(line: &'a str, input: &'a [u8]) -> Asked<'a> {
        Asked {
            line,
            lines: 0,
            input,
            step: ALL,
            fails: None,
            room: Room::ENOUGH,
        }
    }

    /// The same with n bytes a read.
    pub(crate) fn by(self, step: usize) -> Asked<'a> {
        Asked { step, ..self }
    }

    /// The same over an input that fails after these bytes.
    pub(crate) fn failing(self, input: &'a [u8], kind: ErrorKind) -> Asked<'a> {
        Asked {
            input,
            fails: Some(kind),
            ..self
        }
    }

    /// The same with this room for what is written.
    pub(crate) fn within(self, room: Room) -> Asked<'a> {
        Asked { room, ..self }
    }
}

/// How a command line ends.
pub(crate) fn call<P: Program>(case: &mut Case, asked: Asked<'_>) -> Ended {
    counted_call::<P>(case, asked).0
}

/// How a command line ends, and how often it reads.
pub(crate) fn counted_call<P: Program>(case: &mut Case, asked: Asked<'_>) -> (Ended, u64) {
    let words = line_words(case, asked.line);
    let mut reads = 0;
    let then = Broken {
        rest: asked.input,
        step: asked.step,
        fails: asked.fails,
    };
    let inner = Repeated {
        bytes: b"\n",
        left: asked.lines,
        then,
    };
    let reader = Pieces {
        inner,
        reads: &mut reads,
    };
    let ended = P::run(case.alloc(), words, reader, asked.room);
    (ended, reads)
}
