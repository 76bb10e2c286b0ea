//! The files that a command line names, read one after another.

ghost use Rattle.std.specs.Io.{ReadsAtMost};

use crate::front::Front;
use std::io::{self, Empty, ErrorKind, Read};

/// Opens files by their names.
pub trait Files {
    /// A file that is open.
    type File: Read + Drop;

    /// Opens the file of this name, to be read.
    ///
    /// # Errors
    ///
    /// If it can't be opened.
    fn open(&self, name: &str) -> io::Result<Self::File>;
}

/// Opens none.
pub(crate) struct NoFiles;

impl Files for NoFiles {
    type File = Empty;

    fn open(&self, _name: &str) -> io::Result<Empty> {
        Err(ErrorKind::Unsupported.into())
    }
}

/// What names standard input.
const STANDARD: &str = "-";

/// What is read now.
#[derive(Drop)]
enum Current<T> {
    /// Nothing: what comes next isn't open yet.
    Nothing,
    /// Standard input.
    Standard,
    /// A file.
    File(T),
}

/// The inputs of a command line, one after another: the files with these names, or standard input if there are none. In an
/// input of lines each file ends with a line.
#[derive(Drop)]
pub(crate) struct Inputs<'a, F: Files, R> {
    files: &'a F,
    standard: R,
    names: &'a [&'a str],
    /// How many of the names were opened.
    opened: usize,
    is_lines: bool,
    current: Current<F::File>,
    /// The last byte that was read.
    last: u8,
    pub(crate) front: Front,
    /// Why the file that was opened last can't be opened or read.
    fault: Option<ErrorKind>,
}

impl<'a, F: Files, R: Read> Inputs<'a, F, R> {
    /// Nothing was read yet.
    pub(crate) fn new(
        files: &'a F,
        standard: R,
        names: &'a [&'a str],
        is_lines: bool,
    ) -> Inputs<'a, F, R> {
        let current = if names.is_empty() {
            Current::Standard
        } else {
            Current::Nothing
        };
        Inputs {
            files,
            standard,
            names,
            opened: 0,
            is_lines,
            current,
            last: b'\n',
            front: Front::new(),
            fault: None,
        }
    }

    /// The name of the file that can't be opened or read, and why.
    pub(crate) fn fault(&self) -> Option<(&'a str, ErrorKind)> {
        let kind = self.fault?;
        let name = self.names.get(self.opened.checked_sub(1)?)?;
        Some((*name, kind))
    }

    /// Notes that the file that was opened last can't be opened or read.
    fn failed(&mut self, error: io::Error) -> io::Error {
        self.fault = Some(error.kind());
        error
    }

    /// Opens what the next name is of, and returns whether there is one.
    fn open_next(&mut self) -> io::Result<bool> {
        let Some(name) = self.names.get(self.opened) else {
            return Ok(false);
        };
        self.opened += 1;
        if *name == STANDARD {
            self.current = Current::Standard;
            return Ok(true);
        }
        match self.files.open(name) {
            Ok(file) => {
                self.current = Current::File(file);
                Ok(true)
            }
            Err(error) => Err(self.failed(error)),
        }
    }

    /// Reads what is open. At its end, and if nothing is open, it gives nothing.
    fn read_current(&mut self, buffer: &mut [u8]) -> io::Result<usize>
        ensures { ReadsAtMost result buffer.new }
    {
        let read = match &mut self.current {
            Current::Nothing => return Ok(0),
            Current::Standard => return self.standard.read(buffer),
            Current::File(file) => file.read(buffer),
        };
        match read {
            Ok(count) => Ok(count),
            Err(error) => Err(self.failed(error)),
        }
    }

    /// Whether what is open ends inside a line, and more is to be opened.
    fn needs_end(&self) -> bool {
        self.is_lines && self.last != b'\n' && self.opened < self.names.len()
    }

    /// Keeps what is looked at of bytes that were read.
    fn note(&mut self, bytes: &[u8]) {
        self.front.take(bytes);
        if let Some(last) = bytes.last() {
            self.last = *last;
        }
    }
}

impl<F: Files, R: Read> Read for Inputs<'_, F, R> {
    fn read(&mut self, buffer: &mut [u8]) -> io::Result<usize> {
        for _ in 0..=self.names.len() {
            let count = self.read_current(buffer)?;
            if count > 0 || buffer.is_empty() {
                self.note(&buffer[..count]);
                return Ok(count);
            }
            self.current = Current::Nothing;
            if self.needs_end() {
                self.last = b'\n';
                buffer[0] = b'\n';
                return Ok(1);
            }
            if !self.open_next()? {
                return Ok(0);
            }
        }
        Ok(0)
    }
}
