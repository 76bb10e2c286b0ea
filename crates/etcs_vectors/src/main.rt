//! Checks vectors: lines of standard input, each a call and its expected result.
//!
//! A line is `KIND WORDS = EXPECTED`, with one blank between words. A line after it that begins with a blank is one more line
//! of the expected answer. Lines that begin with `#` and empty lines are ignored. Each vector that isn't answered as expected
//! is written with its answer, and at the end how many there were of each kind.
#![tactic(auto)]

use etcs_cli::{Files, run_with_files};
use etcs_fakes::{Broken, Narrow};
use etcs_vector_items::{Ended, Pieces, Program, Room, answer};
use etcs_vector_lines::{Case, Kinds, Sheet};
use std::alloc::Global;
use std::io::{self, ErrorKind, Read, Write};
use std::process::ExitCode;

fn main(rt: HostRuntime) -> ExitCode {
    match check(rt.alloc(), rt.stdin(), rt.stdout()) {
        Ok(true) => ExitCode::from(0),
        Ok(false) => ExitCode::from(1),
        Err(_) => ExitCode::from(3),
    }
}

/// The file that command lines may name, and what it has: a telegram, without a LF.
const NAME: &str = "telegram.hex";

const TELEGRAM: &[u8] = b"A113140C40FFC14027A12723184008C07FFFFFFFFFFFFFFFFFFFC0";

/// A folder with this file alone.
struct Folder;

impl Files for Folder {
    type File = Broken<'static>;

    fn open(&self, name: &str) -> io::Result<Broken<'static>> {
        if name != NAME {
            return Err(ErrorKind::NotFound.into());
        }
        Ok(Broken {
            rest: TELEGRAM,
            step: 10,
            fails: None,
        })
    }
}

/// The program that the vectors ask.
struct Etcs;

impl Program for Etcs {
    fn run(alloc: Global, words: Vec<String>, input: Pieces<'_>, room: Room) -> Ended {
        let mut held = Vec::new(alloc);
        let mut kept = Vec::new(alloc);
        let mut output = Narrow::new(&mut held, room.output, room.full, room.flushes);
        let mut faults = Narrow::new(&mut kept, room.faults, room.full, true);
        let status = run_with_files(alloc, words, &Folder, input, &mut output, &mut faults);
        let is_flushed = output.flushed > 0;
        Ended {
            status,
            output: held,
            is_flushed,
            faults: kept,
        }
    }
}

impl Kinds for Etcs {
    fn answer(case: &mut Case, kind: &str) -> bool {
        answer::<Etcs>(case, kind)
    }
}

/// Checks the vectors of the input and writes the report: whether all are answered as expected.
fn check(
    alloc: Global,
    input: impl Read + Drop,
    mut output: impl Write + Drop,
) -> io::Result<bool> {
    let text = io::read_to_string(alloc, input)?;
    let (report, is_right) = Sheet::check::<Etcs>(alloc, text.as_str())?;
    output.write_all(report.as_slice())?;
    output.flush()?;
    Ok(is_right)
}
