//! The program `etcs`, over the process' own words, files and streams.
#![tactic(auto)]

use etcs_cli::{Files, run_with_files};
use std::fs::File;
use std::io::{ErrorKind, Write};
use std::process::ExitCode;
use std::{env, io};

/// The files of the machine.
#[derive(Drop)]
struct Machine<'a> {
    rt: &'a HostRuntime,
}

impl Files for Machine<'_> {
    type File = File;

    fn open(&self, name: &str) -> io::Result<File> {
        File::open(self.rt, name)
    }
}

fn main(rt: HostRuntime) -> ExitCode {
    let mut faults = rt.stderr();
    let files = Machine { rt: &rt };
    let status = match words(&rt) {
        Ok(words) => {
            let (input, output) = (rt.stdin(), rt.stdout());
            run_with_files(rt.alloc(), words, &files, input, output, &mut faults)
        }
        Err(error) => refused_words(error.kind(), &mut faults),
    };
    ExitCode::from(status)
}

/// The words of the command line, the program's name first.
fn words(rt: &HostRuntime) -> io::Result<Vec<String>> {
    let words = env::args(rt)?.collect::<Vec<String>>(rt.alloc())?;
    Ok(words)
}

/// Says why there are no words, and returns the status.
fn refused_words(kind: ErrorKind, faults: &mut impl Write) -> u8 {
    if kind == ErrorKind::OutOfMemory {
        let _ = faults.write_all(b"etcs: out of memory\n");
        return 3;
    }
    let _ = faults.write_all(b"etcs: a word of the command line is not UTF-8\n");
    2
}
