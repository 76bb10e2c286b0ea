//! Refuses each growth of each call in turn.
//!
//! Each line of standard input is `CALL WORDS`: the call is made with no memory, with 16 bytes, and so on, until it isn't
//! refused any more. Each time all is looked at that was lent and that comes back. A line `refused, then right` is written of
//! each call that is as it must be.
#![tactic(auto)]

mod bit_calls;
mod calls;
mod each;
mod entry_calls;
mod feeds;
mod packet_calls;
mod rooms;
mod runs;

use crate::calls::answer;
use etcs_vector_lines::Case;
use std::alloc::{AllocError, Global};
use std::io::{self, Read, Write};
use std::process::ExitCode;

fn main(rt: HostRuntime) -> ExitCode {
    match refuse_all(rt.alloc(), rt.stdin(), rt.stdout()) {
        Ok(()) => ExitCode::from(0),
        Err(_) => ExitCode::from(3),
    }
}

/// Answers each line.
fn refuse_all(
    alloc: Global,
    input: impl Read + Drop,
    mut output: impl Write + Drop,
) -> io::Result<()> {
    let text = io::read_to_string(alloc, input)?;
    for line in text.as_str().split('\n') {
        if !line.is_empty() && !line.starts_with('#') {
            output.write_all(answered(alloc, line)?.as_slice())?;
        }
    }
    output.flush()
}

/// The line that answers a line.
fn answered(alloc: Global, line: &str) -> Result<Vec<u8>, AllocError> {
    let mut case = Case::new(alloc, line);
    answer(&mut case);
    let mut text = case.into_answer()?;
    text.push(b'\n')?;
    Ok(text)
}
