//! The whole program except that its words, files and streams are handed to it.

ghost use Rattle.std.specs.Prelude.{◌≡◌};
ghost use Rattle.etcs_stream.specs.Printers.{IsGroupable};
ghost use Rattle.etcs_cli.specs.Statuses.{fault_status, log_status, tally_status};

use crate::asked::{Parsed, parse};
use crate::blanks::write_blank;
use crate::files::{Files, Inputs, NoFiles};
use crate::front::Front;
use crate::texts::{Text, write_text};
use etcs_explain::{Task, explain};
use etcs_log::{LogJob, LogTally, run_log};
use etcs_stream::{Form, Input, Job, Output, RunFault, Sink, Tally, run, write_fault};
use std::alloc::Global;
use std::io::{ErrorKind, Read, Write};

/// The run accepted all of its input, or help or the version was asked for.
const ACCEPTED: u8 = 0;
/// The input was refused.
pub(crate) const REFUSED: u8 = 1;
/// The command line was refused.
const WRONG_WORDS: u8 = 2;
/// A stream failed, memory ran out, or there was more input than the limit.
const BROKEN: u8 = 3;

/// The whole program, except that `main` hands it the words and the streams. Returns the exit status. No clause says which
/// it is, nor what is written.
///
/// The first of the words is the program's name. The status is
///
/// - 0 if the run accepted all of its input, or help or the version was asked for;
/// - 1 if some of the input was refused, or `group` found a clash or a group that isn't complete;
/// - 2 if the command line was refused;
/// - 3 if a stream failed, memory ran out, or there was more input than the limit.
///
/// Text, help and the version go to `output`, and faults to `faults`. A failed write to `faults`, or of help or the version,
/// doesn't change the status. A file that the words name can't be opened: [`run_with_files`] opens them.
pub fn run_words(
    alloc: Global,
    words: Vec<String>,
    input: impl Read + Drop,
    output: impl Write + Drop,
    faults: &mut impl Write,
) -> u8 {
    run_with_files(alloc, words, &NoFiles, input, output, faults)
}

/// The same over files, too: `log` and `explain` read those that the words name, one after another. The status is also 3 if a
/// file can't be opened.
pub fn run_with_files(
    alloc: Global,
    words: Vec<String>,
    files: &impl Files,
    input: impl Read + Drop,
    mut output: impl Write + Drop,
    faults: &mut impl Write,
) -> u8 {
    // None of these is inlined: only one of them is on the stack.
    match parse(alloc, words.as_slice()) {
        Parsed::Job(job) => run_job(alloc, job, input, output, faults),
        Parsed::Log(job, names) => {
            let mut inputs = Inputs::new(files, input, names.as_slice(), true);
            read_log(alloc, job, &mut inputs, output, faults)
        }
        Parsed::Explain(task, names) => {
            let is_lines = task.from != Form::Bin;
            let mut inputs = Inputs::new(files, input, names.as_slice(), is_lines);
            explain_items(alloc, task, &mut inputs, output, faults)
        }
        Parsed::Blank(kind, numbers) => {
            write_blank(alloc, kind, numbers.as_slice(), output, faults)
        }
        Parsed::Text(text) => print_text(text, &mut output, faults),
        Parsed::Help(text) => {
            let _ = output.write_all(text.as_bytes());
            let _ = output.flush();
            ACCEPTED
        }
        Parsed::Wrong(text) => {
            let _ = faults.write_all(text.as_bytes());
            WRONG_WORDS
        }
        Parsed::Memory => answer_fault(&RunFault::Memory, faults),
    }
}

/// Writes a text, and returns the status.
#[inline(never)]
fn print_text(text: Text, output: &mut impl Write, faults: &mut impl Write) -> u8 {
    let written = write_text(text, output).is_ok();
    if written && output.flush().is_ok() {
        return ACCEPTED;
    }
    let _ = faults.write_all(b"etcs: write fault\n");
    BROKEN
}

/// Runs a job from the reader to the writer, and returns the status. After a fault, what was written is passed on.
#[inline(never)]
pub(crate) fn run_job(
    alloc: Global,
    job: Job,
    input: impl Read + Drop,
    output: impl Write + Drop,
    faults: &mut impl Write,
) -> u8
    requires { IsGroupable job }
{
    let mut sink = Output::new(output);
    match run(alloc, job, &mut Input::new(input), &mut sink) {
        Ok(tally) => tally_status(&tally),
        Err(fault) => {
            let _ = sink.flush();
            answer_fault(&fault, faults)
        }
    }
}

/// Reads a log from the inputs to the writer, and returns the status. If good lines are asked for, what is reported of other
/// lines goes to `faults`. After a fault, what was written is passed on.
#[inline(never)]
fn read_log<F: Files, R: Read>(
    alloc: Global,
    job: LogJob,
    inputs: &mut Inputs<'_, F, R>,
    output: impl Write + Drop,
    faults: &mut impl Write,
) -> u8 {
    let mut sink = Output::new(output);
    let mut notes = Output::new(&mut *faults);
    let ended = run_log(
        alloc,
        job,
        &mut Input::new(&mut *inputs),
        &mut sink,
        &mut notes,
    );
    match ended {
        Ok(tally) => {
            if tally.items == 0 {
                write_hint(&inputs.front, true, faults);
            }
            log_status(&tally)
        }
        Err(fault) => {
            let _ = sink.flush();
            answer_read(&fault, inputs.fault(), faults)
        }
    }
}

/// Explains the items of the inputs to the writer, and returns the status.
#[inline(never)]
fn explain_items<F: Files, R: Read>(
    alloc: Global,
    task: Task,
    inputs: &mut Inputs<'_, F, R>,
    output: impl Write + Drop,
    faults: &mut impl Write,
) -> u8 {
    let mut sink = Output::new(output);
    match explain(alloc, task, &mut Input::new(&mut *inputs), &mut sink) {
        Ok(()) => ACCEPTED,
        Err(fault) => {
            let status = answer_read(&fault, inputs.fault(), faults);
            if let RunFault::BadHex { .. } = fault {
                write_hint(&inputs.front, false, faults);
            }
            status
        }
    }
}

/// Writes what an input of these first bytes looks like, if not like hexadecimal, as far as the writer takes it.
fn write_hint(front: &Front, is_log: bool, faults: &mut impl Write) {
    if let Some(looks) = front.looks() {
        let _ = write!(faults, "etcs: this looks like {}\n", looks.hint(is_log));
    }
}

/// Writes the line of a fault, or of the file that can't be read, as far as the writer takes it, and returns the status.
fn answer_read(fault: &RunFault, file: Option<(&str, ErrorKind)>, faults: &mut impl Write) -> u8 {
    let (RunFault::Read, Some((name, kind))) = (fault, file) else {
        return answer_fault(fault, faults);
    };
    let _ = match kind {
        ErrorKind::NotFound => write!(faults, "etcs: {name}: no such file\n"),
        kind => write!(faults, "etcs: {name}: {kind}\n"),
    };
    BROKEN
}

/// Writes the line of a fault, as far as the writer takes it, and returns the fault's status.
pub(crate) fn answer_fault(fault: &RunFault, faults: &mut impl Write) -> u8
    ensures { result ≡ fault_status fault.now }
{
    let _ = write_fault(fault, faults);
    fault_status(fault)
}

/// The status of a run that reached the end of its input: 0, or 1 if a group isn't complete or has a clash.
fn tally_status(tally: &Tally) -> u8
    ensures { result ≡ tally_status tally.now }
{
    if tally.complete && tally.clashes == 0 {
        ACCEPTED
    } else {
        REFUSED
    }
}

/// The status of a log that was read to its end: 0, or 1 if a line is bad.
fn log_status(tally: &LogTally) -> u8
    ensures { result ≡ log_status tally.now }
{
    if tally.bad == 0 { ACCEPTED } else { REFUSED }
}

/// The status of a run that ended with the fault: 1 if the input is at fault, 3 if a stream or memory is, or the input is
/// above the limit.
fn fault_status(fault: &RunFault) -> u8
    ensures { result ≡ fault_status fault.now }
{
    match fault {
        RunFault::Refused { .. }
        | RunFault::Truncated { .. }
        | RunFault::BadHex { .. }
        | RunFault::BadJson { .. } => REFUSED,
        RunFault::Read | RunFault::Write { .. } | RunFault::Endless | RunFault::Memory => BROKEN,
    }
}
