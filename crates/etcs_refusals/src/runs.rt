//! Whole runs.

use crate::rooms::{Answer, Call, refuse};
use etcs_fakes::Broken;
use etcs_stream::{Command, Form, Input, Job, Kind, Output, RunFault, Tally, run};
use etcs_text::{Entry, encoded, hex_line, json_line};
use etcs_vector_items::{item_of, next_kind};
use etcs_vector_lines::Case;
use std::alloc::Global;
use std::io::ErrorKind;

/// A run over items in pieces of this many bytes, and what it writes; what it writes of no item, of the first one, and so
/// on, before last lines, and whether it was refused memory there.
#[derive(Drop)]
struct Runs<'a> {
    job: Job,
    input: &'a [u8],
    step: usize,
    whole: Vec<u8>,
    texts: Vec<(Vec<u8>, bool)>,
    written: Vec<u8>,
}

/// What a run returns, and what it writes. It isn't asked for groups of messages.
fn ran(
    alloc: Global,
    job: Job,
    reader: Broken<'_>,
    written: &mut Vec<u8>,
) -> Result<Tally, RunFault> {
    if !job.is_groupable() {
        return Err(RunFault::Endless);
    }
    let mut source = Input::new(reader);
    let mut sink = Output::new(written);
    run(alloc, job, &mut source, &mut sink)
}

impl Runs<'_> {
    /// Looks at what was written before memory was refused.
    fn refused(&mut self) -> Answer {
        let mut is_right = false;
        for (text, is_met) in self.texts.iter_mut() {
            if *text == self.written {
                *is_met = true;
                is_right = true;
            }
        }
        Answer::refused(is_right)
    }

    /// Whether it was refused after each number of items up to `count`.
    fn is_met(&self, count: usize) -> bool {
        let mut all = count <= self.texts.len();
        for (_, is_met) in self.texts.iter().take(count) {
            all &= *is_met;
        }
        all
    }
}

impl Call for Runs<'_> {
    fn make(&mut self, alloc: Global) -> Answer {
        self.written.clear();
        let reader = Broken {
            rest: self.input,
            step: self.step,
            fails: None,
        };
        match ran(alloc, self.job, reader, &mut self.written) {
            Ok(_) => Answer::made(self.written == self.whole),
            Err(RunFault::Memory) => self.refused(),
            Err(_) => Answer::Wrong,
        }
    }
}

/// The form of a word.
fn form(case: &mut Case) -> Form {
    match case.word() {
        "hex" => Form::Hex,
        "bin" => Form::Bin,
        "json" => Form::Json,
        _ => {
            case.bad();
            Form::Hex
        }
    }
}

/// The command of a word; `convert` has the form after it.
fn command(case: &mut Case) -> Command {
    match case.word() {
        "show" => Command::Show,
        "check" => Command::Check,
        "group" => Command::Group,
        "convert" => Command::Convert(form(case)),
        _ => {
            case.bad();
            Command::Show
        }
    }
}

/// Appends the item of digits in a form.
fn append(case: &mut Case, form: Form, digits: &str, kind: Kind, input: &mut Vec<u8>) {
    let bytes = case.bytes_of(digits);
    let item = item_of(case, kind, bytes.as_slice());
    match item.as_ref() {
        Some(item) => append_item(case, form, item, input),
        None => case.bad(),
    }
}

/// Appends an item in a form.
fn append_item(case: &mut Case, form: Form, item: &Entry, input: &mut Vec<u8>) {
    let appended = match form {
        Form::Hex => hex_line(item, input),
        Form::Bin => encoded(item, input),
        Form::Json => json_line(item, input),
    };
    case.kept(appended.is_ok());
}

/// What is written of an input, after which the reader fails or ends.
fn text(case: &mut Case, job: Job, input: &[u8], fails: Option<ErrorKind>) -> Vec<u8> {
    let mut text = Vec::new(case.alloc());
    let reader = Broken {
        rest: input,
        step: 4096,
        fails,
    };
    let answer = ran(case.alloc(), job, reader, &mut text);
    case.kept(answer.is_ok() == fails.is_none());
    text
}

/// Appends the items that are left to an input in this job's form: what is written of no item, of the first one, and so on.
fn texts(case: &mut Case, job: Job, input: &mut Vec<u8>) -> Vec<(Vec<u8>, bool)> {
    let mut texts = Vec::new(case.alloc());
    case.kept(texts.push((Vec::new(case.alloc()), false)).is_ok());
    for digits in case.rest().split(' ') {
        append(case, job.from, digits, job.kind, input);
        let text = text(case, job, input.as_slice(), Some(ErrorKind::BrokenPipe));
        case.kept(texts.push((text, false)).is_ok());
    }
    texts
}

/// The job of `COMMAND KIND FORM`.
fn job(case: &mut Case) -> Job {
    let command = command(case);
    let kind = next_kind(case);
    let from = form(case);
    Job {
        kind,
        from,
        command,
    }
}

/// `run COMMAND KIND FORM STEP COUNT HEX ..`: memory must be refused after no item, after the first one, and so on, for COUNT
/// such numbers.
pub(crate) fn refuse_run(case: &mut Case) {
    let job = job(case);
    let step = case.place();
    let count = case.place();
    let mut input = Vec::new(case.alloc());
    let texts = texts(case, job, &mut input);
    let whole = text(case, job, input.as_slice(), None);
    let mut written = Vec::new(case.alloc());
    case.kept(written.reserve(65536).is_ok());
    let mut runs = Runs {
        job,
        input: input.as_slice(),
        step,
        whole,
        texts,
        written,
    };
    refuse(case, &mut runs);
    case.check(runs.is_met(count), "not after each number of items");
}
