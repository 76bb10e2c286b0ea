//! Lines about runs over lines of hexadecimal, and about the program's command line. In their texts `\n` is a LF and `\r` a
//! CR, and any other `\` is itself.

use crate::calls::{Asked, Ended, Program, call, counted_call};
use crate::streams::{check_streams, fault_line};
use etcs_runs::RunFault;
use etcs_vector_lines::Case;

/// Answers a line about runs of a program: whether it is one.
pub fn answer<P: Program>(case: &mut Case, kind: &str) -> bool {
    match kind {
        "run" | "zeros" => shown::<P>(case, kind),
        "slow" => run_slowly::<P>(case),
        "reads" => run_lines::<P>(case),
        "repeated" => repeated::<P>(case),
        "program" | "bytes" | "status" => command_line::<P>(case, kind),
        "help" => help::<P>(case),
        "fault" => fault(case),
        _ => return false,
    }
    true
}

/// Appends the bytes of a text.
fn push_text(case: &mut Case, found: &mut Vec<u8>, words: &str) {
    let mut escaped = false;
    for byte in words.as_bytes() {
        if *byte == b'\\' {
            escaped = true;
            continue;
        }
        let byte = match (escaped, *byte) {
            (false, byte) => byte,
            (true, b'n') => b'\n',
            (true, b'r') => b'\r',
            (true, byte) => {
                case.kept(found.push(b'\\').is_ok());
                byte
            }
        };
        escaped = false;
        case.kept(found.push(byte).is_ok());
    }
}

/// How many items a run shows.
fn items_of(output: &[u8]) -> u64 {
    let mut items = 0u64;
    let mut last = b'\n';
    for byte in output {
        if last == b'\n' && *byte == b'i' {
            items = items.saturating_add(1);
        }
        last = *byte;
    }
    items
}

/// What a run answered: of how many items it is, or its fault.
fn say_answer(case: &mut Case, called: &Ended) {
    if called.status == 0 {
        case.say("ok ");
        case.say_number(items_of(called.output.as_slice()));
    } else {
        case.say_line(called.faults.as_slice());
    }
}

/// What was written, after a LF.
fn say_written(case: &mut Case, written: &[u8]) {
    if !written.is_empty() {
        case.say("\n");
        case.say_line(written);
    }
}

/// The command line that shows telegrams of the size of the next word.
fn show_line(case: &mut Case) -> &'static str {
    match case.word() {
        "short" => "etcs show --kind short",
        "long" => "etcs show --kind long",
        _ => {
            case.bad();
            "etcs"
        }
    }
}

/// `run SIZE TEXT`: what a run that shows telegrams answers and writes, also where it reads byte by byte; and
/// `zeros SIZE COUNT TEXT`: the same with COUNT zeros before the text.
fn shown<P: Program>(case: &mut Case, kind: &str) {
    let line = show_line(case);
    let mut input = Vec::new(case.alloc());
    if kind == "zeros" {
        let zeros = case.half();
        case.kept(input.resize(usize::from(zeros), b'0').is_ok());
    }
    let text = case.rest();
    push_text(case, &mut input, text);
    let asked = Asked::new(line, input.as_slice());
    let (ran, reads) = counted_call::<P>(case, asked);
    say_answer(case, &ran);
    say_written(case, ran.output.as_slice());
    check_streams::<P>(case, asked, (&ran, reads));
}

/// `slow SIZE TEXT`: what a run returns that gets one byte a read, and how often it reads.
fn run_slowly<P: Program>(case: &mut Case) {
    let line = show_line(case);
    let mut input = Vec::new(case.alloc());
    let text = case.rest();
    push_text(case, &mut input, text);
    let asked = Asked::new(line, input.as_slice()).by(1);
    let (slow, reads) = counted_call::<P>(case, asked);
    say_answer(case, &slow);
    case.say(", reads ");
    case.say_number(reads);
    say_written(case, slow.output.as_slice());
}

/// `reads COUNT LINE`: the status of this command line over COUNT reads of one LF each, how often it reads, and what it writes.
fn run_lines<P: Program>(case: &mut Case) {
    let lines = case.number();
    let asked = Asked {
        lines,
        ..Asked::new(case.rest(), &[])
    };
    let (called, reads) = counted_call::<P>(case, asked);
    case.say_number(u64::from(called.status));
    case.say(", reads ");
    case.say_number(reads);
    say_written(case, called.output.as_slice());
    say_written(case, called.faults.as_slice());
}

/// `repeated COUNT SIZE HEX`: the text of this telegram where it is item 1; a run over COUNT lines of it writes it so
/// often, with their numbers.
fn repeated<P: Program>(case: &mut Case) {
    let count = case.half();
    let line = show_line(case);
    let text = case.rest();
    let one = call::<P>(case, Asked::new(line, text.as_bytes()));
    let mut input = Vec::new(case.alloc());
    let mut wanted = Case::new(case.alloc(), "");
    let rest = one.output.as_slice().strip_prefix(b"item 1").unwrap_or(&[]);
    for item in 1..=u64::from(count) {
        push_text(case, &mut input, text);
        case.kept(input.push(b'\n').is_ok());
        wanted.say("item ");
        wanted.say_number(item);
        wanted.say_bytes(rest);
    }
    let all = call::<P>(case, Asked::new(line, input.as_slice()));
    say_answer(case, &all);
    say_written(case, one.output.as_slice());
    let is_each = wanted.has_said(all.output.as_slice());
    case.check(is_each, "not each so");
}

/// `program LINE < TEXT`: the status of this command line over the text, what it writes and its faults.
/// `bytes LINE < HEX`: the status of this command line over these bytes, and what it writes, as hexadecimal digits.
/// `status LINE`: the status of this command line over an empty input, and whether lines went to the output and to the
/// faults. Each is the same where the program reads byte by byte.
fn command_line<P: Program>(case: &mut Case, kind: &str) {
    let given = case.split(" < ");
    let line = case.rest();
    let input = input_of(case, kind, given);
    let asked = Asked::new(line, input.as_slice());
    let (called, reads) = counted_call::<P>(case, asked);
    say_called(case, kind, &called);
    check_streams::<P>(case, asked, (&called, reads));
}

/// The bytes of a text, or those that its hexadecimal digits say.
fn input_of(case: &mut Case, kind: &str, given: &str) -> Vec<u8> {
    if kind == "bytes" {
        return case.bytes_of(given);
    }
    let mut input = Vec::new(case.alloc());
    push_text(case, &mut input, given);
    input
}

/// `help LINE, LINE ..`: the status of each of these command lines over an empty input, and what it writes.
fn help<P: Program>(case: &mut Case) {
    for line in case.rest().split(", ") {
        if case.is_silent() {
            say_call::<P>(case, line);
        } else {
            let mut said = Case::new(case.alloc(), "");
            say_call::<P>(&mut said, line);
            let is_like = case.is_like(&said);
            case.check(is_like, "not each so");
        }
    }
}

/// The status of a command line over an empty input, and what it writes.
fn say_call<P: Program>(case: &mut Case, line: &str) {
    let called = call::<P>(case, Asked::new(line, &[]));
    say_called(case, "program", &called);
}

/// The status and what the program wrote, as this kind of lines says it.
fn say_called(case: &mut Case, kind: &str, called: &Ended) {
    case.say_number(u64::from(called.status));
    let (output, faults) = (called.output.as_slice(), called.faults.as_slice());
    match kind {
        "program" => {
            say_written(case, output);
            say_written(case, faults);
        }
        "status" => {
            case.say(", output ");
            case.say(shape(output));
            case.say(", faults ");
            case.say(shape(faults));
        }
        _ => {
            case.say("\n");
            case.say_hex(output);
        }
    }
}

/// Whether a text is nothing, or whole lines.
fn shape(text: &[u8]) -> &'static str {
    match text.last() {
        None => "none",
        Some(b'\n') => "lines",
        Some(_) => "more than lines",
    }
}

/// `fault NAME NUMBERS`: the line of a fault, and its text in a sentence.
fn fault(case: &mut Case) {
    match fault_of(case) {
        Some(fault) => {
            let line = fault_line(case, &fault);
            case.say_line(line.as_slice());
            case.say("\n");
            match fault.to_string(case.alloc()) {
                Ok(text) => case.say(text.as_str()),
                Err(_) => case.kept(false),
            }
        }
        None => case.bad(),
    }
}

/// The fault of this name with these numbers.
fn fault_of(case: &mut Case) -> Option<RunFault> {
    Some(match case.word() {
        "read" => RunFault::Read,
        "endless" => RunFault::Endless,
        "memory" => RunFault::Memory,
        "json" => RunFault::BadJson {
            line: case.number(),
        },
        "write" => RunFault::Write {
            sent: case.number(),
        },
        "hex" => {
            let line = case.number();
            let place = case.number();
            RunFault::BadHex { line, place }
        }
        "truncated" => {
            let item = case.number();
            let bits = case.number();
            RunFault::Truncated { item, bits }
        }
        "refused" => {
            let item = case.number();
            let bit = case.place();
            let var = case.var()?;
            RunFault::Refused { item, bit, var }
        }
        _ => return None,
    })
}
