//! What holds of each command line, whatever its answer: what it does over pieces, and where its streams fail.

use crate::calls::{Asked, Ended, Program, Room, call};
use etcs_fakes::Full;
use etcs_runs::{RunFault, write_fault};
use etcs_vector_lines::Case;
use std::io::ErrorKind;

/// Checks that a command line does the same where it gets one byte a read; and of one that reads its input, that it flushes
/// its output, and what it does where its streams fail.
pub(crate) fn check_streams<P: Program>(
    case: &mut Case,
    asked: Asked<'_>,
    (wanted, reads): (&Ended, u64),
) {
    let slowly = call::<P>(case, asked.by(1));
    check_alike(case, &slowly, wanted);
    case.check(slowly.faults == wanted.faults, "other faults byte by byte");
    if reads > 0 {
        case.check(wanted.is_flushed, "no flush");
        check_reads::<P>(case, asked, wanted);
        check_whole_lines::<P>(case, asked, wanted);
        check_writes::<P>(case, asked, wanted);
        check_ends::<P>(case, asked, wanted);
    }
}

/// Checks a command line over a reader that fails before its first byte, in the middle and after its last byte: it writes a
/// front of what it writes where nothing fails, and says that a read failed, unless it had refused what came before.
fn check_reads<P: Program>(case: &mut Case, asked: Asked<'_>, wanted: &Ended) {
    let whole = asked.input;
    for (count, kind) in [
        (0, ErrorKind::BrokenPipe),
        (whole.len() / 2, ErrorKind::Interrupted),
        (whole.len(), ErrorKind::BrokenPipe),
    ] {
        let front = whole.get(..count).unwrap_or(&[]);
        let failed = call::<P>(case, asked.failing(front, kind));
        check_failed_read(case, &failed, wanted, count > 0);
    }
}

/// Checks the output and the status if a read failed, or if the input before that is refused.
fn check_failed_read(case: &mut Case, failed: &Ended, wanted: &Ended, may_be_refused: bool) {
    let whole = wanted.output.as_slice();
    let is_front = whole.starts_with(failed.output.as_slice());
    case.check(is_front, "other output before a failed read");
    let is_refused = may_be_refused && failed.status == 1 && failed.faults == wanted.faults;
    let is_said = failed.status == 3 && failed.faults.as_slice().ends_with(READ_FAULT);
    case.check(is_refused || is_said, "no failed read");
}

/// Checks that, if a reader fails after whole lines, no line is unwritten, except the last lines of a group.
fn check_whole_lines<P: Program>(case: &mut Case, asked: Asked<'_>, wanted: &Ended) {
    let is_group = asked.line.starts_with("etcs group");
    if wanted.status == 0 && asked.input.last() == Some(&b'\n') && !is_group {
        let failing = asked.failing(asked.input, ErrorKind::BrokenPipe);
        let failed = call::<P>(case, failing);
        let is_whole = failed.output == wanted.output;
        case.check(is_whole, "an unwritten line before a failed read");
    }
}

/// The line of a failed read.
const READ_FAULT: &[u8] = b"etcs: read fault\n";

/// Checks a command line over outputs that have no room, room for half of what is written, and for all but a byte.
fn check_writes<P: Program>(case: &mut Case, asked: Asked<'_>, wanted: &Ended) {
    let whole = wanted.output.as_slice();
    for (room, full) in [
        (0, Full::Fails),
        (whole.len() / 2, Full::IsInterrupted),
        (whole.len().saturating_sub(1), Full::TakesNothing),
    ] {
        if room < whole.len() {
            let narrow = Room {
                output: room,
                full,
                ..Room::ENOUGH
            };
            let failed = call::<P>(case, asked.within(narrow));
            check_failed_write(case, &failed, whole.get(..room).unwrap_or(&[]));
        }
    }
}

/// Checks what is reported of a write that failed after these bytes.
fn check_failed_write(case: &mut Case, failed: &Ended, written: &[u8]) {
    let sent = written.len() as u64;
    let line = fault_line(case, &RunFault::Write { sent });
    let is_said = failed.status == 3 && failed.faults.as_slice().ends_with(line.as_slice());
    case.check(is_said, "no failed write");
    let is_front = failed.output.as_slice() == written;
    case.check(is_front, "other output before a failed write");
}

/// Checks a command line over an output that can't be flushed, and where there is no room for faults.
fn check_ends<P: Program>(case: &mut Case, asked: Asked<'_>, wanted: &Ended) {
    let unflushed = Room {
        flushes: false,
        ..Room::ENOUGH
    };
    let failed = call::<P>(case, asked.within(unflushed));
    if wanted.status == 0 || failed.status == 3 {
        check_failed_write(case, &failed, wanted.output.as_slice());
    } else {
        check_alike(case, &failed, wanted);
    }
    let unsaid = Room {
        faults: 0,
        ..Room::ENOUGH
    };
    let silent = call::<P>(case, asked.within(unsaid));
    check_alike(case, &silent, wanted);
}

/// Checks that a command line ended with the same status and output.
fn check_alike(case: &mut Case, found: &Ended, wanted: &Ended) {
    let is_alike = found.status == wanted.status && found.output == wanted.output;
    case.check(is_alike, "another end of the same input");
}

/// The line of a fault.
pub(crate) fn fault_line(case: &mut Case, fault: &RunFault) -> Vec<u8> {
    let mut line: Vec<u8> = Vec::new(case.alloc());
    case.kept(write_fault(fault, &mut line).is_ok());
    line
}
