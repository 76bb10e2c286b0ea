//! The digits of a line.

ghost use Rattle.std.specs.Prelude.{◌≤◌, ◌*◌, length};
ghost use Rattle.etcs_c.specs.Lines.{SaysBytes};

use crate::answer::{EMPTY_LINE, EtcsAnswer, NO_DIGITS, NO_MEMORY, ODD_DIGITS, WHOLE, write_out};
use etcs_runs::{NoBytes, line_bytes};
use std::alloc::{AllocError, Global};

/// Writes the bytes that the digits of a line stand for, by way of a buffer with room for them.
fn say_bytes(line: &[u8], buffer: &mut [u8], out: &mut [u8], answer: &mut EtcsAnswer) -> u32
    requires room { length line.now ≤ 2 * length buffer.old }
    ensures { SaysBytes line.now out.old out.new result answer.new }
{
    match line_bytes(line, buffer) {
        Ok(count) => write_out(WHOLE, &buffer[buffer.len() - count..], out, answer),
        Err(NoBytes::Empty) => EMPTY_LINE,
        Err(NoBytes::NoDigits) => NO_DIGITS,
        Err(NoBytes::OddDigits(count)) => {
            answer.taken = count;
            ODD_DIGITS
        }
    }
}

/// Writes the bytes that the digits of a line stand for.
pub(crate) fn write_bytes(
    alloc: Global,
    line: &[u8],
    out: &mut [u8],
    answer: &mut EtcsAnswer,
) -> u32
    ensures { SaysBytes line.now out.old out.new result answer.new }
{
    match Vec::from_elem(alloc, 0, line.len() / 2 + 1) {
        Ok(mut buffer) => say_bytes(line, buffer.as_mut_slice(), out, answer),
        Err(AllocError) => NO_MEMORY,
    }
}
