//! Items to begin with.

use crate::words::{REFUSED, answer_fault, run_job};
use etcs_blank::blank;
use etcs_reasons::inner::{message_name, packet_name, way_of, way_of_message};
use etcs_stream::{Command, Form, Job, Kind, RunFault};
use std::alloc::{AllocError, Global};
use std::io::Write;

/// Why there is no such item.
#[derive(Clone, Copy)]
enum NoBlank {
    /// A message has a number.
    NoNumber,
    /// There is no message of this number that goes this way.
    NoMessage(u8),
    /// There is no packet of this number that goes this way.
    NoPacket(u8),
    /// No such item has this packet.
    Never(u8),
    /// There is no room for this packet after those before it.
    NoRoom(u8),
}

/// Whether the items of a kind are messages.
fn are_messages(kind: Kind) -> bool {
    match kind {
        Kind::Long | Kind::Short => false,
        Kind::Radio | Kind::Train => true,
    }
}

/// Which way items of a kind go.
fn way_words(kind: Kind) -> &'static str {
    match kind {
        Kind::Long | Kind::Short | Kind::Radio => "to the train",
        Kind::Train => "to the track",
    }
}

/// Which of the numbers SUBSET-026 doesn't have.
fn unknown(kind: Kind, numbers: &[u8]) -> Option<NoBlank> {
    let mut packets = numbers;
    if are_messages(kind) {
        let Some((number, rest)) = numbers.split_first() else {
            return Some(NoBlank::NoNumber);
        };
        let is_named = message_name(u64::from(*number)).is_some();
        if !is_named || way_of_message(*number) != Some(way_of(kind)) {
            return Some(NoBlank::NoMessage(*number));
        }
        packets = rest;
    }
    for number in packets {
        if packet_name(way_of(kind), u64::from(*number)).is_none() {
            return Some(NoBlank::NoPacket(*number));
        }
    }
    None
}

/// Whether there is an item of the kind with packets of these numbers.
fn is_there(alloc: Global, kind: Kind, numbers: &[u8]) -> Result<bool, AllocError> {
    blank(alloc, kind, numbers, &mut Vec::new(alloc))
}

/// Whether there is one with this packet alone.
fn is_there_alone(
    alloc: Global,
    kind: Kind,
    numbers: &[u8],
    packet: u8,
) -> Result<bool, AllocError> {
    match numbers.first() {
        Some(number) if are_messages(kind) => is_there(alloc, kind, &[*number, packet]),
        _ => is_there(alloc, kind, &[packet]),
    }
}

/// Why there is no item with packets of these numbers, each of which SUBSET-026 has.
fn refused(alloc: Global, kind: Kind, numbers: &[u8]) -> Result<NoBlank, AllocError> {
    let mut count = 0usize;
    for number in numbers {
        count = count.saturating_add(1);
        let front = numbers.get(..count).unwrap_or(numbers);
        if !is_there(alloc, kind, front)? {
            return Ok(if is_there_alone(alloc, kind, numbers, *number)? {
                NoBlank::NoRoom(*number)
            } else {
                NoBlank::Never(*number)
            });
        }
    }
    Ok(NoBlank::NoNumber)
}

/// Writes why there is no such item, as far as the writer takes it, and returns the status.
fn answer_no_blank(kind: Kind, why: NoBlank, faults: &mut impl Write) -> u8 {
    let way = way_words(kind);
    let _ = match why {
        NoBlank::NoNumber => faults.write_all(b"etcs: a message begins with its number\n"),
        NoBlank::NoMessage(number) => {
            write!(faults, "etcs: there is no message {number} {way}\n")
        }
        NoBlank::NoPacket(number) => { write!(faults, "etcs: there is no packet {number} {way}\n") }
        NoBlank::Never(number) if are_messages(kind) => {
            write!(faults, "etcs: this message has no packet {number}\n")
        }
        NoBlank::Never(number) => {
            write!(
                faults,
                "etcs: telegrams of this size have no packet {number}\n"
            )
        }
        NoBlank::NoRoom(number) => { write!(faults, "etcs: no room is left for packet {number}\n") }
    };
    REFUSED
}

/// Writes the item of the kind with packets of these numbers, for messages after their own, as JSON, and returns the status.
#[inline(never)]
pub(crate) fn write_blank(
    alloc: Global,
    kind: Kind,
    numbers: &[u8],
    output: impl Write + Drop,
    faults: &mut impl Write,
) -> u8 {
    if let Some(why) = unknown(kind, numbers) {
        return answer_no_blank(kind, why, faults);
    }
    let mut bytes = Vec::new(alloc);
    match blank(alloc, kind, numbers, &mut bytes) {
        Ok(true) => {
            let job = Job {
                kind,
                from: Form::Bin,
                command: Command::Convert(Form::Json),
            };
            run_job(alloc, job, bytes.as_slice(), output, faults)
        }
        Ok(false) => match refused(alloc, kind, numbers) {
            Ok(why) => answer_no_blank(kind, why, faults),
            Err(AllocError) => answer_fault(&RunFault::Memory, faults),
        },
        Err(AllocError) => answer_fault(&RunFault::Memory, faults),
    }
}
