//! Counts what a log has.

ghost use Rattle.std.specs.Prelude.{◌≡◌, ◌<◌, ◌++◌, OnOk};
ghost use Rattle.std.specs.Fmt.{decimal};
ghost use Rattle.etcs_log.specs.Logs.{count_line, counts_front};

use crate::job::LogTally;
use crate::kinds::{Kinds, is_message_number, kind_name};
use crate::notes::Note;
use crate::refusals::{RefusalCount, count};
use etcs_packet_text::inner::write_decimal;
use etcs_packets::inner::AnyPacket;
use etcs_reasons::inner::{message_name, packet_name, way_of_message};
use etcs_tables::Way;
use etcs_text::{Entry, Kind};
use std::alloc::{AllocError, Global};
use std::fmt;

/// All kinds, in the order in which they are counted.
const KINDS: [Kind; 4] = [Kind::Long, Kind::Short, Kind::Radio, Kind::Train];

/// What items have, and where and why bad lines are refused, if that is asked for. No count passes 2^64 - 1.
#[derive(Drop)]
pub(crate) struct Counts {
    asked: bool,
    /// Items by their kinds, in the order of `KINDS`.
    items: [u64; 4],
    /// Messages that are kept as bits.
    kept: u64,
    /// Messages whose number SUBSET-026 doesn't have.
    unknown: u64,
    /// Packets to the train and to the track, by number.
    packets: [u64; 256],
    track: [u64; 256],
    messages: [u64; 256],
    refusals: Vec<RefusalCount>,
}

/// Counts packets by their numbers.
fn count_packets<P: AnyPacket>(packets: &[P], counts: &mut [u64; 256]) {
    for packet in packets {
        count(&mut counts[usize::from(packet.nid())]);
    }
}

/// What is written of a number beside its count: its name, and which way it goes.
#[derive(Clone, Copy)]
struct Named {
    /// The name in the standard, if it has the number.
    name: Option<&'static str>,
    way: &'static str,
}

impl fmt::Display for Named {
    fn fmt<W: fmt::Write>(&self, f: &mut fmt::Formatter<W>) -> fmt::Result {
        write!(f, "{}{}", self.name.unwrap_or("no such number"), self.way)
    }
}

/// Appends a line for each number of packets of a way that was counted.
fn write_packets(way: Way, counts: &[u64; 256], out: &mut String) -> Result<(), AllocError> {
    for number in 0..256 {
        if counts[number] > 0 {
            let named = Named {
                name: packet_name(way, number as u64),
                way: match way {
                    Way::ToTrain => "",
                    Way::ToTrack => ", to the track",
                },
            };
            writeln!(out, "packet {number} {} ({named})", counts[number])?;
        }
    }
    Ok(())
}

/// What is added to the name of a message: that it goes to the track; or to the train, if that isn't asked for.
fn message_way(kinds: Kinds, number: u8) -> &'static str {
    match way_of_message(number) {
        Some(Way::ToTrack) => ", to the track",
        Some(Way::ToTrain) if !kinds.radio => ", to the train",
        _ => "",
    }
}

/// Appends a line for each message's number that was counted.
fn write_messages(kinds: Kinds, counts: &[u64; 256], out: &mut String) -> Result<(), AllocError> {
    for number in 0..256 {
        if counts[number] > 0 {
            let name = message_name(number as u64);
            let way = if name.is_some() {
                message_way(kinds, number as u8)
            } else {
                ""
            };
            let named = Named { name, way };
            writeln!(out, "message {number} {} ({named})", counts[number])?;
        }
    }
    Ok(())
}

/// The place of a kind among `KINDS`.
fn place_of(kind: Kind) -> usize
    ensures { result < 4 }
{
    match kind {
        Kind::Long => 0,
        Kind::Short => 1,
        Kind::Radio => 2,
        Kind::Train => 3,
    }
}

/// If there are several kinds, appends a line for each: how many items are of it.
fn write_kinds(kinds: Kinds, counts: &[u64; 4], out: &mut String) -> Result<(), AllocError> {
    for kind in KINDS {
        if kinds.several() && kinds.contains(kind) {
            writeln!(out, "{} {}", kind_name(kind), counts[place_of(kind)])?;
        }
    }
    Ok(())
}

impl Counts {
    /// Nothing was counted.
    pub(crate) fn new(alloc: Global, asked: bool) -> Counts {
        Counts {
            asked,
            items: [0; 4],
            kept: 0,
            unknown: 0,
            packets: [0; 256],
            track: [0; 256],
            messages: [0; 256],
            refusals: Vec::new(alloc),
        }
    }

    /// Counts what is in an item.
    pub(crate) fn add_item(&mut self, kind: Kind, entry: &Entry) {
        if !self.asked {
            return;
        }
        count(&mut self.items[place_of(kind)]);
        match entry {
            Entry::Telegram(telegram) => count_packets(telegram.packets(), &mut self.packets),
            Entry::Message(message) => {
                self.add_message(message.nid(), message.kept_bits().is_some());
                count_packets(message.packets(), &mut self.packets);
            }
            Entry::Train(message) => {
                self.add_message(message.nid(), message.kept_bits().is_some());
                count_packets(message.packets(), &mut self.track);
            }
        }
    }

    /// Counts a message of this number, which may be kept as bits.
    fn add_message(&mut self, number: u8, kept: bool) {
        count(&mut self.messages[usize::from(number)]);
        if !is_message_number(number) {
            count(&mut self.unknown);
        }
        if kept {
            count(&mut self.kept);
        }
    }

    /// Counts the refusal that a note reports, if it reports one, by its variable and cause.
    ///
    /// # Errors
    ///
    /// If memory runs out.
    pub(crate) fn add_note(&mut self, note: &Note) -> Result<(), AllocError> {
        let Note::Refused(_, refusal) = note else {
            return Ok(());
        };
        if !self.asked {
            return Ok(());
        }
        for refusals in &mut self.refusals {
            if refusals.var == refusal.var {
                refusals.add(refusal.cause);
                return Ok(());
            }
        }
        self.refusals
            .push(RefusalCount::new(refusal.var, refusal.cause))?;
        Ok(())
    }

    /// Appends a line for each of several kinds, and for each count that isn't 0: messages kept as bits, messages of
    /// unknown numbers, packets by way and number, messages by number, refusals by variable and cause.
    ///
    /// # Errors
    ///
    /// If memory runs out. A part of the text may then be in `out`.
    pub(crate) fn write(&self, kinds: Kinds, out: &mut String) -> Result<(), AllocError> {
        write_kinds(kinds, &self.items, out)?;
        if self.kept > 0 {
            writeln!(out, "kept {}", self.kept)?;
        }
        if self.unknown > 0 {
            writeln!(out, "unknown {}", self.unknown)?;
        }
        write_packets(Way::ToTrain, &self.packets, out)?;
        write_packets(Way::ToTrack, &self.track, out)?;
        write_messages(kinds, &self.messages, out)?;
        for refusals in &self.refusals {
            writeln!(out, "{refusals}")?;
        }
        Ok(())
    }
}

/// Appends the lines of all counts, the further ones after those of items and bad lines.
///
/// # Errors
///
/// If memory runs out.
#[tactic(auto, using(std::proofs::Common::append_assoc))]
pub(crate) fn write_tally(
    tally: &LogTally,
    further: &str,
    out: &mut Vec<u8>,
) -> Result<(), AllocError>
    ensures { OnOk result (out.new.items ≡ out.old.items ++ (counts_front tally.now ++ further.now)) }
{
    out.extend_from_slice(b"items ")?;
    write_decimal(tally.items, out)?;
    out.extend_from_slice(b"\nbad ")?;
    write_decimal(tally.bad, out)?;
    out.extend_from_slice(b"\n")?;
    write_count(b"other ", tally.other, out)?;
    write_count(b"text ", tally.text, out)?;
    out.extend_from_slice(further.as_bytes())
}

/// Appends a line with this count, unless it is 0.
///
/// # Errors
///
/// If memory runs out.
#[tactic(auto, using(std::proofs::Common::append_assoc))]
fn write_count(name: &[u8], count: u64, out: &mut Vec<u8>) -> Result<(), AllocError>
    ensures { OnOk result (out.new.items ≡ out.old.items ++ count_line name.now count) }
{
    if count == 0 {
        return Ok(());
    }
    out.extend_from_slice(name)?;
    write_decimal(count, out)?;
    out.extend_from_slice(b"\n")
}
