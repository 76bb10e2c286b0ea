//! A refusal in words.

ghost use Rattle.std.specs.Prelude.{◌≡◌, Some};
ghost use Rattle.std.specs.Fmt.{WritesOnOk};
ghost use Rattle.etcs_rows.specs.Words.{range_text, ranges_text, low_of, high_of, there_text, span_text, nearest_text, admitted_text, not_text, none_fits_text, unfit_text, beyond_text, room_text, no_packet_text, no_lengths_text, no_length_text, message_text, spare_text, left_text, number_text, length_text, row_text, words};

use crate::cause::Cause;
use crate::frames::Carrier;
use crate::here::Here;
use crate::refusal::Refusal;
use etcs_tables::{frame_bits, message_ranges};
use std::fmt;

/// Writes a range of numbers, both ends included.
#[tactic(auto, using(std::proofs::Common::append_assoc), unfolding(crate::specs::Words::range_text))]
fn write_range<W: fmt::Write>(low: u64, high: u64, f: &mut fmt::Formatter<W>) -> fmt::Result
    ensures { WritesOnOk W.write_str_gives f.old result (range_text low high) f.new }
{
    match high.saturating_sub(low) {
        0 => write!(f, "{low}"),
        1 => write!(f, "{low} and {high}"),
        _ => write!(f, "{low} to {high}"),
    }
}

/// Writes ranges of numbers.
#[tactic(auto, unfolding(crate::specs::Words::ranges_text))]
fn write_ranges<W: fmt::Write>(ranges: &[(u64, u64)], f: &mut fmt::Formatter<W>) -> fmt::Result
    ensures { WritesOnOk W.write_str_gives f.old result (ranges_text ranges.now) f.new }
{
    let Some((first, others)) = ranges.split_first() else {
        return Ok(());
    };
    write_range(first.0, first.1, f)?;
    for range in others {
        f.write_str(" or ")?;
        write_range(range.0, range.1, f)?;
    }
    Ok(())
}

/// Writes the number that the bytes have, of several.
#[tactic(auto, using(std::proofs::Common::append_assoc), unfolding(crate::specs::Words::there_text))]
fn write_there<W: fmt::Write>(number: Option<u64>, f: &mut fmt::Formatter<W>) -> fmt::Result
    ensures { WritesOnOk W.write_str_gives f.old result (there_text number) f.new }
{
    match number {
        Some(number) => write!(f, " (found {number})"),
        None => Ok(()),
    }
}

/// Writes that the number of the bytes isn't admitted, or, if they don't have all its bits, that none begins with them.
#[tactic(auto, unfolding(crate::specs::Words::not_text))]
fn write_not<W: fmt::Write>(number: Option<u64>, f: &mut fmt::Formatter<W>) -> fmt::Result
    ensures { WritesOnOk W.write_str_gives f.old result (not_text number) f.new }
{
    match number {
        Some(number) => write!(f, ", not {number}"),
        None => f.write_str(", and no such number begins with these bits"),
    }
}

/// Writes which of two numbers fit.
#[tactic(auto, using(std::proofs::Common::append_assoc), unfolding(crate::specs::Words::nearest_text))]
fn write_nearest<W: fmt::Write>(
    below: Option<u64>,
    above: Option<u64>,
    f: &mut fmt::Formatter<W>,
) -> fmt::Result
    ensures { WritesOnOk W.write_str_gives f.old result (nearest_text below above) f.new }
{
    match below {
        Some(low) => match above {
            Some(high) => write!(f, "; {low} and {high} fit"),
            None => write!(f, "; {low} is the greatest that fits"),
        },
        None => match above {
            Some(high) => write!(f, "; {high} is the least that fits"),
            None => f.write_str("; none fits"),
        },
    }
}

/// Writes what the bits that are left have to hold besides a packet.
#[tactic(auto, unfolding(crate::specs::Words::beyond_text))]
fn write_beyond<W: fmt::Write>(carrier: Carrier, f: &mut fmt::Formatter<W>) -> fmt::Result
    ensures { WritesOnOk W.write_str_gives f.old result (beyond_text carrier) f.new }
{
    match carrier {
        Carrier::Telegram => f.write_str(", of which packet 255 needs 8"),
        Carrier::Message(way) => {
            let least = frame_bits(way);
            write!(
                f,
                ": the last packet is followed by 0 to 7 bits, any other by at least {least}"
            )
        }
    }
}

/// Writes into how many bits a packet has to fit, and what they have to hold besides.
#[tactic(auto, using(std::proofs::Common::append_assoc), unfolding(crate::specs::Words::room_text))]
fn write_room<W: fmt::Write>(
    carrier: Carrier,
    room: usize,
    f: &mut fmt::Formatter<W>,
) -> fmt::Result
    ensures { WritesOnOk W.write_str_gives f.old result (room_text carrier room) f.new }
{
    write!(f, " into the {room} bits that are left")?;
    write_beyond(carrier, f)
}

/// Writes how many bits are left of a packet of this number.
#[tactic(auto, using(std::proofs::Common::append_assoc), unfolding(crate::specs::Words::left_text))]
fn write_left<W: fmt::Write>(nid: u8, len: usize, f: &mut fmt::Formatter<W>) -> fmt::Result
    ensures { WritesOnOk W.write_str_gives f.old result (left_text nid len) f.new }
{
    if len == 1 {
        return write!(f, " the 1 bit that is left of packet {nid}");
    }
    write!(f, " the {len} bits that are left of packet {nid}")
}

impl Refusal {
    /// The numbers of the variable that begin with the bits up to the refused one: the least and the greatest.
    pub fn block(&self) -> (u64, u64)
        ensures low { result.0 ≡ low_of self.now }
        ensures high { result.1 ≡ high_of self.now }
    {
        let rest = self.var.width() - self.count;
        let low = self.bits << rest;
        let high = low + ((1 << rest) - 1);
        (low, high)
    }

    /// Writes the numbers that begin with the bits, which are several.
    #[tactic(auto, using(std::proofs::Common::append_assoc), unfolding(crate::specs::Words::span_text))]
    fn write_span<W: fmt::Write>(&self, f: &mut fmt::Formatter<W>) -> fmt::Result
        ensures { WritesOnOk W.write_str_gives f.old result (span_text self.now) f.new }
    {
        let (low, high) = self.block();
        write!(f, " from {low} to {high}")?;
        write_there(self.number, f)
    }

    /// Writes which numbers the variable admits.
    #[tactic(auto, unfolding(crate::specs::Words::admitted_text))]
    fn write_admitted<W: fmt::Write>(&self, f: &mut fmt::Formatter<W>) -> fmt::Result
        ensures { WritesOnOk W.write_str_gives f.old result (admitted_text self.now) f.new }
    {
        let var = self.var;
        write!(f, "{var} admits ")?;
        write_ranges(var.ranges(), f)
    }

    /// Writes that none of the numbers fits that begin with the bits, which are several.
    #[tactic(auto, using(std::proofs::Common::append_assoc), unfolding(crate::specs::Words::none_fits_text))]
    fn write_none_fits<W: fmt::Write>(&self, label: &str, f: &mut fmt::Formatter<W>) -> fmt::Result
        ensures { WritesOnOk W.write_str_gives f.old result (none_fits_text label.now self.now) f.new }
    {
        write!(f, "no {label}")?;
        self.write_span(f)?;
        f.write_str(" fits")
    }

    /// Writes that none of the numbers fits that begin with the bits.
    #[tactic(auto, using(std::proofs::Common::append_assoc), unfolding(crate::specs::Words::unfit_text))]
    fn write_unfit<W: fmt::Write>(&self, label: &str, f: &mut fmt::Formatter<W>) -> fmt::Result
        ensures { WritesOnOk W.write_str_gives f.old result (unfit_text label.now self.now) f.new }
    {
        let (low, high) = self.block();
        if low == high {
            return write!(f, "{label} {low} doesn't fit");
        }
        self.write_none_fits(label, f)
    }

    /// Writes that a message has none of these packets.
    #[tactic(auto, using(std::proofs::Common::append_assoc), unfolding(crate::specs::Words::no_packet_text))]
    fn write_no_packet<W: fmt::Write>(&self, f: &mut fmt::Formatter<W>) -> fmt::Result
        ensures { WritesOnOk W.write_str_gives f.old result (no_packet_text self.now) f.new }
    {
        let (low, high) = self.block();
        if low == high {
            return write!(f, "a message has no packet {low}");
        }
        f.write_str("a message has no packet")?;
        self.write_span(f)
    }

    /// Writes that the packet of this number has none of these lengths, which are several.
    #[tactic(auto, using(std::proofs::Common::append_assoc), unfolding(crate::specs::Words::no_lengths_text))]
    fn write_no_lengths<W: fmt::Write>(&self, nid: u8, f: &mut fmt::Formatter<W>) -> fmt::Result
        ensures { WritesOnOk W.write_str_gives f.old result (no_lengths_text nid self.now) f.new }
    {
        let (low, high) = self.block();
        write!(f, "packet {nid} has no length of {low} to {high} bits")
    }

    /// Writes that the packet of this number has none of these lengths.
    #[tactic(auto, using(std::proofs::Common::append_assoc), unfolding(crate::specs::Words::no_length_text))]
    fn write_no_length<W: fmt::Write>(&self, nid: u8, f: &mut fmt::Formatter<W>) -> fmt::Result
        ensures { WritesOnOk W.write_str_gives f.old result (no_length_text nid self.now) f.new }
    {
        let (low, high) = self.block();
        if low == high {
            return write!(f, "packet {nid} has no length of {low} bits");
        }
        self.write_no_lengths(nid, f)?;
        write_there(self.number, f)
    }

    /// Writes which lengths a message of this number has.
    #[tactic(auto, using(std::proofs::Common::append_assoc), unfolding(crate::specs::Words::message_text))]
    fn write_message<W: fmt::Write>(
        &self,
        lengths: &[(u64, u64)],
        nid: u8,
        f: &mut fmt::Formatter<W>,
    ) -> fmt::Result
        ensures { WritesOnOk W.write_str_gives f.old result (message_text self.now lengths.now nid) f.new }
    {
        write!(f, "message {nid} has ")?;
        write_ranges(lengths, f)?;
        f.write_str(" bytes")?;
        write_not(self.number, f)
    }

    /// Writes that the variable admits other numbers.
    #[tactic(auto, using(std::proofs::Common::append_assoc), unfolding(crate::specs::Words::spare_text))]
    fn write_spare<W: fmt::Write>(&self, f: &mut fmt::Formatter<W>) -> fmt::Result
        ensures { WritesOnOk W.write_str_gives f.old result (spare_text self.now) f.new }
    {
        self.write_admitted(f)?;
        write_not(self.number, f)
    }

    /// Writes why none of these packets may come where this many bits are left.
    #[tactic(auto, using(std::proofs::Common::append_assoc), unfolding(crate::specs::Words::number_text))]
    fn write_number<W: fmt::Write>(
        &self,
        carrier: Carrier,
        room: usize,
        f: &mut fmt::Formatter<W>,
    ) -> fmt::Result
        ensures { WritesOnOk W.write_str_gives f.old result (number_text self.now carrier room self.now.cause) f.new }
    {
        match self.cause {
            Cause::Spare => self.write_no_packet(f),
            Cause::Unfit(_) => {
                self.write_unfit("packet", f)?;
                write_room(carrier, room, f)
            }
        }
    }

    /// Writes why the packet of this number has none of these lengths where this many bits are left.
    #[tactic(auto, using(std::proofs::Common::append_assoc), unfolding(crate::specs::Words::length_text))]
    fn write_length<W: fmt::Write>(
        &self,
        carrier: Carrier,
        nid: u8,
        room: usize,
        f: &mut fmt::Formatter<W>,
    ) -> fmt::Result
        ensures { WritesOnOk W.write_str_gives f.old result (length_text self.now carrier nid room self.now.cause) f.new }
    {
        match self.cause {
            Cause::Spare => {
                self.write_no_length(nid, f)?;
                write_nearest(self.below, self.above, f)
            }
            Cause::Unfit(_) => {
                self.write_unfit(self.var.name(), f)?;
                write_room(carrier, room, f)?;
                write_nearest(self.below, self.above, f)
            }
        }
    }

    /// Writes why none of these numbers may come where this many bits of a packet of this number are left.
    #[tactic(auto, using(std::proofs::Common::append_assoc), unfolding(crate::specs::Words::row_text))]
    fn write_row<W: fmt::Write>(
        &self,
        nid: u8,
        len: usize,
        f: &mut fmt::Formatter<W>,
    ) -> fmt::Result
        ensures { WritesOnOk W.write_str_gives f.old result (row_text self.now nid len self.now.cause) f.new }
    {
        match self.cause {
            Cause::Spare => self.write_spare(f),
            Cause::Unfit(_) => {
                self.write_unfit(self.var.name(), f)?;
                write_left(nid, len, f)?;
                write_nearest(self.below, self.above, f)
            }
        }
    }
}

impl fmt::Display for Refusal {
    ghost output = { λ r. Some (words r) };

    #[tactic(auto, using(std::proofs::Common::append_assoc), unfolding(crate::specs::Words::words, crate::specs::Words::words_at))]
    fn fmt<W: fmt::Write>(&self, f: &mut fmt::Formatter<W>) -> fmt::Result {
        match &self.here {
            Here::MessageLength(way, nid) => {
                self.write_message(message_ranges(*way, *nid), *nid, f)
            }
            Here::Any => self.write_spare(f),
            Here::PacketNumber(carrier, room) => self.write_number(*carrier, *room, f),
            Here::PacketLength(carrier, nid, room) => self.write_length(*carrier, *nid, *room, f),
            Here::Row(nid, _, len) => self.write_row(*nid, *len, f),
        }
    }
}
