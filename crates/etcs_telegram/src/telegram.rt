//! Telegrams.

ghost use Rattle.std.specs.Prelude.{◌≡◌, ◌≢◌, ℕ, ◌+◌, ◌-◌, ◌≤◌, ◌<◌, ◌⊎◌, length, map, replicate, true, All, IfOk, IfErr, OnOk, IfSome, OnSome, IfNone};
ghost use Rattle.etcs_packets.specs.PacketValues.{packet_value, IsPacket, IsMade};
ghost use Rattle.etcs_telegram.specs.Telegrams.{packet_room, closed_bits};

use crate::header::Header;
use crate::size::Size;
use etcs_bits::{BitSlice, Bits};
use etcs_bodies::ListOf;
use etcs_packets::Packet;
use etcs_packets::inner::{copy_all, room_left};
use etcs_tables::CLOSING_BITS;
use etcs_vars::BuildFault;
use std::alloc::{AllocError, Global};
use std::marker::Model;

/// A balise telegram: header, packets, NID_PACKET 255, FILL up to the user bits, and zeros up to a whole number of
/// bytes (SUBSET-026, 8; the user bits: SUBSET-036).
#[derive(Debug, Drop, PartialEq, Eq)]
pub struct Telegram {
    pub(crate) size: Size,
    pub(crate) header: Header,
    pub(crate) packets: ListOf<Packet>,
    pub(crate) fill: Bits,
}

impl Model for Telegram {
    ghost use Rattle.etcs_telegram.specs.Telegrams.{TelegramContent, IsTelegram};

    ghost Value = { TelegramContent };

    ghost view = { λ t. record { size = t.size; header = t.header; packets = t.packets; fill = t.fill } };

    ghost invariant = { λ t. IsTelegram (record { size = t.size; header = t.header; packets = t.packets; fill = t.fill }) };

    ghost inverse = { λ t. record { size = t.size; header = t.header; packets = t.packets; fill = t.fill } };
}

impl Telegram {
    ghost use Rattle.etcs_telegram.specs.Telegrams.{TelegramReads, IsTelegram, telegram_value};
    ghost use Rattle.etcs_telegram.specs.Writing.{telegram_reading};

    /// A telegram with these parts, the packets in this order, whose FILL bits are all ones. It succeeds only if the
    /// packets and the 8 bits of NID_PACKET 255 take at most 160 bits in a short telegram, 780 in a long one; FILL is
    /// the rest of these bits. It takes memory for the FILL bits alone.
    ///
    /// # Errors
    ///
    /// With the same packets:
    ///
    /// - [`BuildFault::TooLong`] exactly if they don't fit into these bits;
    /// - [`BuildFault::Memory`] if they do, and it is out of memory for the FILL bits.
    pub fn new(
        alloc: Global,
        size: Size,
        header: Header,
        packets: Vec<Packet>,
    ) -> Result<Telegram, (BuildFault, Vec<Packet>)>
        ensures ok { IfOk result (λ t. t ≡ record { size = size; header = header; packets = packets.items; fill = replicate (packet_room size - closed_bits packets.items) true }) }
        ensures fits { OnOk result (closed_bits packets.items ≤ packet_room size) }
        ensures fault { IfErr result (λ e. ((e.0 ≡ BuildFault.TooLong) × (packet_room size < closed_bits packets.items)) ⊎ ((e.0 ≡ BuildFault.Memory) × (closed_bits packets.items ≤ packet_room size))) }
        ensures packets { IfErr result (λ e. e.1.items ≡ packets.items) }
    {
        let Some(left) = fill_left(size, packets.as_slice()) else {
            return Err((BuildFault::TooLong, packets));
        };
        header.admitted();
        match ones(alloc, left) {
            Ok(fill) => Ok(Telegram {
                size,
                header,
                packets: ListOf::from_vec(packets),
                fill,
            }),
            Err(_) => Err((BuildFault::Memory, packets)),
        }
    }

    /// A telegram with these parts, the packets in this order. Succeeds exactly if the packets, the 8 bits of
    /// NID_PACKET 255 and FILL take exactly 160 bits in a short telegram, 780 in a long one. Takes no memory.
    ///
    /// # Errors
    ///
    /// With the same packets and the same bits:
    ///
    /// - [`BuildFault::TooLong`] if the packets and NID_PACKET 255 take more than these bits;
    /// - [`BuildFault::FillLength`] if they don't, and FILL isn't exactly the rest of these bits.
    pub fn with_fill(
        size: Size,
        header: Header,
        packets: Vec<Packet>,
        fill: Bits,
    ) -> Result<Telegram, (BuildFault, Vec<Packet>, Bits)>
        ensures ok { IfOk result (λ t. t ≡ record { size = size; header = header; packets = packets.items; fill = fill }) }
        ensures fits { OnOk result (closed_bits packets.items + length fill ≡ packet_room size) }
        ensures fault { IfErr result (λ e. ((e.0 ≡ BuildFault.TooLong) × (packet_room size < closed_bits packets.items)) ⊎ ((e.0 ≡ BuildFault.FillLength) × (closed_bits packets.items ≤ packet_room size) × (closed_bits packets.items + length fill ≢ packet_room size))) }
        ensures packets { IfErr result (λ e. e.1.items ≡ packets.items) }
        ensures fill { IfErr result (λ e. e.2 ≡ fill) }
    {
        let Some(left) = fill_left(size, packets.as_slice()) else {
            return Err((BuildFault::TooLong, packets, fill));
        };
        if fill.len() != left {
            return Err((BuildFault::FillLength, packets, fill));
        }
        header.admitted();
        Ok(Telegram {
            size,
            header,
            packets: ListOf::from_vec(packets),
            fill,
        })
    }

    /// The telegram's size.
    pub fn size(&self) -> Size
        ensures { result ≡ self.now.size }
    {
        self.size
    }

    /// The header.
    pub fn header(&self) -> &Header
        ensures { result.now ≡ self.now.header }
    {
        &self.header
    }

    /// The packets in the order of sending, without NID_PACKET 255.
    pub fn packets(&self) -> &[Packet]
        ensures { result.now ≡ self.now.packets }
    {
        self.packets.as_slice()
    }

    /// The FILL bits after NID_PACKET 255: with no packets 152 of a short telegram, 772 of a long one.
    pub fn fill(&self) -> BitSlice<'_>
        ensures { result ≡ self.now.fill }
    {
        self.fill.as_slice()
    }

    /// Its size, header, packets in the order of sending, and FILL bits, as [`Telegram::with_fill`] takes them. Takes
    /// no memory.
    pub fn into_parts(self) -> (Size, Header, Vec<Packet>, Bits)
        ensures size { result.0 ≡ self.size }
        ensures header { result.1 ≡ self.header }
        ensures packets { result.2.items ≡ self.packets }
        ensures fill { result.3 ≡ self.fill }
    {
        let Telegram {
            size,
            header,
            packets,
            fill,
        } = self;
        (size, header, packets.into_vec(), fill)
    }

    /// A copy. If it succeeds, it is an equal telegram.
    ///
    /// # Errors
    ///
    /// `AllocError` if out of memory.
    pub fn try_clone(&self, alloc: Global) -> Result<Telegram, AllocError>
        ensures { IfOk result (λ t. t ≡ self.now) }
    {
        let packets = copy_all(alloc, self.packets.as_slice())?;
        let fill = self.fill.try_clone(alloc)?;
        Ok(Telegram {
            size: self.size,
            header: self.header,
            packets: ListOf::from_vec(packets),
            fill,
        })
    }

    /// For callers: the telegram has a reading.
    pub(crate) fn readable(&self)
        ensures reads { TelegramReads (telegram_value self.now) (telegram_reading (telegram_value self.now)) }
        ensures value { IsTelegram self.now }
    {
        let _ = &self.size;
    }
}

/// How many bits these packets and NID_PACKET 255 leave to FILL, or `None` if they don't fit.
fn fill_left(size: Size, packets: &[Packet]) -> Option<usize>
    ensures left { IfSome result (λ left. closed_bits packets.now + left ≡ packet_room size) }
    ensures made { OnSome result (All IsMade packets.now) }
    ensures packets { OnSome result (All IsPacket (map packet_value packets.now)) }
    ensures none { IfNone result (packet_room size < closed_bits packets.now) }
{
    room_left(size.packet_room() - CLOSING_BITS, packets)
}

/// This many bits that are all ones.
fn ones(alloc: Global, len: usize) -> Result<Bits, AllocError>
    ensures { IfOk result (λ b. b ≡ replicate len true) }
{
    let mut bits = Bits::new(alloc);
    let mut left = len;
    while left > 0 {
        let width = left.min(64);
        left -= width;
        bits.push_number(width, u64::MAX >> (64 - width))?;
    }
    Ok(bits)
}
