//! Where packets come from that are written.

ghost use Rattle.std.specs.Prelude.{◌≡◌, ◌+◌, ◌-◌, ◌≤◌, ◌<◌, ◌^◌, length, map, fold, IfOk, IfSome, IsSome, IsSomeAnd};
ghost use Rattle.etcs_bits.specs.Bits.{bits, part};
ghost use Rattle.etcs_rows.specs.Frames.{way_of};
ghost use Rattle.etcs_packets.specs.PacketValues.{PacketValue};
ghost use Rattle.etcs_packet_text.specs.Fronts.{Begins};

use crate::packet_page::{PacketPage, write_packets};
use crate::written::Written;
use etcs_bits::BitSlice;
use etcs_packets::inner::AnyPacket;
use etcs_rows::inner::Carrier;
use etcs_sequence::inner::{Run, bits_at, left_by_lengths, take_run};
use std::alloc::AllocError;
use std::marker::PhantomData;

/// The packets of an item, and the bits that follow what closes them: FILL or PADDING. Each implementation proves the
/// clauses.
pub trait PacketSource {
    ghost use Rattle.std.specs.Prelude.{List, Bool};
    ghost use Rattle.etcs_tables.specs.declared.row.Way.{Way};
    ghost use Rattle.etcs_packets.specs.PacketValues.{PacketValue};

    /// Which way the packets go.
    ghost WAY: { Way };

    /// It has these packets, and these bits follow.
    ghost has: { Self → List PacketValue → List Bool → Type 0 };

    /// It has packets.
    ghost sure: { Self → Type 0 };

    /// The bits that follow, if as many do. `None` only if it has no packets.
    fn after(&self) -> Option<BitSlice<'_>>
        ensures same { IfSome result (λ b. (vs : List PacketValue) (c : List Bool) → has self.now vs c → length c ≡ length b → c ≡ b) }
        ensures sure { sure self.now → IsSomeAnd result (λ b. (vs : List PacketValue) (c : List Bool) → has self.now vs c → c ≡ b) };

    /// Writes the packets, and returns the bits that follow. `None` only if it has no packets; a part of them may then be
    /// written.
    ///
    /// # Errors
    ///
    /// `AllocError` if out of memory.
    fn write<W: PacketPage>(&self, page: &mut W) -> Result<Option<BitSlice<'_>>, AllocError>
        ensures some { IfOk result (λ o. IfSome o (λ b. (vs : List PacketValue) × has self.now vs b × (page.new ≡ fold (W.and_packet WAY) page.old vs))) }
        ensures begins { Begins (W.text page.old) (W.text page.new) }
        ensures sure { sure self.now → IfOk result (λ o. IsSome o) };
}

/// Packets that are values, and the bits that follow.
#[derive(Drop)]
pub struct Given<'a, P: AnyPacket> {
    pub packets: &'a [P],
    pub after: BitSlice<'a>,
}

impl<'a, P: AnyPacket> PacketSource for Given<'a, P> {
    ghost use Rattle.std.specs.Prelude.{◌≡◌, ⊤, map};

    ghost WAY = { P.WAY };

    ghost has = { λ s vs c. (vs ≡ map (λ p. (P.form p).value) s.packets.now) × (c ≡ s.after) };

    ghost sure = { λ s. ⊤ };

    fn after(&self) -> Option<BitSlice<'_>> {
        Some(self.after.all())
    }

    fn write<W: PacketPage>(&self, page: &mut W) -> Result<Option<BitSlice<'_>>, AllocError> {
        write_packets(self.packets, page)?;
        Ok(Some(self.after.all()))
    }
}

/// The packets that the bits of a room spell with what closes them, if they do.
#[derive(Drop)]
pub struct InRoom<'a, P: AnyPacket> {
    carrier: Carrier,
    room: usize,
    piece: &'a [u8],
    at: usize,
    of: PhantomData<P>,
    ghost way: { way_of carrier ≡ P.WAY },
    ghost inside: { at + room ≤ length (bits piece.now) },
    ghost small: { length (bits piece.now) < 2 ^ 64 },
    ghost room_most: { room ≤ 8191 },
}

impl<'a, P: AnyPacket> InRoom<'a, P> {
    /// The packets in a room of this many bits of a piece from bit `at` on.
    #[inline(always)]
    pub fn new(carrier: Carrier, room: usize, piece: &'a [u8], at: usize) -> InRoom<'a, P>
        requires way { way_of carrier ≡ P.WAY }
        requires inside { at + room ≤ length (bits piece.now) }
        requires small { length (bits piece.now) < 2 ^ 64 }
        requires room { room ≤ 8191 }
        ensures carrier { result.carrier ≡ carrier }
        ensures room { result.room ≡ room }
        ensures piece { result.piece.now ≡ piece.now }
        ensures at { result.at ≡ at }
    {
        InRoom {
            carrier,
            room,
            piece,
            at,
            of: PhantomData,
        }
    }

    /// The last bits of the room.
    #[inline(always)]
    fn last(&self, left: usize) -> BitSlice<'a>
        requires { left ≤ self.now.room }
        ensures { result ≡ part (self.now.at + (self.now.room - left)) left (bits self.now.piece.now) }
    {
        bits_at(self.piece, self.at + (self.room - left), left)
    }
}

impl<'a, P: AnyPacket> PacketSource for InRoom<'a, P> {
    ghost use Rattle.etcs_bits.specs.Bits.{bits};
    ghost use Rattle.etcs_packet_text.specs.Rooms.{RoomHas};

    ghost WAY = { P.WAY };

    ghost has = { λ s. RoomHas s.carrier s.room (bits s.piece.now) s.at };

    ghost sure = { λ s. ⊥ };

    #[inline(always)]
    fn after(&self) -> Option<BitSlice<'_>> {
        let left = left_by_lengths(self.carrier, self.room, self.piece, self.at)?;
        Some(self.last(left))
    }

    #[inline(always)]
    fn write<W: PacketPage>(&self, page: &mut W) -> Result<Option<BitSlice<'_>>, AllocError> {
        let mut store = Written::<P, W>::on(page.take());
        let run = take_run(&mut store, self.carrier, self.room, self.piece, self.at);
        *page = store.into_page();
        match run {
            Some(Run::All(left)) => Ok(Some(self.last(left))),
            _ => Ok(None),
        }
    }
}
