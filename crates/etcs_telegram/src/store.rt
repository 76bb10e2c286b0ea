//! Where the packets of a telegram go as it is read.

ghost use Rattle.std.specs.Prelude.{[], ⊤};

use etcs_bits::BitSlice;
use etcs_packets::Packet;
use etcs_sequence::{PacketList, PacketSink, PacketStore};
use std::alloc::AllocError;

/// The packets of a telegram that were read, the numbers or bits of the one that is being read, and the bits of FILL.
#[derive(Drop)]
pub struct TelegramStore {
    pub(crate) list: PacketList<Packet>,
}

impl PacketSink for TelegramStore {
    ghost use Rattle.etcs_tables.specs.declared.row.Way.TheVariants.{ToTrain};
    ghost use Rattle.etcs_packets.specs.PacketValues.{form};
    ghost use Rattle.etcs_sequence.specs.Held.{list_holds};

    ghost WAY = { ToTrain };

    ghost holds = { λ s. list_holds form s.list.packets.items s.list.numbers.items s.list.bits };

    ghost before = { λ s. [] };

    ghost fails = { ⊤ };

    #[inline]
    fn marker(&mut self, number: u8) -> Result<(), AllocError> {
        self.list.marker(number)
    }

    #[inline]
    fn keep(&mut self, nid: u8, dir: u8, body: &BitSlice<'_>) -> Result<(), AllocError> {
        self.list.keep(nid, dir, body)
    }

    #[inline(always)]
    fn whole(
        &mut self,
        nid: u8,
        dir: u8,
        piece: &[u8],
        at: usize,
        len: usize,
    ) -> Result<bool, AllocError> {
        self.list.whole(nid, dir, piece, at, len)
    }
}

impl PacketStore for TelegramStore {
    #[inline]
    fn number(&mut self, number: u64) -> Result<(), AllocError> {
        self.list.number(number)
    }

    #[inline]
    fn bits(&mut self, slice: &BitSlice<'_>) -> Result<(), AllocError> {
        self.list.bits(slice)
    }

    #[inline]
    fn typed(&mut self, nid: u8, dir: u8) -> Result<(), AllocError> {
        self.list.typed(nid, dir)
    }

    #[inline]
    fn kept(&mut self, nid: u8, dir: u8) -> Result<(), AllocError> {
        self.list.kept(nid, dir)
    }
}
