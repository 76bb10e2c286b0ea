//! The packets of a message, as its reader makes them.

ghost use Rattle.std.specs.Prelude.{[], ⊤};

use etcs_bits::BitSlice;
use etcs_packets::Packet;
use etcs_sequence::{ListStore, PacketList, PacketSink, PacketStore};
use std::alloc::AllocError;

/// The packets of a message to the train: a list of them, as a type without parameters.
#[derive(Drop)]
pub struct RadioStore {
    packets: PacketList<Packet>,
}

impl PacketSink for RadioStore {
    ghost use Rattle.etcs_tables.specs.declared.row.Way.TheVariants.{ToTrain};
    ghost use Rattle.etcs_packets.specs.PacketValues.{form};
    ghost use Rattle.etcs_sequence.specs.Held.{list_holds};

    ghost WAY = { ToTrain };

    ghost holds = { λ s. list_holds form s.packets.packets.items s.packets.numbers.items s.packets.bits };

    ghost before = { λ s. [] };

    ghost fails = { ⊤ };

    #[inline(always)]
    fn marker(&mut self, number: u8) -> Result<(), AllocError> {
        self.packets.marker(number)
    }

    #[inline]
    fn keep(&mut self, nid: u8, dir: u8, body: &BitSlice<'_>) -> Result<(), AllocError> {
        self.packets.keep(nid, dir, body)
    }

    #[inline(always)]
    fn whole(
        &mut self,
        nid: u8,
        dir: u8,
        piece: &[u8],
        at: usize,
        len: usize,
    ) -> Result<bool, AllocError> {
        self.packets.whole(nid, dir, piece, at, len)
    }
}

impl PacketStore for RadioStore {
    #[inline(always)]
    fn number(&mut self, number: u64) -> Result<(), AllocError> {
        self.packets.number(number)
    }

    #[inline(always)]
    fn bits(&mut self, slice: &BitSlice<'_>) -> Result<(), AllocError> {
        self.packets.bits(slice)
    }

    #[inline(always)]
    fn typed(&mut self, nid: u8, dir: u8) -> Result<(), AllocError> {
        self.packets.typed(nid, dir)
    }

    #[inline(always)]
    fn kept(&mut self, nid: u8, dir: u8) -> Result<(), AllocError> {
        self.packets.kept(nid, dir)
    }
}

impl ListStore<Packet> for RadioStore {
    ghost use Rattle.std.specs.Prelude.{◌≡◌, [], refl};
    ghost use Rattle.etcs_packets.specs.PacketValues.{form};
    ghost use Rattle.etcs_sequence.specs.Held.{list_holds};

    ghost list = { λ s. s.packets };

    #[inline(always)]
    fn over(packets: PacketList<Packet>) -> RadioStore
        requires packets { packets.packets.items ≡ [] }
        requires numbers { packets.numbers.items ≡ [] }
        requires bits { packets.bits ≡ [] }
        ensures { list_holds form result.packets.packets.items result.packets.numbers.items result.packets.bits [] [] [] }
    {
        RadioStore { packets }
    }

    #[inline(always)]
    fn list(&self) -> &PacketList<Packet> {
        &self.packets
    }

    #[inline(always)]
    fn into_list(self) -> PacketList<Packet> {
        let RadioStore { packets } = self;
        packets
    }

    ghost way_is = { refl };

    ghost listed = { λ s vs f k h. h };
}
