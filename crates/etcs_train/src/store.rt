//! The packets of a message, as its reader makes them.

ghost use Rattle.std.specs.Prelude.{[], ⊤};

use etcs_bits::BitSlice;
use etcs_sequence::{ListStore, PacketList, PacketSink, PacketStore};
use etcs_track::TrainPacket;
use std::alloc::AllocError;

/// The packets of a message to the track: a list of them, as a type without parameters.
#[derive(Drop)]
pub struct TrainStore {
    packets: PacketList<TrainPacket>,
}

impl PacketSink for TrainStore {
    ghost use Rattle.etcs_tables.specs.declared.row.Way.TheVariants.{ToTrack};
    ghost use Rattle.etcs_track.specs.TrackPackets.{track_form};
    ghost use Rattle.etcs_sequence.specs.Held.{list_holds};

    ghost WAY = { ToTrack };

    ghost holds = { λ s. list_holds track_form s.packets.packets.items s.packets.numbers.items s.packets.bits };

    ghost before = { λ s. [] };

    ghost fails = { ⊤ };

    #[inline(always)]
    fn marker(&mut self, number: u8) -> Result<(), AllocError> {
        self.packets.marker(number)
    }

    #[inline]
    fn keep(&mut self, nid: u8, dir: u8, body: &BitSlice<'_>) -> Result<(), AllocError> {
        self.packets.keep(nid, dir, body)
    }

    #[inline(always)]
    fn whole(
        &mut self,
        nid: u8,
        dir: u8,
        piece: &[u8],
        at: usize,
        len: usize,
    ) -> Result<bool, AllocError> {
        self.packets.whole(nid, dir, piece, at, len)
    }
}

impl PacketStore for TrainStore {
    #[inline(always)]
    fn number(&mut self, number: u64) -> Result<(), AllocError> {
        self.packets.number(number)
    }

    #[inline(always)]
    fn bits(&mut self, slice: &BitSlice<'_>) -> Result<(), AllocError> {
        self.packets.bits(slice)
    }

    #[inline(always)]
    fn typed(&mut self, nid: u8, dir: u8) -> Result<(), AllocError> {
        self.packets.typed(nid, dir)
    }

    #[inline(always)]
    fn kept(&mut self, nid: u8, dir: u8) -> Result<(), AllocError> {
        self.packets.kept(nid, dir)
    }
}

impl ListStore<TrainPacket> for TrainStore {
    ghost use Rattle.std.specs.Prelude.{◌≡◌, [], refl};
    ghost use Rattle.etcs_track.specs.TrackPackets.{track_form};
    ghost use Rattle.etcs_sequence.specs.Held.{list_holds};

    ghost list = { λ s. s.packets };

    #[inline(always)]
    fn over(packets: PacketList<TrainPacket>) -> TrainStore
        requires packets { packets.packets.items ≡ [] }
        requires numbers { packets.numbers.items ≡ [] }
        requires bits { packets.bits ≡ [] }
        ensures { list_holds track_form result.packets.packets.items result.packets.numbers.items result.packets.bits [] [] [] }
    {
        TrainStore { packets }
    }

    #[inline(always)]
    fn list(&self) -> &PacketList<TrainPacket> {
        &self.packets
    }

    #[inline(always)]
    fn into_list(self) -> PacketList<TrainPacket> {
        let TrainStore { packets } = self;
        packets
    }

    ghost way_is = { refl };

    ghost listed = { λ s vs f k h. h };
}
