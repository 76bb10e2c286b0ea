//! Packets that are made as they are read.

ghost use Rattle.std.specs.Prelude.{◌≡◌, ℕ, Bool, List, [], ◌∷◌, ◌++◌, ⊤, OnOk, map, All};
ghost use Rattle.etcs_sequence.specs.Held.{list_holds};

use crate::pieces::bits_at;
use crate::store::{PacketSink, PacketStore};
use etcs_bits::inner::append;
use etcs_bits::{BitSlice, Bits};
use etcs_packets::inner::AnyPacket;
use std::alloc::{AllocError, Global};
use std::mem;

/// The packets that were read, and the numbers or bits of the one that is being read. As a [`PacketStore`] it holds
/// exactly these packets, numbers and bits.
#[derive(Drop)]
pub struct PacketList<P: AnyPacket> {
    pub alloc: Global,
    pub packets: Vec<P>,
    /// The numbers after L_PACKET of the typed packet that is being read.
    pub numbers: Vec<u64>,
    /// The bits after L_PACKET of the packet that is being kept, or those of FILL.
    pub bits: Bits,
}

impl<P: AnyPacket> PacketList<P> {
    /// A list of no packets, numbers or bits. Takes no memory.
    pub fn new(alloc: Global) -> PacketList<P>
        ensures packets { result.packets.items ≡ [] }
        ensures numbers { result.numbers.items ≡ [] }
        ensures bits { result.bits ≡ [] }
    {
        PacketList {
            alloc,
            packets: Vec::new(alloc),
            numbers: Vec::new(alloc),
            bits: Bits::new(alloc),
        }
    }
}

/// For how many packets there is room once there is one. Few telegrams and messages have more.
const FIRST_ROOM: usize = 8;

/// Puts a packet after the others.
#[inline(always)]
fn put<P: AnyPacket>(packets: &mut Vec<P>, packet: P) -> Result<(), AllocError>
    ensures { OnOk result (packets.new.items ≡ packets.old.items ++ packet ∷ []) }
{
    if packets.is_empty() {
        packets.reserve(FIRST_ROOM)?;
    }
    match packets.push(packet) {
        Ok(()) => Ok(()),
        Err(_) => Err(AllocError),
    }
}

impl<P: AnyPacket> PacketSink for PacketList<P> {
    ghost WAY = { P.WAY };

    ghost holds = { λ s. list_holds P.form s.packets.items s.numbers.items s.bits };

    ghost before = { λ s. [] };

    ghost fails = { ⊤ };

    fn marker(&mut self, number: u8) -> Result<(), AllocError> {
        match P::of_marker(number) {
            Some(packet) => put(&mut self.packets, packet),
            None => Ok(()),
        }
    }

    fn keep(&mut self, nid: u8, dir: u8, body: &BitSlice<'_>) -> Result<(), AllocError> {
        let bits = Bits::from_slice(self.alloc, body.all())?;
        put(&mut self.packets, P::of_kept(nid, dir, bits))
    }

    #[inline(always)]
    fn whole(
        &mut self,
        nid: u8,
        dir: u8,
        piece: &[u8],
        at: usize,
        len: usize,
    ) -> Result<bool, AllocError> {
        match P::of_bits(self.alloc, nid, dir, bits_at(piece, at, len)) {
            Ok(Some(packet)) => {
                packet.hold();
                put(&mut self.packets, packet)?;
                Ok(true)
            }
            Ok(None) => Ok(false),
            Err(error) => Err(error),
        }
    }
}

impl<P: AnyPacket> PacketStore for PacketList<P> {
    #[inline]
    fn number(&mut self, number: u64) -> Result<(), AllocError> {
        match self.numbers.push(number) {
            Ok(()) => Ok(()),
            Err(_) => Err(AllocError),
        }
    }

    fn bits(&mut self, slice: &BitSlice<'_>) -> Result<(), AllocError> {
        match append(&mut self.bits, slice) {
            Ok(()) => Ok(()),
            Err(error) => Err(error),
        }
    }

    fn typed(&mut self, nid: u8, dir: u8) -> Result<(), AllocError> {
        match P::of_fields(self.alloc, nid, dir, self.numbers.as_slice()) {
            Ok(Some(packet)) => {
                packet.hold();
                put(&mut self.packets, packet)?;
                self.numbers.clear();
                Ok(())
            }
            Ok(None) => unreachable!(),
            Err(error) => Err(error),
        }
    }

    fn kept(&mut self, nid: u8, dir: u8) -> Result<(), AllocError> {
        let body = mem::replace(&mut self.bits, Bits::new(self.alloc));
        put(&mut self.packets, P::of_kept(nid, dir, body))
    }
}
