//! A packet to the train, as readers and messages use it.

ghost use Rattle.std.specs.Prelude.{◌≡◌, IfOk};
ghost use Rattle.etcs_tables.specs.declared.row.Way.TheVariants.{ToTrain};
ghost use Rattle.etcs_packets.specs.PacketValues.{form};
ghost use Rattle.etcs_packets.specs.Outcomes.{IsMadeOf};

use crate::any_packet::AnyPacket;
use crate::list::packets;
use crate::packet::Packet;
use crate::typed::{Made, Source, hold};
use crate::{by_number, of_each, pass_by_number, write};
use etcs_bits::{BitSlice, Bits};
use etcs_bodies::Numbers;
use etcs_tables::Way;
use etcs_vars::inner::{VarSink, Variables};
use etcs_vars::{Var, WordSink};
use std::alloc::{AllocError, Global};

/// The typed packet of this number and direction with what a source has after L_PACKET. `None` only if there is none.
#[inline(always)]
fn of_number<S: Source>(alloc: Global, nid: u8, dir: u8, source: &S) -> Made<Packet>
    ensures { IfOk result (λ o. IsMadeOf form ToTrain nid dir (S.left source.now) o) }
{
    packets!(by_number, Way::ToTrain, nid, alloc, dir, source)
}

impl AnyPacket for Packet {
    ghost use Rattle.etcs_tables.specs.declared.row.Way.TheVariants.{ToTrain};
    ghost use Rattle.etcs_packets.specs.PacketValues.{form};
    ghost use Rattle.etcs_packets.specs.laws.OnePacket.{one_packet};

    const WAY: Way = Way::ToTrain;

    ghost WAY = { ToTrain };

    ghost form = { form };

    ghost one = { one_packet };

    fn hold(&self) {
        packets!(
            of_each,
            self,
            [marker => { marker.number(); }]
            packet => hold(packet),
            packet => { packet.nid(); }
        )
    }

    fn nid(&self) -> u8 {
        self.nid()
    }

    #[inline(always)]
    fn dir(&self) -> Option<u8> {
        self.dir()
    }

    fn kept_bits(&self) -> Option<BitSlice<'_>> {
        match self {
            Packet::Other(kept) => Some(kept.body()),
            _ => None,
        }
    }

    fn send_body<S: VarSink>(&self, out: &mut S) -> Result<(), AllocError> {
        packets!(
            of_each,
            self,
            [marker => out.send(&[(Var::NID_VBCMK, u64::from(marker.number()))])]
            packet => packet.send(out),
            _ => out.send(&[])
        )
    }

    fn bit_len(&self) -> usize {
        self.bit_len()
    }

    #[inline]
    fn append(&self, out: &mut WordSink<'_>) {
        write::append_packet(self, out);
    }

    fn of_fields(alloc: Global, nid: u8, dir: u8, fields: &[u64]) -> Made<Packet> {
        of_number(alloc, nid, dir, &fields)
    }

    #[inline(always)]
    fn of_bits(alloc: Global, nid: u8, dir: u8, body: BitSlice<'_>) -> Made<Packet> {
        of_number(alloc, nid, dir, &body)
    }

    fn of_source<S: Source>(alloc: Global, nid: u8, dir: u8, source: &S) -> Made<Packet> {
        of_number(alloc, nid, dir, source)
    }

    #[inline(always)]
    fn pass<L: Numbers, S: VarSink>(
        nid: u8,
        numbers: &mut L,
        out: &mut S,
    ) -> Result<Option<bool>, AllocError> {
        packets!(pass_by_number, nid, numbers, out)
    }

    fn of_kept(nid: u8, dir: u8, body: Bits) -> Packet {
        Packet::Other(etcs_flat::inner::other(nid, dir, body))
    }

    fn of_marker(number: u8) -> Option<Packet> {
        let marker = etcs_flat::inner::marker(number).ok()?;
        Some(Packet::VbcMarker(marker))
    }

    fn try_clone(&self, alloc: Global) -> Result<Packet, AllocError> {
        self.try_clone(alloc)
    }
}
