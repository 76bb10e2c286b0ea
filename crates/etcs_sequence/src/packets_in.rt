//! Packets one after another in bytes of the caller's.

ghost use Rattle.std.specs.Prelude.{◌≡◌, ◌≤◌, length};
ghost use Rattle.std.specs.Iterator.{YieldsFirst, item_count};
ghost use Rattle.etcs_sequence.specs.Refs.{BeginsWithPacket, ArePackets, bits_ahead, refs};

use crate::packet_ref::PacketRef;
use crate::pieces::{cut_in, number_in};
use etcs_bits::BitSlice;
use etcs_tables::{MARKER_BITS, Way, head_bits};
use std::marker::Model;

/// The packets in a telegram's or a message's bytes, in order (SUBSET-026, 7.4): an iterator each of whose items is the
/// first packet of what is left, which it takes off; `None` exactly if nothing is left. They are read from these bytes
/// one by one: nothing is copied, and no memory is taken.
#[derive(Debug, Drop)]
pub struct Packets<'a> {
    /// The bits from the next packet on, and what follows the last.
    rest: BitSlice<'a>,
    /// How many packets are still to come.
    left: usize,
}

impl<'a> Model for Packets<'a> {
    ghost use Rattle.std.specs.Prelude.{Bool, List};
    ghost use Rattle.etcs_sequence.specs.Refs.{ArePackets, refs};

    ghost Value = { List (List Bool) };

    ghost view = { λ p. refs p.left p.rest };

    ghost invariant = { λ p. ArePackets p.left p.rest };
}

impl<'a> Packets<'a> {
    /// The first `count` packets in these bits.
    pub(crate) fn new(rest: BitSlice<'a>, count: usize) -> Packets<'a>
        requires { ArePackets count rest }
        ensures { result ≡ refs count rest.entry }
    {
        Packets { rest, left: count }
    }
}

impl<'a> Iterator for Packets<'a> {
    type Item = PacketRef<'a>;

    ghost next_gives = { YieldsFirst (λ s. s) };

    ghost remaining = { item_count (λ s. s) };

    fn next(&mut self) -> Option<PacketRef<'a>> {
        if self.left == 0 {
            return None;
        }
        let len = len_ahead(&self.rest);
        let packet = PacketRef::new(cut_in(&self.rest, 0, len));
        self.rest = cut_in(&self.rest, len, self.rest.len() - len);
        self.left -= 1;
        Some(packet)
    }
}

/// How many bits the packet takes that these begin with: 14 of packet 0, else as many as L_PACKET counts.
fn len_ahead(rest: &BitSlice<'_>) -> usize
    requires { BeginsWithPacket rest.now }
    ensures len { result ≡ bits_ahead rest.now }
    ensures inside { result ≤ length rest.now }
{
    if number_in(rest, 0, 8) == 0 {
        return MARKER_BITS;
    }
    number_in(rest, head_bits(Way::ToTrain), 13) as usize
}
