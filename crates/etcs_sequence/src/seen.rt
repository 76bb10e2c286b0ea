//! Packets that are seen as they are read, without values of them.

ghost use Rattle.std.specs.Prelude.{◌≡◌, ◌+◌, ◌≤◌, ◌<◌, ◌%◌, ◌^◌, false, [], length, IsTrue, IfOk, OnErr};
ghost use Rattle.etcs_bits.specs.Bits.{bits, part};
ghost use Rattle.etcs_vars.specs.Reading.{Reading, spelled};
ghost use Rattle.etcs_tables.specs.Typed.{IsFramed};
ghost use Rattle.etcs_bodies.specs.Passing.{Begun};

use crate::store::{PacketSink, PacketStore};
use etcs_bits::BitSlice;
use etcs_bodies::Ahead;
use etcs_packets::inner::AnyPacket;
use etcs_tables::{ROW_LIMIT, is_direction};
use etcs_vars::inner::{Nothing, VarSink};
use std::alloc::AllocError;
use std::marker::PhantomData;

/// Sends the variables of the typed packet of this number and direction with these bits of a piece after L_PACKET, without
/// making it, and returns `true`. If it returns `false`, the sink has some variables more; no clause says when.
///
/// Requires that the piece holds the bits, and that a word counts those of the piece.
///
/// # Errors
///
/// That of the sink, whose `failed` then holds.
#[inline(always)]
pub fn pass_whole<P: AnyPacket, S: VarSink>(
    nid: u8,
    dir: u8,
    piece: &[u8],
    at: usize,
    len: usize,
    out: &mut S,
) -> Result<bool, AllocError>
    requires inside { at + len ≤ length (bits piece.now) }
    requires small { length (bits piece.now) < 2 ^ 64 }
    ensures passed { IfOk result (λ b. IsTrue b → (r : Reading) × IsFramed P.WAY nid dir r × (spelled r ≡ part at len (bits piece.now)) × (out.new ≡ S.with out.old r)) }
    ensures begun { IfOk result (λ b. b ≡ false → Begun S.with out.old out.new) }
    ensures err { OnErr result (S.failed out.old out.new) }
{
    if len > ROW_LIMIT || !is_direction(P::WAY, dir) {
        return Ok(false);
    }
    let mut numbers = Ahead::from(piece, at);
    let Some(passed) = P::pass(nid, &mut numbers, out)? else {
        return Ok(false);
    };
    if !passed || numbers.left() != 8 * piece.len() - (at + len) {
        return Ok(false);
    }
    Ok(true)
}

/// How many packets were seen, modulo 2^64, and nothing else of them. Takes no memory: as a [`PacketStore`] it never returns
/// that it is out of it.
#[derive(Debug, Drop)]
pub struct PacketCount<P: AnyPacket> {
    /// Wraps round after the largest `usize`, which no room of packets reaches.
    pub packets: usize,
    of: PhantomData<P>,
}

impl<P: AnyPacket> PacketCount<P> {
    /// No packet was seen.
    #[inline(always)]
    pub fn new() -> PacketCount<P>
        ensures { result.packets ≡ 0 }
    {
        PacketCount {
            packets: 0,
            of: PhantomData,
        }
    }

    /// One more packet was seen.
    #[inline(always)]
    fn add(&mut self)
        ensures { self.new.packets ≡ (self.old.packets + 1) % 2 ^ 64 }
    {
        self.packets = self.packets.wrapping_add(1);
    }
}

impl<P: AnyPacket> PacketSink for PacketCount<P> {
    ghost WAY = { P.WAY };

    ghost holds = { λ s vs f k. length vs % 2 ^ 64 ≡ s.packets };

    ghost before = { λ s. [] };

    ghost fails = { ⊥ };

    #[inline(always)]
    fn marker(&mut self, _number: u8) -> Result<(), AllocError> {
        self.add();
        Ok(())
    }

    #[inline(always)]
    fn keep(&mut self, _nid: u8, _dir: u8, _body: &BitSlice<'_>) -> Result<(), AllocError> {
        self.add();
        Ok(())
    }

    #[inline(always)]
    fn whole(
        &mut self,
        nid: u8,
        dir: u8,
        piece: &[u8],
        at: usize,
        len: usize,
    ) -> Result<bool, AllocError> {
        let passed = pass_whole::<P, Nothing>(nid, dir, piece, at, len, &mut Nothing)?;
        if passed {
            self.add();
        }
        Ok(passed)
    }
}

impl<P: AnyPacket> PacketStore for PacketCount<P> {
    #[inline(always)]
    fn number(&mut self, _number: u64) -> Result<(), AllocError> {
        Ok(())
    }

    #[inline(always)]
    fn bits(&mut self, _slice: &BitSlice<'_>) -> Result<(), AllocError> {
        Ok(())
    }

    #[inline(always)]
    fn typed(&mut self, _nid: u8, _dir: u8) -> Result<(), AllocError> {
        self.add();
        Ok(())
    }

    #[inline(always)]
    fn kept(&mut self, _nid: u8, _dir: u8) -> Result<(), AllocError> {
        self.add();
        Ok(())
    }
}
