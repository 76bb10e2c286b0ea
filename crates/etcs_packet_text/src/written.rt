//! Packets that are written as they are read from bits.

ghost use Rattle.std.specs.Prelude.{◌≡◌, ◌+◌, ◌≤◌, ◌<◌, ◌^◌, false, length, IsTrue, IfOk, OnOk};
ghost use Rattle.etcs_bits.specs.Bits.{bits, part};
ghost use Rattle.etcs_vars.specs.Reading.{Reading, spelled};
ghost use Rattle.etcs_tables.specs.Typed.{IsFramed};
ghost use Rattle.etcs_packets.specs.PacketValues.{marker, typed};
ghost use Rattle.etcs_packet_text.specs.Fronts.{Begins};

use crate::packet_page::{PacketPage, Place};
use etcs_bits::BitSlice;
use etcs_packets::inner::AnyPacket;
use etcs_sequence::PacketSink;
use etcs_sequence::inner::pass_whole;
use etcs_tables::{MARKER_BITS, Way, frame_bits};
use etcs_vars::Var;
use std::alloc::AllocError;
use std::marker::PhantomData;

/// A page with packets that were read, without values of them, and the place where it ended before them.
#[derive(Drop)]
pub(crate) struct Written<P: AnyPacket, W: PacketPage> {
    pub(crate) page: W,
    pub(crate) place: Place,
    of: PhantomData<P>,
    ghost inside: { place.len ≤ length (W.text page) },
}

impl<P: AnyPacket, W: PacketPage> Written<P, W> {
    /// No packet is written on this page.
    #[inline(always)]
    pub(crate) fn on(page: W) -> Written<P, W>
        ensures page { result.page ≡ page }
        ensures place { W.ends page result.place }
    {
        let place = page.place();
        Written {
            page,
            place,
            of: PhantomData,
        }
    }

    /// The page.
    #[inline(always)]
    pub(crate) fn into_page(self) -> W
        ensures { result ≡ self.page }
    {
        let Written { page, .. } = self;
        page
    }
}

/// Writes the typed packet of this number and direction with these bits of a piece after L_PACKET, and returns whether
/// there is one. If there is none, a part of it may be written.
///
/// Requires that the piece holds the bits, and that a word counts those of the piece.
///
/// # Errors
///
/// `AllocError` if out of memory.
#[inline(always)]
fn write_typed<P: AnyPacket, W: PacketPage>(
    nid: u8,
    dir: u8,
    piece: &[u8],
    at: usize,
    len: usize,
    page: &mut W,
) -> Result<bool, AllocError>
    requires inside { at + len ≤ length (bits piece.now) }
    requires small { length (bits piece.now) < 2 ^ 64 }
    requires short { len < 2 ^ 32 }
    ensures written { IfOk result (λ b. IsTrue b → (r : Reading) × IsFramed P.WAY nid dir r × (spelled r ≡ part at len (bits piece.now)) × (page.new ≡ W.and_packet P.WAY page.old (typed nid dir r))) }
    ensures begins { Begins (W.text page.old) (W.text page.new) }
{
    page.begin(P::WAY, nid, Some(dir), frame_bits(P::WAY) + len)?;
    let passed = pass_whole::<P, W>(nid, dir, piece, at, len, page)?;
    if !passed {
        return Ok(false);
    }
    page.end(nid)?;
    Ok(true)
}

/// Writes the typed packet of this number and direction with these bits of a piece after L_PACKET, and returns whether
/// there is one. If there is none, the page stays as it was.
///
/// Requires that the piece holds the bits, and that a word counts those of the piece.
///
/// # Errors
///
/// `AllocError` if out of memory.
#[inline(always)]
fn write_whole<P: AnyPacket, W: PacketPage>(
    nid: u8,
    dir: u8,
    piece: &[u8],
    at: usize,
    len: usize,
    page: &mut W,
) -> Result<bool, AllocError>
    requires inside { at + len ≤ length (bits piece.now) }
    requires small { length (bits piece.now) < 2 ^ 64 }
    requires short { len < 2 ^ 32 }
    ensures written { IfOk result (λ b. IsTrue b → (r : Reading) × IsFramed P.WAY nid dir r × (spelled r ≡ part at len (bits piece.now)) × (page.new ≡ W.and_packet P.WAY page.old (typed nid dir r))) }
    ensures none { IfOk result (λ b. b ≡ false → page.new ≡ page.old) }
    ensures begins { Begins (W.text page.old) (W.text page.new) }
{
    let place = page.place();
    let written = write_typed::<P, W>(nid, dir, piece, at, len, page)?;
    if !written {
        page.back(place);
    }
    Ok(written)
}

/// Writes packet 0 with this NID_VBCMK.
///
/// # Errors
///
/// `AllocError` if out of memory.
#[inline(always)]
fn write_marker<W: PacketPage>(way: Way, number: u8, page: &mut W) -> Result<(), AllocError>
    ensures ok { OnOk result (page.new ≡ W.and_packet way page.old (marker number)) }
    ensures begins { Begins (W.text page.old) (W.text page.new) }
{
    page.begin(way, 0, None, MARKER_BITS)?;
    page.send(&[(Var::NID_VBCMK, u64::from(number))])?;
    page.end(0)
}

impl<P: AnyPacket, W: PacketPage> PacketSink for Written<P, W> {
    ghost use Rattle.std.specs.Prelude.{◌≡◌, ⊤, []};
    ghost use Rattle.etcs_packet_text.specs.Writings.{IsWritten, text_before};

    ghost WAY = { P.WAY };

    ghost holds = { λ s vs f k. (f ≡ []) × (k ≡ []) × IsWritten W.text W.ends (W.and_packet P.WAY) s.place s.page vs };

    ghost before = { λ s. text_before s.place (W.text s.page) };

    ghost fails = { ⊤ };

    #[inline(always)]
    fn marker(&mut self, number: u8) -> Result<(), AllocError> {
        write_marker(P::WAY, number, &mut self.page)
    }

    #[inline(always)]
    fn keep(&mut self, nid: u8, dir: u8, body: &BitSlice<'_>) -> Result<(), AllocError> {
        self.page.keep(P::WAY, nid, dir, body)
    }

    #[inline(always)]
    fn whole(
        &mut self,
        nid: u8,
        dir: u8,
        piece: &[u8],
        at: usize,
        len: usize,
    ) -> Result<bool, AllocError> {
        write_whole::<P, W>(nid, dir, piece, at, len, &mut self.page)
    }
}
