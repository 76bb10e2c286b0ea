//! Pages on which packets are written.

ghost use Rattle.std.specs.Prelude.{◌≡◌, ◌≤◌, length, fold, map, None, OnOk};
ghost use Rattle.etcs_packets.specs.PacketValues.{kept, kept_of};
ghost use Rattle.etcs_packet_text.specs.Fronts.{Begins};

use etcs_bits::BitSlice;
use etcs_packets::inner::AnyPacket;
use etcs_tables::Way;
use etcs_vars::inner::VarSink;
use std::alloc::AllocError;

/// Where a page ended.
#[derive(Clone, Copy)]
pub struct Place {
    /// How many bytes its text had.
    pub len: usize,
    /// Whether an item of a list was at its end.
    pub later: bool,
}

/// A page on which packets are written, one after another. The variables of a packet are sent to it between `begin` and
/// `end`. Each implementation proves the clauses.
pub trait PacketPage: VarSink + Drop {
    ghost use Rattle.std.specs.Prelude.{◌≡◌, ◌+◌, ℕ, List, [], ◌∷◌, length, Option, Some, None};
    ghost use Rattle.etcs_vars.specs.declared.var.Var.TheVariants.{NID_VBCMK};
    ghost use Rattle.etcs_vars.specs.Reading.{Reading, spelled};
    ghost use Rattle.etcs_tables.specs.declared.row.Way.{Way};
    ghost use Rattle.etcs_tables.specs.Frames.{frame_bits};
    ghost use Rattle.etcs_packets.specs.PacketValues.{PacketValue, marker, typed, kept};
    ghost use Rattle.etcs_packet_text.specs.Fronts.{Begins};
    ghost use Rattle.etcs_packet_text.specs.declared.packet_page.Place.{Place};

    /// Its text.
    ghost text: { Self → List ℕ };

    /// It ends at this place.
    ghost ends: { Self → Place → Type 0 };

    /// The page with a packet of this way more.
    ghost and_packet: { Way → Self → PacketValue → Self };

    /// The page with what is before the variables of a packet of this way, number and direction, which has this many bits.
    ghost begun: { Way → ℕ → Option ℕ → ℕ → Self → Self };

    /// The page with what is after the variables of a packet of this number.
    ghost ended: { ℕ → Self → Self };

    /// The page. An empty one is left in its place.
    fn take(&mut self) -> Self
        ensures { result ≡ self.old };

    /// Where the page ends.
    fn place(&self) -> Place
        ensures { ends self.now result };

    /// Takes away what was written after this place.
    fn back(&mut self, place: Place)
        requires { place.len ≤ length (text self.old) }
        ensures { (page : Self) → ends page place → Begins (text page) (text self.old) → self.new ≡ page };

    /// Writes what is before the variables of a packet of this number and direction with this many bits. Only packet 0 of
    /// a telegram has no direction.
    ///
    /// # Errors
    ///
    /// `AllocError` if out of memory.
    fn begin(&mut self, way: Way, nid: u8, dir: Option<u8>, bits: usize) -> Result<(), AllocError>
        ensures ok { OnOk result (self.new ≡ begun way nid dir bits self.old) }
        ensures begins { Begins (text self.old) (text self.new) };

    /// Writes what is after the variables of a packet of this number.
    ///
    /// # Errors
    ///
    /// `AllocError` if out of memory.
    fn end(&mut self, nid: u8) -> Result<(), AllocError>
        ensures ok { OnOk result (self.new ≡ ended nid self.old) }
        ensures begins { Begins (text self.old) (text self.new) };

    /// Writes a packet of this number and direction that is kept as these bits after L_PACKET.
    ///
    /// # Errors
    ///
    /// `AllocError` if out of memory.
    fn keep(&mut self, way: Way, nid: u8, dir: u8, body: &BitSlice<'_>) -> Result<(), AllocError>
        ensures ok { OnOk result (self.new ≡ and_packet way self.old (kept nid dir body.now)) }
        ensures begins { Begins (text self.old) (text self.new) };

    /// The place has the length of the text.
    ghost ends_len: { (page : Self) (place : Place) → ends page place → place.len ≡ length (text page) };

    /// Pages of one text that end at one place are the same.
    ghost ends_one: { (page other : Self) (place : Place) → ends page place → ends other place → text page ≡ text other → page ≡ other };

    /// The text stays before variables that are sent, also if some weren't.
    ghost sent_begins: { (page : Self) (r : Reading) → Begins (text page) (text (Self.with page r)) };

    ghost failed_begins: { (page other : Self) → Self.failed page other → Begins (text page) (text other) };

    /// A typed packet is its variables between what is before and after them.
    ghost typed_is: { (way : Way) (nid dir : ℕ) (page : Self) (r : Reading) → ended nid (Self.with (begun way nid (Some dir) (frame_bits way + length (spelled r)) page) r) ≡ and_packet way page (typed nid dir r) };

    /// So is packet 0 without a frame.
    ghost marker_is: { (way : Way) (number count : ℕ) (page : Self) → ended 0 (Self.with (begun way 0 None count page) ((NID_VBCMK, number) ∷ [])) ≡ and_packet way page (marker number) };
}

/// Writes a packet that isn't kept as bits.
///
/// # Errors
///
/// `AllocError` if out of memory.
#[inline(always)]
fn write_sent<P: AnyPacket, W: PacketPage>(packet: &P, page: &mut W) -> Result<(), AllocError>
    requires { None ≡ kept_of (P.form packet.now).value }
    ensures ok { OnOk result (page.new ≡ W.and_packet P.WAY page.old (P.form packet.now).value) }
    ensures begins { Begins (W.text page.old) (W.text page.new) }
{
    page.begin(P::WAY, packet.nid(), packet.dir(), packet.bit_len())?;
    packet.send_body(page)?;
    page.end(packet.nid())
}

/// Writes a packet.
///
/// # Errors
///
/// `AllocError` if out of memory.
fn write_packet<P: AnyPacket, W: PacketPage>(packet: &P, page: &mut W) -> Result<(), AllocError>
    ensures ok { OnOk result (page.new ≡ W.and_packet P.WAY page.old (P.form packet.now).value) }
    ensures begins { Begins (W.text page.old) (W.text page.new) }
{
    match packet.kept_bits() {
        Some(bits) => page.keep(P::WAY, packet.nid(), packet.dir().unwrap_or(0), &bits),
        None => write_sent(packet, page),
    }
}

/// Writes packets, one after another.
///
/// # Errors
///
/// `AllocError` if out of memory.
pub(crate) fn write_packets<P: AnyPacket, W: PacketPage>(
    packets: &[P],
    page: &mut W,
) -> Result<(), AllocError>
    ensures ok { OnOk result (page.new ≡ fold (W.and_packet P.WAY) page.old (map (λ p. (P.form p).value) packets.now)) }
    ensures begins { Begins (W.text page.old) (W.text page.new) }
{
    for packet in packets {
        write_packet(packet, page)?;
    }
    Ok(())
}
