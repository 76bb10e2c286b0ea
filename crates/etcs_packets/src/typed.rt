//! What all typed packets have in common.

ghost use Rattle.std.specs.Prelude.{◌≡◌, ◌≤◌, ◌+◌, ℕ, None, length, IfOk, IfSome, IsNone, OnErr};
ghost use Rattle.etcs_tables.specs.Rows.{row_to};
ghost use Rattle.etcs_vars.specs.Reading.{spelled};
ghost use Rattle.etcs_tables.specs.Frames.{frame_bits};
ghost use Rattle.etcs_tables.specs.Typed.{IsFramed};
ghost use Rattle.etcs_bodies.specs.Passing.{IsPassedOn};
ghost use Rattle.etcs_packets.specs.Outcomes.{Makes, IsMadeOf};

use etcs_bits::BitSlice;
use etcs_bodies::{Framed, Listed, Numbers, Packetlike, Spelled};
use etcs_tables::{Way, frame_bits};
use etcs_vars::inner::VarSink;
use std::alloc::{AllocError, Global};

/// The packet that is made of numbers, bits or another source; `None` if there is none, and an error if out of memory.
pub type Made<P> = Result<Option<P>, AllocError>;

/// Packets of one way, each of which stands for a value.
pub trait Formed {
    ghost use Rattle.etcs_packets.specs.PacketValues.{Form};

    /// The value that it stands for, and what its own type guarantees about it.
    ghost form: { Self → Form };
}

/// All that is after L_PACKET: numbers, bits, or names with numbers.
pub trait Source {
    ghost use Rattle.etcs_bodies.specs.Taking.{Left, Says};
    ghost use Rattle.etcs_bodies.specs.Packets.{IsPacketLeft};

    /// What there is to take.
    ghost left: { Self → Left };

    /// The packet of one type and this direction whose variables are all that there is. `None` only if the type has
    /// none.
    ///
    /// # Errors
    ///
    /// `AllocError`: out of memory.
    fn packet<P: Framed>(&self, alloc: Global, dir: u8) -> Made<P>
        ensures some { IfOk result (λ o. IfSome o (λ p. P.is_value p × (P.direction p ≡ dir) × Says (left self.now) (P.reading_of p))) }
        ensures none { IfOk result (λ o. IsNone o → IsPacketLeft P.WAY P.NID dir (left self.now) → ⊥) };
}

impl<'a> Source for &'a [u64] {
    ghost use Rattle.etcs_bodies.specs.Taking.{listed};

    ghost left = { λ s. listed s.now };

    fn packet<P: Framed>(&self, alloc: Global, dir: u8) -> Made<P> {
        P::from_numbers(alloc, dir, Listed::new(self))
    }
}

impl<'a> Source for BitSlice<'a> {
    ghost use Rattle.etcs_bodies.specs.Taking.{in_bits};

    ghost left = { λ s. in_bits s };

    #[inline(always)]
    fn packet<P: Framed>(&self, alloc: Global, dir: u8) -> Made<P> {
        P::from_numbers(alloc, dir, Spelled::new(self.all()))
    }
}

/// Shows that a typed packet is a value of its type, and that its variables are those of a spelling of its row, of at
/// most 8,168 bits, with an admitted direction.
pub fn hold<P: Framed>(packet: &P)
    ensures made { P.is_value packet.now }
    ensures framed { IsFramed P.WAY P.NID (P.direction packet.now) (P.reading_of packet.now) }
{
    packet.dir();
}

/// How many bits a typed packet takes with its frame; at most 8,191.
pub fn typed_bits<P: Framed>(packet: &P) -> usize
    ensures bits { result ≡ frame_bits P.WAY + length (spelled (P.reading_of packet.now)) }
    ensures small { result ≤ 8191 }
{
    hold(packet);
    frame_bits(P::WAY) + packet.bits()
}

/// NID_PACKET of a typed packet.
pub fn typed_nid<P: Packetlike>(_packet: &P) -> u8
    ensures { result ≡ P.NID }
{
    P::NID
}

/// The packet of one type and this direction whose variables after L_PACKET are what a source has, put into a variant
/// by `packet`. `None` only if the type has none.
///
/// Requires that `packet` can be called, and makes of each value of the type a packet that stands for it.
///
/// # Errors
///
/// `AllocError`: out of memory.
#[inline(never)]
pub fn packet_of<Q: Formed, P: Framed, S: Source, F: FnOnce(P) -> Q>(
    alloc: Global,
    dir: u8,
    source: &S,
    packet: F,
) -> Made<Q>
    requires callable { F.IsAlwaysCallable packet }
    requires value { Makes Q.form (F.post packet) P.is_value P.NID P.direction P.reading_of }
    ensures { (nid : ℕ) → nid ≡ P.NID → IfOk result (λ o. IsMadeOf Q.form P.WAY nid dir (S.left source.now) o) }
{
    match source.packet(alloc, dir) {
        Ok(Some(typed)) => Ok(Some(packet(typed))),
        Ok(None) => Ok(None),
        Err(error) => Err(error),
    }
}

/// An equal packet of one type; `packet` makes it one of its way.
///
/// # Errors
///
/// `AllocError`: out of memory.
#[inline(never)]
pub fn copy_of<Q, P: Framed, F: FnOnce(P) -> Q>(
    alloc: Global,
    typed: &P,
    packet: F,
) -> Result<Q, AllocError>
    requires callable { F.IsAlwaysCallable packet }
    ensures { IfOk result (λ q. F.post packet typed.now q) }
{
    match typed.try_clone(alloc) {
        Ok(copy) => Ok(packet(copy)),
        Err(error) => Err(error),
    }
}

/// Sends the variables of the row of one type, which is that of what `packet` is made of, as [`Framed::pass_row`] promises
/// it.
///
/// # Errors
///
/// That of the sink, whose `failed` then holds.
#[inline(never)]
pub fn pass_of<Q: Formed, P: Framed, L: Numbers, S: VarSink, F: FnOnce(P) -> Q + Drop>(
    numbers: &mut L,
    out: &mut S,
    _packet: F,
) -> Result<Option<bool>, AllocError>
    ensures passed { (nid : ℕ) → nid ≡ P.NID → IfOk result (λ o. IsPassedOn P.WAY nid S.with (L.left numbers.old) (L.left numbers.new) out.old out.new o) }
    ensures err { OnErr result (S.failed out.old out.new) }
{
    Ok(Some(P::pass_row(numbers, out)?))
}

/// No packet: it requires that packets of this way and number have no row, so that there is none.
pub fn none_of<Q: Formed, S: Source>(way: Way, nid: u8, source: &S) -> Made<Q>
    requires { row_to way nid ≡ None }
    ensures { (dir : ℕ) → IfOk result (λ o. IsMadeOf Q.form way nid dir (S.left source.now) o) }
{
    let _ = (way, nid);
    let _ = source;
    Ok(None)
}
