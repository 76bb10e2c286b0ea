//! What the crates above need of a typed packet.

ghost use Rattle.std.specs.Prelude.{◌≡◌, false, IfOk, IfSome, IsNone, IsTrue, OnErr};
ghost use Rattle.etcs_vars.specs.Reading.{Reading, numbers, spelled};
ghost use Rattle.etcs_tables.specs.Typed.{IsFramed};
ghost use Rattle.etcs_bodies.specs.Taking.{Says};
ghost use Rattle.etcs_bodies.specs.Packets.{IsPacketLeft};
ghost use Rattle.etcs_bodies.specs.Passing.{PassedRow, Begun};

use crate::numbers::Numbers;
use crate::packetlike::Packetlike;
use etcs_bits::BitSlice;
use etcs_vars::inner::{VarSink, Variables};
use std::alloc::{AllocError, Global};

/// A typed packet with its variables after L_PACKET, from which it is also made: by bits, by numbers, or by names with
/// numbers. Each implementation proves the clauses.
pub trait Framed: Packetlike + Variables {
    /// The packet of a direction and of the bits after L_PACKET: if it returns one, the packet has this direction and
    /// its variables spell exactly these bits. `None` only if the direction isn't admitted or the bits are no spelling
    /// of the row of at most 8,168 bits. With the law `framed` a packet is returned only if there is one.
    ///
    /// # Errors
    ///
    /// `AllocError` if memory runs out.
    fn from_bits(alloc: Global, dir: u8, bits: BitSlice<'_>) -> Result<Option<Self>, AllocError>
        ensures some { IfOk result (λ o. IfSome o (λ p. Self.is_value p × (Self.direction p ≡ dir) × (spelled (Self.reading_of p) ≡ bits.entry))) }
        ensures none { IfOk result (λ o. IsNone o → (r : Reading) → IsFramed Self.WAY Self.NID dir r → spelled r ≡ bits.entry → ⊥) };

    /// The packet of a direction and of the numbers after L_PACKET, all of them, in any form: if it returns one, the
    /// packet has this direction and its variables are exactly what is left. `None` only if the direction isn't
    /// admitted or what is left isn't a reading of the row of at most 8,168 bits.
    ///
    /// # Errors
    ///
    /// `AllocError` if memory runs out.
    fn from_numbers<L: Numbers + Drop>(
        alloc: Global,
        dir: u8,
        numbers: L,
    ) -> Result<Option<Self>, AllocError>
        ensures some { IfOk result (λ o. IfSome o (λ p. Self.is_value p × (Self.direction p ≡ dir) × Says (L.left numbers) (Self.reading_of p))) }
        ensures none { IfOk result (λ o. IsNone o → IsPacketLeft Self.WAY Self.NID dir (L.left numbers) → ⊥) };

    /// Sends the variables of a packet with which what is left begins, without making it, as [`Body::pass`] promises it.
    ///
    /// # Errors
    ///
    /// That of the sink, whose `failed` then holds.
    fn pass_row<L: Numbers, S: VarSink>(numbers: &mut L, out: &mut S) -> Result<bool, AllocError>
        ensures passed { IfOk result (λ b. IsTrue b → PassedRow Self.WAY Self.NID S.with (L.left numbers.old) (L.left numbers.new) out.old out.new) }
        ensures begun { IfOk result (λ b. b ≡ false → Begun S.with out.old out.new) }
        ensures err { OnErr result (S.failed out.old out.new) };

    /// A copy: if it succeeds, it is equal.
    ///
    /// # Errors
    ///
    /// `AllocError` if memory runs out.
    fn try_clone(&self, alloc: Global) -> Result<Self, AllocError>
        ensures { IfOk result (λ p. p ≡ self.now) };

    /// The variables of each value are those of its row, in at most 8,168 bits, and their numbers are its numbers.
    ghost framed: { (p : Self) → Self.is_value p → IsFramed Self.WAY Self.NID (Self.direction p) (Self.reading_of p) × (numbers (Self.reading_of p) ≡ Self.fields_of p) };
}
