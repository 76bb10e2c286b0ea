//! What a typed packet has to implement: its body, the whole of its row after a direction.

ghost use Rattle.std.specs.Prelude.{◌≡◌, ℕ, Option, Some, None, IfOk, IfSome, IfNone, IsTrue, false, OnErr};
ghost use Rattle.etcs_tables.specs.Frames.{is_direction};
ghost use Rattle.etcs_bodies.specs.Taking.{Left};
ghost use Rattle.etcs_bodies.specs.Packets.{packet_to};
ghost use Rattle.etcs_bodies.specs.PacketCodes.{PacketCodes};

use crate::framed::Framed;
use crate::numbers::{Listed, Numbers, Spelled};
use crate::packetlike::Packetlike;
use etcs_bits::BitSlice;
use etcs_tables::{Way, is_direction};
use etcs_vars::inner::{VarSink, Variables, append_numbers};
use std::alloc::{AllocError, Global};

/// The body of a typed packet: whatever implements it is a `Packetlike` and a `Framed`, by its one law `codes`. Each
/// packet proves the clauses.
pub trait Body: Variables + Drop {
    ghost use Rattle.etcs_tables.specs.declared.row.Way.{Way};
    ghost use Rattle.etcs_bodies.specs.Passing.{PassedRow, Begun};

    /// Its NID_PACKET.
    const NID: u8;

    /// Which way it goes.
    const WAY: Way;

    ghost NID: { ℕ };

    ghost WAY: { Way };

    /// Its direction: Q_DIR to the train, 0 to the track.
    ghost direction: { Self → ℕ };

    /// Holds of every packet of the type.
    ghost is_value: { Self → Type 0 };

    /// The packet of a direction with which what is left begins, and what is left after it.
    ghost read_from: { ℕ → Left → Option (Self × Left) };

    /// The direction of the packet, which is a value of its type.
    fn q_dir(&self) -> u8
        ensures dir { result ≡ direction self.now }
        ensures value { is_value self.now };

    /// Takes the packet of the direction `dir` with which what is left begins (`read_from`); what is left is then what
    /// follows it. `None` only if `read_from` gives none; no clause says what is left then. A packet must be allowed to
    /// have the direction.
    ///
    /// # Errors
    ///
    /// `AllocError` if memory runs out. No clause says what is left then.
    fn take<L: Numbers>(alloc: Global, dir: u8, numbers: &mut L) -> Result<Option<Self>, AllocError>
        requires { IsTrue (is_direction WAY dir) }
        ensures some { IfOk result (λ o. IfSome o (λ p. read_from dir (L.left numbers.old) ≡ Some (p, L.left numbers.new))) }
        ensures none { IfOk result (λ o. IfNone o (read_from dir (L.left numbers.old) ≡ None)) };

    /// Sends the variables of a packet with which what is left begins, without making it: if it returns `true`, they are those
    /// of its row, the sink has them, and what follows them is left. After `false` the sink has some more variables, and no
    /// clause says what is left.
    ///
    /// # Errors
    ///
    /// That of the sink, whose `failed` then holds.
    fn pass<L: Numbers, S: VarSink>(numbers: &mut L, out: &mut S) -> Result<bool, AllocError>
        ensures passed { IfOk result (λ b. IsTrue b → PassedRow WAY NID S.with (L.left numbers.old) (L.left numbers.new) out.old out.new) }
        ensures begun { IfOk result (λ b. b ≡ false → Begun S.with out.old out.new) }
        ensures err { OnErr result (S.failed out.old out.new) };

    /// A copy: if it succeeds, it is equal.
    ///
    /// # Errors
    ///
    /// `AllocError` if memory runs out.
    fn copy(&self, alloc: Global) -> Result<Self, AllocError>
        ensures { IfOk result (λ p. p ≡ self.now) };

    /// What a packet is read from, of any source, is what its variables are, and the other way round.
    ghost codes: { PacketCodes WAY NID direction is_value Self.reading_of (packet_to WAY read_from) };
}

/// The packet of a direction that takes all of the numbers.
#[tactic(auto, unfolding(crate::specs::Packets::packet_to))]
#[inline(always)]
fn read<P: Body, L: Numbers + Drop>(
    alloc: Global,
    dir: u8,
    mut numbers: L,
) -> Result<Option<P>, AllocError>
    ensures some { IfOk result (λ o. IfSome o (λ p. packet_to P.WAY P.read_from dir (L.left numbers) ≡ Some p)) }
    ensures none { IfOk result (λ o. IfNone o (packet_to P.WAY P.read_from dir (L.left numbers) ≡ None)) }
{
    if !is_direction(P::WAY, dir) {
        return Ok(None);
    }
    let packet = P::take(alloc, dir, &mut numbers)?;
    if !numbers.is_empty() {
        return Ok(None);
    }
    Ok(packet)
}

impl<P: Body> Packetlike for P {
    ghost use Rattle.etcs_vars.specs.Reading.{numbers};
    ghost use Rattle.etcs_bodies.specs.laws.PacketCodes.{all_typed, all_apart};

    const NID: u8 = <P as Body>::NID;

    const WAY: Way = <P as Body>::WAY;

    ghost NID = { P.Body.NID };

    ghost WAY = { P.Body.WAY };

    ghost direction = { λ p. P.Body.direction p };

    ghost fields_of = { λ p. numbers (P.reading_of p) };

    ghost is_value = { λ p. P.Body.is_value p };

    ghost admitted = { all_typed P.codes };

    ghost one_to_one = { all_apart P.codes };

    fn dir(&self) -> u8 {
        self.q_dir()
    }

    fn fields(&self, out: &mut Vec<u64>) -> Result<(), AllocError> {
        append_numbers(self, out)
    }

    #[tactic(auto, using(crate::specs::laws::PacketCodes::all_untyped))]
    fn from_fields(alloc: Global, dir: u8, fields: &[u64]) -> Result<Option<P>, AllocError> {
        read(alloc, dir, Listed::new(fields))
    }
}

impl<P: Body> Framed for P {
    ghost use Rattle.etcs_bodies.specs.laws.PacketCodes.{all_framed};

    ghost framed = { all_framed P.codes };

    #[tactic(auto, using(crate::specs::laws::PacketCodes::all_unframed))]
    fn from_bits(alloc: Global, dir: u8, bits: BitSlice<'_>) -> Result<Option<P>, AllocError> {
        read(alloc, dir, Spelled::new(bits))
    }

    #[inline(always)]
    fn from_numbers<L: Numbers + Drop>(
        alloc: Global,
        dir: u8,
        numbers: L,
    ) -> Result<Option<P>, AllocError> {
        read(alloc, dir, numbers)
    }

    #[inline(always)]
    fn pass_row<L: Numbers, S: VarSink>(numbers: &mut L, out: &mut S) -> Result<bool, AllocError> {
        P::pass(numbers, out)
    }

    fn try_clone(&self, alloc: Global) -> Result<P, AllocError> {
        self.copy(alloc)
    }
}
