//! A packet of its number, direction and numbers, and its variables, by the names that others know.

ghost use Rattle.std.specs.Prelude.{◌≡◌, OnOk, OnErr, IfOk, IfSome, IsNone};
ghost use Rattle.etcs_vars.specs.Reading.{Reading, numbers, spelled};
ghost use Rattle.etcs_tables.specs.declared.row.Way.TheVariants.{ToTrain};
ghost use Rattle.etcs_tables.specs.Typed.{IsTyped, IsFramed};
ghost use Rattle.etcs_packets.specs.PacketValues.{typed, packet_value, dir_of, kept_of, variables_of, IsTypedOf, IsMade};

use crate::any_packet::AnyPacket;
use crate::packet::Packet;
pub use crate::write::append_variables;
use etcs_bits::BitSlice;
use etcs_vars::inner::VarSink;
use std::alloc::{AllocError, Global};

/// Q_DIR; `None` exactly for packet 0, which has none.
#[inline(always)]
pub fn dir(packet: &Packet) -> Option<u8>
    ensures { result ≡ dir_of (packet_value packet.now) }
{
    packet.dir()
}

/// The bits after L_PACKET of a packet that is kept as bits. `None` exactly for any other.
pub fn kept_bits(packet: &Packet) -> Option<BitSlice<'_>>
    ensures { result ≡ kept_of (packet_value packet.now) }
{
    packet.kept_bits()
}

/// Sends the variables after the frame, in order: of packet 0 its NID_VBCMK, of a packet that is kept as bits none.
/// Takes no memory of its own.
///
/// # Errors
///
/// `AllocError`: the sink failed; its `failed` then holds.
pub fn send<S: VarSink>(packet: &Packet, out: &mut S) -> Result<(), AllocError>
    ensures ok { OnOk result (out.new ≡ S.with out.old (variables_of (packet_value packet.now))) }
    ensures err { OnErr result (S.failed out.old out.new) }
{
    packet.send_body(out)
}

/// The packet of this number and direction with these numbers after L_PACKET. `None` only if no typed packet to the
/// train has them.
///
/// # Errors
///
/// `AllocError`: out of memory.
pub fn from_fields(
    alloc: Global,
    nid: u8,
    dir: u8,
    fields: &[u64],
) -> Result<Option<Packet>, AllocError>
    ensures made { IfOk result (λ o. IfSome o (λ p. IsMade p)) }
    ensures some { IfOk result (λ o. IfSome o (λ p. IsTypedOf nid dir (packet_value p) × (numbers (variables_of (packet_value p)) ≡ fields.now))) }
    ensures none { IfOk result (λ o. IsNone o → IsTyped ToTrain nid dir fields.now → ⊥) }
{
    Packet::of_fields(alloc, nid, dir, fields)
}

/// The typed packet of this number and direction with these bits after L_PACKET. `None` only if no typed packet to the
/// train has them.
///
/// # Errors
///
/// `AllocError`: out of memory.
#[inline(always)]
pub fn from_bits(
    alloc: Global,
    nid: u8,
    dir: u8,
    bits: BitSlice<'_>,
) -> Result<Option<Packet>, AllocError>
    ensures made { IfOk result (λ o. IfSome o (λ p. IsMade p)) }
    ensures some { IfOk result (λ o. IfSome o (λ p. IsTypedOf nid dir (packet_value p) × (spelled (variables_of (packet_value p)) ≡ bits.entry))) }
    ensures typed { IfOk result (λ o. IfSome o (λ p. (r : Reading) × (packet_value p ≡ typed nid dir r))) }
    ensures none { IfOk result (λ o. IsNone o → (r : Reading) → IsFramed ToTrain nid dir r → spelled r ≡ bits.entry → ⊥) }
{
    Packet::of_bits(alloc, nid, dir, bits)
}
