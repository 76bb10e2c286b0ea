//! Any packet of one way.

ghost use Rattle.std.specs.Prelude.{◌≡◌, ◌+◌, ◌≤◌, ◌<◌, length, map, All, IsTrue, None, OnOk, OnErr, IfOk, IfSome, IfNone, IsNone, OnSome};
ghost use Rattle.etcs_vars.specs.Reading.{Reading, numbers, spelled};
ghost use Rattle.etcs_tables.specs.Frames.{is_marker};
ghost use Rattle.etcs_tables.specs.Typed.{IsTyped, IsFramed};
ghost use Rattle.etcs_bodies.specs.Taking.{Says};
ghost use Rattle.etcs_bodies.specs.Packets.{IsPacketLeft};
ghost use Rattle.etcs_flat.specs.Others.{other_fault};
ghost use Rattle.etcs_packets.specs.PacketValues.{marker, typed, kept, nid_of, dir_of, kept_of, variables_of, IsTypedOf, bits_to, IsPacketTo};
ghost use Rattle.etcs_packets.specs.PacketReadings.{reading_to, readings_to};
ghost use Rattle.etcs_vars.specs.WordSinks.{and_bits};

use crate::typed::Source;
use etcs_bits::{BitSlice, Bits};
use etcs_bodies::Numbers;
use etcs_tables::Way;
use etcs_vars::WordSink;
use etcs_vars::inner::VarSink;
use std::alloc::{AllocError, Global};

/// A packet of one way, of any number, as readers and messages use it: its number, direction and variables or kept
/// bits, its spelling, and how it is made of these. No two packets of the type stand for one value.
pub trait AnyPacket: Sized + Drop {
    ghost use Rattle.etcs_tables.specs.declared.row.Way.{Way};
    ghost use Rattle.etcs_packets.specs.PacketValues.{Form};
    ghost use Rattle.etcs_bodies.specs.Passing.{IsPassedOn};

    /// Which way it goes.
    const WAY: Way;

    ghost WAY: { Way };

    /// The value that it stands for, and what its own type guarantees about it.
    ghost form: { Self → Form };

    /// The packet is one that its own type admits, and stands for a packet.
    fn hold(&self)
        ensures made { (form self.now).made }
        ensures packet { IsPacketTo WAY (form self.now).value };

    /// NID_PACKET.
    fn nid(&self) -> u8
        ensures { result ≡ nid_of (form self.now).value };

    /// Q_DIR; `None` exactly for packet 0 without a frame. To the track it is 0, and isn't sent.
    fn dir(&self) -> Option<u8>
        ensures { result ≡ dir_of (form self.now).value };

    /// The bits after L_PACKET of a packet that is kept as bits; `None` exactly for any other.
    fn kept_bits(&self) -> Option<BitSlice<'_>>
        ensures { result ≡ kept_of (form self.now).value };

    /// Sends the variables after the frame, in order: of packet 0 without a frame its NID_VBCMK, of a packet that is
    /// kept as bits none. Takes no memory of its own.
    ///
    /// # Errors
    ///
    /// `AllocError`: the sink failed; its `failed` then holds.
    fn send_body<S: VarSink>(&self, out: &mut S) -> Result<(), AllocError>
        ensures ok { OnOk result (out.new ≡ S.with out.old (variables_of (form self.now).value)) }
        ensures err { OnErr result (S.failed out.old out.new) };

    /// How many bits it takes with its frame; at most 8,191.
    fn bit_len(&self) -> usize
        ensures bits { result ≡ bits_to WAY (form self.now).value }
        ensures small { result ≤ 8191 };

    /// Puts it with its frame after other bits.
    fn append(&self, out: &mut WordSink<'_>)
        ensures { out.new ≡ and_bits out.old (spelled (reading_to WAY (form self.now).value)) };

    /// The packet of this number and direction with these numbers after L_PACKET. `None` only if no typed packet of
    /// this way has them.
    ///
    /// # Errors
    ///
    /// `AllocError`: out of memory.
    fn of_fields(
        alloc: Global,
        nid: u8,
        dir: u8,
        fields: &[u64],
    ) -> Result<Option<Self>, AllocError>
        ensures made { IfOk result (λ o. IfSome o (λ p. (form p).made)) }
        ensures some { IfOk result (λ o. IfSome o (λ p. IsTypedOf nid dir (form p).value × (numbers (variables_of (form p).value) ≡ fields.now))) }
        ensures none { IfOk result (λ o. IsNone o → IsTyped WAY nid dir fields.now → ⊥) };

    /// The typed packet of this number and direction with these bits after L_PACKET. `None` only if no typed packet of
    /// this way has them.
    ///
    /// # Errors
    ///
    /// `AllocError`: out of memory.
    fn of_bits(
        alloc: Global,
        nid: u8,
        dir: u8,
        body: BitSlice<'_>,
    ) -> Result<Option<Self>, AllocError>
        ensures made { IfOk result (λ o. IfSome o (λ p. (form p).made)) }
        ensures some { IfOk result (λ o. IfSome o (λ p. IsTypedOf nid dir (form p).value × (spelled (variables_of (form p).value) ≡ body.entry))) }
        ensures typed { IfOk result (λ o. IfSome o (λ p. (r : Reading) × ((form p).value ≡ typed nid dir r))) }
        ensures none { IfOk result (λ o. IsNone o → (r : Reading) → IsFramed WAY nid dir r → spelled r ≡ body.entry → ⊥) };

    /// The packet of this number and direction whose variables after L_PACKET are what a source has. `None` only if no
    /// typed packet of this way has them.
    ///
    /// # Errors
    ///
    /// `AllocError`: out of memory.
    fn of_source<S: Source>(
        alloc: Global,
        nid: u8,
        dir: u8,
        source: &S,
    ) -> Result<Option<Self>, AllocError>
        ensures made { IfOk result (λ o. IfSome o (λ p. (form p).made)) }
        ensures some { IfOk result (λ o. IfSome o (λ p. IsTypedOf nid dir (form p).value × Says (S.left source.now) (variables_of (form p).value))) }
        ensures none { IfOk result (λ o. IsNone o → IsPacketLeft WAY nid dir (S.left source.now) → ⊥) };

    /// Sends the variables of the row of a typed packet of this number with which what is left begins, without making the
    /// packet: if it returns `true`, the sink has them, and what follows them is left. After `false` the sink has some more
    /// variables, and no clause says what is left. `None` only if the number isn't typed this way; the sink stays as it was.
    ///
    /// # Errors
    ///
    /// `AllocError`: the sink failed; its `failed` then holds.
    fn pass<L: Numbers, S: VarSink>(
        nid: u8,
        numbers: &mut L,
        out: &mut S,
    ) -> Result<Option<bool>, AllocError>
        ensures passed { IfOk result (λ o. IsPassedOn WAY nid S.with (L.left numbers.old) (L.left numbers.new) out.old out.new o) }
        ensures err { OnErr result (S.failed out.old out.new) };

    /// The packet of this number and direction whose bits after L_PACKET are kept. Requires that nothing is
    /// wrong with such a packet: its number is kept, its direction is admitted, and it isn't too long.
    fn of_kept(nid: u8, dir: u8, body: Bits) -> Self
        requires { other_fault WAY nid dir (length body) ≡ None }
        ensures made { (form result).made }
        ensures value { (form result).value ≡ kept nid dir body };

    /// Packet 0 without a frame, with this number. `None` only if this way has none with it.
    fn of_marker(number: u8) -> Option<Self>
        ensures made { IfSome result (λ p. (form p).made) }
        ensures value { IfSome result (λ p. (form p).value ≡ marker number) }
        ensures none { IsNone result → IsTrue (is_marker WAY number) → ⊥ };

    /// An equal packet.
    ///
    /// # Errors
    ///
    /// `AllocError`: out of memory.
    fn try_clone(&self, alloc: Global) -> Result<Self, AllocError>
        ensures { IfOk result (λ p. p ≡ self.now) };

    /// No two packets stand for one value.
    ghost one: { (p q : Self) → (form p).made → (form q).made → (form p).value ≡ (form q).value → p ≡ q };
}

/// Puts packets after other bits, one after another, each with its frame.
pub fn append_all<P: AnyPacket>(packets: &[P], out: &mut WordSink<'_>)
    ensures { out.new ≡ and_bits out.old (spelled (readings_to P.WAY (map (λ p. (P.form p).value) packets.now))) }
{
    for packet in packets {
        packet.append(out);
    }
}

/// How many of `room` bits packets of either way leave, one after another, each with its frame; `None` exactly if they
/// take more. If they fit, each is one that its own type admits, and stands for a packet of this way.
pub fn room_after<P: AnyPacket>(room: usize, packets: &[P]) -> Option<usize>
    ensures left { IfSome result (λ left. length (spelled (readings_to P.WAY (map (λ p. (P.form p).value) packets.now))) + left ≡ room) }
    ensures made { OnSome result (All (λ p. (P.form p).made) packets.now) }
    ensures packets { OnSome result (All (IsPacketTo P.WAY) (map (λ p. (P.form p).value) packets.now)) }
    ensures none { IfNone result (room < length (spelled (readings_to P.WAY (map (λ p. (P.form p).value) packets.now)))) }
{
    let mut left = room;
    for packet in packets {
        packet.hold();
        let bits = packet.bit_len();
        if left < bits {
            return None;
        }
        left -= bits;
    }
    Some(left)
}
