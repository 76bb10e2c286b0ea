//! What every typed packet is.

ghost use Rattle.std.specs.Prelude.{◌≡◌, ℕ, List, ◌++◌, OnOk, OnErr, IfOk, IfSome, IsNone};
ghost use Rattle.etcs_tables.specs.Typed.{IsTyped};

use etcs_tables::Way;
use std::alloc::{AllocError, Global};

/// A typed packet: its number, its direction and the numbers of its row. Each implementation proves the clauses and
/// laws.
///
/// A type has a value for each direction that a packet may have this way and each list of numbers that the row of
/// its packet spells in at most 8,168 bits, and no other value.
pub trait Packetlike: Sized {
    ghost use Rattle.etcs_tables.specs.declared.row.Way.{Way};

    /// Its NID_PACKET.
    const NID: u8;

    /// Which way it goes.
    const WAY: Way;

    ghost NID: { ℕ };

    ghost WAY: { Way };

    /// The direction of a value: Q_DIR to the train, 0 to the track.
    ghost direction: { Self → ℕ };

    /// The numbers after L_PACKET, in the row's order.
    ghost fields_of: { Self → List ℕ };

    /// Holds of every packet of the type, which `dir` proves; a law's variables range over more.
    ghost is_value: { Self → Type 0 };

    /// The direction of the packet, Q_DIR to the train, 0 to the track; and the packet is a value of its type.
    fn dir(&self) -> u8
        ensures dir { result ≡ direction self.now }
        ensures value { is_value self.now };

    /// Appends the numbers after L_PACKET in the order of the row, one for each variable that is there.
    ///
    /// # Errors
    ///
    /// `AllocError` if memory runs out. `out` then has the numbers that it had before.
    fn fields(&self, out: &mut Vec<u64>) -> Result<(), AllocError>
        ensures ok { OnOk result (out.new.items ≡ out.old.items ++ fields_of self.now) }
        ensures err { OnErr result (out.new.items ≡ out.old.items) };

    /// The packet of a direction and of the numbers after L_PACKET: if it returns one, the packet has exactly these.
    /// `None` only if the direction isn't admitted or the row doesn't spell the numbers in at most 8,168 bits. With the
    /// law `admitted` a packet is returned only if there is one.
    ///
    /// # Errors
    ///
    /// `AllocError` if memory runs out.
    fn from_fields(alloc: Global, dir: u8, fields: &[u64]) -> Result<Option<Self>, AllocError>
        ensures some { IfOk result (λ o. IfSome o (λ p. is_value p × (direction p ≡ dir) × (fields_of p ≡ fields.now))) }
        ensures none { IfOk result (λ o. IsNone o → IsTyped WAY NID dir fields.now → ⊥) };

    /// Each value of the type has an admitted direction, and numbers that its row spells in at most 8,168 bits.
    ghost admitted: { (p : Self) → is_value p → IsTyped WAY NID (direction p) (fields_of p) };

    /// No two values of one direction have the same numbers.
    ghost one_to_one: { (p q : Self) → is_value p → is_value q → direction p ≡ direction q → fields_of p ≡ fields_of q → p ≡ q };
}
