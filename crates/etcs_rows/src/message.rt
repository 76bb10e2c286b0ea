//! How long a message may be.

ghost use Rattle.std.specs.Prelude.{◌≡◌, ℕ, ◌↔◌, IsTrue, nat_le};
ghost use Rattle.std.specs.List.{list_all};
ghost use Rattle.etcs_vars.specs.Vars.{inside};
ghost use Rattle.etcs_rows.specs.Messages.{MessageLengthFits};

use etcs_tables::{Way, message_ranges};

/// The numbers of bytes, L_MESSAGE, below 1,024, that a message of the number `nid` may have, exactly, as ranges with
/// both ends, which are in order (SUBSET-026, 8): of a typed message those in which the header and some number of bits
/// of its row leave at most 7 bits or at least the frame of a packet; of another, which is kept whole, at least 3.
pub fn message_lengths(way: Way, nid: u8) -> &'static [(u64, u64)]
    ensures fits { (l : ℕ) → IsTrue (inside result.now l) ↔ MessageLengthFits way nid l }
    ensures ordered { IsTrue (list_all (λ r. nat_le r.0 r.1) result.now) }
{
    message_ranges(way, nid)
}
