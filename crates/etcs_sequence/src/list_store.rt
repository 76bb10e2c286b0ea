//! Stores that keep their packets in a list.

ghost use Rattle.std.specs.Prelude.{◌≡◌, ℕ, Bool, List, []};
ghost use Rattle.etcs_packets.specs.PacketValues.{PacketValue};
ghost use Rattle.etcs_sequence.specs.Held.{list_holds};
ghost use Rattle.etcs_sequence.specs.declared.list.PacketList.{PacketList};

use crate::list::PacketList;
use crate::store::PacketStore;
use etcs_packets::inner::AnyPacket;

/// A store that keeps its packets in a list.
pub trait ListStore<P: AnyPacket>: PacketStore + Drop {
    ghost list: { Self → PacketList P };

    /// A store that holds nothing, over this list. Requires that the list has no packets, numbers or bits.
    fn over(packets: PacketList<P>) -> Self
        requires packets { packets.packets.items ≡ [] }
        requires numbers { packets.numbers.items ≡ [] }
        requires bits { packets.bits ≡ [] }
        ensures { Self.holds result [] [] [] };

    /// Its list, which has what the store holds.
    fn list(&self) -> &PacketList<P>
        ensures { result.now ≡ list self.now };

    /// Its list, which has what the store holds.
    fn into_list(self) -> PacketList<P>
        ensures { result ≡ list self };

    /// The packets of its list go the store's way.
    ghost way_is: { P.WAY ≡ Self.WAY };

    /// What it holds is in the list.
    ghost listed: { (s : Self) (vs : List PacketValue) (f : List ℕ) (k : List Bool) → Self.holds s vs f k → list_holds P.form (list s).packets.items (list s).numbers.items (list s).bits vs f k };
}

impl<P: AnyPacket> ListStore<P> for PacketList<P> {
    ghost use Rattle.std.specs.Prelude.{◌≡◌, [], refl};
    ghost use Rattle.etcs_sequence.specs.Held.{list_holds};

    ghost list = { λ s. s };

    #[inline(always)]
    fn over(packets: PacketList<P>) -> PacketList<P>
        requires packets { packets.packets.items ≡ [] }
        requires numbers { packets.numbers.items ≡ [] }
        requires bits { packets.bits ≡ [] }
        ensures { list_holds P.form result.packets.items result.numbers.items result.bits [] [] [] }
    {
        packets
    }

    #[inline(always)]
    fn list(&self) -> &PacketList<P> {
        self
    }

    #[inline(always)]
    fn into_list(self) -> PacketList<P> {
        self
    }

    ghost way_is = { refl };

    ghost listed = { λ s vs f k h. h };
}
