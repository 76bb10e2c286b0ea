//! For the crates above: bits and numbers that a piece or a slice holds, packets in bits that are known to hold them,
//! and the item that bytes begin with.

ghost use Rattle.std.specs.Prelude.{◌≡◌, List, Bool, ◌++◌, length, All};
ghost use Rattle.etcs_vars.specs.Reading.{spelled};
ghost use Rattle.etcs_packets.specs.PacketValues.{PacketValue, IsPacket};
ghost use Rattle.etcs_packets.specs.PacketReadings.{packets_reading};
ghost use Rattle.etcs_sequence.specs.Refs.{ArePackets, spellings};

pub use crate::first::first_item;
use crate::packets_in::Packets;
pub use crate::pieces::{bits_at, run_at};
pub use crate::run::{Run, left_by_lengths, take_run};
pub use crate::seen::pass_whole;
use etcs_bits::BitSlice;
pub use etcs_reader::inner::number_at;

/// The first `count` packets in these bits, each its spelling, in order; nothing is copied. Requires that the
/// bits begin with that many packets to the train; anything may follow them.
pub fn packets<'a>(rest: BitSlice<'a>, count: usize) -> Packets<'a>
    requires { ArePackets count rest }
    ensures { (vs : List PacketValue) (c : List Bool) → All IsPacket vs → length vs ≡ count → rest.entry ≡ spelled (packets_reading vs) ++ c → result ≡ spellings vs }
{
    Packets::new(rest, count)
}
