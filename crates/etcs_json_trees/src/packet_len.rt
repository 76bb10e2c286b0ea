//! L_PACKET, which is put when the length of a packet is known.

ghost use Rattle.std.specs.Prelude.{◌≡◌, ◌+◌, ◌<◌, ◌≤◌, ◌++◌, ℕ, List, Bool, None, OnSome, length};
ghost use Rattle.etcs_vars.specs.Reading.{Reading, spelled};
ghost use Rattle.etcs_tables.specs.Frames.{frame_bits};
ghost use Rattle.etcs_tables.specs.Layouts.{ROW_LIMIT};
ghost use Rattle.etcs_packets.specs.PacketValues.{typed};
ghost use Rattle.etcs_packets.specs.PacketReadings.{reading_to};
ghost use Rattle.etcs_json_trees.specs.PacketTexts.{IsUnmeasured};

use etcs_tables::{ROW_LIMIT, Way, frame_bits};
use etcs_vars::BitPage;

/// Puts L_PACKET of the typed packet that begins at this bit, over the zeros in its place, unless the packet is too long.
#[inline(always)]
pub(crate) fn put_packet_len(way: Way, start: usize, out: &mut BitPage) -> Option<()>
    requires { start + frame_bits way ≤ length out.old }
    ensures some { OnSome result ((nid dir : ℕ) (r : Reading) (before : List Bool) → start ≡ length before → IsUnmeasured way nid dir r before out.old → (length (spelled r) ≤ ROW_LIMIT) × (out.new ≡ before ++ spelled (reading_to way (typed nid dir r)))) }
    ensures none { result ≡ None → (nid dir : ℕ) (r : Reading) (before : List Bool) → start ≡ length before → IsUnmeasured way nid dir r before out.old → ROW_LIMIT < length (spelled r) }
{
    let len = out.len() - start;
    if len > frame_bits(way) + ROW_LIMIT {
        return None;
    }
    out.put_over(start + frame_bits(way) - 13, 13, len as u64);
    Some(())
}
