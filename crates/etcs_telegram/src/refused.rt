//! Where a telegram is refused, and why, found without a value of it.

ghost use Rattle.std.specs.Prelude.{◌≤◌, length};
ghost use Rattle.etcs_bits.specs.Bits.{bits};
ghost use Rattle.etcs_rows.specs.Refusals.{FindsRefusal};
ghost use Rattle.etcs_telegram.specs.Telegrams.{TelegramLanguage};

use crate::rest::TelegramRest;
use crate::size::Size;
use etcs_packets::Packet;
use etcs_rows::{Refusal, refusal_in};
use etcs_sequence::PacketCount;

/// Returns the first bit of these bytes with which no telegram of the size continues, and why; `None` if there is none. Takes
/// no memory.
pub fn refusal_at(size: Size, bytes: &[u8]) -> Option<Refusal>
    requires { length bytes.now ≤ 1023 }
    ensures { FindsRefusal (TelegramLanguage size) (bits bytes.now) result }
{
    let rest = TelegramRest::new(size, PacketCount::<Packet>::new());
    refusal_in(rest, bytes)
}
