//! What a reader returns once it takes no more.

ghost use Rattle.std.specs.Prelude.{◌≡◌};
ghost use Rattle.etcs_sequence.specs.Progress.{fault_by};

use etcs_reader::Stop;
use etcs_vars::ReadFault;

/// The fault that a feed returns after this stop: `Refused` with the bit and its variable, or `Memory`.
pub fn fault_by(stop: Stop) -> ReadFault
    ensures { result ≡ fault_by stop }
{
    match stop {
        Stop::Refused { bit, var } => ReadFault::Refused { bit, var },
        Stop::Memory => ReadFault::Memory,
    }
}
