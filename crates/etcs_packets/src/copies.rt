//! Copies of packets.

ghost use Rattle.std.specs.Prelude.{◌≡◌, IfOk};

use crate::any_packet::AnyPacket;
use std::alloc::{AllocError, Global};

/// Equal packets, in the same order.
///
/// # Errors
///
/// `AllocError`: out of memory.
pub fn copy_all<P: AnyPacket>(alloc: Global, packets: &[P]) -> Result<Vec<P>, AllocError>
    ensures { IfOk result (λ copies. copies.items ≡ packets.now) }
{
    let mut copies = Vec::with_capacity(alloc, packets.len())?;
    for packet in packets {
        copies.push(packet.try_clone(alloc)?)?;
    }
    Ok(copies)
}
