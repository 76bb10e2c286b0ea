//! The message of a group.

ghost use Rattle.std.specs.Prelude.{◌≡◌, ◌↔◌, ◌++◌, ◌<◌, IsTrue, IfOk};
ghost use Rattle.etcs_group.specs.Messages.{IsWhole, IsSecond, Gives, IsGroupMessage};

use crate::assembly::Assembly;
use crate::fault::GroupFault;
use etcs_packets::Packet;
use std::alloc::{AllocError, Global};

impl Assembly {
    /// The group's message (SUBSET-026, 3.16.2.4). If it succeeds, the group is whole, and the packets are equal to
    /// those of the held telegrams, by rising position; a position gives none if the one before it is held and one of
    /// the two is the other's duplicate.
    ///
    /// # Errors
    ///
    /// - [`GroupFault::NotWhole`] exactly if nothing is held or a position is missing;
    /// - [`GroupFault::Memory`] if the group is whole, and it is out of memory for the copies.
    ///
    /// What is held doesn't change.
    pub fn message(&self, alloc: Global) -> Result<Vec<Packet>, GroupFault>
        ensures ok { IfOk result (λ ps. IsWhole self.now × IsGroupMessage self.now ps.items) }
        ensures not_whole { (result ≡ Err GroupFault.NotWhole) ↔ (IsWhole self.now → ⊥) }
        ensures memory { result ≡ Err GroupFault.Memory → IsWhole self.now }
    {
        if !self.is_complete() {
            return Err(GroupFault::NotWhole);
        }
        match self.packets(alloc) {
            Ok(packets) => Ok(packets),
            Err(_) => Err(GroupFault::Memory),
        }
    }

    /// What all positions give together.
    fn packets(&self, alloc: Global) -> Result<Vec<Packet>, AllocError>
        ensures { IfOk result (λ ps. IsGroupMessage self.now ps.items) }
    {
        let mut packets = Vec::new(alloc);
        for position in 0..8 {
            push_all(alloc, &mut packets, self.given(position))?;
        }
        Ok(packets)
    }

    /// What the position gives.
    fn given(&self, position: usize) -> &[Packet]
        requires { position < 8 }
        ensures { Gives self.now position result.now }
    {
        if self.is_second(position) {
            return &[];
        }
        match self.at(position) {
            Some(telegram) => telegram.packets(),
            None => &[],
        }
    }

    /// Whether the position is the second of two duplicates, of which the first is held.
    fn is_second(&self, position: usize) -> bool
        requires { position < 8 }
        ensures { IsTrue result ↔ IsSecond self.now position }
    {
        if position == 0 || self.at(position - 1).is_none() {
            return false;
        }
        self.is_held_as(position - 1, 1) || self.is_held_as(position, 2)
    }
}

/// Appends equal packets.
fn push_all(alloc: Global, packets: &mut Vec<Packet>, more: &[Packet]) -> Result<(), AllocError>
    ensures { IfOk result (λ _. packets.new.items ≡ packets.old.items ++ more.now) }
{
    packets.reserve(more.len())?;
    for packet in more {
        packets.push(packet.try_clone(alloc)?)?;
    }
    Ok(())
}
