//! Where a message is refused, found without a value of it.

ghost use Rattle.std.specs.Prelude.{IfSome};
ghost use Rattle.etcs_bits.specs.Bits.{bits};
ghost use Rattle.etcs_vars.specs.Reading.{IsOutcome, refused};
ghost use Rattle.etcs_vars.proofs.Languages.{Same};
ghost use Rattle.etcs_messages.specs.Lefts.{Left};
ghost use Rattle.etcs_messages.specs.Messages.{MessageLanguage, MessageReads};

use crate::kind::{Head, Own};
use crate::rest::MessageRest;
use crate::whole::frame_at;
use etcs_reader::{Feeder, Stop};
use etcs_sequence::PacketCount;
use etcs_vars::Var;

/// All of a message, of whose packets only the count is kept, so that reading it takes no memory.
pub fn counted<H: Head, B: Own<Front = H>>() -> MessageRest<H, B, PacketCount<H::Packet>>
    ensures { Same (Left result) (MessageLanguage H.Packet.WAY) }
{
    MessageRest::new(PacketCount::new())
}

/// The first bit of a piece, counted from 0, with which no message of this way continues, and the variable that holds
/// it, as `ReaderOf::feed` reports them of the whole piece. `None` says nothing: it is returned if the piece has fewer
/// bytes than the L_MESSAGE that it begins with, and may always be. Takes no memory.
pub fn refused_at<H: Head, B: Own<Front = H>>(piece: &[u8]) -> Option<(usize, Var)>
    ensures { IfSome result (λ t. IsOutcome (MessageReads H.Packet.WAY) (bits piece.now) (refused t.0 t.1)) }
{
    let (_, bytes) = frame_at(piece)?;
    let mut feeder = Feeder::new(counted::<H, B>());
    match feeder.feed(&piece[..bytes]) {
        Ok(_) => None,
        Err(Stop::Refused { bit, var }) => Some((bit, var)),
        Err(Stop::Memory) => None,
    }
}
