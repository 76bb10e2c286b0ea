//! For the crates above: the variables before a message's packets, in the order of sending, what is left of a message,
//! and where one is refused.

ghost use Rattle.etcs_messages.specs.Messages.{IsMessage, MessageReads, message_value};
ghost use Rattle.etcs_messages.specs.Readings.{message_reading};

use crate::kind::{Head, Own};
use crate::message::MessageOf;
pub use crate::refused::{counted, refused_at};
pub use crate::rest::MessageRest;
pub use crate::whole::{Outline, message_seen, outline_of};

/// For proofs: each message has a reading, which is `message_reading` of it. Does nothing.
pub fn reads<H: Head, B: Own<Front = H>>(message: &MessageOf<H, B>)
    ensures { MessageReads H.Packet.WAY (message_value H.Packet.WAY H.head B.own H.Packet.form message.now) (message_reading H.Packet.WAY H.head B.own H.Packet.form message.now) }
{
    message.readable();
}

/// For proofs: each message is one that its type admits. Does nothing.
pub fn hold<H: Head, B: Own<Front = H>>(message: &MessageOf<H, B>)
    ensures { IsMessage H.Packet.WAY H.head B.own H.Packet.form message.now }
{
    message.readable();
}
