//! Writing messages.

ghost use Rattle.std.specs.Prelude.{◌≡◌, ◌<◌, [], ◌++◌, length, OnOk, OnErr};
ghost use Rattle.etcs_bits.specs.Bits.{bits};
ghost use Rattle.etcs_vars.specs.Reading.{Reading, spelled};
ghost use Rattle.etcs_vars.specs.WordSinks.{and_bits};
ghost use Rattle.etcs_messages.specs.Messages.{MessageReads, message_value};
ghost use Rattle.etcs_messages.specs.Readings.{message_reading, bytes_of};

use crate::kind::{Head, Own};
use crate::message::{Content, MessageOf};
use etcs_packets::inner::{AnyPacket, append_all, append_variables};
use etcs_vars::WordSink;
use std::alloc::AllocError;

impl<H: Head, B: Own<Front = H>> MessageOf<H, B> {
    /// Appends the message's spelling, L_MESSAGE bytes: 3 to 1,023. If it succeeds, the bits of `out` are those before
    /// and, after them, the message's.
    ///
    /// # Errors
    ///
    /// `AllocError` if out of memory. `out` then stays as it was.
    pub fn encode(&self, out: &mut Vec<u8>) -> Result<(), AllocError>
        ensures ok { OnOk result ((r : Reading) × MessageReads H.Packet.WAY (message_value H.Packet.WAY H.head B.own H.Packet.form self.now) r × (bits out.new.items ≡ bits out.old.items ++ spelled r)) }
        ensures err { OnErr result (out.new.items ≡ out.old.items) }
    {
        self.readable();
        let start = out.len();
        out.resize(start + self.bytes(), 0)?;
        write_message(&mut out[start..], self);
        Ok(())
    }
}

/// Writes the message over exactly its bytes.
fn write_message<H: Head, B: Own<Front = H>>(out: &mut [u8], message: &MessageOf<H, B>)
    requires { length out.old ≡ bytes_of H.Packet.WAY B.own H.Packet.form message.now }
    ensures { bits out.new ≡ spelled (message_reading H.Packet.WAY H.head B.own H.Packet.form message.now) }
{
    message.readable();
    let bytes = out.len();
    let mut sink = WordSink::new(out);
    append_message(message, bytes, &mut sink);
    sink.finish();
}

/// Puts a message of this many bytes after whole bytes.
fn append_message<H: Head, B: Own<Front = H>>(
    message: &MessageOf<H, B>,
    bytes: usize,
    out: &mut WordSink<'_>,
)
    requires bytes { bytes ≡ bytes_of H.Packet.WAY B.own H.Packet.form message.now }
    requires small { bytes < 1024 }
    requires none { out.old.word ≡ [] }
    ensures { out.new ≡ and_bits out.old (spelled (message_reading H.Packet.WAY H.head B.own H.Packet.form message.now)) }
{
    out.put(18, u64::from(message.nid()) * 1024 + bytes as u64);
    match &message.content {
        Content::Typed {
            head,
            body,
            packets,
            padding,
        } => {
            append_variables(head, out);
            append_variables(body, out);
            append_all(packets.as_slice(), out);
            out.fill_up(u64::from(*padding));
        }
        Content::Kept { bits, .. } => out.put_slice(&bits.as_slice()),
    }
}
