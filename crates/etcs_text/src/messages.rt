//! The text of messages of either way.

ghost use Rattle.std.specs.Prelude.{◌≡◌, ◌*◌, ◌<◌, ◌++◌, ◌∷◌, [], OnErr, OnOk, codes, flat_map};
ghost use Rattle.etcs_vars.specs.declared.var.Var.TheVariants.{L_MESSAGE, NID_MESSAGE};
ghost use Rattle.etcs_messages.specs.Messages.{message_value};
ghost use Rattle.etcs_packet_text.specs.Fronts.{Begins};
ghost use Rattle.etcs_packet_text.specs.Show.{variable_line};
ghost use Rattle.etcs_text.specs.Messages.{message_bits, message_line};
ghost use Rattle.etcs_text.specs.Show.{way_word};

use etcs_messages::inner::reads;
use etcs_messages::{Head, MessageOf, Own};
use etcs_packet_text::inner::Page;
use etcs_packets::inner::AnyPacket;
use etcs_tables::Way;
use etcs_vars::Var;
use etcs_vars::inner::VarSink;
use std::alloc::AllocError;

/// The kind of messages of a way, between blanks.
#[inline(always)]
fn way_words(way: Way) -> &'static [u8]
    ensures { result.now ≡ codes " " ++ way_word way ++ codes " " }
{
    match way {
        Way::ToTrain => b" radio ",
        Way::ToTrack => b" train ",
    }
}

/// Appends the first line of an item of this many bits.
#[inline(always)]
fn write_item(way: Way, bits: usize, item: u64, page: &mut Page) -> Result<(), AllocError>
    ensures ok { OnOk result (page.new ≡ page.old ++ message_line way bits item) }
    ensures err { OnErr result (Begins page.old page.new) }
{
    page.put_between(b"item ", item, way_words(way))?;
    page.put_between(b"", bits as u64, b" bits\n")
}

/// How many bits a message has.
#[inline(always)]
pub(crate) fn message_bits<H: Head, B: Own<Front = H>>(message: &MessageOf<H, B>) -> usize
    ensures { result ≡ message_bits H.Packet.WAY (message_value H.Packet.WAY H.head B.own H.Packet.form message.now) }
{
    reads(message);
    message.bit_len()
}

/// How many bytes a message has.
#[inline(always)]
pub(crate) fn message_bytes<H: Head, B: Own<Front = H>>(message: &MessageOf<H, B>) -> usize
    ensures small { result < 1024 }
    ensures bits { 8 * result ≡ message_bits H.Packet.WAY (message_value H.Packet.WAY H.head B.own H.Packet.form message.now) }
{
    reads(message);
    message.bit_len() / 8
}

/// Appends the first line of a message of this many bytes, and the lines of NID_MESSAGE and L_MESSAGE.
#[inline(always)]
pub(crate) fn write_front(
    way: Way,
    nid: u8,
    bytes: usize,
    item: u64,
    page: &mut Page,
) -> Result<(), AllocError>
    requires { bytes < 1024 }
    ensures ok { OnOk result (page.new ≡ page.old ++ (message_line way (8 * bytes) item ++ flat_map variable_line ((NID_MESSAGE, nid) ∷ (L_MESSAGE, bytes) ∷ []))) }
    ensures begins { Begins page.old page.new }
{
    write_item(way, 8 * bytes, item, page)?;
    page.send(&[
        (Var::NID_MESSAGE, u64::from(nid)),
        (Var::L_MESSAGE, bytes as u64),
    ])
}
