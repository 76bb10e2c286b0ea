//! Messages.

ghost use Rattle.std.specs.Prelude.{◌≡◌, ◌+◌, ◌*◌, ◌/◌, ◌<◌, ◌≤◌, ℕ, None, Some, length, All, OnOk, OnSome, IfOk, IfErr, IfSome, IfNone};
ghost use Rattle.std.specs.List.{list_any};
ghost use Rattle.std.specs.Option.{option_map};
ghost use Rattle.etcs_vars.specs.Reading.{spelled};
ghost use Rattle.etcs_packets.specs.PacketValues.{IsPacketTo};
ghost use Rattle.etcs_messages.specs.Messages.{all_bits, front_of, front_fault, is_marker, message_fault, padded_fault, padding_room, kept_fault, IsTyped, IsMessage, MessageReads, message_value, values_of};
ghost use Rattle.etcs_messages.specs.Kinds.{IsOwn};
ghost use Rattle.etcs_messages.specs.Readings.{nid_of_message, head_of, body_of, kept_of, packets_of, padding_bits_of, padding_of, bytes_of, message_reading};
ghost use Rattle.etcs_messages.specs.declared.message.Content.TheVariants.{Typed, Kept};

use crate::kind::{Head, Own};
use crate::phase::header_bits;
use etcs_bits::{BitSlice, Bits};
use etcs_bodies::ListOf;
use etcs_packets::inner::{AnyPacket, copy_all, room_after};
use etcs_tables::{Way, message_row};
use etcs_vars::inner::Variables;
use etcs_vars::{BuildFault, Var};
use std::alloc::{AllocError, Global};
use std::marker::Model;

/// The bits of 1,023 bytes, the most of a message.
const MOST_BITS: usize = 8184;

/// What a message holds.
#[derive(Debug, Drop, PartialEq, Eq)]
pub(crate) enum Content<H, B, P> {
    /// A typed message: PADDING is the number of the bits after the packets.
    Typed {
        head: H,
        body: B,
        packets: ListOf<P>,
        padding: u8,
    },
    /// A message of another number, kept as bits after L_MESSAGE.
    Kept {
        nid: u8,
        bits: Bits,
    },
}

/// A message of a way (SUBSET-026, 8).
///
/// A typed message is a header, the variables of its number, packets, and 0 to 7 bits of PADDING up to whole
/// bytes. A message of another number is kept as bits. Both have at most 1,023 bytes.
#[derive(Debug, Drop, PartialEq, Eq)]
pub struct MessageOf<H: Head, B: Own<Front = H>> {
    pub(crate) content: Content<H, B, H::Packet>,
    /// L_MESSAGE: how many bytes it has.
    pub(crate) bytes: usize,
}

impl<H: Head, B: Own<Front = H>> Model for MessageOf<H, B> {
    ghost use Rattle.etcs_messages.specs.declared.message.Content.{Content};
    ghost use Rattle.std.specs.Prelude.{◌≡◌};
    ghost use Rattle.etcs_messages.specs.Messages.{IsMessage};
    ghost use Rattle.etcs_messages.specs.Readings.{bytes_of};

    ghost Value = { Content H B H.Packet };

    ghost view = { λ m. m.content };

    ghost invariant = { λ m. IsMessage H.Packet.WAY H.head B.own H.Packet.form m.content × (m.bytes ≡ bytes_of H.Packet.WAY B.own H.Packet.form m.content) };

    ghost inverse = { λ c. record { content = c; bytes = bytes_of H.Packet.WAY B.own H.Packet.form c } };
}

impl<H: Head, B: Own<Front = H>> MessageOf<H, B> {
    /// A typed message with these parts, the packets in this order, whose PADDING is zeros. Succeeds exactly if none of
    /// the faults below applies. Takes no memory.
    ///
    /// # Errors
    ///
    /// The first of these that applies, with the same packets:
    ///
    /// - [`BuildFault::NotAdmitted`] with NID_MESSAGE if the body's number isn't one of its variant's;
    /// - `NotAdmitted` with the first variable of the head, then of the body, in the order of sending, that doesn't
    ///   admit its number;
    /// - `NotAdmitted` with NID_PACKET if a packet 0, which is in telegrams alone, is among those of a message to the
    ///   train;
    /// - [`BuildFault::TooLong`] if header, body and packets take more than 8,184 bits.
    pub fn new(
        head: H,
        body: B,
        packets: Vec<H::Packet>,
    ) -> Result<Self, (BuildFault, Vec<H::Packet>)>
        ensures ok { IfOk result (λ m. m ≡ Typed head body packets.items 0) }
        ensures fits { OnOk result (message_fault H.Packet.WAY H.head B.own H.Packet.form head body packets.items ≡ None) }
        ensures fault { IfErr result (λ e. message_fault H.Packet.WAY H.head B.own H.Packet.form head body packets.items ≡ Some e.0) }
        ensures packets { IfErr result (λ e. e.1.items ≡ packets.items) }
    {
        MessageOf::with_padding(head, body, packets, 0)
    }

    /// A typed message with these parts, the packets in this order, and PADDING as the number of its bits, of which
    /// there are as many as are left up to whole bytes: 0 to 7. Succeeds exactly if none of the faults below applies.
    /// Takes no memory.
    ///
    /// # Errors
    ///
    /// The first that applies, with the same packets: those of [`MessageOf::new`] in the same order, and then
    /// [`BuildFault::NotAdmitted`] with PADDING if the number needs more bits than are left.
    pub fn with_padding(
        head: H,
        body: B,
        packets: Vec<H::Packet>,
        padding: u8,
    ) -> Result<Self, (BuildFault, Vec<H::Packet>)>
        ensures ok { IfOk result (λ m. m ≡ Typed head body packets.items padding) }
        ensures fits { OnOk result (padded_fault H.Packet.WAY H.head B.own H.Packet.form head body packets.items padding ≡ None) }
        ensures fault { IfErr result (λ e. padded_fault H.Packet.WAY H.head B.own H.Packet.form head body packets.items padding ≡ Some e.0) }
        ensures packets { IfErr result (λ e. e.1.items ≡ packets.items) }
    {
        match check_typed(head, body, packets.as_slice(), padding) {
            Ok(bytes) => Ok(MessageOf {
                content: Content::Typed {
                    head,
                    body,
                    packets: ListOf::from_vec(packets),
                    padding,
                },
                bytes,
            }),
            Err(fault) => Err((fault, packets)),
        }
    }

    /// A message of a number that isn't typed, with these bits after L_MESSAGE. Succeeds exactly if neither of the
    /// faults below applies. Takes no memory.
    ///
    /// # Errors
    ///
    /// With the same bits:
    ///
    /// - [`BuildFault::NotAdmitted`] with NID_MESSAGE if the number is that of a typed message;
    /// - else [`BuildFault::FillLength`] if with the 18 bits before them these bits aren't 3 to 1,023 whole bytes.
    pub fn kept(nid: u8, bits: Bits) -> Result<Self, (BuildFault, Bits)>
        ensures ok { IfOk result (λ m. m ≡ Kept nid bits) }
        ensures fits { OnOk result (kept_fault H.Packet.WAY nid (length bits) ≡ None) }
        ensures fault { IfErr result (λ e. kept_fault H.Packet.WAY nid (length bits) ≡ Some e.0) }
        ensures bits { IfErr result (λ e. e.1 ≡ bits) }
    {
        if message_row(H::Packet::WAY, nid).is_some() {
            return Err((BuildFault::NotAdmitted(Var::NID_MESSAGE), bits));
        }
        let len = bits.len();
        if len < 6 || len > 8166 {
            return Err((BuildFault::FillLength, bits));
        }
        if (len + 18) % 8 != 0 {
            return Err((BuildFault::FillLength, bits));
        }
        Ok(MessageOf {
            content: Content::Kept { nid, bits },
            bytes: (len + 18) / 8,
        })
    }

    /// NID_MESSAGE.
    pub fn nid(&self) -> u8
        ensures { result ≡ nid_of_message B.own self.now }
    {
        match &self.content {
            Content::Typed { body, .. } => body.nid(),
            Content::Kept { nid, .. } => *nid,
        }
    }

    /// What is in the header after L_MESSAGE. `None` for a message that is kept as bits.
    pub fn head(&self) -> Option<&H>
        ensures { option_map (λ head. head.now) result ≡ head_of self.now }
    {
        match &self.content {
            Content::Typed { head, .. } => Some(head),
            Content::Kept { .. } => None,
        }
    }

    /// The number with the variables after the header. `None` for a message that is kept as bits.
    pub fn body(&self) -> Option<&B>
        ensures { option_map (λ body. body.now) result ≡ body_of self.now }
    {
        match &self.content {
            Content::Typed { body, .. } => Some(body),
            Content::Kept { .. } => None,
        }
    }

    /// The bits after L_MESSAGE of a message that is kept as bits. `None` for a typed one.
    pub fn kept_bits(&self) -> Option<BitSlice<'_>>
        ensures { result ≡ kept_of self.now }
    {
        match &self.content {
            Content::Typed { .. } => None,
            Content::Kept { bits, .. } => Some(bits.as_slice()),
        }
    }

    /// The packets in the order of sending. Empty for a message that is kept as bits.
    pub fn packets(&self) -> &[H::Packet]
        ensures { result.now ≡ packets_of self.now }
    {
        match &self.content {
            Content::Typed { packets, .. } => packets.as_slice(),
            Content::Kept { .. } => &[],
        }
    }

    /// How many bits of PADDING follow the packets, 0 to 7, and their number. (0, 0) for a message that is kept
    /// as bits.
    pub fn padding(&self) -> (usize, u8)
        ensures count { result.0 ≡ padding_bits_of H.Packet.WAY B.own H.Packet.form self.now }
        ensures number { result.1 ≡ padding_of self.now }
    {
        match &self.content {
            Content::Typed {
                body,
                packets,
                padding,
                ..
            } => (left_after(*body, packets.as_slice()) % 8, *padding),
            Content::Kept { .. } => (0, 0),
        }
    }

    /// How many bits the message's spelling has: 8 times L_MESSAGE.
    pub fn bit_len(&self) -> usize
        ensures { result ≡ length (spelled (message_reading H.Packet.WAY H.head B.own H.Packet.form self.now)) }
    {
        self.readable();
        8 * self.bytes
    }

    /// A copy. If it succeeds, it is an equal message.
    ///
    /// # Errors
    ///
    /// `AllocError` if out of memory.
    pub fn try_clone(&self, alloc: Global) -> Result<Self, AllocError>
        ensures { IfOk result (λ m. m ≡ self.now) }
    {
        let content = match &self.content {
            Content::Typed {
                head,
                body,
                packets,
                padding,
            } => Content::Typed {
                head: *head,
                body: *body,
                packets: ListOf::from_vec(copy_all(alloc, packets.as_slice())?),
                padding: *padding,
            },
            Content::Kept { nid, bits } => Content::Kept {
                nid: *nid,
                bits: bits.try_clone(alloc)?,
            },
        };
        Ok(MessageOf {
            content,
            bytes: self.bytes,
        })
    }

    /// L_MESSAGE: the message's bytes.
    pub(crate) fn bytes(&self) -> usize
        ensures { result ≡ bytes_of H.Packet.WAY B.own H.Packet.form self.now }
    {
        self.bytes
    }

    /// For callers: the message has a reading, of this many whole bytes.
    pub(crate) fn readable(&self)
        ensures value { IsMessage H.Packet.WAY H.head B.own H.Packet.form self.now }
        ensures reads { MessageReads H.Packet.WAY (message_value H.Packet.WAY H.head B.own H.Packet.form self.now) (message_reading H.Packet.WAY H.head B.own H.Packet.form self.now) }
        ensures bytes { length (spelled (message_reading H.Packet.WAY H.head B.own H.Packet.form self.now)) ≡ 8 * bytes_of H.Packet.WAY B.own H.Packet.form self.now }
        ensures small { bytes_of H.Packet.WAY B.own H.Packet.form self.now ≤ 1023 }
    {
        let _ = &self.content;
    }
}

/// Whether head and body are admitted: the number, then the variables of the head, then those of the body.
fn check_front<H: Head, B: Own<Front = H>>(head: H, body: B) -> Result<(), BuildFault>
    ensures ok { OnOk result (front_fault H.head B.own head body ≡ None) }
    ensures types { H.head.Fits head }
    ensures own { OnOk result (IsOwn B.own body) }
    ensures fault { IfErr result (λ e. front_fault H.head B.own head body ≡ Some e) }
{
    let types = head.check();
    if !body.is_of_variant() {
        return Err(BuildFault::NotAdmitted(Var::NID_MESSAGE));
    }
    types?;
    body.check()
}

/// Whether head, body, packets and the number of PADDING make a message, and how many bytes it has.
fn check_typed<H: Head, B: Own<Front = H>>(
    head: H,
    body: B,
    packets: &[H::Packet],
    padding: u8,
) -> Result<usize, BuildFault>
    ensures ok { OnOk result (IsTyped H.Packet.WAY H.head B.own H.Packet.form head body packets.now padding) }
    ensures bytes { IfOk result (λ n. n ≡ (all_bits H.Packet.WAY B.own H.Packet.form body packets.now + 7) / 8) }
    ensures fault { IfErr result (λ e. padded_fault H.Packet.WAY H.head B.own H.Packet.form head body packets.now padding ≡ Some e) }
{
    check_front(head, body)?;
    if has_marker(packets) {
        return Err(BuildFault::NotAdmitted(Var::NID_PACKET));
    }
    let Some(left) = bits_left(body, packets) else {
        return Err(BuildFault::TooLong);
    };
    if padding >> (left % 8) > 0 {
        return Err(BuildFault::NotAdmitted(Var::PADDING));
    }
    Ok(MOST_BITS / 8 - left / 8)
}

/// How many bytes a message has.
pub(crate) fn bytes_in<H: Head, B: Own<Front = H>>(content: &Content<H, B, H::Packet>) -> usize
    requires { IsMessage H.Packet.WAY H.head B.own H.Packet.form content.now }
    ensures { result ≡ bytes_of H.Packet.WAY B.own H.Packet.form content.now }
{
    let bits = match content {
        Content::Typed { body, packets, .. } => {
            MOST_BITS - left_after(*body, packets.as_slice()) / 8 * 8
        }
        Content::Kept { bits, .. } => 18 + bits.len(),
    };
    bits / 8
}

/// Whether a packet 0 without a frame is among them, which goes to the train alone.
fn has_marker<P: AnyPacket>(packets: &[P]) -> bool
    ensures { result ≡ list_any (λ p. is_marker P.WAY (P.form p).value) packets.now }
{
    match P::WAY {
        Way::ToTrain => packets.iter().any(|packet| packet.nid() == 0),
        Way::ToTrack => false,
    }
}

/// How many of the bits of the longest message these packets leave, or `None` if they don't fit.
fn bits_left<H: Head, B: Own<Front = H>>(body: B, packets: &[H::Packet]) -> Option<usize>
    requires { front_of H.Packet.WAY (B.own.reading body) ≤ 8184 }
    ensures left { IfSome result (λ left. all_bits H.Packet.WAY B.own H.Packet.form body packets.now + left ≡ 8184) }
    ensures made { OnSome result (All (λ p. (H.Packet.form p).made) packets.now) }
    ensures packets { OnSome result (All (IsPacketTo H.Packet.WAY) (values_of H.Packet.form packets.now)) }
    ensures none { IfNone result (8184 < all_bits H.Packet.WAY B.own H.Packet.form body packets.now) }
{
    room_after(
        MOST_BITS - header_bits(H::Packet::WAY) - body.bits(),
        packets,
    )
}

/// The same of packets that fit.
fn left_after<H: Head, B: Own<Front = H>>(body: B, packets: &[H::Packet]) -> usize
    requires { all_bits H.Packet.WAY B.own H.Packet.form body packets.now ≤ 8184 }
    ensures { all_bits H.Packet.WAY B.own H.Packet.form body packets.now + result ≡ 8184 }
{
    match bits_left(body, packets) {
        Some(left) => left,
        None => unreachable!(),
    }
}
