//! Items that are written on a page, as values or as bytes have them.

ghost use Rattle.std.specs.Prelude.{◌≡◌, ◌*◌, ◌<◌, ◌≤◌, ◌^◌, ◌++◌, Some, length, true, IfOk, IfSome, IsNone, IsTrue, OnErr, OnOk};
ghost use Rattle.etcs_bits.specs.Bits.{bits, part};
ghost use Rattle.etcs_vars.specs.Reading.{IsOutcome, Reading, done, spelled};
ghost use Rattle.etcs_messages.specs.Messages.{message_value};
ghost use Rattle.etcs_messages.specs.Readings.{body_of, head_of, kept_of};
ghost use Rattle.etcs_telegram.specs.Telegrams.{telegram_value};
ghost use Rattle.etcs_packet_text.specs.Fronts.{Begins};
ghost use Rattle.etcs_text.specs.Entries.{EntryReads, EntryValue, entry_value, kind_of, message_kind, of_message, of_telegram};

use crate::entry::{Entry, Kind};
use crate::messages::message_bytes;
use crate::seen::MOST_BYTES;
use etcs_bits::BitSlice;
use etcs_messages::inner::{Outline, outline_of};
use etcs_messages::{Head, MessageOf, Own};
use etcs_packet_text::inner::{Given, InRoom, PacketPage, PacketSource};
use etcs_packets::Packet;
use etcs_packets::inner::AnyPacket;
use etcs_rows::inner::Carrier;
use etcs_tables::Way;
use etcs_telegram::inner::{HEADER_BITS, front_of};
use etcs_telegram::{Header, Size, Telegram};
use std::alloc::AllocError;

/// How items are written on a page: as lines or as JSON. Each implementation proves the clauses.
pub(crate) trait ItemWriter {
    ghost use Rattle.std.specs.Prelude.{◌≡◌, ◌*◌, ◌++◌, ℕ, Bool, List, true, IfOk, IsTrue, OnOk};
    ghost use Rattle.etcs_tables.specs.declared.row.Way.TheVariants.{ToTrain};
    ghost use Rattle.etcs_packets.specs.PacketValues.{PacketValue};
    ghost use Rattle.etcs_messages.specs.Messages.{typed_message, kept_message};
    ghost use Rattle.etcs_packet_text.specs.Fronts.{Begins};
    ghost use Rattle.etcs_text.specs.Entries.{EntryValue, of_message, of_telegram};
    ghost use Rattle.etcs_text.specs.Messages.{message_bits};

    /// Such a page.
    type Page: PacketPage;

    /// What is written of an item.
    ghost written: { Self → EntryValue → List ℕ };

    /// Writes the telegram of this size, header and packets, with FILL after them, and returns whether there is one. If there
    /// is none, a part of it may be written.
    ///
    /// # Errors
    ///
    /// `AllocError` if out of memory.
    fn telegram<Q: PacketSource>(
        &self,
        size: Size,
        header: &Header,
        packets: &Q,
        page: &mut Self::Page,
    ) -> Result<bool, AllocError>
        requires { Q.WAY ≡ ToTrain }
        ensures written { IfOk result (λ b. IsTrue b → (vs : List PacketValue) × (fill : List Bool) × Q.has packets.now vs fill × (Self.Page.text page.new ≡ Self.Page.text page.old ++ written self.now (of_telegram (record { size = size; header = header.now; packets = vs; fill = fill })))) }
        ensures begins { Begins (Self.Page.text page.old) (Self.Page.text page.new) }
        ensures sure { Q.sure packets.now → IfOk result (λ b. b ≡ true) };

    /// The same of the typed message of this head, body and packets, with PADDING after them, which has this many bytes.
    ///
    /// # Errors
    ///
    /// `AllocError` if out of memory.
    fn typed<H: Head, B: Own<Front = H>, Q: PacketSource>(
        &self,
        bytes: usize,
        head: &H,
        body: &B,
        packets: &Q,
        page: &mut Self::Page,
    ) -> Result<bool, AllocError>
        requires way { Q.WAY ≡ H.Packet.WAY }
        requires small { bytes < 1024 }
        ensures written { IfOk result (λ b. IsTrue b → (vs : List PacketValue) × (padding : List Bool) × Q.has packets.now vs padding × (8 * bytes ≡ message_bits H.Packet.WAY (typed_message (B.own.nid body.now) (H.reading_of head.now) (B.reading_of body.now) vs padding) → Self.Page.text page.new ≡ Self.Page.text page.old ++ written self.now (of_message H.Packet.WAY (typed_message (B.own.nid body.now) (H.reading_of head.now) (B.reading_of body.now) vs padding)))) }
        ensures begins { Begins (Self.Page.text page.old) (Self.Page.text page.new) }
        ensures sure { Q.sure packets.now → IfOk result (λ b. b ≡ true) };

    /// Writes the message of this way and number that is kept as these bits, and has this many bytes.
    ///
    /// # Errors
    ///
    /// `AllocError` if out of memory.
    fn kept(
        &self,
        way: Way,
        nid: u8,
        bytes: usize,
        bits: &BitSlice<'_>,
        page: &mut Self::Page,
    ) -> Result<(), AllocError>
        requires { bytes < 1024 }
        ensures written { OnOk result (8 * bytes ≡ message_bits way (kept_message nid bits.now) → Self.Page.text page.new ≡ Self.Page.text page.old ++ written self.now (of_message way (kept_message nid bits.now))) }
        ensures begins { Begins (Self.Page.text page.old) (Self.Page.text page.new) };
}

/// Writes a telegram.
fn write_telegram<W: ItemWriter>(
    writer: &W,
    telegram: &Telegram,
    page: &mut W::Page,
) -> Result<bool, AllocError>
    ensures written { IfOk result (λ b. W.Page.text page.new ≡ W.Page.text page.old ++ W.written writer.now (of_telegram (telegram_value telegram.now))) }
    ensures begins { Begins (W.Page.text page.old) (W.Page.text page.new) }
{
    let packets = Given {
        packets: telegram.packets(),
        after: telegram.fill(),
    };
    writer.telegram(telegram.size(), telegram.header(), &packets, page)
}

/// Packets and the bits that follow them, as a source.
fn given<'a, P: AnyPacket>(packets: &'a [P], after: BitSlice<'a>) -> Given<'a, P>
    ensures packets { result.packets.now ≡ packets.now }
    ensures after { result.after ≡ after.entry }
{
    Given { packets, after }
}

/// Writes a typed message, whose head and body these are.
fn write_typed<W: ItemWriter, H: Head, B: Own<Front = H>>(
    writer: &W,
    message: &MessageOf<H, B>,
    head: &H,
    body: &B,
    page: &mut W::Page,
) -> Result<bool, AllocError>
    requires head { head_of message.now ≡ Some head.now }
    requires body { body_of message.now ≡ Some body.now }
    ensures written { IfOk result (λ b. W.Page.text page.new ≡ W.Page.text page.old ++ W.written writer.now (of_message H.Packet.WAY (message_value H.Packet.WAY H.head B.own H.Packet.form message.now))) }
    ensures begins { Begins (W.Page.text page.old) (W.Page.text page.new) }
{
    let (count, number) = message.padding();
    let byte = [number];
    let Some(after) = BitSlice::new(&byte, 8 - count, count) else {
        unreachable!()
    };
    let packets = given(message.packets(), after);
    writer.typed(message_bytes(message), head, body, &packets, page)
}

/// Writes a message that is kept as these bits.
fn write_kept<W: ItemWriter, H: Head, B: Own<Front = H>>(
    writer: &W,
    message: &MessageOf<H, B>,
    bits: &BitSlice<'_>,
    page: &mut W::Page,
) -> Result<bool, AllocError>
    requires { kept_of message.now ≡ Some bits.now }
    ensures written { IfOk result (λ b. W.Page.text page.new ≡ W.Page.text page.old ++ W.written writer.now (of_message H.Packet.WAY (message_value H.Packet.WAY H.head B.own H.Packet.form message.now))) }
    ensures begins { Begins (W.Page.text page.old) (W.Page.text page.new) }
{
    let bytes = message_bytes(message);
    writer.kept(H::Packet::WAY, message.nid(), bytes, bits, page)?;
    Ok(true)
}

/// Writes a message.
fn write_message<W: ItemWriter, H: Head, B: Own<Front = H>>(
    writer: &W,
    message: &MessageOf<H, B>,
    page: &mut W::Page,
) -> Result<bool, AllocError>
    ensures written { IfOk result (λ b. W.Page.text page.new ≡ W.Page.text page.old ++ W.written writer.now (of_message H.Packet.WAY (message_value H.Packet.WAY H.head B.own H.Packet.form message.now))) }
    ensures begins { Begins (W.Page.text page.old) (W.Page.text page.new) }
{
    match (message.head(), message.body(), message.kept_bits()) {
        (Some(head), Some(body), _) => write_typed(writer, message, head, body, page),
        (_, _, Some(bits)) => write_kept(writer, message, &bits, page),
        _ => unreachable!(),
    }
}

/// Writes an entry. If out of memory, a part of it may be written.
fn write_item<W: ItemWriter>(
    writer: &W,
    entry: &Entry,
    page: &mut W::Page,
) -> Result<bool, AllocError>
    ensures written { IfOk result (λ b. W.Page.text page.new ≡ W.Page.text page.old ++ W.written writer.now (entry_value entry.now)) }
    ensures begins { Begins (W.Page.text page.old) (W.Page.text page.new) }
{
    match entry {
        Entry::Telegram(telegram) => write_telegram(writer, telegram, page),
        Entry::Message(message) => write_message(writer, message, page),
        Entry::Train(message) => write_message(writer, message, page),
    }
}

/// Writes an entry, or nothing.
///
/// # Errors
///
/// `AllocError` if out of memory.
pub(crate) fn write_entry<W: ItemWriter>(
    writer: &W,
    entry: &Entry,
    page: &mut W::Page,
) -> Result<(), AllocError>
    ensures ok { OnOk result (W.Page.text page.new ≡ W.Page.text page.old ++ W.written writer.now (entry_value entry.now)) }
    ensures err { OnErr result (page.new ≡ page.old) }
{
    let place = page.place();
    match write_item(writer, entry, page) {
        Ok(_) => Ok(()),
        Err(error) => {
            page.back(place);
            Err(error)
        }
    }
}

/// Writes the telegram of a size that a piece begins with, and returns how many bytes it has.
#[inline(never)]
fn telegram_at<W: ItemWriter>(
    writer: &W,
    size: Size,
    piece: &[u8],
    page: &mut W::Page,
) -> Result<Option<usize>, AllocError>
    requires { length (bits piece.now) < 2 ^ 64 }
    ensures some { IfOk result (λ o. IfSome o (λ n. (n ≤ length piece.now) × (e : EntryValue) × (r : Reading) × EntryReads (kind_of size) e r × (spelled r ≡ part 0 (8 * n) (bits piece.now)) × (W.Page.text page.new ≡ W.Page.text page.old ++ W.written writer.now e))) }
    ensures begins { Begins (W.Page.text page.old) (W.Page.text page.new) }
{
    let Some(header) = front_of(size, piece) else {
        return Ok(None);
    };
    let packets = InRoom::<Packet>::new(Carrier::Telegram, size.packet_room(), piece, HEADER_BITS);
    if writer.telegram(size, &header, &packets, page)? {
        Ok(Some(size.container_bytes()))
    } else {
        Ok(None)
    }
}

/// Writes the message that a piece begins with, and returns how many bytes it has.
#[inline(never)]
fn message_at<W: ItemWriter, H: Head, B: Own<Front = H>>(
    writer: &W,
    piece: &[u8],
    page: &mut W::Page,
) -> Result<Option<usize>, AllocError>
    requires { length (bits piece.now) < 2 ^ 64 }
    ensures some { IfOk result (λ o. IfSome o (λ n. (n ≤ length piece.now) × (e : EntryValue) × (r : Reading) × EntryReads (message_kind H.Packet.WAY) e r × (spelled r ≡ part 0 (8 * n) (bits piece.now)) × (W.Page.text page.new ≡ W.Page.text page.old ++ W.written writer.now e))) }
    ensures begins { Begins (W.Page.text page.old) (W.Page.text page.new) }
{
    let Some((outline, bytes)) = outline_of::<H, B>(piece) else {
        return Ok(None);
    };
    let way = H::Packet::WAY;
    match outline {
        Outline::Kept { nid, bits } => {
            writer.kept(way, nid, bytes, &bits, page)?;
            Ok(Some(bytes))
        }
        Outline::Typed { head, body, front } => {
            let room = 8 * bytes - front;
            let packets = InRoom::<H::Packet>::new(Carrier::Message(way), room, piece, front);
            if writer.typed(bytes, &head, &body, &packets, page)? {
                Ok(Some(bytes))
            } else {
                Ok(None)
            }
        }
    }
}

/// Writes the item of the kind that a piece begins with, and returns how many bytes it has.
#[inline(always)]
fn item_at<W: ItemWriter>(
    writer: &W,
    kind: Kind,
    piece: &[u8],
    page: &mut W::Page,
) -> Result<Option<usize>, AllocError>
    requires { length (bits piece.now) < 2 ^ 64 }
    ensures some { IfOk result (λ o. IfSome o (λ n. (n ≤ length piece.now) × (e : EntryValue) × (r : Reading) × EntryReads kind e r × (spelled r ≡ part 0 (8 * n) (bits piece.now)) × (W.Page.text page.new ≡ W.Page.text page.old ++ W.written writer.now e))) }
    ensures begins { Begins (W.Page.text page.old) (W.Page.text page.new) }
{
    match kind {
        Kind::Long => telegram_at(writer, Size::Long, piece, page),
        Kind::Short => telegram_at(writer, Size::Short, piece, page),
        Kind::Radio => message_at::<W, etcs_radio::RadioHead, etcs_radio::Body>(
            writer, piece, page,
        ),
        Kind::Train => {
            message_at::<W, etcs_train::TrainHead, etcs_train::TrainBody>(writer, piece, page)
        }
    }
}

/// Writes the item of the kind that bytes begin with, without a value of it, and returns how many bytes it has. It may
/// always return `None`, also if they begin with an item; then nothing is written.
///
/// # Errors
///
/// `AllocError` if out of memory. Nothing is written then.
#[inline(always)]
pub(crate) fn write_seen<W: ItemWriter>(
    writer: &W,
    kind: Kind,
    bytes: &[u8],
    page: &mut W::Page,
) -> Result<Option<usize>, AllocError>
    ensures some { IfOk result (λ o. IfSome o (λ n. (n ≤ length bytes.now) × (e : EntryValue) × IsOutcome (EntryReads kind) (bits bytes.now) (done e (8 * n)) × (W.Page.text page.new ≡ W.Page.text page.old ++ W.written writer.now e))) }
    ensures none { IfOk result (λ o. IsNone o → page.new ≡ page.old) }
    ensures err { OnErr result (page.new ≡ page.old) }
{
    let place = page.place();
    let piece = &bytes[..bytes.len().min(MOST_BYTES)];
    match item_at(writer, kind, piece, page) {
        Ok(Some(count)) => Ok(Some(count)),
        Ok(None) => {
            page.back(place);
            Ok(None)
        }
        Err(error) => {
            page.back(place);
            Err(error)
        }
    }
}
