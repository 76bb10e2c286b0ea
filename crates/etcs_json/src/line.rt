//! Lines that are exactly what `json_line` writes, read as the bits of their items.

ghost use Rattle.std.specs.Prelude.{◌≡◌, ◌+◌, ◌*◌, ◌/◌, ◌^◌, ◌<◌, ◌≤◌, ◌++◌, ◌∷◌, [], ℕ, Bool, List, All, IfSome, OnSome, None, codes, drop, false, length, map, take};
ghost use Rattle.serde_json.specs.Written.{compact_text};
ghost use Rattle.etcs_bits.specs.Bits.{num};
ghost use Rattle.etcs_vars.specs.declared.var.Var.TheVariants.{OTHER_DATA};
ghost use Rattle.etcs_vars.specs.Reading.{Reading, kept, spelled, IsAdmitted};
ghost use Rattle.etcs_tables.specs.Layouts.{Reads, layout};
ghost use Rattle.etcs_rows.specs.declared.frames.Carrier.TheVariants as carrier;
ghost use Rattle.etcs_packets.specs.PacketValues.{IsPacketTo, PacketValue};
ghost use Rattle.etcs_packets.specs.PacketReadings.{readings_to};
ghost use Rattle.etcs_reader.specs.Fields.{ReadsFields};
ghost use Rattle.etcs_tables.specs.Headers.{head_row};
ghost use Rattle.etcs_sequence.specs.Contents.{Carries};
ghost use Rattle.etcs_messages.specs.Messages.{kept_message};
ghost use Rattle.etcs_telegram.specs.Telegrams.{HeaderValue, header_reading};
ghost use Rattle.etcs_packet_text.specs.Show.{bit_digit};
ghost use Rattle.etcs_packet_text.specs.Trees.{packets_tree, pairs_tree};
ghost use Rattle.etcs_text.specs.Entries.{EntryReads, EntryValue, kind_of, message_kind};
ghost use Rattle.etcs_text.specs.JsonParts.{kind_member, way_member};
ghost use Rattle.etcs_text.specs.Trees.{json_tree};
ghost use Rattle.etcs_json.specs.Puts.{Completes, IsWhole, PutsItem, PutsMessage};

use etcs_json_trees::inner::{
    MOST_BITS, Text, put_digits, put_head, put_header, put_packets, put_row,
};
use etcs_packets::Packet;
use etcs_packets::inner::AnyPacket;
use etcs_tables::{Row, Way, message_row};
use etcs_telegram::Size;
use etcs_text::Kind;
use etcs_train::TrainPacket;
use etcs_vars::BitPage;

/// The bits of NID_MESSAGE and L_MESSAGE.
pub(crate) const FRAME_BITS: usize = 18;

/// Puts the item of the kind whose JSON a text begins with, as `json_line` writes it without its LF, on a page in place of
/// what was there, and returns how many bytes of the text it has. When it does isn't promised; it does if 64 bytes are
/// after the JSON.
#[inline(always)]
pub fn line_item(kind: Kind, text: &[u8], page: &mut BitPage) -> Option<usize>
    ensures { IfSome result (λ n. (e : EntryValue) × (r : Reading) × EntryReads kind e r × (n ≤ length text.now) × (take n text.now ≡ compact_text (json_tree e)) × (page.new ≡ spelled r)) }
{
    page.clear();
    let after = put_item(kind, text, page)?;
    Some(text.len() - after)
}

/// Puts the item that a text begins with, and returns how many bytes are after it.
#[inline(always)]
fn put_item(kind: Kind, text: &[u8], out: &mut BitPage) -> Option<usize>
    requires { out.old ≡ [] }
    ensures { IfSome result (PutsItem kind text.now out.new) }
{
    match kind {
        Kind::Long => put_telegram(Size::Long, text, out),
        Kind::Short => put_telegram(Size::Short, text, out),
        Kind::Radio => put_message::<Packet>(text, out),
        Kind::Train => put_message::<TrainPacket>(text, out),
    }
}

/// Puts the lowest bits of a number, if they have room.
#[inline(always)]
fn put(width: usize, number: u64, out: &mut BitPage) -> Option<()>
    requires width { width ≤ 57 }
    requires fits { number < 2 ^ width }
    ensures { OnSome result (out.new ≡ out.old ++ num width number) }
{
    out.put(width, number).ok()
}

/// Takes the list of the pairs of a telegram's header, and puts their bits.
#[inline(always)]
fn pass_header(text: &mut Text<'_>, out: &mut BitPage) -> Option<()>
    ensures { OnSome result ((h : HeaderValue) × IsAdmitted (header_reading h) × (text.old ≡ compact_text (pairs_tree (header_reading h)) ++ text.new) × (out.new ≡ out.old ++ spelled (header_reading h))) }
{
    let left = text.left();
    let after = put_header(left, out)?;
    text.take(left.len() - after);
    Some(())
}

/// Takes the list of the pairs of a message's head, and puts their bits.
#[inline(always)]
fn pass_head(way: Way, text: &mut Text<'_>, out: &mut BitPage) -> Option<()>
    ensures { OnSome result ((r : Reading) × ReadsFields (head_row way) r × (text.old ≡ compact_text (pairs_tree r) ++ text.new) × (out.new ≡ out.old ++ spelled r)) }
{
    let left = text.left();
    let after = put_head(way, left, out)?;
    text.take(left.len() - after);
    Some(())
}

/// Takes a list of packets, and puts their bits. Only a telegram has the marker.
#[inline(always)]
fn pass_packets<P: AnyPacket>(
    has_marker: bool,
    text: &mut Text<'_>,
    out: &mut BitPage,
) -> Option<()>
    ensures { OnSome result ((vs : List PacketValue) × All (IsPacketTo P.WAY) vs × (has_marker ≡ false → All (Carries (carrier.Message P.WAY)) vs) × (text.old ≡ compact_text (packets_tree P.WAY vs) ++ text.new) × (out.new ≡ out.old ++ spelled (readings_to P.WAY vs))) }
{
    let left = text.left();
    let after = put_packets::<P>(has_marker, left, out)?;
    text.take(left.len() - after);
    Some(())
}

/// Takes what is between the header and the packets of a telegram of this size.
#[inline(always)]
fn pass_kind(size: Size, text: &mut Text<'_>) -> Option<()>
    ensures { OnSome result (text.old ≡ kind_member size ++ text.new) }
{
    match size {
        Size::Short => text.pass(b",\"kind\":\"short\",\"packets\":"),
        Size::Long => text.pass(b",\"kind\":\"long\",\"packets\":"),
    }
}

/// Takes what is just before the number of a message of this way.
#[inline(always)]
fn pass_way(way: Way, text: &mut Text<'_>) -> Option<()>
    ensures { OnSome result (text.old ≡ way_member way ++ text.new) }
{
    match way {
        Way::ToTrain => text.pass(b",\"kind\":\"radio\",\"nid\":"),
        Way::ToTrack => text.pass(b",\"kind\":\"train\",\"nid\":"),
    }
}

/// Puts the bits of the telegram of the size that a text begins with, and returns how many bytes are after it.
#[inline(never)]
fn put_telegram(size: Size, text: &[u8], out: &mut BitPage) -> Option<usize>
    requires { out.old ≡ [] }
    ensures { IfSome result (PutsItem (kind_of size) text.now out.new) }
{
    let mut text = Text::new(text);
    text.pass(b"{\"fill\":\"")?;
    let fill = text.quoted()?;
    text.pass(b",\"header\":")?;
    pass_header(&mut text, out)?;
    pass_kind(size, &mut text)?;
    pass_packets::<Packet>(true, &mut text, out)?;
    text.pass(b"}")?;
    put(8, 255, out)?;
    let left = size.user_bits().checked_sub(out.len())?;
    if fill.len() != left {
        return None;
    }
    put_digits(fill, out)?;
    put(size.pad_bits(), 0, out)?;
    Some(text.left().len())
}

/// The same for a message.
#[inline(never)]
fn put_message<P: AnyPacket>(text: &[u8], out: &mut BitPage) -> Option<usize>
    requires { out.old ≡ [] }
    ensures { IfSome result (PutsItem (message_kind P.WAY) text.now out.new) }
{
    put(FRAME_BITS, 0, out)?;
    let (nid, after) = put_rest::<P>(text, out)?;
    put_length(nid, out)?;
    Some(after)
}

/// Puts NID_MESSAGE and L_MESSAGE over the first bits, if all are whole bytes, and not too many.
#[inline(always)]
pub(crate) fn put_length(nid: u8, out: &mut BitPage) -> Option<()>
    requires { 18 ≤ length out.old }
    ensures some { OnSome result (IsWhole out.old × (out.new ≡ num 18 (nid * 1024 + length out.old / 8) ++ drop 18 out.old)) }
    ensures none { result ≡ None → IsWhole out.old → ⊥ }
{
    let len = out.len();
    if len % 8 != 0 || len > MOST_BITS {
        return None;
    }
    out.put_over(0, FRAME_BITS, u64::from(nid) * 1024 + (len / 8) as u64);
    Some(())
}

/// Puts the bits of a message after L_MESSAGE, and returns its number, and how many bytes are after it.
#[inline(always)]
fn put_rest<P: AnyPacket>(text: &[u8], out: &mut BitPage) -> Option<(u8, usize)>
    ensures { IfSome result (λ p. PutsMessage P.WAY p.0 text.now out.old out.new p.1) }
{
    let mut left = Text::new(text);
    if left.skip(b"{\"fields\":") {
        return put_typed::<P>(left.left(), out);
    }
    left.pass(b"{\"data\":\"")?;
    put_kept(P::WAY, left.left(), out)
}

/// The same for a message that is kept as bits, with whose digits a text begins.
#[inline(never)]
fn put_kept(way: Way, text: &[u8], out: &mut BitPage) -> Option<(u8, usize)>
    ensures { IfSome result (λ p. PutsMessage way p.0 (codes "{\"data\":\"" ++ text.now) out.old out.new p.1) }
{
    let mut text = Text::new(text);
    let digits = text.quoted()?;
    pass_way(way, &mut text)?;
    let nid = text.byte_and(b'}')?;
    put_data(way, nid, digits, out)?;
    Some((nid, text.left().len()))
}

/// Puts the bits of digits, which are those of a message of this number after L_MESSAGE, if it isn't typed.
#[inline(always)]
fn put_data(way: Way, nid: u8, digits: &[u8], out: &mut BitPage) -> Option<()>
    ensures { OnSome result ((b : List Bool) × (digits.now ≡ map bit_digit b) × Completes way nid (kept_message nid b) (kept OTHER_DATA b) × (out.new ≡ out.old ++ b)) }
{
    if message_row(way, nid).is_some() {
        return None;
    }
    put_digits(digits, out)?;
    Some(())
}

/// Takes the list of a message's own variables, of which most have none, and what is before the header's list.
#[inline(always)]
fn pass_own(text: &mut Text<'_>) -> Option<()>
    ensures { OnSome result ((t : List ℕ) × (text.old ≡ t ++ (codes "header\":" ++ text.new))) }
{
    if text.skip(b"[],\"header\":") {
        return Some(());
    }
    text.before(b"header\":")
}

/// The same for a typed message, with the list of whose own variables a text begins. Which these are depends on its number,
/// which comes later: the list is skipped, and read then.
#[inline(always)]
fn put_typed<P: AnyPacket>(own: &[u8], out: &mut BitPage) -> Option<(u8, usize)>
    ensures { IfSome result (λ p. PutsMessage P.WAY p.0 (codes "{\"fields\":" ++ own.now) out.old out.new p.1) }
{
    let mut text = Text::new(own);
    pass_own(&mut text)?;
    let header = text.left().len() + 10;
    pass_head(P::WAY, &mut text, out)?;
    pass_way(P::WAY, &mut text)?;
    let nid = text.byte_and(b',')?;
    let row = message_row(P::WAY, nid)?;
    put_own(row, own, header, out)?;
    text.pass(b"\"packets\":")?;
    pass_packets::<P>(false, &mut text, out)?;
    pass_padding(&mut text, out)?;
    Some((nid, text.left().len()))
}

/// Puts the bits of the row with the list of whose pairs a text begins, if `left` bytes follow the list, and these begin
/// with a comma and a quotation mark.
#[inline(always)]
fn put_own(row: Row, own: &[u8], left: usize, out: &mut BitPage) -> Option<()>
    ensures { OnSome result ((r : Reading) × (t : List ℕ) × Reads (layout row.items.now) [] r × (length t + 2 ≡ left) × (own.now ≡ compact_text (pairs_tree r) ++ 44 ∷ 34 ∷ t) × (out.new ≡ out.old ++ spelled r)) }
{
    if put_row(row, own, out)? != left {
        return None;
    }
    Text::new(&own[own.len() - left..]).pass(b",\"")
}

/// Takes the PADDING after the packets, and the end of the message, and puts its bits.
#[inline(always)]
fn pass_padding(text: &mut Text<'_>, out: &mut BitPage) -> Option<()>
    ensures { OnSome result ((b : List Bool) × (length b ≤ 7) × (text.old ≡ (codes ",\"padding\":\"" ++ (map bit_digit b ++ codes "\"}")) ++ text.new) × (out.new ≡ out.old ++ b)) }
{
    text.pass(b",\"padding\":\"")?;
    let (count, padding) = text.padding()?;
    text.pass(b"\"}")?;
    put(count, u64::from(padding), out)?;
    Some(())
}
