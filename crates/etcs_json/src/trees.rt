//! Items put as bits, read from their trees.

ghost use Rattle.std.specs.Prelude.{◌≡◌, [], Err, IfOk, IfSome, IsSome, OnOk};
ghost use Rattle.serde_json.specs.Data.{Data};
ghost use Rattle.serde_json.specs.View.{view};
ghost use Rattle.etcs_text.specs.Entries.{EntryValue, kind_of, message_kind};
ghost use Rattle.etcs_text.specs.Show.{kind_word, way_word};
ghost use Rattle.etcs_messages.specs.Messages.{MessageValue};
ghost use Rattle.etcs_json.specs.Loose.{IsLoose, IsStored};
ghost use Rattle.etcs_json.specs.Puts.{HasPlace, PutsRest};
ghost use Rattle.etcs_json.specs.TreeReading.{IsMessageTree, IsTreeOf, kept_message_tree, message_tree, telegram_tree};

use crate::line::{FRAME_BITS, put_length};
use etcs_json_trees::inner::{
    Fault, MOST_BITS, Rest, bits_in, byte_in, put_packet_trees, put_row_tree,
};
use etcs_tables::{Way, head_row, header_row, message_row};
use etcs_telegram::Size;
use etcs_text::Kind;
use etcs_vars::inner::send_bits;
use etcs_vars::{BitPage, Var};
use serde_json::Value;
use std::alloc::Global;

/// Puts the item of the kind whose tree the value is. A packet that is typed by now may be kept as bits there, whatever these
/// are.
///
/// # Errors
///
/// `Invalid` only if it is no such tree; `Memory` if out of memory.
pub(crate) fn put_item_tree(
    alloc: Global,
    kind: Kind,
    value: &Value,
    out: &mut BitPage,
) -> Result<(), Fault>
    requires { out.old ≡ [] }
    ensures ok { OnOk result ((o : EntryValue) × IsStored kind (view value.now) o out.new) }
    ensures invalid { result ≡ Err Fault.Invalid → (o : EntryValue) → IsLoose kind o → IsTreeOf o (view value.now) → ⊥ }
{
    match kind {
        Kind::Long => put_telegram_tree(alloc, Size::Long, value, out),
        Kind::Short => put_telegram_tree(alloc, Size::Short, value, out),
        Kind::Radio => put_message_tree(alloc, Way::ToTrain, value, out),
        Kind::Train => put_message_tree(alloc, Way::ToTrack, value, out),
    }
}

/// The word for the kind of the telegrams of a size.
fn size_word(size: Size) -> &'static str
    ensures { result.now ≡ kind_word size }
{
    match size {
        Size::Short => "short",
        Size::Long => "long",
    }
}

/// The fill, the header and the packets of a telegram of this size.
fn telegram_members(size: Size, value: &Value) -> Option<(&Value, &Value, &Value)>
    ensures some { IfSome result (λ m. view value.now ≡ telegram_tree size (view m.0.now) (view m.1.now) (view m.2.now)) }
    ensures none { (x y w : Data) → view value.now ≡ telegram_tree size x y w → IsSome result }
{
    let mut members = Rest::of(value)?;
    let (fill, header) = members.two("fill", "header")?;
    members.text("kind", size_word(size))?;
    let packets = members.last("packets")?;
    Some((fill, header, packets))
}

/// Puts the telegram of the size whose tree the value is.
fn put_telegram_tree(
    alloc: Global,
    size: Size,
    value: &Value,
    out: &mut BitPage,
) -> Result<(), Fault>
    requires { out.old ≡ [] }
    ensures ok { OnOk result ((o : EntryValue) × IsStored (kind_of size) (view value.now) o out.new) }
    ensures invalid { result ≡ Err Fault.Invalid → (o : EntryValue) → IsLoose (kind_of size) o → IsTreeOf o (view value.now) → ⊥ }
{
    let Some((fill, header, packets)) = telegram_members(size, value) else {
        return Err(Fault::Invalid);
    };
    let fill = bits_in(alloc, fill)?;
    put_row_tree(header_row(), header, out)?;
    put_packet_trees(alloc, Way::ToTrain, true, packets, out)?;
    out.put(8, 255)?;
    let Some(left) = size.user_bits().checked_sub(out.len()) else {
        return Err(Fault::Invalid);
    };
    if fill.len() != left {
        return Err(Fault::Invalid);
    }
    send_bits(Var::FILL, &fill.as_slice(), out)?;
    out.put(size.pad_bits(), 0)?;
    Ok(())
}

/// The word for the kind of the messages of a way.
fn way_word(way: Way) -> &'static str
    ensures { result.now ≡ way_word way }
{
    match way {
        Way::ToTrain => "radio",
        Way::ToTrack => "train",
    }
}

/// The fields, the header, the number, the packets and the padding of a typed message of this way.
fn typed_members(way: Way, value: &Value) -> Option<(&Value, &Value, &Value, &Value, &Value)>
    ensures some { IfSome result (λ m. view value.now ≡ message_tree way (view m.0.now) (view m.1.now) (view m.2.now) (view m.3.now) (view m.4.now)) }
    ensures none { (x y w u v : Data) → view value.now ≡ message_tree way x y w u v → IsSome result }
{
    let mut members = Rest::of(value)?;
    let (fields, header) = members.two("fields", "header")?;
    members.text("kind", way_word(way))?;
    let nid = members.next("nid")?;
    let (packets, padding) = members.last_two("packets", "padding")?;
    Some((fields, header, nid, packets, padding))
}

/// The bits and the number of a message of this way that is kept as bits.
fn kept_members(way: Way, value: &Value) -> Option<(&Value, &Value)>
    ensures some { IfSome result (λ m. view value.now ≡ kept_message_tree way (view m.0.now) (view m.1.now)) }
    ensures none { (x z : Data) → view value.now ≡ kept_message_tree way x z → IsSome result }
{
    let mut members = Rest::of(value)?;
    let bits = members.next("data")?;
    members.text("kind", way_word(way))?;
    let nid = members.last("nid")?;
    Some((bits, nid))
}

/// Puts the message of the way whose tree the value is.
fn put_message_tree(alloc: Global, way: Way, value: &Value, out: &mut BitPage) -> Result<(), Fault>
    requires { out.old ≡ [] }
    ensures ok { OnOk result ((o : EntryValue) × IsStored (message_kind way) (view value.now) o out.new) }
    ensures invalid { result ≡ Err Fault.Invalid → (o : EntryValue) → IsLoose (message_kind way) o → IsTreeOf o (view value.now) → ⊥ }
{
    out.put(FRAME_BITS, 0)?;
    let nid = put_rest_tree(alloc, way, value, out)?;
    match put_length(nid, out) {
        Some(()) => Ok(()),
        None => Err(Fault::Invalid),
    }
}

/// Puts the bits of a message after L_MESSAGE, and returns its number.
fn put_rest_tree(alloc: Global, way: Way, value: &Value, out: &mut BitPage) -> Result<u8, Fault>
    ensures ok { IfOk result (λ nid. PutsRest way (view value.now) nid out.old out.new) }
    ensures invalid { result ≡ Err Fault.Invalid → (m : MessageValue) → HasPlace way m out.old → IsMessageTree way m (view value.now) → ⊥ }
{
    if let Some((fields, header, nid, packets, padding)) = typed_members(way, value) {
        return put_typed(alloc, way, fields, header, nid, packets, padding, out);
    }
    if let Some((bits, nid)) = kept_members(way, value) {
        return put_kept(alloc, way, bits, nid, out);
    }
    Err(Fault::Invalid)
}

/// The same of a typed message of these members.
fn put_typed(
    alloc: Global,
    way: Way,
    fields: &Value,
    header: &Value,
    nid: &Value,
    packets: &Value,
    padding: &Value,
    out: &mut BitPage,
) -> Result<u8, Fault>
    ensures ok { IfOk result (λ n. PutsRest way (message_tree way (view fields.now) (view header.now) (view nid.now) (view packets.now) (view padding.now)) n out.old out.new) }
    ensures invalid { result ≡ Err Fault.Invalid → (m : MessageValue) → HasPlace way m out.old → IsMessageTree way m (message_tree way (view fields.now) (view header.now) (view nid.now) (view packets.now) (view padding.now)) → ⊥ }
{
    let Some(nid) = byte_in(nid) else {
        return Err(Fault::Invalid);
    };
    let Some(row) = message_row(way, nid) else {
        return Err(Fault::Invalid);
    };
    put_row_tree(head_row(way), header, out)?;
    put_row_tree(row, fields, out)?;
    put_packet_trees(alloc, way, false, packets, out)?;
    let padding = bits_in(alloc, padding)?;
    if padding.len() > 7 {
        return Err(Fault::Invalid);
    }
    send_bits(Var::PADDING, &padding.as_slice(), out)?;
    Ok(nid)
}

/// The same of a message of these members that is kept as bits.
fn put_kept(
    alloc: Global,
    way: Way,
    bits: &Value,
    nid: &Value,
    out: &mut BitPage,
) -> Result<u8, Fault>
    ensures ok { IfOk result (λ n. PutsRest way (kept_message_tree way (view bits.now) (view nid.now)) n out.old out.new) }
    ensures invalid { result ≡ Err Fault.Invalid → (m : MessageValue) → HasPlace way m out.old → IsMessageTree way m (kept_message_tree way (view bits.now) (view nid.now)) → ⊥ }
{
    let Some(nid) = byte_in(nid) else {
        return Err(Fault::Invalid);
    };
    if message_row(way, nid).is_some() {
        return Err(Fault::Invalid);
    }
    let bits = bits_in(alloc, bits)?;
    if bits.len() > MOST_BITS {
        return Err(Fault::Invalid);
    }
    send_bits(Var::OTHER_DATA, &bits.as_slice(), out)?;
    Ok(nid)
}
