//! Packets put as bits, read from their trees.

ghost use Rattle.std.specs.Prelude.{◌≡◌, ◌≢◌, ◌<◌, ◌++◌, ℕ, All, List, Bool, Err, None, IfSome, IsSome, OnOk};
ghost use Rattle.serde_json.specs.Data.{Data, Members};
ghost use Rattle.serde_json.specs.View.{items_view, members_view, view};
ghost use Rattle.etcs_vars.specs.Reading.{Reading, spelled};
ghost use Rattle.etcs_tables.specs.declared.row.Way.TheVariants.{ToTrain};
ghost use Rattle.etcs_tables.specs.Typed.{IsFramed};
ghost use Rattle.etcs_packets.specs.PacketValues.{PacketValue, IsPacketTo, kept, marker, typed};
ghost use Rattle.etcs_packets.specs.PacketReadings.{reading_to, readings_to};
ghost use Rattle.etcs_packet_text.specs.Trees.{bits_tree, with_dir};
ghost use Rattle.etcs_json_trees.specs.Loose.{HasRoom, IsLoosePacket, is_carried, stand_in};
ghost use Rattle.etcs_json_trees.specs.TreeParts.{SaysDirection};
ghost use Rattle.etcs_json_trees.specs.TreeReading.{ArePacketTrees, IsPacketList, IsPacketTree, IsPairList, kept_tree, marker_tree, plain, typed_tree};

use crate::digits::{bits_in, byte_in, is_zero};
use crate::fault::Fault;
use crate::members::Rest;
use crate::packet_len::put_packet_len;
use crate::row_trees::{MOST_BITS, put_row_tree};
use etcs_flat::inner::check_other;
use etcs_packets::inner::send_frame;
use etcs_tables::{Row, RowItem, Way, frame_bits, is_direction, row_of};
use etcs_vars::inner::{VarSink, send_bits};
use etcs_vars::{BitPage, Var};
use serde_json::Value;
use std::alloc::Global;

/// Whether stored JSON may have packets of this number as bits, though they are typed by now.
fn is_carried(way: Way, nid: u8) -> bool
    ensures { result ≡ is_carried way nid }
{
    match way {
        Way::ToTrain => matches!(nid, 49 | 57 | 58 | 63 | 68 | 80 | 131),
        Way::ToTrack => false,
    }
}

/// A number that is kept as bits, in place of such a number: all kept packets have one frame.
fn stand_in(way: Way, nid: u8) -> u8
    ensures { result ≡ stand_in way nid }
{
    if is_carried(way, nid) { 44 } else { nid }
}

/// Puts the typed packet of this number and direction with these pairs, if there is one.
fn put_typed(way: Way, nid: u8, dir: u8, fields: &Value, out: &mut BitPage) -> Result<(), Fault>
    ensures ok { OnOk result ((r : Reading) × IsFramed way nid dir r × IsPairList r (view fields.now) × (out.new ≡ out.old ++ spelled (reading_to way (typed nid dir r)))) }
    ensures invalid { result ≡ Err Fault.Invalid → (r : Reading) → IsFramed way nid dir r → IsPairList r (view fields.now) → HasRoom out.old (reading_to way (typed nid dir r)) → ⊥ }
{
    if !is_direction(way, dir) {
        return Err(Fault::Invalid);
    }
    let Some(row) = row_of(way, nid) else {
        return Err(Fault::Invalid);
    };
    let start = out.len();
    send_frame(way, u64::from(nid), dir, 0, out)?;
    put_row_tree(row, fields, out)?;
    match put_packet_len(way, start, out) {
        Some(()) => Ok(()),
        None => Err(Fault::Invalid),
    }
}

/// Puts the packet of this number and direction that is kept as these bits, if there is one, also where packets of this
/// number are typed by now.
fn put_kept(
    alloc: Global,
    way: Way,
    nid: u8,
    dir: u8,
    bits: &Value,
    out: &mut BitPage,
) -> Result<(), Fault>
    ensures ok { OnOk result ((b : List Bool) × IsPacketTo way (kept (stand_in way nid) dir b) × (view bits.now ≡ bits_tree b) × (out.new ≡ out.old ++ spelled (reading_to way (kept nid dir b)))) }
    ensures invalid { result ≡ Err Fault.Invalid → (b : List Bool) → IsPacketTo way (kept (stand_in way nid) dir b) → view bits.now ≡ bits_tree b → HasRoom out.old (reading_to way (kept nid dir b)) → ⊥ }
{
    let bits = bits_in(alloc, bits)?;
    if check_other(way, stand_in(way, nid), dir, bits.len()).is_err() {
        return Err(Fault::Invalid);
    }
    let len = frame_bits(way) + bits.len();
    let Some(room) = MOST_BITS.checked_sub(out.len()) else {
        return Err(Fault::Invalid);
    };
    if len > room {
        return Err(Fault::Invalid);
    }
    send_frame(way, u64::from(nid), dir, len as u64, out)?;
    send_bits(Var::OTHER_DATA, &bits.as_slice(), out)?;
    Ok(())
}

/// NID_VBCMK.
static MARKER: [RowItem; 1] = [RowItem::One(Var::NID_VBCMK)];

/// The fields and the number of packet 0.
fn marker_members(value: &Value) -> Option<(&Value, &Value)>
    ensures some { IfSome result (λ m. view value.now ≡ marker_tree (view m.0.now) (view m.1.now)) }
    ensures none { (x y : Data) → view value.now ≡ marker_tree x y → IsSome result }
{
    let mut members = Rest::of(value)?;
    let fields = members.next("fields")?;
    let nid = members.last("nid")?;
    Some((fields, nid))
}

/// Puts packet 0 to the train, if this is its tree.
fn put_marker(value: &Value, out: &mut BitPage) -> Result<(), Fault>
    ensures ok { OnOk result ((n : ℕ) × IsPacketTo ToTrain (marker n) × IsPacketTree ToTrain (marker n) (view value.now) × (out.new ≡ out.old ++ spelled (reading_to ToTrain (marker n)))) }
    ensures invalid { result ≡ Err Fault.Invalid → (n : ℕ) → IsPacketTo ToTrain (marker n) → IsPacketTree ToTrain (marker n) (view value.now) → HasRoom out.old (reading_to ToTrain (marker n)) → ⊥ }
{
    let Some((fields, nid)) = marker_members(value) else {
        return Err(Fault::Invalid);
    };
    if !is_zero(nid) {
        return Err(Fault::Invalid);
    }
    out.send(&[(Var::NID_PACKET, 0)])?;
    put_row_tree(Row { items: &MARKER }, fields, out)
}

/// The direction of a packet: to the train that of the member that comes next, to the track 0, without a member.
fn direction(way: Way, members: &mut Rest<'_>) -> Option<u8>
    ensures some { IfSome result (λ dir. SaysDirection way dir × (members_view members.old.members ≡ with_dir way dir (members_view members.new.members))) }
    ensures none { (dir : ℕ) (ms : Members) → dir < 256 → members_view members.old.members ≡ with_dir way dir ms → IsSome result }
{
    match way {
        Way::ToTrain => byte_in(members.next("dir")?),
        Way::ToTrack => Some(0),
    }
}

/// The fields, the direction and the number of a typed packet.
fn typed_members(way: Way, value: &Value) -> Option<(&Value, u8, u8)>
    ensures some { IfSome result (λ m. SaysDirection way m.1 × (view value.now ≡ typed_tree way m.1 (view m.0.now) (plain m.2))) }
    ensures none { (dir nid : ℕ) (x : Data) → dir < 256 → nid < 256 → view value.now ≡ typed_tree way dir x (plain nid) → result ≢ None }
{
    let mut members = Rest::of(value)?;
    let dir = direction(way, &mut members)?;
    let fields = members.next("fields")?;
    let nid = members.last("nid")?;
    Some((fields, dir, byte_in(nid)?))
}

/// The bits, the direction and the number of a packet that is kept as bits.
fn kept_members(way: Way, value: &Value) -> Option<(&Value, u8, u8)>
    ensures some { IfSome result (λ m. SaysDirection way m.1 × (view value.now ≡ kept_tree way (view m.0.now) m.1 (plain m.2))) }
    ensures none { (dir nid : ℕ) (x : Data) → dir < 256 → nid < 256 → view value.now ≡ kept_tree way x dir (plain nid) → result ≢ None }
{
    let mut members = Rest::of(value)?;
    let bits = members.next("data")?;
    let dir = direction(way, &mut members)?;
    let nid = members.last("nid")?;
    Some((bits, dir, byte_in(nid)?))
}

/// Puts the packet of a tree, if there is one.
fn put_packet(
    alloc: Global,
    way: Way,
    has_marker: bool,
    value: &Value,
    out: &mut BitPage,
) -> Result<(), Fault>
    ensures ok { OnOk result ((v : PacketValue) × IsLoosePacket way has_marker v × IsPacketTree way v (view value.now) × (out.new ≡ out.old ++ spelled (reading_to way v))) }
    ensures invalid { result ≡ Err Fault.Invalid → (v : PacketValue) → IsLoosePacket way has_marker v → IsPacketTree way v (view value.now) → HasRoom out.old (reading_to way v) → ⊥ }
{
    if let Some((fields, dir, nid)) = typed_members(way, value) {
        return put_typed(way, nid, dir, fields, out);
    }
    if let Some((bits, dir, nid)) = kept_members(way, value) {
        return put_kept(alloc, way, nid, dir, bits, out);
    }
    if !has_marker {
        return Err(Fault::Invalid);
    }
    match way {
        Way::ToTrain => put_marker(value, out),
        Way::ToTrack => Err(Fault::Invalid),
    }
}

/// Puts the packets of these trees, one after another.
fn put_packets(
    alloc: Global,
    way: Way,
    has_marker: bool,
    list: &[Value],
    out: &mut BitPage,
) -> Result<(), Fault>
    ensures ok { OnOk result ((vs : List PacketValue) × All (IsLoosePacket way has_marker) vs × ArePacketTrees way vs (items_view list.now) × (out.new ≡ out.old ++ spelled (readings_to way vs))) }
    ensures invalid { result ≡ Err Fault.Invalid → (vs : List PacketValue) → All (IsLoosePacket way has_marker) vs → ArePacketTrees way vs (items_view list.now) → HasRoom out.old (readings_to way vs) → ⊥ }
{
    for value in list {
        put_packet(alloc, way, has_marker, value, out)?;
    }
    Ok(())
}

/// Puts the packets whose trees the value lists, in its order. To the train, a packet that is kept as bits may have the
/// number 49, 57, 58, 63, 68, 80 or 131. Only a telegram has the marker, packet 0 to the train.
///
/// # Errors
///
/// `Invalid` only if the value isn't the list of the trees of packets of this way, or an item has no room for them after the
/// bits that were put before; `Memory` if out of memory or the page is full.
pub fn put_packet_trees(
    alloc: Global,
    way: Way,
    has_marker: bool,
    value: &Value,
    out: &mut BitPage,
) -> Result<(), Fault>
    ensures ok { OnOk result ((vs : List PacketValue) × All (IsLoosePacket way has_marker) vs × IsPacketList way vs (view value.now) × (out.new ≡ out.old ++ spelled (readings_to way vs))) }
    ensures invalid { result ≡ Err Fault.Invalid → (vs : List PacketValue) → All (IsLoosePacket way has_marker) vs → IsPacketList way vs (view value.now) → HasRoom out.old (readings_to way vs) → ⊥ }
{
    match value.as_array() {
        Some(list) => put_packets(alloc, way, has_marker, list.as_slice(), out),
        None => Err(Fault::Invalid),
    }
}
