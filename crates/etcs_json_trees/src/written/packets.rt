//! Packets put as bits, read from the text that `json_line` writes of them.

ghost use Rattle.std.specs.Prelude.{◌≡◌, ◌-◌, ◌≤◌, ◌++◌, List, All, IfSome, false, length, drop};
ghost use Rattle.serde_json.specs.Written.{compact_text};
ghost use Rattle.etcs_vars.specs.Reading.{Reading, spelled};
ghost use Rattle.etcs_tables.specs.declared.row.Way.TheVariants.{ToTrain, ToTrack};
ghost use Rattle.etcs_tables.specs.Typed.{IsFramed};
ghost use Rattle.etcs_packets.specs.PacketValues.{PacketValue, IsPacketTo, typed};
ghost use Rattle.etcs_packets.specs.PacketReadings.{reading_to, readings_to};
ghost use Rattle.etcs_packet_text.specs.Trees.{pairs_tree, packets_tree};
ghost use Rattle.etcs_json_trees.specs.PacketTexts.{Leaves, IsRowOf, IsUnmarked, PutsMarker, PutsPacket, PutsTyped, dir_then};

use crate::packet_len::put_packet_len;
use crate::written::digits::put_digits;
use crate::written::fronts::{is_same_half, same_eight};
use crate::written::pair_text::PairText;
use crate::written::text::Text;
use etcs_flat::inner::check_other;
use etcs_packets::inner::{AnyPacket, send_frame};
use etcs_tables::{Way, frame_bits, is_direction};
use etcs_vars::inner::VarSink;
use etcs_vars::{BitPage, Var};

/// Puts the variables of the packet of this number with the list of whose pairs a text begins, and returns how many bytes
/// are after it.
#[inline(never)]
fn put_pairs<P: AnyPacket>(nid: u8, text: &[u8], out: &mut BitPage) -> Option<usize>
    ensures { IfSome result (λ n. (r : Reading) × IsRowOf P.WAY nid r × Leaves n (λ s. text.now ≡ compact_text (pairs_tree r) ++ s) × (out.new ≡ out.old ++ spelled r)) }
{
    let mut pairs = PairText::new(text)?;
    let passed = P::pass(nid, &mut pairs, out).ok()?;
    if !passed? {
        return None;
    }
    Some(pairs.end()?.len())
}

/// Puts the packet of this number and direction with the list of whose pairs a text begins, and returns how many bytes are
/// after the list.
#[inline(always)]
fn put_body<P: AnyPacket>(nid: u8, dir: u8, text: &[u8], out: &mut BitPage) -> Option<usize>
    ensures { IfSome result (λ n. (r : Reading) × IsFramed P.WAY nid dir r × Leaves n (λ s. text.now ≡ compact_text (pairs_tree r) ++ s) × (out.new ≡ out.old ++ spelled (reading_to P.WAY (typed nid dir r)))) }
{
    let way = P::WAY;
    if !is_direction(way, dir) {
        return None;
    }
    let start = out.len();
    send_frame(way, u64::from(nid), dir, 0, out).ok()?;
    let after = put_pairs::<P>(nid, text, out)?;
    put_packet_len(way, start, out)?;
    Some(after)
}

/// The number of the packet to the train whose list begins with the pair of Q_SCALE, and then with a name of these letters.
#[inline(always)]
fn number_by_second(letters: &[u8; 4]) -> Option<u8> {
    match letters {
        _ if is_same_half(letters, b"D_LI") => Some(5),
        _ if is_same_half(letters, b"V_MA") => Some(12),
        _ if is_same_half(letters, b"V_LO") => Some(15),
        _ if is_same_half(letters, b"L_SE") => Some(16),
        _ if is_same_half(letters, b"D_GR") => Some(21),
        _ if is_same_half(letters, b"D_ST") => Some(27),
        _ if is_same_half(letters, b"D_LE") => Some(41),
        _ if is_same_half(letters, b"T_CY") => Some(58),
        _ if is_same_half(letters, b"NID_") => Some(65),
        _ if is_same_half(letters, b"Q_TR") => Some(68),
        _ if is_same_half(letters, b"D_MA") => Some(80),
        _ if is_same_half(letters, b"D_RB") => Some(131),
        _ => None,
    }
}

/// The number of the position report in whose list this is around the front of the third name, after the pairs of Q_SCALE
/// and of NID_LRBG with seven or eight digits.
#[inline(always)]
fn number_by_third(around: &[u8; 3]) -> Option<u8> {
    match around {
        [b'"', b'D', _] | [_, b'"', b'D'] => Some(0),
        [b'"', b'N', _] | [_, b'"', b'N'] => Some(1),
        _ => None,
    }
}

/// The number of the packet with the list of whose pairs a text begins, where the first names show it. The packet may have
/// another.
#[inline(always)]
fn number_by_names(way: Way, text: &[u8]) -> Option<u8> {
    let text = text.first_chunk::<40>()?;
    let has_scale = same_eight(text, b"[[\"Q_SCAL", 0);
    match way {
        Way::ToTrain if has_scale => number_by_second(text[17..].first_chunk::<4>()?),
        Way::ToTrack if has_scale => number_by_third(text[37..].first_chunk::<3>()?),
        _ => None,
    }
}

/// The number of the packet with the list of whose pairs a text begins. The packet may have another.
#[inline(always)]
fn number_of(way: Way, text: &[u8]) -> Option<u8> {
    if let Some(nid) = number_by_names(way, text) {
        return Some(nid);
    }
    let mut left = Text::new(text);
    left.before(b"nid\":")?;
    left.byte_and(b'}')
}

/// Puts the packet of this direction with the list of whose pairs a text begins, and returns how many bytes are after the
/// packet. Its number comes after the list, but is needed first.
#[inline(never)]
fn put_typed<P: AnyPacket>(dir: u8, text: &[u8], out: &mut BitPage) -> Option<usize>
    ensures { IfSome result (λ n. PutsTyped P.WAY dir text.now n out.old out.new) }
{
    let nid = number_of(P::WAY, text)?;
    let after = put_body::<P>(nid, dir, text, out)?;
    let mut left = Text::new(text);
    left.take(text.len() - after);
    left.pass(b",\"nid\":")?;
    if left.byte_and(b'}')? != nid {
        return None;
    }
    Some(left.left().len())
}

/// Takes the direction that comes next, and the comma after it; to the track it isn't written, and is 0.
#[inline(always)]
fn direction(way: Way, text: &mut Text<'_>) -> Option<u8>
    ensures { IfSome result (λ dir. text.old ≡ dir_then way dir text.new) }
{
    match way {
        Way::ToTrain => {
            text.pass(b"\"dir\":")?;
            text.byte_and(b',')
        }
        Way::ToTrack => Some(0),
    }
}

/// Puts the packet that is kept as bits with which a text begins, and returns how many bytes are after it.
#[inline(never)]
fn put_kept(way: Way, text: &[u8], out: &mut BitPage) -> Option<usize>
    ensures { IfSome result (λ n. PutsPacket way false text.now n out.old out.new) }
{
    let mut left = Text::new(text);
    left.pass(b"{\"data\":\"")?;
    let digits = left.quoted()?;
    left.pass(b",")?;
    let dir = direction(way, &mut left)?;
    left.pass(b"\"nid\":")?;
    let nid = left.byte_and(b'}')?;
    check_other(way, nid, dir, digits.len()).ok()?;
    let len = frame_bits(way) + digits.len();
    send_frame(way, u64::from(nid), dir, len as u64, out).ok()?;
    put_digits(digits, out)?;
    Some(left.left().len())
}

/// Puts packet 0 to the train with the list of whose pair a text begins, and returns how many bytes are after the packet.
#[inline(never)]
fn put_marker(text: &[u8], out: &mut BitPage) -> Option<usize>
    ensures { IfSome result (λ n. PutsMarker text.now n out.old out.new) }
{
    let mut left = Text::new(text);
    left.pass(b"[[\"NID_VBCMK\",")?;
    let number = u64::from(left.byte_and(b']')?);
    left.pass(b"],\"nid\":0}")?;
    if !Var::NID_VBCMK.admits(number) {
        return None;
    }
    out.send(&[(Var::NID_PACKET, 0), (Var::NID_VBCMK, number)])
        .ok()?;
    Some(left.left().len())
}

/// Puts the packet to the train with which a text begins, and returns how many bytes are after it.
#[inline(always)]
fn put_to_train<P: AnyPacket>(has_marker: bool, text: &[u8], out: &mut BitPage) -> Option<usize>
    requires { P.WAY ≡ ToTrain }
    ensures { IfSome result (λ n. PutsPacket P.WAY has_marker text.now n out.old out.new) }
{
    let mut left = Text::new(text);
    if left.skip(b"{\"dir\":") {
        let dir = left.byte_and(b',')?;
        left.pass(b"\"fields\":")?;
        return put_typed::<P>(dir, left.left(), out);
    }
    if has_marker && left.skip(b"{\"fields\":") {
        return put_marker(left.left(), out);
    }
    put_kept(P::WAY, text, out)
}

/// The same to the track.
#[inline(always)]
fn put_to_track<P: AnyPacket>(text: &[u8], out: &mut BitPage) -> Option<usize>
    requires { P.WAY ≡ ToTrack }
    ensures { IfSome result (λ n. PutsPacket P.WAY false text.now n out.old out.new) }
{
    let mut left = Text::new(text);
    if left.skip(b"{\"fields\":") {
        return put_typed::<P>(0, left.left(), out);
    }
    put_kept(P::WAY, text, out)
}

/// Puts the packet with which a text begins, and returns how many bytes are after it.
#[inline(always)]
fn put_packet<P: AnyPacket>(has_marker: bool, text: &[u8], out: &mut BitPage) -> Option<usize>
    ensures { IfSome result (λ n. PutsPacket P.WAY has_marker text.now n out.old out.new) }
{
    match P::WAY {
        Way::ToTrain => put_to_train::<P>(has_marker, text, out),
        Way::ToTrack => put_to_track::<P>(text, out),
    }
}

/// More packets than an item can have: 8,191 bits hold 585 of 14 bits.
const MOST_PACKETS: usize = 600;

/// Puts the packets of the list with which a text begins, and returns how many bytes are after it. Only a telegram has the
/// marker, packet 0 to the train. When it succeeds isn't promised, nor what is put after `None`.
#[inline(never)]
pub fn put_packets<P: AnyPacket>(has_marker: bool, text: &[u8], out: &mut BitPage) -> Option<usize>
    ensures { IfSome result (λ n. (vs : List PacketValue) × All (IsPacketTo P.WAY) vs × (has_marker ≡ false → All IsUnmarked vs) × (n ≤ length text.now) × (text.now ≡ compact_text (packets_tree P.WAY vs) ++ drop (length text.now - n) text.now) × (out.new ≡ out.old ++ spelled (readings_to P.WAY vs))) }
{
    let mut left = Text::new(text);
    if left.skip(b"[]") {
        return Some(left.left().len());
    }
    left.pass(b"[")?;
    for _ in 0..MOST_PACKETS {
        let after = put_packet::<P>(has_marker, left.left(), out)?;
        left.take(left.left().len() - after);
        if left.skip(b"]") {
            return Some(left.left().len());
        }
        left.pass(b",")?;
    }
    None
}
