//! Packets that lie whole in a piece, and all packets of a room in one pass.

ghost use Rattle.std.specs.Prelude.{◌≡◌, ◌≤◌, ◌<◌, ◌+◌, ◌-◌, ◌^◌, [], None, ℕ, Bool, false, List, length, IsTrue, IfOk, IfSome, IsNone, OnOk, OnErr};
ghost use Rattle.etcs_bits.specs.Bits.{bits, part};
ghost use Rattle.etcs_bits.specs.NextBits.{AreNext};
ghost use Rattle.etcs_vars.specs.Reading.{spelled};
ghost use Rattle.etcs_tables.specs.Frames.{frame_bits, kept_limit};
ghost use Rattle.etcs_tables.specs.declared.row.Way.TheVariants.{ToTrain};
ghost use Rattle.etcs_rows.specs.declared.frames.Carrier.TheVariants.{Telegram};
ghost use Rattle.etcs_rows.specs.Frames.{way_of, may_be_left};
ghost use Rattle.etcs_packets.specs.PacketValues.{PacketValue, kept};
ghost use Rattle.etcs_sequence.specs.Contents.{closing};
ghost use Rattle.etcs_sequence.specs.AtOnce.{IsFrameIn, IsPut, WholeAt, RunIs, ClosesAt};

use crate::inner::bits_at;
use crate::store::PacketSink;
use etcs_bits::{BitSlice, next_bits};
use etcs_flat::inner::check_other;
use etcs_rows::inner::{Carrier, MOST_PADDING};
use etcs_tables::{CLOSING, CLOSING_BITS, MARKER_BITS, Way, frame_bits};
use std::alloc::AllocError;

/// What comes before a packet's variables or kept bits: its number, its direction, which is 0 to the track, and how
/// many bits it has.
#[derive(Clone, Copy)]
struct Frame {
    nid: u8,
    dir: u8,
    len: usize,
}

/// The frame in the first bits of a word.
#[inline(always)]
fn frame_in(way: Way, word: u64) -> Frame
    ensures { IsFrameIn way word result }
{
    let nid = (word >> 56) as u8;
    match way {
        Way::ToTrain => Frame {
            nid,
            dir: ((word >> 54) % 4) as u8,
            len: (word >> 41) as usize % 8192,
        },
        Way::ToTrack => Frame {
            nid,
            dir: 0,
            len: (word >> 43) as usize % 8192,
        },
    }
}

/// How many bits close the packets: those of packet 255 in a telegram, none in a message.
#[inline(always)]
fn closing_bits(carrier: Carrier) -> usize
    ensures { result ≡ length (spelled (closing carrier)) }
{
    match carrier {
        Carrier::Telegram => CLOSING_BITS,
        Carrier::Message(_) => 0,
    }
}

/// Whether nothing but what closes the packets comes next, if this many bits of the room are left and the word has the
/// next ones.
#[inline(always)]
fn closes(carrier: Carrier, left: usize, word: u64) -> bool
    ensures { (xs : List Bool) (at : ℕ) → AreNext word xs at → at + left ≤ length xs → IsTrue result → ClosesAt carrier left xs at }
{
    match carrier {
        Carrier::Telegram => left >= CLOSING_BITS && word >> 56 == u64::from(CLOSING),
        Carrier::Message(_) => left <= MOST_PADDING,
    }
}

/// Keeps the packet of this number and direction with these bits after L_PACKET, if it isn't typed, and returns whether
/// it may be kept. If it may not, the store stays as it was.
///
/// # Errors
///
/// `AllocError`: out of memory. No clause says what the store holds then.
#[inline(never)]
fn keep_packet<S: PacketSink>(
    store: &mut S,
    way: Way,
    nid: u8,
    dir: u8,
    body: &BitSlice<'_>,
) -> Result<bool, AllocError>
    requires way { way ≡ S.WAY }
    ensures whole { IfOk result (λ b. IsTrue b → IsPut way nid dir body.now (S.holds store.old) (S.holds store.new)) }
    ensures none { IfOk result (λ b. b ≡ false → store.new ≡ store.old) }
    ensures before { S.before store.new ≡ S.before store.old }
    ensures err { OnErr result S.fails }
{
    match check_other(way, nid, dir, body.len()) {
        Ok(()) => {}
        Err(_) => return Ok(false),
    }
    store.keep(nid, dir, body)?;
    Ok(true)
}

/// Puts the packet of this number and direction with these bits of a piece after L_PACKET into a store, typed or kept, and returns
/// whether there is such a packet. If there is none, the store stays as it was.
///
/// # Errors
///
/// `AllocError`: out of memory. No clause says what the store holds then.
#[inline(always)]
fn put_packet<S: PacketSink>(
    store: &mut S,
    way: Way,
    nid: u8,
    dir: u8,
    piece: &[u8],
    at: usize,
    len: usize,
) -> Result<bool, AllocError>
    requires way { way ≡ S.WAY }
    requires inside { at + len ≤ length (bits piece.now) }
    requires small { length (bits piece.now) < 2 ^ 64 }
    requires short { len ≤ kept_limit S.WAY }
    ensures whole { IfOk result (λ b. IsTrue b → IsPut way nid dir (part at len (bits piece.now)) (S.holds store.old) (S.holds store.new)) }
    ensures none { IfOk result (λ b. b ≡ false → store.new ≡ store.old) }
    ensures before { S.before store.new ≡ S.before store.old }
    ensures err { OnErr result S.fails }
{
    let typed = store.whole(nid, dir, piece, at, len)?;
    if typed {
        return Ok(true);
    }
    keep_packet(store, way, nid, dir, &bits_at(piece, at, len))
}

/// Takes packet 0, the marker, of a telegram that has this many bits left, of which the word has the first, and returns
/// how many bits it has. `None` if packet 255 doesn't fit after it; the store stays as it was.
///
/// # Errors
///
/// `AllocError`: out of memory. No clause says what the store holds then.
#[inline(never)]
fn take_marker<S: PacketSink>(
    store: &mut S,
    room: usize,
    word: u64,
) -> Result<Option<usize>, AllocError>
    requires way { ToTrain ≡ S.WAY }
    requires number { word < 2 ^ 56 }
    ensures within { IfOk result (λ o. IfSome o (λ n. (0 < n) × (n ≤ room))) }
    ensures left { IfOk result (λ o. IfSome o (λ n. IsTrue (may_be_left Telegram (room - n)))) }
    ensures whole { (xs : List Bool) (at : ℕ) → AreNext word xs at → at + room ≤ length xs → IfOk result (λ o. IfSome o (λ n. WholeAt Telegram (S.holds store.old) (S.holds store.new) xs at n)) }
    ensures none { IfOk result (λ o. IsNone o → store.new ≡ store.old) }
    ensures before { S.before store.new ≡ S.before store.old }
{
    if room < MARKER_BITS + CLOSING_BITS {
        return Ok(None);
    }
    let number = (word >> 50) as u8 % 64;
    store.marker(number)?;
    Ok(Some(MARKER_BITS))
}

/// Whether this many bits may be left after a packet.
#[inline(always)]
fn may_be_left(carrier: Carrier, left: usize) -> bool
    ensures { result ≡ may_be_left carrier left }
{
    match carrier {
        Carrier::Telegram => left >= CLOSING_BITS,
        Carrier::Message(way) => left <= MOST_PADDING || left >= frame_bits(way),
    }
}

/// Whether a packet of this many bits lies in the room and leaves what may be left of it.
#[inline(always)]
fn fits(carrier: Carrier, room: usize, len: usize) -> bool
    requires { len < 2 ^ 13 }
    ensures within { IsTrue result → len ≤ room }
    ensures left { IsTrue result → IsTrue (may_be_left carrier (room - len)) }
{
    match carrier {
        Carrier::Telegram => len + CLOSING_BITS <= room,
        Carrier::Message(_) => len <= room && may_be_left(carrier, room - len),
    }
}

/// NID_PACKET of a static speed profile, and the bits above which one is long: no message has two that are longer.
const PROFILE: u8 = 27;

const LONG_PROFILE: usize = 4096;

/// Whether the word has the first bits of a long static speed profile. A row takes its entries whole, which costs no more
/// than to take the packet whole, and if it is refused, it hasn't been read in vain.
#[inline(always)]
pub(crate) fn is_long_profile(carrier: Carrier, word: u64) -> bool {
    match carrier.way() {
        Way::ToTrain => {
            let frame = frame_in(Way::ToTrain, word);
            frame.nid == PROFILE && frame.len > LONG_PROFILE
        }
        Way::ToTrack => false,
    }
}

/// Takes the packet with a frame that begins at `at`, if it lies whole in this many bits of the piece, and in the room,
/// and leaves what may be left of that; and returns how many bits it has. The word has its first bits. It may always
/// return `None`, and then the store stays as it was.
///
/// # Errors
///
/// `AllocError`: out of memory. No clause says what the store holds then.
#[inline(always)]
pub(crate) fn take_framed<S: PacketSink>(
    store: &mut S,
    carrier: Carrier,
    room: usize,
    count: usize,
    piece: &[u8],
    at: usize,
    word: u64,
) -> Result<Option<usize>, AllocError>
    requires way { way_of carrier ≡ S.WAY }
    requires inside { at + count ≤ length (bits piece.now) }
    requires small { length (bits piece.now) < 2 ^ 64 }
    requires room { room ≤ 8191 }
    requires word { AreNext word (bits piece.now) at }
    ensures within { IfOk result (λ o. IfSome o (λ n. (0 < n) × (n ≤ room) × (n ≤ count))) }
    ensures left { IfOk result (λ o. IfSome o (λ n. IsTrue (may_be_left carrier (room - n)))) }
    ensures whole { IfOk result (λ o. IfSome o (λ n. WholeAt carrier (S.holds store.old) (S.holds store.new) (bits piece.now) at n)) }
    ensures none { IfOk result (λ o. IsNone o → store.new ≡ store.old) }
    ensures before { S.before store.new ≡ S.before store.old }
    ensures err { OnErr result S.fails }
    ensures viable { OnErr result ((len : ℕ) × (frame_bits (way_of carrier) ≤ len) × (len ≤ room) × IsTrue (may_be_left carrier (room - len))) }
{
    let way = carrier.way();
    let Frame { nid, dir, len } = frame_in(way, word);
    let front = frame_bits(way);
    if len < front || !fits(carrier, room, len) || len > count {
        return Ok(None);
    }
    let put = put_packet(store, way, nid, dir, piece, at + front, len - front)?;
    if put {
        return Ok(Some(len));
    }
    Ok(None)
}

/// Takes the packet that begins at `at`, if it lies whole in the room and leaves what may be left of it, and returns
/// how many bits it has. The word has its first bits. It may always return `None`, and then the store stays as it was.
///
/// # Errors
///
/// `AllocError`: out of memory. No clause says what the store holds then.
#[inline(always)]
fn take_packet<S: PacketSink>(
    store: &mut S,
    carrier: Carrier,
    room: usize,
    piece: &[u8],
    at: usize,
    word: u64,
) -> Result<Option<usize>, AllocError>
    requires way { way_of carrier ≡ S.WAY }
    requires inside { at + room ≤ length (bits piece.now) }
    requires small { length (bits piece.now) < 2 ^ 64 }
    requires room { room ≤ 8191 }
    requires word { AreNext word (bits piece.now) at }
    ensures within { IfOk result (λ o. IfSome o (λ n. (0 < n) × (n ≤ room))) }
    ensures left { IfOk result (λ o. IfSome o (λ n. IsTrue (may_be_left carrier (room - n)))) }
    ensures whole { IfOk result (λ o. IfSome o (λ n. WholeAt carrier (S.holds store.old) (S.holds store.new) (bits piece.now) at n)) }
    ensures none { IfOk result (λ o. IsNone o → store.new ≡ store.old) }
    ensures before { S.before store.new ≡ S.before store.old }
{
    match carrier {
        Carrier::Telegram if word >> 56 == 0 => take_marker(store, room, word),
        _ => take_framed(store, carrier, room, room, piece, at, word),
    }
}

/// How far packets were taken in one pass.
#[derive(Clone, Copy)]
pub enum Run {
    /// All, with what closes them: this many bits of their room are left.
    All(usize),
    /// The first of them, after which others may come, or what closes them: this many bits of their room are left.
    First(usize),
}

/// Takes the packets of a room, which begins at bit `at` of a piece, with what closes them, into a store, and returns
/// how many bits of the room are left: after `All` of them the bits before are the packets with what closes them; after
/// the `First` the bits before are these packets, and others or what closes them may come. The store holds the packets.
///
/// It may always return `None`, for instance if the first bits aren't those of a packet or if out of memory. No clause
/// says when, nor which packets the store then holds.
///
/// Requires that the store's packets go the carrier's way, that it holds nothing, that the piece holds the room,
/// that the room has at most 8,191 bits, and that a word counts the bits of the piece.
#[inline(always)]
pub fn take_run<S: PacketSink>(
    store: &mut S,
    carrier: Carrier,
    room: usize,
    piece: &[u8],
    at: usize,
) -> Option<Run>
    requires way { way_of carrier ≡ S.WAY }
    requires none { S.holds store.old [] [] [] }
    requires inside { at + room ≤ length (bits piece.now) }
    requires small { length (bits piece.now) < 2 ^ 64 }
    requires room { room ≤ 8191 }
    ensures run { IfSome result (λ run. RunIs carrier room (S.holds store.new) (bits piece.now) at run) }
    ensures before { S.before store.new ≡ S.before store.old }
{
    let mut left = room;
    let mut place = at;
    let mut word = next_bits(piece, place);
    while !closes(carrier, left, word) {
        let Ok(taken) = take_packet(store, carrier, left, piece, place, word) else {
            return None;
        };
        let Some(bits) = taken else {
            if left < room {
                return Some(Run::First(left));
            }
            return None;
        };
        left -= bits;
        place += bits;
        word = next_bits(piece, place);
    }
    Some(Run::All(left - closing_bits(carrier)))
}

/// How many bits of a room are left after packets and what closes them, by the lengths of the packets alone: as many as
/// [`take_run`] returns if it takes all of them. `None` if the lengths don't fit the room, which begins at bit `at` of a piece.
///
/// Requires that the piece holds the room, and that a word counts the bits of the piece.
#[inline(always)]
pub fn left_by_lengths(carrier: Carrier, room: usize, piece: &[u8], at: usize) -> Option<usize>
    requires inside { at + room ≤ length (bits piece.now) }
    requires small { length (bits piece.now) < 2 ^ 64 }
    ensures { IfSome result (λ left. left ≤ room) }
{
    let mut left = room;
    let mut word = next_bits(piece, at);
    while !closes(carrier, left, word) {
        let len = packet_length(carrier, word);
        if len == 0 || len > left {
            return None;
        }
        left -= len;
        word = next_bits(piece, at + (room - left));
    }
    Some(left - closing_bits(carrier))
}

/// How many bits the packet has whose first bits the word has.
#[inline(always)]
fn packet_length(carrier: Carrier, word: u64) -> usize {
    match carrier {
        Carrier::Telegram if word >> 56 == 0 => MARKER_BITS,
        _ => frame_in(carrier.way(), word).len,
    }
}
