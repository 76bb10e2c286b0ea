//! What a packet's frame is, and which packets are kept as bits.

ghost use Rattle.std.specs.Prelude.{◌≡◌, ◌≤◌};
ghost use Rattle.etcs_tables.specs.Frames.{frame_bits, head_bits, kept_limit, is_framed, is_kept, is_direction};

use crate::row::Way;
use crate::tables::row_of;
use etcs_vars::Var;

/// The largest L_PACKET.
pub const MOST_LENGTH: usize = 8191;

/// The most bits of a row: the largest L_PACKET less the frame of a packet to the train.
pub const ROW_LIMIT: usize = 8168;

/// The bits of packet 0, its NID_PACKET and NID_VBCMK.
pub const MARKER_BITS: usize = 14;

/// The NID_PACKET that closes a telegram.
pub const CLOSING: u8 = 255;

/// The bits of packet 255, its NID_PACKET alone.
pub const CLOSING_BITS: usize = 8;

/// How many bits are before a packet's row, at most 23: those of NID_PACKET, Q_DIR to the train, and L_PACKET
/// (SUBSET-026, 7.4).
#[inline(always)]
pub fn frame_bits(way: Way) -> usize
    ensures bits { result ≡ frame_bits way }
    ensures most { result ≤ 23 }
{
    match way {
        Way::ToTrain => 23,
        Way::ToTrack => 21,
    }
}

/// How many bits of a packet are before L_PACKET: those of NID_PACKET and, to the train, Q_DIR.
pub fn head_bits(way: Way) -> usize
    ensures { result ≡ head_bits way }
{
    match way {
        Way::ToTrain => 10,
        Way::ToTrack => 8,
    }
}

/// The most bits that a packet may have after its frame: 8,191, the largest L_PACKET, less the frame.
pub fn kept_limit(way: Way) -> usize
    ensures { result ≡ kept_limit way }
{
    MOST_LENGTH - frame_bits(way)
}

/// Whether packets of this number have a frame: to the train the numbers 1 to 254, to the track all.
#[inline(always)]
pub fn is_framed(way: Way, nid: u8) -> bool
    ensures { result ≡ is_framed way nid }
{
    match way {
        Way::ToTrain => nid > 0 && nid < CLOSING,
        Way::ToTrack => true,
    }
}

/// Whether packets of this number are kept as bits: they have a frame (to the train the numbers 1 to 254, to the track
/// all) and aren't typed.
pub fn is_kept(way: Way, nid: u8) -> bool
    ensures { result ≡ is_kept way nid }
{
    is_framed(way, nid) && row_of(way, nid).is_none()
}

/// Whether a packet may have this direction: to the train what Q_DIR admits; to the track only 0, which isn't sent.
#[inline]
pub fn is_direction(way: Way, dir: u8) -> bool
    ensures { result ≡ is_direction way dir }
{
    match way {
        Way::ToTrain => Var::Q_DIR.admits(u64::from(dir)),
        Way::ToTrack => dir == 0,
    }
}
