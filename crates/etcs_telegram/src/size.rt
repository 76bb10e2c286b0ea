//! Sizes.

use crate::whole::{sees_long, sees_short};

/// How many user bits a telegram has (SUBSET-036): 210 or 830.
#[derive(Clone, Copy, Debug, PartialEq, Eq)]
pub enum Size {
    /// 210 user bits, in 27 bytes.
    Short,
    /// 830 user bits, in 104 bytes.
    Long,
}

impl Size {
    ghost use Rattle.std.specs.Prelude.{◌≡◌, ◌*◌, ◌≤◌, ◌<◌, ◌^◌, length, IsTrue};
    ghost use Rattle.etcs_bits.specs.Bits.{bits, part};
    ghost use Rattle.etcs_vars.specs.Reading.{Reading, spelled};
    ghost use Rattle.etcs_telegram.specs.Telegrams.{ReadsAs, TelegramValue, user_bits, pad_bits, packet_room, container_bytes};

    /// How many bits come before PAD: 210 or 830.
    pub fn user_bits(self) -> usize
        ensures { result ≡ user_bits self }
    {
        match self {
            Size::Short => 210,
            Size::Long => 830,
        }
    }

    /// How many zeros end a telegram, up to whole bytes: 6 or 2.
    pub fn pad_bits(self) -> usize
        ensures { result ≡ pad_bits self }
    {
        match self {
            Size::Short => 6,
            Size::Long => 2,
        }
    }

    /// How many bytes a telegram takes: 27 or 104.
    pub fn container_bytes(self) -> usize
        ensures { result ≡ container_bytes self }
    {
        match self {
            Size::Short => 27,
            Size::Long => 104,
        }
    }

    /// If true, the piece begins with the bytes of a telegram of this size: 27 or 104. False says nothing: then a
    /// [`TelegramReader`](crate::TelegramReader) decides. Takes no memory.
    ///
    /// Requires that a word counts the bits of the piece.
    #[inline]
    pub fn sees(self, piece: &[u8]) -> bool
        requires small { length (bits piece.now) < 2 ^ 64 }
        ensures within { IsTrue result → container_bytes self ≤ length piece.now }
        ensures reads { IsTrue result → (t : TelegramValue) × (r : Reading) × ReadsAs self t r × (spelled r ≡ part 0 (8 * container_bytes self) (bits piece.now)) }
    {
        match self {
            Size::Short => sees_short(piece),
            Size::Long => sees_long(piece),
        }
    }

    /// How many user bits the header leaves to packets, packet 255 and FILL: 160 or 780.
    pub fn packet_room(self) -> usize
        ensures { result ≡ packet_room self }
    {
        match self {
            Size::Short => 160,
            Size::Long => 780,
        }
    }
}
