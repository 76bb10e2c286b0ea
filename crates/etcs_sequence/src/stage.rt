//! What comes next in a run of packets.

use etcs_rows::inner::RowRest;

/// What comes next in a run of packets (SUBSET-026, 7.4 and 8).
#[derive(Drop)]
pub enum Stage {
    /// NID_PACKET.
    Number,
    /// NID_VBCMK, of packet 0.
    Marker,
    /// Q_DIR, of a packet of this number.
    Direction(u8),
    /// L_PACKET, of a packet of this number and direction.
    Length(u8, u8),
    /// What is left of the row of a typed packet of this number and direction.
    Row(u8, u8, RowRest),
    /// This many bits of OTHER_DATA, of a packet of this number and direction.
    Kept(u8, u8, usize),
    /// Nothing: the packets are closed.
    Closed,
}

/// What a variable did to the packet that is being read.
#[derive(Clone, Copy, Debug, PartialEq, Eq)]
pub(crate) enum Event {
    /// It isn't whole yet, or the packets are closed.
    More,
    /// Packet 0 is whole, with this marker.
    Marker(u8),
    /// The typed packet of this number and direction is whole.
    Typed(u8, u8),
    /// The packet of this number and direction is whole whose bits are kept.
    Kept(u8, u8),
}

/// Where a number is kept.
#[derive(Clone, Copy, Debug, PartialEq, Eq)]
pub(crate) enum Keep {
    /// Nowhere but in the stage.
    Nothing,
    /// Among the numbers of a row.
    Number,
    /// Among the bits that are kept.
    Bit,
}
