//! What a reader holds between two pieces.

use etcs_bits::BitSlice;

/// What a reader holds between two pieces: with the header's numbers and the frame of the packet that is being read,
/// all of the bits so far. `P` is the type of its packets.
#[derive(Debug, Drop)]
pub struct Held<'a, P> {
    /// The whole packets, in order.
    pub packets: &'a [P],
    /// The whole numbers after L_PACKET of the typed packet that is being read.
    pub numbers: &'a [u64],
    /// The bits so far of OTHER_DATA, or of FILL.
    pub kept: BitSlice<'a>,
    /// The first bits of the variable that isn't whole yet, as a number.
    pub part: u64,
    /// How many they are.
    pub taken: usize,
}
