//! The variables of packets to the track with their numbers: those after the frame, and all with it.

ghost use Rattle.std.specs.Prelude.{◌≡◌, IfOk};

use crate::train_packet::TrainPacket;
use etcs_packets::inner::AnyPacket;
use etcs_vars::Var;
use etcs_vars::inner::{PairList, VarSink, Variables, send_bits};
use std::alloc::{AllocError, Global};

impl TrainPacket {
    ghost use Rattle.etcs_packets.specs.PacketValues.{variables_of};
    ghost use Rattle.etcs_track.specs.TrackPackets.{track_value};

    /// The variables after the frame (NID_PACKET and L_PACKET) with their numbers, in the order of sending
    /// (SUBSET-026, 7.4.3): flags and counts are among them. Of a packet that is kept as bits none.
    ///
    /// # Errors
    ///
    /// `AllocError`: out of memory.
    pub fn variables(&self, alloc: Global) -> Result<Vec<(Var, u64)>, AllocError>
        ensures { IfOk result (λ pairs. pairs.items ≡ variables_of (track_value self.now)) }
    {
        let mut list = PairList::new(alloc);
        self.send_body(&mut list)?;
        Ok(list.into_vec())
    }
}

/// All variables, with the frame; of a packet that is kept as bits a variable for each bit.
impl Variables for TrainPacket {
    ghost use Rattle.etcs_track.specs.TrackPackets.{track_value, track_reading};

    ghost reading_of = { λ p. track_reading (track_value p) };

    fn bits(&self) -> usize {
        self.bit_len()
    }

    fn send<S: VarSink>(&self, out: &mut S) -> Result<(), AllocError> {
        out.send(&[
            (Var::NID_PACKET, u64::from(self.nid())),
            (Var::L_PACKET, self.bit_len() as u64),
        ])?;
        match self {
            TrainPacket::Other(kept) => send_bits(Var::OTHER_DATA, &kept.body(), out),
            _ => self.send_body(out),
        }
    }
}
