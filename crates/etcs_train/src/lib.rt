//! Radio messages from the train, to the track: [`TrainMessage`] is [`MessageOf`] of `etcs_messages` with
//! [`TrainHead`] and [`TrainBody`], and [`TrainReader`] reads it from pieces. Its packets are [`TrainPacket`]s.
//! Messages to the train are in `etcs_radio`.
//!
//! ```rust
//! // message 146: the message with T_TRAIN 1000 is acknowledged
//! let head = TrainHead { t_train: 1250, nid_engine: 4711 };
//! let body = TrainBody::TrainTime { nid: 146, t_train: 1000 };
//! if let Ok(message) = TrainMessage::new(head, body, packets) {
//!     message.encode(&mut bytes)?;
//! }
//! ```
#![tactic(auto)]

mod body;
pub mod laws;
mod store;

pub use body::{TrainBody, TrainHead};
pub use etcs_messages::{
    BitSlice, Bits, BuildFault, Fed, Held, MessageOf, ReadFault, ReaderOf, Var,
};
pub use etcs_track::TrainPacket;

/// A radio message to the track (SUBSET-026, 8).
///
/// A typed message is a header of 74 bits, the variables of its number, packets, and 0 to 7 bits of PADDING up to whole
/// bytes. A message of another number is kept as bits. Both have at most 1,023 bytes.
pub type TrainMessage = MessageOf<TrainHead, TrainBody>;

/// Reads a radio message to the track from pieces of any length (SUBSET-026, 8).
pub type TrainReader = ReaderOf<TrainHead, TrainBody>;
