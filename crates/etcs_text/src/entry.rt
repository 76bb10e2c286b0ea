//! What the items of an input are.

use etcs_radio::Message;
use etcs_telegram::Telegram;
use etcs_train::TrainMessage;

/// What the input holds.
#[derive(Clone, Copy, Debug, PartialEq, Eq)]
pub enum Kind {
    /// Balise telegrams of 830 user bits.
    Long,
    /// Balise telegrams of 210 user bits.
    Short,
    /// Radio messages to the train.
    Radio,
    /// Radio messages from the train to the track.
    Train,
}

/// One item of the input. Two of them are equal if they are equal telegrams, or equal messages of one way.
#[derive(Debug, Drop, PartialEq, Eq)]
pub enum Entry {
    /// A balise telegram.
    Telegram(Telegram),
    /// A radio message to the train.
    Message(Message),
    /// A radio message from the train to the track.
    Train(TrainMessage),
}
