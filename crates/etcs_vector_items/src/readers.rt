//! A reader of the items of any kind.

use etcs_radio::MessageReader;
use etcs_telegram::{Held, Size, TelegramReader};
use etcs_text::{Entry, Kind};
use etcs_train::TrainReader;
use etcs_vars::{Fed, ReadFault};
use etcs_vector_lines::Case;
use std::alloc::Global;

/// What a reader holds: how many packets, numbers and kept bits; the first bits of the unfinished variable as a number, and
/// how many they are.
pub type State = [u64; 5];

/// How much is held.
fn state_of<P>(held: Held<'_, P>) -> State {
    [
        held.packets.len() as u64,
        held.numbers.len() as u64,
        held.kept.len() as u64,
        held.part,
        held.taken as u64,
    ]
}

/// Reads one item from pieces.
#[derive(Drop)]
pub enum Reader {
    Telegram(TelegramReader),
    Message(MessageReader),
    Train(TrainReader),
}

impl Reader {
    /// A reader that has read nothing.
    pub fn new(alloc: Global, kind: Kind) -> Reader {
        match kind {
            Kind::Long => Reader::Telegram(TelegramReader::new(alloc, Size::Long)),
            Kind::Short => Reader::Telegram(TelegramReader::new(alloc, Size::Short)),
            Kind::Radio => Reader::Message(MessageReader::new(alloc)),
            Kind::Train => Reader::Train(TrainReader::new(alloc)),
        }
    }

    /// Takes the next piece.
    pub fn feed(&mut self, piece: &[u8]) -> Result<Fed, ReadFault> {
        match self {
            Reader::Telegram(reader) => reader.feed(piece),
            Reader::Message(reader) => reader.feed(piece),
            Reader::Train(reader) => reader.feed(piece),
        }
    }

    /// How many leading bits were accepted.
    pub fn bits_seen(&self) -> usize {
        match self {
            Reader::Telegram(reader) => reader.bits_seen(),
            Reader::Message(reader) => reader.bits_seen(),
            Reader::Train(reader) => reader.bits_seen(),
        }
    }

    /// What is held.
    pub fn state(&self) -> Option<State> {
        match self {
            Reader::Telegram(reader) => reader.held().map(state_of),
            Reader::Message(reader) => reader.held().map(state_of),
            Reader::Train(reader) => reader.held().map(state_of),
        }
    }

    /// The item, where it is whole.
    pub fn take(self) -> Option<Entry> {
        match self {
            Reader::Telegram(reader) => Some(Entry::Telegram(reader.take().ok()?)),
            Reader::Message(reader) => Some(Entry::Message(reader.take().ok()?)),
            Reader::Train(reader) => Some(Entry::Train(reader.take().ok()?)),
        }
    }
}

/// What a reader returns for bytes in one piece, and the item that it has read then.
pub(crate) fn read_whole(
    alloc: Global,
    kind: Kind,
    bytes: &[u8],
) -> (Result<Fed, ReadFault>, Option<Entry>) {
    let mut reader = Reader::new(alloc, kind);
    let fed = reader.feed(bytes);
    (fed, reader.take())
}

/// The item of these bytes.
pub fn item_of(case: &mut Case, kind: Kind, bytes: &[u8]) -> Option<Entry> {
    let (fed, item) = read_whole(case.alloc(), kind, bytes);
    case.kept(fed != Err(ReadFault::Memory));
    item
}

/// The kind of the next word.
pub fn next_kind(case: &mut Case) -> Kind {
    match case.word() {
        "short" => Kind::Short,
        "long" => Kind::Long,
        "radio" => Kind::Radio,
        "train" => Kind::Train,
        _ => {
            case.bad();
            Kind::Short
        }
    }
}

/// The size of a kind's telegrams.
pub fn size_of(kind: Kind) -> Option<Size> {
    match kind {
        Kind::Long => Some(Size::Long),
        Kind::Short => Some(Size::Short),
        Kind::Radio | Kind::Train => None,
    }
}

/// The size of telegrams of the next word.
pub(crate) fn next_size(case: &mut Case) -> Size {
    match size_of(next_kind(case)) {
        Some(size) => size,
        None => {
            case.bad();
            Size::Short
        }
    }
}
