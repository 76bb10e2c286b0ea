//! A reader of the items of a kind.

ghost use Rattle.std.specs.Prelude.{◌≡◌, List, Bool, [], Err, OnErr, OnOk, IfOk, length};
ghost use Rattle.etcs_bits.specs.Bits.{bits};
ghost use Rattle.etcs_text.specs.Entries.{EntryValue, entry_value};
ghost use Rattle.etcs_text.specs.Readers.{Feeds, IsReading, fault_of, finished, reading};

use crate::{Entry, Kind};
use etcs_radio::MessageReader;
use etcs_telegram::{Size, TelegramReader};
use etcs_train::TrainReader;
use etcs_vars::{Fed, ReadFault};
use std::alloc::Global;
use std::marker::Model;

/// The reader of telegrams, or of messages of a way.
#[derive(Drop)]
enum Inner {
    Telegram(TelegramReader),
    Message(MessageReader),
    Train(TrainReader),
}

/// Reads an item of a kind from pieces of any length.
#[derive(Drop)]
pub struct EntryReader {
    inner: Inner,
}

impl Model for EntryReader {
    ghost use Rattle.etcs_text.specs.Readers.{ReaderValue, value_of};

    ghost Value = { ReaderValue };

    ghost view = { λ r. value_of r.inner };
}

impl EntryReader {
    /// A reader of items of this kind that has read no bits.
    pub fn new(alloc: Global, kind: Kind) -> EntryReader
        ensures { result ≡ record { kind = kind; progress = reading [] } }
    {
        let inner = match kind {
            Kind::Long => Inner::Telegram(TelegramReader::new(alloc, Size::Long)),
            Kind::Short => Inner::Telegram(TelegramReader::new(alloc, Size::Short)),
            Kind::Radio => Inner::Message(MessageReader::new(alloc)),
            Kind::Train => Inner::Train(TrainReader::new(alloc)),
        };
        EntryReader { inner }
    }

    /// How many bits of the item were taken, as long as it isn't whole yet and `feed` has returned no error. No clause
    /// promises the number otherwise.
    pub fn bits_seen(&self) -> usize
        ensures { (seen : List Bool) → self.now.progress ≡ reading seen → result ≡ length seen }
    {
        match &self.inner {
            Inner::Telegram(reader) => reader.bits_seen(),
            Inner::Message(reader) => reader.bits_seen(),
            Inner::Train(reader) => reader.bits_seen(),
        }
    }

    /// Takes the next piece. Of all bits of the item so far, in whatever pieces they came: `Done` with the count of this
    /// piece's bytes up to the end of the item that the bits up to there spell; `More` if the bits begin an item of the
    /// kind and no front of them is one.
    ///
    /// After `Done`, take the item by [`EntryReader::next`] before feeding further bytes; after `Refused` or `Memory`, make
    /// a new reader.
    ///
    /// # Errors
    ///
    /// - `Refused` if no front of the bits is an item of the kind and none begins with them: `bit`, counted from 0 in
    ///   the item, is the first with which no item continues, and `var` is the variable that holds it.
    /// - `Memory` if out of memory, at a bit with which an item continues, after at least 50 bits of a telegram or 18
    ///   of a message; one variable holds that bit, which is neither Q_DIR, PAD nor PADDING, nor one that is in the
    ///   front of messages alone, nor NID_LRBG in a header.
    /// - `Ended` after `Done`.
    ///
    /// After `Refused` or `Memory` each later feed returns the same, after `Done` it returns `Ended`. The reader then doesn't
    /// change. Its kind never does.
    #[inline(always)]
    pub fn feed(&mut self, piece: &[u8]) -> Result<Fed, ReadFault>
        ensures answer { (seen : List Bool) → self.old.progress ≡ reading seen → Feeds self.old.kind seen (bits piece.now) result self.new.progress }
        ensures after { (IsReading self.old.progress → ⊥) → (self.new ≡ self.old) × (result ≡ Err (fault_of self.old.progress)) }
        ensures kind { self.new.kind ≡ self.old.kind }
    {
        match &mut self.inner {
            Inner::Telegram(reader) => reader.feed(piece),
            Inner::Message(reader) => reader.feed(piece),
            Inner::Train(reader) => reader.feed(piece),
        }
    }

    /// The item. Succeeds exactly if one is whole: once `feed` has returned `Done`. The reader then has read no bits,
    /// and reads the next item of the kind.
    ///
    /// # Errors
    ///
    /// `()` if no item is whole. The reader then stays as it was.
    #[inline(always)]
    pub fn next(&mut self) -> Result<Entry, ()>
        ensures some { IfOk result (λ e. self.old.progress ≡ finished (entry_value e)) }
        ensures none { OnErr result ((e : EntryValue) → self.old.progress ≡ finished e → ⊥) }
        ensures next { OnOk result (self.new ≡ record { kind = self.old.kind; progress = reading [] }) }
        ensures kept { OnErr result (self.new ≡ self.old) }
    {
        match &mut self.inner {
            Inner::Telegram(reader) => Ok(Entry::Telegram(reader.take_next().ok_or(())?)),
            Inner::Message(reader) => Ok(Entry::Message(reader.take_next().ok_or(())?)),
            Inner::Train(reader) => Ok(Entry::Train(reader.take_next().ok_or(())?)),
        }
    }
}
