//! A resumable reader of telegrams.

ghost use Rattle.std.specs.Prelude.{◌≡◌, ◌≢◌, List, Bool, [], MatchResult, IfSome, IsNone};
ghost use Rattle.etcs_bits.specs.Bits.{bits};
ghost use Rattle.etcs_sequence.specs.Holdings.{IsHeld};
ghost use Rattle.etcs_telegram.specs.Telegrams.{TelegramValue, TelegramLanguage, ReadsAs, IsTelegram, telegram_value, container_bytes};
ghost use Rattle.etcs_telegram.specs.Readers.{Members, OwnHeld, so_far, telegram_by, telegram_bits};

use crate::header::{Header, header_by};
use crate::rest::TelegramRest;
use crate::size::Size;
use crate::store::TelegramStore;
use crate::telegram::Telegram;
use crate::whole::telegram_at;
use etcs_bodies::ListOf;
use etcs_packets::Packet;
use etcs_sequence::{Held, ItemReader, ItemRest, PacketList};
use etcs_vars::inner::VarSink;
use etcs_vars::{Fed, ReadFault};
use std::alloc::{AllocError, Global};
use std::marker::Model;

impl ItemRest for TelegramRest<TelegramStore> {
    type Size = Size;

    type Item = Telegram;

    type Packet = Packet;

    ghost Shown = { TelegramValue };

    ghost Reads = { ReadsAs };

    ghost value = { telegram_value };

    ghost IsValue = { IsTelegram };

    ghost bits = { telegram_bits };

    ghost most = { container_bytes };

    ghost least = { 50 };

    ghost far = { so_far };

    ghost holds = { OwnHeld };

    ghost made = { telegram_by };

    ghost store = { λ s. s.store.list };

    ghost Members = { Members };

    #[inline]
    fn most(size: Size) -> usize {
        size.container_bytes()
    }

    fn begin(alloc: Global, size: Size) -> Self {
        let list = PacketList::new(alloc);
        TelegramRest::new(size, TelegramStore { list })
    }

    #[inline(always)]
    fn whole(
        alloc: Global,
        size: Size,
        piece: &[u8],
        part: &mut Option<(Self, usize)>,
    ) -> Option<(Telegram, usize)> {
        let telegram = telegram_at(alloc, size, piece, part)?;
        Some((telegram, size.container_bytes()))
    }

    #[inline]
    fn store(&self) -> &PacketList<Packet> {
        &self.packets.store.list
    }

    fn send<S: VarSink>(&self, taken: usize, out: &mut S) -> Result<(), AllocError> {
        self.send_read(taken, out)
    }

    #[inline(always)]
    fn into_item(self, _size: Size) -> Telegram {
        Telegram {
            size: self.size,
            header: header_by(self.header.as_slice()),
            packets: ListOf::from_vec(self.packets.store.list.packets),
            fill: self.packets.store.list.bits,
        }
    }
}

/// Reads a balise telegram from pieces of any length. It keeps none of the bytes: only the header's numbers, the
/// packets that are whole, the numbers or kept bits of the packet that is being read, the FILL bits so far and one
/// unfinished variable; or the telegram, if the first piece had all of it. No clause promises this of its fields.
#[derive(Drop)]
pub struct TelegramReader {
    pub(crate) reader: ItemReader<TelegramRest<TelegramStore>>,
}

impl Model for TelegramReader {
    ghost use Rattle.etcs_telegram.specs.Readers.{ReaderValue};

    ghost Value = { ReaderValue };

    ghost view = { λ r. r.reader };
}

impl TelegramReader {
    ghost use Rattle.etcs_sequence.specs.Progress.{Feeds, IsReading, fault_of, seen_of, reading, finished};
    ghost use Rattle.etcs_telegram.specs.Telegrams.{TelegramContent};

    /// A reader of telegrams of this size that has read no bits. Nothing is allocated before the first packet or FILL
    /// bit.
    pub fn new(alloc: Global, size: Size) -> Self
        ensures { result ≡ record { size = size; progress = reading [] } }
    {
        TelegramReader {
            reader: ItemReader::new(size, TelegramRest::begin(alloc, size)),
        }
    }

    /// How many leading bits were accepted, over all pieces: all bits while the telegram isn't whole; after `Done`
    /// those of the telegram, PAD included: 216 or 832; after `Refused` those before the refused bit. After `Memory` it
    /// is the number that [`TelegramReader::feed`] describes.
    pub fn bits_seen(&self) -> usize
        ensures { result ≡ seen_of telegram_bits self.now.progress }
    {
        self.reader.bits_seen()
    }

    /// Takes the next piece. Of all bits so far, in whatever pieces they came: `Done` with the count of this piece's
    /// bytes up to the end of a telegram of the size if the bits up to there spell it; `More` if the bits begin a
    /// telegram and no front of them is one.
    ///
    /// # Errors
    ///
    /// - `Refused` if no front of the bits is a telegram of the size and none begins with them: `bit`, counted from 0
    ///   over all pieces, is the first with which no telegram continues, and `var` is the variable that holds it in
    ///   each telegram that begins with the bits before it.
    /// - `Memory` if out of memory for packets or FILL. [`TelegramReader::bits_seen`] is then at least the number of
    ///   bits of the pieces before, at least 50, and fewer than all; the bits up to there with the next one begin a
    ///   telegram, and one variable holds that next bit in each telegram that begins with the bits before it, which is
    ///   neither Q_DIR nor PAD. No clause promises that memory did run out, nor that no bit of the piece would be
    ///   refused.
    /// - `Ended` after `Done`.
    ///
    /// After `Refused` or `Memory` each later feed returns the same, after `Done` it returns `Ended`. The reader then
    /// doesn't change. Its size never does.
    pub fn feed(&mut self, piece: &[u8]) -> Result<Fed, ReadFault>
        ensures answer { (seen : List Bool) → self.old.progress ≡ reading seen → Feeds (ReadsAs self.old.size) telegram_value IsTelegram 50 seen (bits piece.now) result self.new.progress }
        ensures after { (IsReading self.old.progress → ⊥) → (self.new ≡ self.old) × (result ≡ Err (fault_of self.old.progress)) }
        ensures size { self.new.size ≡ self.old.size }
    {
        self.reader.feed(piece)
    }

    /// What it holds between two pieces: the whole packets, each as its own type admits it, the numbers or kept bits of
    /// the packet that is being read or the bits of FILL, and the unfinished variable. `None` exactly after `Done`,
    /// `Refused` or `Memory`.
    ///
    /// Packets, numbers and kept bits are those of the whole variables so far. The bits so far are those of these
    /// variables and then `taken` bits, fewer than the next variable is wide, which are the number `part`. Each
    /// telegram that begins with these bits begins with these variables and continues with that one variable, which
    /// holds the next bit.
    pub fn held(&self) -> Option<Held<'_, Packet>>
        ensures some { IfSome result (λ h. IsHeld (TelegramLanguage self.now.size) (Members h.packets.now h.numbers.now h.kept) self.now.progress h.part h.taken) }
        ensures none { IsNone result → IsReading self.now.progress → ⊥ }
    {
        self.reader.held()
    }

    /// The telegram. Succeeds exactly if there is a whole one: once `feed` has returned `Done`.
    ///
    /// # Errors
    ///
    /// The reader itself, as it was, if there is no whole telegram.
    #[inline(always)]
    pub fn take(self) -> Result<Telegram, Self>
        ensures { MatchResult result (λ t. self.progress ≡ finished t) (λ r. (r ≡ self) × ((t : TelegramContent) → self.progress ≢ finished t)) }
    {
        match self.reader.take() {
            Ok(telegram) => Ok(telegram),
            Err(reader) => Err(TelegramReader { reader }),
        }
    }

    /// The telegram, once `feed` has returned `Done`; `None` exactly if there is no whole one, and the reader then
    /// stays as it was. After `Some` the reader has read no bits and reads another telegram of the same size.
    #[inline(always)]
    pub fn take_next(&mut self) -> Option<Telegram>
        ensures some { IfSome result (λ t. (self.old.progress ≡ finished t) × (self.new.progress ≡ reading [])) }
        ensures none { IsNone result → (self.new ≡ self.old) × ((t : TelegramContent) → self.old.progress ≢ finished t) }
        ensures size { self.new.size ≡ self.old.size }
    {
        self.reader.take_next()
    }
}
