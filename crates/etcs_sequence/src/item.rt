//! One reader of every item: telegrams, and messages.

ghost use Rattle.std.specs.Prelude.{◌≡◌, ◌≢◌, ◌*◌, ◌≤◌, ◌<◌, ◌^◌, ℕ, List, Bool, [], true, length, Ok, Err, None, MatchResult, OnOk, OnErr, IfSome, IsNone, is_some};
ghost use Rattle.etcs_bits.specs.Bits as bit_lists;
ghost use Rattle.etcs_bits.specs.Bits.{bits};
ghost use Rattle.etcs_vars.specs.Reading.{Reading, spelled, readings_of};
ghost use Rattle.etcs_vars.proofs.Languages.{Same};
ghost use Rattle.etcs_reader.specs.Rests.{Goes};
ghost use Rattle.etcs_sequence.specs.declared.list.PacketList.{PacketList};
ghost use Rattle.etcs_sequence.specs.Holdings.{IsHeld};
ghost use Rattle.etcs_sequence.specs.Progress.{Feeds, reading};
ghost use Rattle.etcs_sequence.specs.Readables.{Readable, IsPart, IsFed, IsItemReader, progress_at};

use crate::Held;
use crate::fault::fault_by;
use crate::list::PacketList;
use etcs_packets::inner::AnyPacket;
use etcs_reader::{Feeder, Rest, Stop};
use etcs_vars::inner::VarSink;
use etcs_vars::{Fed, ReadFault};
use std::alloc::{AllocError, Global};
use std::marker::Model;
use std::mem;

/// The most bytes whose bits a word counts.
const MOST_NEAR: usize = usize::MAX / 8;

/// What is left of an item whose packets go to a list, and the item that is made of what is kept of it. The readers of
/// telegrams and of messages are [`ItemReader`]s over one.
pub trait ItemRest: Rest + Drop {
    /// What is known of the item's size before its first bit.
    type Size: Copy;

    /// The item.
    type Item: Drop;

    /// What its packets are.
    type Packet: AnyPacket;

    /// What an item shows to a reader of its bits.
    ghost Shown: { Type 0 };

    /// These variables are those of an item of this size.
    ghost Reads: { Self.Size → Shown → Reading → Type 0 };

    ghost value: { Self.Item → Shown };

    ghost IsValue: { Self.Item → Type 0 };

    /// How many bits it has.
    ghost bits: { Self.Item → ℕ };

    /// The most bytes that an item of this size has.
    ghost most: { Self.Size → ℕ };

    /// The reader is out of memory only after at least this many bits.
    ghost least: { ℕ };

    /// The variables that were read.
    ghost far: { Self → Reading };

    /// These variables were read, and what is kept is theirs.
    ghost holds: { Self.Size → Self → Reading → Type 0 };

    /// The item, if nothing is left of it.
    ghost made: { Self → Self.Item };

    ghost store: { Self → PacketList Self.Packet };

    /// These variables have these whole packets, and of the one that is being read these numbers or bits.
    ghost Members: { List Self.Packet → List ℕ → List Bool → Reading → Type 0 };

    /// The most bytes that an item of this size has.
    fn most(size: Self::Size) -> usize
        ensures { result ≡ most size };

    /// All of an item of this size, of which nothing is kept.
    fn begin(alloc: Global, size: Self::Size) -> Self
        ensures left { Same (Self.left result) (readings_of (Reads size)) }
        ensures holds { holds size result [] };

    /// The item of this size that a piece begins with, one that its type admits, and how many of the first bytes of the
    /// piece are its spelling. It may always return `None`, for instance if the piece begins with no such item or if
    /// out of memory, so `None` alone means nothing. In `part` it may then put what is left of an item after the first
    /// bits of the piece, and how many they are.
    ///
    /// Requires that `part` is `None`, and that a word counts the bits of the piece.
    fn whole(
        alloc: Global,
        size: Self::Size,
        piece: &[u8],
        part: &mut Option<(Self, usize)>,
    ) -> Option<(Self::Item, usize)>
        requires small { length (bit_lists.bits piece.now) < 2 ^ 64 }
        requires none { part.old ≡ None }
        ensures within { IfSome result (λ t. 8 * t.1 ≤ length (bit_lists.bits piece.now)) }
        ensures value { IfSome result (λ t. IsValue t.0) }
        ensures reads { IfSome result (λ t. (r : Reading) × Reads size (value t.0) r × (spelled r ≡ bit_lists.part 0 (8 * t.1) (bit_lists.bits piece.now))) }
        ensures left { IfSome result (λ t. part.new ≡ None) }
        ensures part { IfSome part.new (λ t. IsPart Self.left Self.follows (holds size) (Reads size) (most size) (bit_lists.bits piece.now) t.0 t.1) };

    /// Where the packets go.
    fn store(&self) -> &PacketList<Self::Packet>
        ensures { result.now ≡ store self.now };

    /// Sends the variables that were read, in order. Requires that something can follow them, that what is kept
    /// is theirs, and that they take `taken` bits.
    ///
    /// # Errors
    ///
    /// `AllocError`: the sink failed; its `failed` then holds.
    fn send<S: VarSink>(&self, taken: usize, out: &mut S) -> Result<(), AllocError>
        requires goes { Goes (Self.left self.now) }
        requires holds { (size : Self.Size) × holds size self.now (far self.now) }
        requires taken { length (spelled (far self.now)) ≡ taken }
        ensures ok { OnOk result (out.new ≡ S.with out.old (far self.now)) }
        ensures err { OnErr result (S.failed out.old out.new) };

    /// The item that is made of what was read. Requires that nothing is left of it, that the variables that were
    /// read are those of an item of this size, and that what is kept is theirs.
    fn into_item(self, size: Self::Size) -> Self::Item
        requires ended { Self.next self ≡ None }
        requires whole { readings_of (Reads size) (far self) }
        requires holds { holds size self (far self) }
        ensures { result ≡ made self };
}

/// Reads an item from pieces of any length. It keeps none of the bytes: only what the rest keeps, and the
/// bits of one unfinished variable, or the item if it was whole in the first piece.
#[derive(Drop)]
pub struct ItemReader<R: ItemRest> {
    size: R::Size,
    feeder: Feeder<R>,
    /// The item that was whole in the first piece, and how many bytes it has. The feeder took none of its bits.
    done: Option<(R::Item, usize)>,
    /// What is left of the item after one pass over the first piece, and how many bits of the piece the pass took.
    /// `None` except while that piece is fed.
    part: Option<(R, usize)>,
}

impl<R: ItemRest> Model for ItemReader<R> {
    ghost use Rattle.std.specs.Prelude.{◌≡◌, None};
    ghost use Rattle.etcs_sequence.specs.Readables.{ItemValue, progress_at, progress_with, IsItemReader, IsDone};

    ghost Value = { ItemValue R.Size R.Item };

    ghost view = { λ r. record { size = r.size; progress = progress_with r.done (progress_at R.next R.far R.made r.feeder) } };

    ghost invariant = { λ r. IsItemReader R R.Item R.Shown R.Packet R.left R.next R.follows R.fails R.far (R.holds r.size) (R.Reads r.size) R.value R.IsValue R.bits R.made R.store R.Members (R.most r.size) R.least r.feeder × IsDone R.IsValue R.bits r.done (progress_at R.next R.far R.made r.feeder) × (r.part ≡ None) };
}

/// What a feed of the item returns, given the feeder's result: the item is whole if nothing is left.
fn fed<R: Rest>(feeder: &Feeder<R>, answer: Result<usize, Stop>) -> Result<Fed, ReadFault>
    ensures { IsFed R.left R.next feeder.now answer result }
{
    match answer {
        Ok(taken) => match feeder.var() {
            Some(_) => Ok(Fed::More),
            None => Ok(Fed::Done { taken: taken / 8 }),
        },
        Err(stop) => Err(fault_by(stop)),
    }
}

/// Takes the first piece variable by variable, from where one pass came to, or from its first bit if `part` is `None`.
#[cold]
#[inline(never)]
fn feed_part<R: ItemRest>(
    size: R::Size,
    feeder: &mut Feeder<R>,
    part: &mut Option<(R, usize)>,
    piece: &[u8],
) -> Result<Fed, ReadFault>
    requires item { IsItemReader R R.Item R.Shown R.Packet R.left R.next R.follows R.fails R.far (R.holds size) (R.Reads size) R.value R.IsValue R.bits R.made R.store R.Members (R.most size) R.least feeder.old }
    requires reading { progress_at R.next R.far R.made feeder.old ≡ reading [] }
    requires part { IfSome part.old (λ t. IsPart R.left R.follows (R.holds size) (R.Reads size) (R.most size) (bits piece.now) t.0 t.1) }
    ensures item { IsItemReader R R.Item R.Shown R.Packet R.left R.next R.follows R.fails R.far (R.holds size) (R.Reads size) R.value R.IsValue R.bits R.made R.store R.Members (R.most size) R.least feeder.new }
    ensures answer { Feeds (R.Reads size) R.value R.IsValue R.least [] (bits piece.now) result (progress_at R.next R.far R.made feeder.new) }
    ensures part { part.new ≡ None }
{
    match mem::replace(part, None) {
        Some((rest, at)) => {
            let (after, answer) = feed_after(size, rest, at, piece);
            *feeder = after;
            answer
        }
        None => feed_next(size, feeder, piece),
    }
}

/// A reader that has taken the first `at` bits of a first piece, after which `rest` is left, and takes the others
/// variable by variable; and what it returns for the whole piece.
fn feed_after<R: ItemRest>(
    size: R::Size,
    rest: R,
    at: usize,
    piece: &[u8],
) -> (Feeder<R>, Result<Fed, ReadFault>)
    requires readable { Readable R R.Item R.Shown R.Packet R.left R.next R.follows R.fails R.far (R.holds size) (R.Reads size) R.value R.IsValue R.bits R.made R.store R.Members (R.most size) R.least }
    requires part { IsPart R.left R.follows (R.holds size) (R.Reads size) (R.most size) (bits piece.now) rest at }
    ensures item { IsItemReader R R.Item R.Shown R.Packet R.left R.next R.follows R.fails R.far (R.holds size) (R.Reads size) R.value R.IsValue R.bits R.made R.store R.Members (R.most size) R.least result.0 }
    ensures answer { Feeds (R.Reads size) R.value R.IsValue R.least [] (bits piece.now) result.1 (progress_at R.next R.far R.made result.0) }
{
    let most = R::most(size).min(piece.len());
    let (feeder, answer) = Feeder::after(rest, at, &piece[..most]);
    let answer = fed(&feeder, answer);
    (feeder, answer)
}

/// Takes the next piece variable by variable; something is left of the item.
fn feed_next<R: ItemRest>(
    size: R::Size,
    feeder: &mut Feeder<R>,
    piece: &[u8],
) -> Result<Fed, ReadFault>
    requires item { IsItemReader R R.Item R.Shown R.Packet R.left R.next R.follows R.fails R.far (R.holds size) (R.Reads size) R.value R.IsValue R.bits R.made R.store R.Members (R.most size) R.least feeder.old }
    requires stop { feeder.old.stop ≡ None }
    requires next { is_some (R.next feeder.old.rest) ≡ true }
    ensures item { IsItemReader R R.Item R.Shown R.Packet R.left R.next R.follows R.fails R.far (R.holds size) (R.Reads size) R.value R.IsValue R.bits R.made R.store R.Members (R.most size) R.least feeder.new }
    ensures answer { (seen : List Bool) → progress_at R.next R.far R.made feeder.old ≡ reading seen → Feeds (R.Reads size) R.value R.IsValue R.least seen (bits piece.now) result (progress_at R.next R.far R.made feeder.new) }
{
    let wanted = R::most(size) - feeder.count() / 8;
    let most = wanted.min(piece.len());
    let answer = feeder.feed(&piece[..most]);
    fed(feeder, answer)
}

impl<R: ItemRest> ItemReader<R> {
    ghost use Rattle.etcs_sequence.specs.Progress.{Feeds, IsReading, fault_of, seen_of, reading, finished};

    /// A reader of an item of this size, which has taken no bits.
    ///
    /// Requires the facts about what is left of an item that a reader rests on (`Readable`), and that all of an
    /// item of this size is left in `rest`, of which nothing is kept.
    pub fn new(size: R::Size, rest: R) -> Self
        requires readable { Readable R R.Item R.Shown R.Packet R.left R.next R.follows R.fails R.far (R.holds size) (R.Reads size) R.value R.IsValue R.bits R.made R.store R.Members (R.most size) R.least }
        requires same { Same (R.left rest) (readings_of (R.Reads size)) }
        requires holds { R.holds size rest [] }
        ensures { result ≡ record { size = size; progress = reading [] } }
    {
        ItemReader {
            size,
            feeder: Feeder::new(rest),
            done: None,
            part: None,
        }
    }

    /// How many leading bits were accepted, over all pieces: all of them while more are expected; after `Done` those of
    /// the item; after `Refused` those before the refused bit; after `Memory` those before the bit at which it stopped.
    pub fn bits_seen(&self) -> usize
        ensures { result ≡ seen_of R.bits self.now.progress }
    {
        match &self.done {
            Some((_, bytes)) => bytes * 8,
            None => self.feeder.count(),
        }
    }

    /// Takes the next piece, and returns the exact outcome of all bits so far, however they were cut, against the items
    /// of this size: `Done` with the number of bytes of this piece up to the item's end, if the bits up to there spell
    /// an item; `More` if the bits begin an item's spelling and no front of them is one.
    ///
    /// # Errors
    ///
    /// - `Refused` with the first bit, counted from 0 over all pieces, with which no item continues, and the variable
    ///   that holds it.
    /// - `Memory`: out of memory, at a bit with which an item continues, after at least `least` bits and no fewer than
    ///   those of the pieces before. One variable holds this bit in every item that begins with the bits before it, and
    ///   it is one for which memory may be needed (`asks_memory`). No clause says that memory was in fact refused, nor
    ///   that no bit of the piece was to be refused.
    /// - `Ended`: the item was whole before this piece.
    ///
    /// After `Done`, `Refused` or `Memory` the reader stays as it is, and returns `Ended`, the same `Refused` or
    /// `Memory` for each later piece.
    pub fn feed(&mut self, piece: &[u8]) -> Result<Fed, ReadFault>
        ensures answer { (seen : List Bool) → self.old.progress ≡ reading seen → Feeds (R.Reads self.old.size) R.value R.IsValue R.least seen (bits piece.now) result self.new.progress }
        ensures after { (IsReading self.old.progress → ⊥) → (self.new ≡ self.old) × (result ≡ Err (fault_of self.old.progress)) }
        ensures size { self.new.size ≡ self.old.size }
    {
        if self.done.is_some() {
            return Err(ReadFault::Ended);
        }
        if self.feeder.count() == 0 && self.feeder.stop().is_none() {
            return self.feed_first(piece);
        }
        self.feed_on(piece)
    }

    /// Takes the first piece: the item if it lies whole in it, else what one pass found of it, and then the rest
    /// variable by variable.
    #[inline(always)]
    fn feed_first(&mut self, piece: &[u8]) -> Result<Fed, ReadFault>
        requires { self.old.progress ≡ reading [] }
        ensures answer { Feeds (R.Reads self.old.size) R.value R.IsValue R.least [] (bits piece.now) result self.new.progress }
        ensures size { self.new.size ≡ self.old.size }
    {
        // A few bytes more than the longest item, so that looks at its last bits find whole words.
        let near = piece.len().min(R::most(self.size) + 8).min(MOST_NEAR);
        let alloc = self.feeder.rest().store().alloc;
        match R::whole(alloc, self.size, &piece[..near], &mut self.part) {
            Some((item, taken)) => {
                self.done = Some((item, taken));
                Ok(Fed::Done { taken })
            }
            None => feed_part(self.size, &mut self.feeder, &mut self.part, piece),
        }
    }

    /// Takes the next piece variable by variable.
    fn feed_on(&mut self, piece: &[u8]) -> Result<Fed, ReadFault>
        ensures answer { (seen : List Bool) → self.old.progress ≡ reading seen → Feeds (R.Reads self.old.size) R.value R.IsValue R.least seen (bits piece.now) result self.new.progress }
        ensures after { (IsReading self.old.progress → ⊥) → (self.new ≡ self.old) × (result ≡ Err (fault_of self.old.progress)) }
        ensures size { self.new.size ≡ self.old.size }
    {
        if let Some(stop) = self.feeder.stop() {
            return Err(fault_by(stop));
        }
        if self.done.is_some() || self.feeder.var().is_none() {
            return Err(ReadFault::Ended);
        }
        feed_next(self.size, &mut self.feeder, piece)
    }

    /// What it holds between two pieces: the whole packets, the numbers or kept bits of what is being read, and the
    /// first bits of the variable that comes next, with which every item continues that begins with the bits so far.
    /// `None` exactly after `Done`, `Refused` or `Memory`.
    pub fn held(&self) -> Option<Held<'_, R::Packet>>
        ensures some { IfSome result (λ h. IsHeld (readings_of (R.Reads self.now.size)) (R.Members h.packets.now h.numbers.now h.kept) self.now.progress h.part h.taken) }
        ensures none { IsNone result → IsReading self.now.progress → ⊥ }
    {
        if self.done.is_some() || self.feeder.stop().is_some() || self.feeder.var().is_none() {
            return None;
        }
        let store = self.feeder.rest().store();
        let (part, taken) = self.feeder.unfinished();
        Some(Held {
            packets: store.packets.as_slice(),
            numbers: store.numbers.as_slice(),
            kept: store.bits.as_slice(),
            part,
            taken,
        })
    }

    /// The item, returned exactly if it is whole, that is if `feed` has returned `Done`.
    ///
    /// # Errors
    ///
    /// The reader itself, as it was: the item isn't whole.
    #[inline(always)]
    pub fn take(self) -> Result<R::Item, Self>
        ensures { MatchResult result (λ t. self.progress ≡ finished t) (λ r. (r ≡ self) × ((t : R.Item) → self.progress ≢ finished t)) }
    {
        if self.done.is_none() && (self.feeder.stop().is_some() || self.feeder.var().is_some()) {
            return Err(self);
        }
        let ItemReader {
            size,
            feeder,
            done,
            ..
        } = self;
        match done {
            Some((item, _)) => Ok(item),
            None => Ok(feeder.into_rest().into_item(size)),
        }
    }

    /// The item, if it is whole, that is if `feed` has returned `Done`; the reader then has no bits, and reads another
    /// of the same size. `None` exactly if the item isn't whole; the reader then stays as it was.
    #[inline(always)]
    pub fn take_next(&mut self) -> Option<R::Item>
        ensures some { IfSome result (λ t. (self.old.progress ≡ finished t) × (self.new.progress ≡ reading [])) }
        ensures none { IsNone result → (self.new ≡ self.old) × ((t : R.Item) → self.old.progress ≢ finished t) }
        ensures size { self.new.size ≡ self.old.size }
    {
        match mem::replace(&mut self.done, None) {
            Some((item, _)) => Some(item),
            None => self.take_read(),
        }
    }

    /// As `take_next`, also of an item that was read variable by variable.
    #[cold]
    #[inline(never)]
    fn take_read(&mut self) -> Option<R::Item>
        ensures some { IfSome result (λ t. (self.old.progress ≡ finished t) × (self.new.progress ≡ reading [])) }
        ensures none { IsNone result → (self.new ≡ self.old) × ((t : R.Item) → self.old.progress ≢ finished t) }
        ensures size { self.new.size ≡ self.old.size }
    {
        let alloc = self.feeder.rest().store().alloc;
        let next = ItemReader::new(self.size, R::begin(alloc, self.size));
        match mem::replace(self, next).take() {
            Ok(item) => Some(item),
            Err(reader) => {
                *self = reader;
                None
            }
        }
    }
}
