//! The variables of an item, one after another, up to its end or the first refused bit.

ghost use Rattle.std.specs.Prelude.{◌≡◌, ◌<◌, ◌≤◌, ◌+◌, ◌/◌, ◌^◌, ◌++◌, Bool, List, length, take, IfOk};
ghost use Rattle.etcs_bits.specs.Bits.{bits};
ghost use Rattle.etcs_vars.specs.Reading.{Reading, readings_of, spelled};
ghost use Rattle.etcs_reader.specs.Feeders.{Feeds, all_of};
ghost use Rattle.etcs_reader.specs.Rests.{Goes};
ghost use Rattle.etcs_text.specs.Entries.{EntryReads};
ghost use Rattle.etcs_text.specs.Accounts.{Accounts};
ghost use Rattle.etcs_text.specs.Traces.{Taken};

use crate::Kind;
use crate::refused::first;
use etcs_messages::inner::MessageRest;
use etcs_messages::{Head, Own};
use etcs_radio::{Body, RadioHead};
use etcs_reader::{Feeder, Rest, Stop};
use etcs_sequence::ItemRest;
use etcs_telegram::Size;
use etcs_telegram::inner::{TelegramRest, TelegramStore};
use etcs_train::{TrainBody, TrainHead};
use etcs_vars::Var;
use etcs_vars::inner::PairList;
use std::alloc::{AllocError, Global};

/// What is left of telegrams, and of messages to the train and to the track.
type Telegrams = TelegramRest<TelegramStore>;

type ToTrain = MessageRest<RadioHead, Body>;

type ToTrack = MessageRest<TrainHead, TrainBody>;

/// The bits of an unfinished variable before the end of the bytes, or before the refused bit.
#[derive(Clone, Copy, Debug, PartialEq, Eq)]
pub struct Part {
    /// The variable that holds the next bit, or the refused one.
    pub var: Var,
    /// The bits as a number, the first of them the most significant.
    pub bits: u64,
    /// How many bits there are: fewer than the variable is wide.
    pub count: usize,
}

/// Where an account ends.
#[derive(Clone, Copy, Debug, PartialEq, Eq)]
pub enum End {
    /// With the item.
    Whole,
    /// The bytes end inside an item. The part has the bits after the whole variables, and the variable that holds the next bit.
    Open(Part),
    /// This bit, counted from 0, is the first with which no item continues. The part has the bits between the whole variables
    /// and that bit, and the variable that holds it.
    Refused(usize, Part),
}

/// The whole variables of an item with their numbers, in the order of sending, and where they end.
#[derive(Drop)]
pub struct Account {
    /// The variables and their numbers.
    pub fields: Vec<(Var, u64)>,
    /// Where the account ends.
    pub end: End,
}

/// What is left of an item, with the variables that were read.
trait Traced: ItemRest {
    ghost held: { (size : Self.Size) (s t : Self) (p q : Reading) → Self.follows s p t → Self.holds size s q → Self.holds size t (q ++ p) };

    ghost far_is: { (size : Self.Size) (s : Self) (q : Reading) → Goes (Self.left s) → Self.holds size s q → q ≡ Self.far s };
}

impl Traced for TelegramRest<TelegramStore> {
    ghost use Rattle.std.proofs.Common.{◌∙◌};
    ghost use Rattle.etcs_telegram.proofs.SoFar.{far_is};

    ghost held = { λ size s t p q h k. (h.same ∙ k.0, h.held q k.1) };

    ghost far_is = { λ size s q g h. far_is s q g h.1 };
}

impl<H: Head, B: Own<Front = H>> Traced for MessageRest<H, B> {
    ghost use Rattle.std.proofs.Common.{◌∙◌};
    ghost use Rattle.etcs_messages.proofs.Listing.{held_in_list};
    ghost use Rattle.etcs_messages.proofs.SoFar.{far_is};

    ghost held = { λ size s t p q h k. (h.same ∙ k.0, h.held q k.1) };

    ghost far_is = { λ size s q g h. far_is H.Packet.form H.Store.list s q g (held_in_list H.Packet.form H.Store.list H.Store.holds H.Store.listed s q h.1) };
}

/// Where an account ends, from the result of an item's reader.
///
/// # Errors
///
/// If the reader ran out of memory.
fn end_of<R: Rest>(feeder: &Feeder<R>, fed: Result<usize, Stop>) -> Result<End, AllocError>
    ensures { (start : R) (xs : List Bool) → Feeds R R.left R.next R.follows R.fails (all_of start) xs fed feeder.now → IfOk result (λ e. Taken R R.left R.follows start xs e feeder.now) }
{
    let (bits, count) = feeder.unfinished();
    match fed {
        Ok(_) => match feeder.var() {
            None => Ok(End::Whole),
            Some(var) => Ok(End::Open(Part { var, bits, count })),
        },
        Err(Stop::Refused { bit, var }) => Ok(End::Refused(bit, Part { var, bits, count })),
        Err(Stop::Memory) => Err(AllocError),
    }
}

/// The variables that a reader has taken.
///
/// # Errors
///
/// If memory runs out.
fn fields_of<R: ItemRest>(alloc: Global, feeder: &Feeder<R>) -> Result<Vec<(Var, u64)>, AllocError>
    requires goes { Goes (R.left feeder.now.rest) }
    requires holds { (size : R.Size) × R.holds size feeder.now.rest (R.far feeder.now.rest) }
    requires taken { length (spelled (R.far feeder.now.rest)) + length feeder.now.part ≡ feeder.now.count }
    ensures { IfOk result (λ fields. fields.items ≡ R.far feeder.now.rest) }
{
    let (_, count) = feeder.unfinished();
    let bits = feeder.count() - count;
    let mut list = PairList::new(alloc);
    feeder.rest().send(bits, &mut list)?;
    Ok(list.into_vec())
}

/// The account of the item of this size that the bytes begin with.
///
/// # Errors
///
/// If memory runs out.
fn account_of<R: Traced>(alloc: Global, size: R::Size, bytes: &[u8]) -> Result<Account, AllocError>
    requires goes { Goes (readings_of (R.Reads size)) }
    requires short { length bytes.now ≤ 1023 }
    ensures { IfOk result (λ a. Accounts (readings_of (R.Reads size)) a.fields.items a.end (bits bytes.now)) }
{
    let mut feeder = Feeder::new(R::begin(alloc, size));
    let fed = feeder.feed(bytes);
    let end = end_of(&feeder, fed)?;
    let fields = fields_of(alloc, &feeder)?;
    Ok(Account { fields, end })
}

impl Account {
    /// Returns the account of the item of a kind that the bytes begin with. Only the first 1,023 bytes are read, as no item
    /// has more.
    ///
    /// - [`End::Whole`]: the fields are the variables of an item of the kind, in the order of sending, and the bytes begin with
    ///   its bits.
    /// - [`End::Open`]: the bytes are the bits of the fields followed by those of the part; an item of the kind begins with the
    ///   fields, and one with the bytes; no item is all of the bytes; and in every item that begins with the bytes the
    ///   part's variable holds the next bit.
    /// - [`End::Refused`]: the bit is the first with which no item of the kind continues, the one that the reader of the kind
    ///   refuses, and the part's variable holds it. The bits before it are those of the fields followed by those of the part,
    ///   and an item of the kind begins with the fields.
    ///
    /// In an item that begins with the fields the part's variable comes next, and it has more bits than the part: so the fields
    /// are all whole variables before the end of the bytes, or before the refused bit, and the part's bits are the first ones of
    /// that variable.
    ///
    /// # Errors
    ///
    /// If memory runs out.
    pub fn read(alloc: Global, kind: Kind, bytes: &[u8]) -> Result<Account, AllocError>
        ensures { IfOk result (λ a. Accounts (readings_of (EntryReads kind)) a.fields.items a.end (take 8184 (bits bytes.now))) }
    {
        let bytes = first(bytes);
        match kind {
            Kind::Long => account_of::<Telegrams>(alloc, Size::Long, bytes),
            Kind::Short => account_of::<Telegrams>(alloc, Size::Short, bytes),
            Kind::Radio => account_of::<ToTrain>(alloc, (), bytes),
            Kind::Train => account_of::<ToTrack>(alloc, (), bytes),
        }
    }

    /// Returns how many whole bytes the fields take, if they have fewer than 2^62 bits.
    pub fn bytes(&self) -> usize
        ensures { length (spelled self.now.fields.items) < 2 ^ 62 → result ≡ length (spelled self.now.fields.items) / 8 }
    {
        let mut bits = 0usize;
        for field in self.fields.as_slice() {
            bits = bits.saturating_add(field.0.width());
        }
        bits / 8
    }
}
