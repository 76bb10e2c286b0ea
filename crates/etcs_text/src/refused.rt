//! Where an item is refused, and why, found without a value of it.

ghost use Rattle.std.specs.Prelude.{◌≡◌, ◌≤◌, length, take, IfSome};
ghost use Rattle.etcs_bits.specs.Bits.{bits};
ghost use Rattle.etcs_vars.specs.Reading.{IsOutcome, readings_of, refused};
ghost use Rattle.etcs_rows.specs.Refusals.{FindsRefusal};
ghost use Rattle.etcs_tables.specs.declared.row.Way.TheVariants.{ToTrain, ToTrack};
ghost use Rattle.etcs_messages.specs.Messages.{MessageLanguage};
ghost use Rattle.etcs_text.specs.declared.entry.Kind.TheVariants.{Radio, Train};
ghost use Rattle.etcs_text.specs.Entries.{EntryReads, kind_of};

use crate::Kind;
use crate::seen::MOST_BYTES;
use etcs_messages::inner;
use etcs_rows::{Refusal, refusal_in};
use etcs_telegram::{Size, TelegramView, ViewFault, inner as telegrams};
use etcs_vars::Var;

/// The first bit of these bytes, counted from 0, with which no item of the kind continues, and the variable that holds
/// it, as [`EntryReader::feed`](crate::EntryReader::feed) reports them of all of the bytes. `None` says nothing: it is
/// returned if they are fewer than the item has that they begin with, and may always be. Takes no memory.
#[cold]
#[inline(never)]
pub fn refused_at(kind: Kind, bytes: &[u8]) -> Option<(usize, Var)>
    ensures { IfSome result (λ t. IsOutcome (EntryReads kind) (bits bytes.now) (refused t.0 t.1)) }
{
    match kind {
        Kind::Long => telegram_refused_at(Size::Long, bytes),
        Kind::Short => telegram_refused_at(Size::Short, bytes),
        Kind::Radio => radio_refused_at(bytes),
        Kind::Train => train_refused_at(bytes),
    }
}

/// That of a telegram of this size.
fn telegram_refused_at(size: Size, bytes: &[u8]) -> Option<(usize, Var)>
    ensures { IfSome result (λ t. IsOutcome (EntryReads (kind_of size)) (bits bytes.now) (refused t.0 t.1)) }
{
    let count = size.container_bytes();
    if bytes.len() < count {
        return None;
    }
    match TelegramView::new(&bytes[..count], size) {
        Ok(_) => None,
        Err(ViewFault::Refused { bit, var }) => Some((bit, var)),
        Err(ViewFault::Length) => None,
    }
}

/// That of a message to the train.
fn radio_refused_at(bytes: &[u8]) -> Option<(usize, Var)>
    ensures { IfSome result (λ t. IsOutcome (EntryReads Radio) (bits bytes.now) (refused t.0 t.1)) }
{
    inner::refused_at::<etcs_radio::RadioHead, etcs_radio::Body>(bytes)
}

/// That of a message to the track.
fn train_refused_at(bytes: &[u8]) -> Option<(usize, Var)>
    ensures { IfSome result (λ t. IsOutcome (EntryReads Train) (bits bytes.now) (refused t.0 t.1)) }
{
    inner::refused_at::<etcs_train::TrainHead, etcs_train::TrainBody>(bytes)
}

/// The first bytes, at most as many as an item may have.
pub(crate) fn first(bytes: &[u8]) -> &[u8]
    ensures short { length result.now ≤ 1023 }
    ensures bits { bits result.now ≡ take 8184 (bits bytes.now) }
{
    &bytes[..bytes.len().min(MOST_BYTES)]
}

/// Returns the first bit of the first 1,023 bytes at most with which no item of the kind continues, and why; `None` if there
/// is none: the bytes then begin with an item or end inside one. Takes no memory.
pub fn refusal_at(kind: Kind, bytes: &[u8]) -> Option<Refusal>
    ensures { FindsRefusal (readings_of (EntryReads kind)) (take 8184 (bits bytes.now)) result }
{
    let bytes = first(bytes);
    match kind {
        Kind::Long => telegrams::refusal_at(Size::Long, bytes),
        Kind::Short => telegrams::refusal_at(Size::Short, bytes),
        Kind::Radio => radio_refusal_at(bytes),
        Kind::Train => train_refusal_at(bytes),
    }
}

/// That of a message to the train.
fn radio_refusal_at(bytes: &[u8]) -> Option<Refusal>
    requires { length bytes.now ≤ 1023 }
    ensures { FindsRefusal (MessageLanguage ToTrain) (bits bytes.now) result }
{
    let rest = inner::counted::<etcs_radio::RadioHead, etcs_radio::Body>();
    refusal_in(rest, bytes)
}

/// That of a message to the track.
fn train_refusal_at(bytes: &[u8]) -> Option<Refusal>
    requires { length bytes.now ≤ 1023 }
    ensures { FindsRefusal (MessageLanguage ToTrack) (bits bytes.now) result }
{
    let rest = inner::counted::<etcs_train::TrainHead, etcs_train::TrainBody>();
    refusal_in(rest, bytes)
}
