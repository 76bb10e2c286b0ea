//! Items that bytes begin with, seen without values of them.

ghost use Rattle.std.specs.Prelude.{◌≡◌, ◌*◌, ◌^◌, ◌<◌, ◌≤◌, Bool, List, length, take, IfSome};
ghost use Rattle.etcs_bits.specs.Bits.{bits, part};
ghost use Rattle.etcs_vars.specs.Reading.{IsOutcome, Reading, done, spelled};
ghost use Rattle.etcs_messages.specs.Messages.{MessageReads, MessageValue};
ghost use Rattle.etcs_text.specs.declared.entry.Kind.TheVariants.{Radio, Train};
ghost use Rattle.etcs_text.specs.Encodings.{IsEncoded};
ghost use Rattle.etcs_text.specs.Entries.{EntryReads, EntryValue, entry_bits, kind_of};

use crate::Kind;
use crate::encodings::are_bytes;
use etcs_messages::inner::message_seen;
use etcs_messages::{Head, Own};
use etcs_packets::inner::AnyPacket;
use etcs_telegram::Size;

/// The most bytes that an item has.
pub const MOST_BYTES: usize = 1023;

/// The most bytes of a piece that is copied.
const MOST_COPIED: usize = 56;

/// How many bytes an item of the kind has with which these bytes begin, if it lies whole in them. It may always return
/// `None`, also if they begin with an item. Takes no memory.
#[inline(always)]
pub fn seen(kind: Kind, bytes: &[u8]) -> Option<usize>
    ensures some { IfSome result (λ n. 0 < n) }
    ensures most { IfSome result (λ n. n < 1024) }
    ensures within { IfSome result (λ n. n ≤ length bytes.now) }
    ensures item { IfSome result (λ n. (e : EntryValue) × IsOutcome (EntryReads kind) (bits bytes.now) (done e (8 * n)) × IsEncoded e (take n bytes.now)) }
{
    are_bytes(bytes);
    seen_first(kind, &bytes[..bytes.len().min(MOST_BYTES)])
}

/// How many bits an item of the kind with this many bytes has; a telegram its user bits.
#[inline(always)]
pub fn item_bits(kind: Kind, bytes: usize) -> u64
    requires { bytes < 1024 }
    ensures { (e : EntryValue) (b : List Bool) → IsOutcome (EntryReads kind) b (done e (8 * bytes)) → result ≡ entry_bits e }
{
    match kind {
        Kind::Long => 830,
        Kind::Short => 210,
        Kind::Radio | Kind::Train => 8 * bytes as u64,
    }
}

/// As [`seen`], of bytes whose bits a word counts.
#[inline(always)]
fn seen_first(kind: Kind, piece: &[u8]) -> Option<usize>
    requires { length (bits piece.now) < 2 ^ 64 }
    ensures within { IfSome result (λ n. n ≤ length piece.now) }
    ensures reads { IfSome result (λ n. (e : EntryValue) × (r : Reading) × EntryReads kind e r × (spelled r ≡ part 0 (8 * n) (bits piece.now))) }
{
    match kind {
        Kind::Long => telegram_seen(Size::Long, piece),
        Kind::Short => telegram_seen(Size::Short, piece),
        Kind::Radio => radio_seen(piece),
        Kind::Train => train_seen(piece),
    }
}

/// Those of a telegram of this size.
#[inline(always)]
fn telegram_seen(size: Size, piece: &[u8]) -> Option<usize>
    requires { length (bits piece.now) < 2 ^ 64 }
    ensures within { IfSome result (λ n. n ≤ length piece.now) }
    ensures reads { IfSome result (λ n. (e : EntryValue) × (r : Reading) × EntryReads (kind_of size) e r × (spelled r ≡ part 0 (8 * n) (bits piece.now))) }
{
    if !size.sees(piece) {
        return None;
    }
    Some(size.container_bytes())
}

/// Those of a message to the train.
#[inline(never)]
fn radio_seen(piece: &[u8]) -> Option<usize>
    requires { length (bits piece.now) < 2 ^ 64 }
    ensures within { IfSome result (λ n. n ≤ length piece.now) }
    ensures reads { IfSome result (λ n. (e : EntryValue) × (r : Reading) × EntryReads Radio e r × (spelled r ≡ part 0 (8 * n) (bits piece.now))) }
{
    either_seen::<etcs_radio::RadioHead, etcs_radio::Body>(piece)
}

/// Those of a message to the track.
#[inline(never)]
fn train_seen(piece: &[u8]) -> Option<usize>
    requires { length (bits piece.now) < 2 ^ 64 }
    ensures within { IfSome result (λ n. n ≤ length piece.now) }
    ensures reads { IfSome result (λ n. (e : EntryValue) × (r : Reading) × EntryReads Train e r × (spelled r ≡ part 0 (8 * n) (bits piece.now))) }
{
    either_seen::<etcs_train::TrainHead, etcs_train::TrainBody>(piece)
}

/// As `message_seen`. A short piece is copied first: numbers are read eight bytes at a time, which takes longer where fewer
/// are left.
#[inline(always)]
fn either_seen<H: Head, B: Own<Front = H>>(piece: &[u8]) -> Option<usize>
    requires { length (bits piece.now) < 2 ^ 64 }
    ensures within { IfSome result (λ n. n ≤ length piece.now) }
    ensures reads { IfSome result (λ n. (m : MessageValue) × (r : Reading) × MessageReads H.Packet.WAY m r × (spelled r ≡ part 0 (8 * n) (bits piece.now))) }
{
    if piece.len() > MOST_COPIED {
        return message_seen::<H, B>(piece);
    }
    copied_seen::<H, B>(piece)
}

/// As `message_seen`, in a copy of the piece with zeros after it.
#[inline(always)]
fn copied_seen<H: Head, B: Own<Front = H>>(piece: &[u8]) -> Option<usize>
    requires { length piece.now ≤ 56 }
    ensures within { IfSome result (λ n. n ≤ length piece.now) }
    ensures reads { IfSome result (λ n. (m : MessageValue) × (r : Reading) × MessageReads H.Packet.WAY m r × (spelled r ≡ part 0 (8 * n) (bits piece.now))) }
{
    let count = piece.len();
    let mut copy = [0; MOST_COPIED + 8];
    copy[..count].copy_from_slice(piece);
    let bytes = message_seen::<H, B>(&copy)?;
    if bytes > count {
        return None;
    }
    Some(bytes)
}
