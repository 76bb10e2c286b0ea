//! How many bytes an item needs, where a line has another number of them.

ghost use Rattle.std.specs.Prelude.{◌≡◌, Some};
ghost use Rattle.std.specs.Fmt.{WritesOnOk};
ghost use Rattle.etcs_log.specs.Needed.{begins_telegram, message_needs, needs_of, said_length, telegram_needs};
ghost use Rattle.etcs_log.specs.Notes.{needed_text};

use crate::kinds::Kinds;
use etcs_reasons::inner::{byte_at, wanted_bytes};
use etcs_text::Kind;
use std::fmt;

/// What has another number of bytes.
#[derive(Clone, Copy)]
pub(crate) enum Needs {
    LongTelegram,
    ShortTelegram,
    /// A message, and what L_MESSAGE is, if it is there.
    Message(Option<usize>),
    /// An item of any of several kinds, and what L_MESSAGE is, if it is there and may be meant.
    AnyItem(Option<usize>),
}

/// Whether the bytes begin as telegrams do: with Q_UPDOWN 1 and M_VERSION 32 or 33.
fn begins_telegram(bytes: &[u8]) -> bool
    ensures { result ≡ begins_telegram bytes.now }
{
    matches!(byte_at(bytes, 0), 0xa0 | 0xa1)
}

/// What an item of these kinds needs where messages are asked for, too, or alone.
fn message_needs(kinds: Kinds, wanted: Option<usize>) -> Needs
    ensures { result ≡ message_needs kinds wanted }
{
    if kinds.long || kinds.short {
        Needs::AnyItem(wanted)
    } else {
        Needs::Message(wanted)
    }
}

/// What telegrams of these kinds need.
fn telegram_needs(kinds: Kinds) -> Needs
    ensures { result ≡ telegram_needs kinds }
{
    match (kinds.long, kinds.short) {
        (true, false) => Needs::LongTelegram,
        (false, true) => Needs::ShortTelegram,
        _ => Needs::AnyItem(None),
    }
}

/// L_MESSAGE, if the bytes may be a message that has it.
fn said_length(kinds: Kinds, bytes: &[u8]) -> Option<usize>
    ensures { result ≡ said_length kinds bytes.now }
{
    if kinds.asks_message(bytes) {
        wanted_bytes(Kind::Radio, bytes)
    } else {
        None
    }
}

/// What these bytes need to be an item of these kinds. Bytes that begin as telegrams do are a telegram that was cut; if both
/// sizes are asked for, a short one up to 65 bytes.
pub(crate) fn needs_of(kinds: Kinds, bytes: &[u8]) -> Needs
    ensures { result ≡ needs_of kinds bytes.now }
{
    if (kinds.long || kinds.short) && begins_telegram(bytes) {
        return if kinds.long && (!kinds.short || bytes.len() > 65) {
            Needs::LongTelegram
        } else {
            Needs::ShortTelegram
        };
    }
    if kinds.radio || kinds.train {
        return message_needs(kinds, said_length(kinds, bytes));
    }
    telegram_needs(kinds)
}

impl fmt::Display for Needs {
    ghost output = { λ needs. Some (needed_text needs) };

    #[tactic(auto, using(std::proofs::Common::append_assoc), unfolding(crate::specs::Notes::needed_text))]
    fn fmt<W: fmt::Write>(&self, f: &mut fmt::Formatter<W>) -> fmt::Result {
        match self {
            Needs::LongTelegram => f.write_str(", but a long telegram has 104"),
            Needs::ShortTelegram => f.write_str(", but a short telegram has 27"),
            Needs::Message(None) => f.write_str(", but a radio message has at least 3"),
            Needs::Message(Some(count)) => write!(f, ", but L_MESSAGE is {count}"),
            Needs::AnyItem(None) => f.write_str(", which no item of these kinds has"),
            Needs::AnyItem(Some(count)) => {
                write!(
                    f,
                    ", which no item of these kinds has: L_MESSAGE is {count}"
                )
            }
        }
    }
}
