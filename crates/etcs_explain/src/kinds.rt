//! Of which kind an item is.

ghost use Rattle.std.specs.Prelude.{◌≡◌};
ghost use Rattle.etcs_explain.specs.Kinds.{IsAsked, begins_telegram, guessed, is_short, kind_of, say_bits};

use crate::no_json::text_of;
use etcs_reasons::inner::are_bits;
use etcs_text::Kind;

/// The kind of the item that bytes begin: the one that is asked for, or the guessed one.
pub(crate) fn kind_of(asked: Option<Kind>, bytes: &[u8]) -> Kind
    ensures { result ≡ kind_of asked bytes.now }
{
    match asked {
        Some(kind) => kind,
        None => guessed(bytes),
    }
}

/// The kind of the item of a line of JSON: the one that is asked for, or the one that the line names.
pub(crate) fn kind_of_json(asked: Option<Kind>, line: &[u8]) -> Kind
    ensures { IsAsked asked result }
{
    match asked {
        Some(kind) => kind,
        None => named(line),
    }
}

/// The kind of the item that bytes begin.
fn guessed(bytes: &[u8]) -> Kind
    ensures { result ≡ guessed bytes.now }
{
    match bytes.first() {
        Some(byte) if begins_telegram(*byte) => {
            if is_short(bytes) {
                Kind::Short
            } else {
                Kind::Long
            }
        }
        Some(129..=159) => Kind::Train,
        _ => Kind::Radio,
    }
}

/// Whether telegrams begin with this byte: Q_UPDOWN is 1, and M_VERSION 32 or 33.
pub(crate) fn begins_telegram(byte: u8) -> bool
    ensures { result ≡ begins_telegram byte }
{
    byte == 0xA0 || byte == 0xA1
}

/// Whether the telegram that bytes begin is a short one.
fn is_short(bytes: &[u8]) -> bool
    ensures { result ≡ is_short bytes.now }
{
    bytes.len() <= 27 || begins_telegram(bytes[27]) && bytes.len() != 104
}

/// Whether the digits of these bytes are the bits of a telegram of the kind, or of any.
pub(crate) fn say_bits(asked: Option<Kind>, bytes: &[u8]) -> bool
    ensures { result ≡ say_bits asked bytes.now }
{
    match asked {
        Some(kind) => are_bits(kind, bytes),
        None => are_bits(Kind::Long, bytes) || are_bits(Kind::Short, bytes),
    }
}

/// The kind that a line of JSON names, or `Short` if it names none.
fn named(line: &[u8]) -> Kind {
    let named = match text_of(line).split_once("\"kind\"") {
        Some((_, rest)) => rest.trim_start_matches([' ', '\t', ':']),
        None => "",
    };
    if named.starts_with("\"long\"") {
        Kind::Long
    } else if named.starts_with("\"radio\"") {
        Kind::Radio
    } else if named.starts_with("\"train\"") {
        Kind::Train
    } else {
        Kind::Short
    }
}
