//! What items of a kind have.

ghost use Rattle.std.specs.Prelude.{◌≡◌};
ghost use Rattle.etcs_bits.specs.Bits.{bits};
ghost use Rattle.etcs_reasons.specs.Kinds.{way_of, way_of_message, user_bits, wanted_bytes};

use etcs_bits::peek;
use etcs_tables::Way;
use etcs_telegram::Size;
use etcs_text::Kind;

/// The way of the items of a kind: to the track for messages of a train, else to the train.
pub fn way_of(kind: Kind) -> Way
    ensures { result ≡ way_of kind }
{
    match kind {
        Kind::Long | Kind::Short | Kind::Radio => Way::ToTrain,
        Kind::Train => Way::ToTrack,
    }
}

/// The way of messages of this number, typed or not: to the train for 2 to 45, to the track for 129 to 159, and `None` for
/// all others (SUBSET-026, 8.5).
pub fn way_of_message(number: u8) -> Option<Way>
    ensures { result ≡ way_of_message number }
{
    match number {
        2..=45 => Some(Way::ToTrain),
        129..=159 => Some(Way::ToTrack),
        _ => None,
    }
}

/// How many bits telegrams of a kind have before PAD: 830 or 210; 0 for messages, which have L_MESSAGE.
pub fn user_bits(kind: Kind) -> usize
    ensures { result ≡ user_bits kind }
{
    match kind {
        Kind::Long => Size::Long.user_bits(),
        Kind::Short => Size::Short.user_bits(),
        Kind::Radio | Kind::Train => 0,
    }
}

/// How many bytes an item has that begins with these bytes: 104 for a long telegram, 27 for a short one, and L_MESSAGE for a
/// message, or `None` if L_MESSAGE isn't there yet.
pub fn wanted_bytes(kind: Kind, bytes: &[u8]) -> Option<usize>
    ensures { result ≡ wanted_bytes kind (bits bytes.now) }
{
    match kind {
        Kind::Long => Some(104),
        Kind::Short => Some(27),
        Kind::Radio | Kind::Train => Some(peek(bytes, 8, 10)? as usize),
    }
}
