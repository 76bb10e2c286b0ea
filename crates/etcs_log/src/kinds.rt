//! The kinds of items that a log has.

ghost use Rattle.std.specs.Prelude.{◌≡◌, ◌≤◌};
ghost use Rattle.etcs_log.specs.Candidates.{added, asks_message, contains, has_length, is_asked, is_message_number, is_wanted, kind_name, may_have, message_way, only, says_length, several, telegram_bytes};

use etcs_reasons::inner::{are_bits, byte_at};
use etcs_text::Kind;

/// Kinds of items.
#[derive(Clone, Copy, Debug, PartialEq, Eq)]
pub struct Kinds {
    /// Balise telegrams of 830 user bits.
    pub long: bool,
    /// Balise telegrams of 210 user bits.
    pub short: bool,
    /// Radio messages to the train.
    pub radio: bool,
    /// Radio messages from the train to the track.
    pub train: bool,
}

impl Kinds {
    /// Returns this kind alone.
    pub fn of(kind: Kind) -> Kinds
        ensures { result ≡ only kind }
    {
        Kinds {
            long: kind == Kind::Long,
            short: kind == Kind::Short,
            radio: kind == Kind::Radio,
            train: kind == Kind::Train,
        }
    }

    /// Returns whether this kind is one of them.
    pub fn contains(self, kind: Kind) -> bool
        ensures { result ≡ contains self kind }
    {
        match kind {
            Kind::Long => self.long,
            Kind::Short => self.short,
            Kind::Radio => self.radio,
            Kind::Train => self.train,
        }
    }

    /// Returns these kinds and this one.
    pub fn with(self, kind: Kind) -> Kinds
        ensures { result ≡ added self kind }
    {
        let mut kinds = self;
        match kind {
            Kind::Long => kinds.long = true,
            Kind::Short => kinds.short = true,
            Kind::Radio => kinds.radio = true,
            Kind::Train => kinds.train = true,
        }
        kinds
    }

    /// Returns whether there are two or more of them.
    pub fn several(self) -> bool
        ensures { result ≡ several self }
    {
        (self.long && (self.short || self.radio || self.train))
            || (self.short && (self.radio || self.train))
            || (self.radio && self.train)
    }

    /// Whether these bytes may be a message, if a way is asked for: beside telegrams only one whose number SUBSET-026 has.
    pub(crate) fn asks_message(self, bytes: &[u8]) -> bool
        ensures { result ≡ asks_message self bytes.now }
    {
        (self.radio || self.train)
            && (!(self.long || self.short) || is_message_number(byte_at(bytes, 0)))
    }

    /// The kind of a message of these bytes: if both ways are asked for, that of its number (SUBSET-026, 8.5).
    pub(crate) fn message_way(self, bytes: &[u8]) -> Kind
        ensures { result ≡ message_way self bytes.now }
    {
        if self.train && (!self.radio || matches!(byte_at(bytes, 0), 129..=159)) {
            Kind::Train
        } else {
            Kind::Radio
        }
    }
}

/// Whether SUBSET-026 has a message of this number (8.5).
pub(crate) fn is_message_number(number: u8) -> bool
    ensures { result ≡ is_message_number number }
{
    matches!(
        number,
        2..=3
            | 6
            | 8..=9
            | 15..=16
            | 18
            | 24
            | 27..=28
            | 32..=34
            | 37..=41
            | 43
            | 45
            | 129..=130
            | 132
            | 136..=138
            | 146..=147
            | 149..=150
            | 153..=159
    )
}

/// How many bytes telegrams of a kind have.
pub(crate) fn telegram_bytes(kind: Kind) -> usize
    ensures value { result ≡ telegram_bytes kind }
    ensures within { result ≤ 104 }
{
    match kind {
        Kind::Long => 104,
        Kind::Short => 27,
        Kind::Radio | Kind::Train => 0,
    }
}

/// Whether items of the kind may have this number of bytes.
pub(crate) fn may_have(kind: Kind, count: usize) -> bool
    ensures { result ≡ may_have kind count }
{
    match kind {
        Kind::Long => count == 104,
        Kind::Short => count == 27,
        Kind::Radio | Kind::Train => true,
    }
}

/// Whether L_MESSAGE is this number of bytes.
pub(crate) fn says_length(bytes: &[u8]) -> bool
    ensures { result ≡ says_length bytes.now }
{
    bytes.len() > 2
        && bytes.len() == usize::from(byte_at(bytes, 1)) * 4 + usize::from(byte_at(bytes, 2)) / 64
}

/// Whether the bytes are as many as a telegram of the kind has, or the digits are its bits.
pub(crate) fn has_length(kind: Kind, bytes: &[u8]) -> bool
    ensures { result ≡ has_length kind bytes.now }
{
    bytes.len() == telegram_bytes(kind) || are_bits(kind, bytes)
}

/// Whether some kind has items of this length.
pub(crate) fn is_wanted(bytes: &[u8]) -> bool
    ensures { result ≡ is_wanted bytes.now }
{
    has_length(Kind::Long, bytes) || has_length(Kind::Short, bytes) || says_length(bytes)
}

/// Whether some kind that is asked for has items of this length.
pub(crate) fn is_asked(kinds: Kinds, bytes: &[u8]) -> bool
    ensures { result ≡ is_asked kinds bytes.now }
{
    (kinds.long && has_length(Kind::Long, bytes))
        || (kinds.short && has_length(Kind::Short, bytes))
        || ((kinds.radio || kinds.train) && says_length(bytes))
}

/// What a kind is called.
pub(crate) fn kind_name(kind: Kind) -> &'static str
    ensures { result.now ≡ kind_name kind }
{
    match kind {
        Kind::Long => "long",
        Kind::Short => "short",
        Kind::Radio => "radio",
        Kind::Train => "train",
    }
}
