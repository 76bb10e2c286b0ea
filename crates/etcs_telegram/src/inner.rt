//! For the crates above: the header's variables with their numbers, the header that a piece begins with, and what is left
//! of a telegram.

ghost use Rattle.std.specs.Prelude.{◌≡◌, map};
ghost use Rattle.etcs_vars.specs.Reading.{IsAdmitted};
ghost use Rattle.etcs_telegram.specs.Telegrams.{header_reading, telegram_value, IsTelegram, TelegramReads};
ghost use Rattle.etcs_telegram.specs.Writing.{telegram_reading};

use crate::header::Header;
pub use crate::header_bits::HEADER_BITS;
pub use crate::refused::refusal_at;
pub use crate::rest::TelegramRest;
pub use crate::store::TelegramStore;
use crate::telegram::Telegram;
pub use crate::whole::front_of;

/// The numbers of the header's ten variables in the order of sending, fixed ones included. Each variable admits its
/// number.
pub fn header_numbers(header: &Header) -> [u64; 10]
    ensures numbers { result ≡ map (λ p. p.1) (header_reading header.now) }
    ensures admitted { IsAdmitted (header_reading header.now) }
{
    header.admitted();
    [
        1,
        header.m_version() as u64,
        0,
        header.n_pig() as u64,
        header.n_total() as u64,
        header.m_dup() as u64,
        header.m_mcount() as u64,
        header.nid_c() as u64,
        header.nid_bg() as u64,
        header.q_link() as u64,
    ]
}

/// For proofs: each telegram has a reading, which is `telegram_reading` of its value. Does nothing.
pub fn reads(telegram: &Telegram)
    ensures { TelegramReads (telegram_value telegram.now) (telegram_reading (telegram_value telegram.now)) }
{
    telegram.readable();
}

/// For proofs: each telegram is one that its type admits. Does nothing.
pub fn hold(telegram: &Telegram)
    ensures { IsTelegram telegram.now }
{
    telegram.readable();
}
