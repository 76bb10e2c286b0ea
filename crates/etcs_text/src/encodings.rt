//! The encoding of an item, and the line of one that was accepted.

ghost use Rattle.std.specs.Prelude.{◌≡◌, ◌++◌, ◌<◌, ◌∷◌, All, ℕ, List, [], OnErr, OnOk};
ghost use Rattle.hex.specs.Hex.{encode_upper};
ghost use Rattle.etcs_messages.specs.Messages.{message_value};
ghost use Rattle.etcs_telegram.specs.Telegrams.{telegram_value};
ghost use Rattle.etcs_text.specs.Entries.{entry_bits, entry_value, of_message, of_telegram};
ghost use Rattle.etcs_text.specs.Encodings.{IsEncoded, check_line};

use crate::entry::Entry;
use crate::messages::message_bits;
use etcs_messages::{Head, MessageOf, Own};
use etcs_packet_text::inner::{Page, append_digits};
use etcs_packets::inner::AnyPacket;
use etcs_telegram::Telegram;
use std::alloc::AllocError;

/// How many bits an entry has: for a telegram its user bits, 210 or 830.
fn entry_bits(entry: &Entry) -> usize
    ensures { result ≡ entry_bits (entry_value entry.now) }
{
    match entry {
        Entry::Telegram(telegram) => telegram.size().user_bits(),
        Entry::Message(message) => message_bits(message),
        Entry::Train(message) => message_bits(message),
    }
}

/// Appends the line of an accepted entry, numbered `item`, to a page, as [`check_line`] does.
///
/// # Errors
///
/// `AllocError` if out of memory. The page then stays as it was.
#[inline]
pub fn check_on(entry: &Entry, item: u64, page: &mut Page) -> Result<(), AllocError>
    ensures ok { OnOk result (page.new ≡ page.old ++ check_line (entry_value entry.now) item) }
    ensures err { OnErr result (page.new ≡ page.old) }
{
    page.put_checked(item, entry_bits(entry) as u64)
}

/// Appends the line of an accepted entry, numbered `item`: `item <n> ok <bits> bits` and a LF. The bits of a telegram
/// are its user bits, 210 or 830, those of a message 8 times L_MESSAGE.
///
/// # Errors
///
/// `AllocError` if out of memory. `out` then stays as it was.
pub fn check_line(entry: &Entry, item: u64, out: &mut Vec<u8>) -> Result<(), AllocError>
    ensures ok { OnOk result (out.new.items ≡ out.old.items ++ check_line (entry_value entry.now) item) }
    ensures err { OnErr result (out.new.items ≡ out.old.items) }
{
    let mut page = Page::open(out);
    let written = check_on(entry, item, &mut page);
    *out = page.into_text();
    written
}

/// For callers: each byte is below 256.
#[inline]
pub fn are_bytes(bytes: &[u8])
    ensures { All (λ b. b < 256) bytes.now }
{
    let _ = bytes;
}

/// Appends the telegram's encoding, or nothing.
fn append_telegram(telegram: &Telegram, out: &mut Vec<u8>) -> Result<(), AllocError>
    ensures ok { OnOk result ((added : List ℕ) × IsEncoded (of_telegram (telegram_value telegram.now)) added × (out.new.items ≡ out.old.items ++ added)) }
    ensures err { OnErr result (out.new.items ≡ out.old.items) }
{
    are_bytes(out.as_slice());
    let appended = telegram.encode(out);
    are_bytes(out.as_slice());
    appended
}

/// Appends the message's encoding, or nothing.
fn append_message<H: Head, B: Own<Front = H>>(
    message: &MessageOf<H, B>,
    out: &mut Vec<u8>,
) -> Result<(), AllocError>
    ensures ok { OnOk result ((added : List ℕ) × IsEncoded (of_message H.Packet.WAY (message_value H.Packet.WAY H.head B.own H.Packet.form message.now)) added × (out.new.items ≡ out.old.items ++ added)) }
    ensures err { OnErr result (out.new.items ≡ out.old.items) }
{
    are_bytes(out.as_slice());
    let appended = message.encode(out);
    are_bytes(out.as_slice());
    appended
}

/// Appends the entry's encoding: bytes whose bits are its spelling.
///
/// # Errors
///
/// `AllocError` if out of memory. `out` then stays as it was.
pub fn encoded(entry: &Entry, out: &mut Vec<u8>) -> Result<(), AllocError>
    ensures ok { OnOk result ((added : List ℕ) × IsEncoded (entry_value entry.now) added × (out.new.items ≡ out.old.items ++ added)) }
    ensures err { OnErr result (out.new.items ≡ out.old.items) }
{
    match entry {
        Entry::Telegram(telegram) => append_telegram(telegram, out),
        Entry::Message(message) => append_message(message, out),
        Entry::Train(message) => append_message(message, out),
    }
}

/// Appends the hexadecimal digits, in upper case, of bytes whose bits are the entry's spelling, and a LF.
///
/// # Errors
///
/// `AllocError` if out of memory. `out` then stays as it was.
pub fn hex_line(entry: &Entry, out: &mut Vec<u8>) -> Result<(), AllocError>
    ensures ok { OnOk result ((bytes : List ℕ) × IsEncoded (entry_value entry.now) bytes × (out.new.items ≡ out.old.items ++ (encode_upper bytes ++ 10 ∷ []))) }
    ensures err { OnErr result (out.new.items ≡ out.old.items) }
{
    let mut bytes = Vec::new(*out.allocator());
    encoded(entry, &mut bytes)?;
    append_digits(bytes.as_slice(), out)
}
