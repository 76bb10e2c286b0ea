//! Writing telegrams.

ghost use Rattle.std.specs.Prelude.{◌≡◌, ◌≤◌, ◌↔◌, ◌++◌, length, drop, codes, Some, IsOk, IfOk, OnOk, OnErr};
ghost use Rattle.etcs_bits.specs.Bits.{bits};
ghost use Rattle.etcs_vars.specs.Reading.{Reading, spelled};
ghost use Rattle.etcs_telegram.specs.Telegrams.{TelegramReads, container_bytes, telegram_value};
ghost use Rattle.etcs_vars.specs.WordSinks.{and_bits};
ghost use Rattle.etcs_telegram.specs.Writing.{telegram_reading};

use crate::telegram::Telegram;
use etcs_packets::inner::{append_all, append_variables};
use etcs_tables::{CLOSING, CLOSING_BITS};
use etcs_vars::WordSink;
use std::alloc::AllocError;
use std::error::Error;
use std::fmt;

/// The buffer is shorter than the telegram.
#[derive(Clone, Copy, Debug, PartialEq, Eq)]
pub struct NoRoom;

impl fmt::Display for NoRoom {
    ghost output = { λ _. Some (codes "the buffer is shorter than the telegram") };

    fn fmt<W: fmt::Write>(&self, f: &mut fmt::Formatter<W>) -> fmt::Result {
        f.write_str("the buffer is shorter than the telegram")
    }
}

impl Error for NoRoom {}

impl Telegram {
    /// Writes the telegram's spelling over the first bytes of `out`, 27 of a short telegram and 104 of a long one, and
    /// returns how many they are. Succeeds exactly if `out` has that many bytes; the bytes after them stay as they
    /// were. Takes no memory.
    ///
    /// # Errors
    ///
    /// [`NoRoom`] if `out` is shorter. All its bytes then stay as they were.
    pub fn encode_into(&self, out: &mut [u8]) -> Result<usize, NoRoom>
        ensures room { IsOk result ↔ (container_bytes self.now.size ≤ length out.old) }
        ensures ok { IfOk result (λ n. (n ≡ container_bytes self.now.size) × (r : Reading) × TelegramReads (telegram_value self.now) r × (bits out.new ≡ spelled r ++ bits (drop n out.old))) }
        ensures err { OnErr result (out.new ≡ out.old) }
    {
        let len = self.size().container_bytes();
        if out.len() < len {
            return Err(NoRoom);
        }
        write_telegram(&mut out[..len], self);
        Ok(len)
    }

    /// Appends the telegram's spelling, 27 bytes of a short telegram and 104 of a long one. If it succeeds, the bits of
    /// `out` are those before and, after them, the telegram's.
    ///
    /// # Errors
    ///
    /// `AllocError` if out of memory. `out` then stays as it was.
    pub fn encode(&self, out: &mut Vec<u8>) -> Result<(), AllocError>
        ensures ok { OnOk result ((r : Reading) × TelegramReads (telegram_value self.now) r × (bits out.new.items ≡ bits out.old.items ++ spelled r)) }
        ensures err { OnErr result (out.new.items ≡ out.old.items) }
    {
        let start = out.len();
        out.resize(start + self.size().container_bytes(), 0)?;
        write_telegram(&mut out[start..], self);
        Ok(())
    }
}

/// Writes the telegram over exactly its bytes.
fn write_telegram(out: &mut [u8], telegram: &Telegram)
    requires { length out.old ≡ container_bytes telegram.now.size }
    ensures reads { TelegramReads (telegram_value telegram.now) (telegram_reading (telegram_value telegram.now)) }
    ensures bits { bits out.new ≡ spelled (telegram_reading (telegram_value telegram.now)) }
{
    telegram.readable();
    let mut sink = WordSink::new(out);
    append_telegram(telegram, &mut sink);
    sink.finish();
}

/// Puts the telegram after other bits: header, packets, packet 255, FILL up to the user bits, and zeros.
fn append_telegram(telegram: &Telegram, out: &mut WordSink<'_>)
    ensures { out.new ≡ and_bits out.old (spelled (telegram_reading (telegram_value telegram.now))) }
{
    append_variables(telegram.header(), out);
    append_all(telegram.packets(), out);
    out.put(CLOSING_BITS, u64::from(CLOSING));
    out.put_slice(&telegram.fill());
    out.put(telegram.size().pad_bits(), 0);
}
