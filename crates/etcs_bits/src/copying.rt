//! Moves of many bits, a word at a time.

ghost use Rattle.std.specs.Prelude.{◌≡◌, ◌+◌, ◌-◌, ◌*◌, ◌<◌, ◌≤◌, ◌++◌, length, replicate, false};
ghost use Rattle.etcs_bits.specs.Bits.{num, value, bits, part, replaced};

use super::bytes::read_byte;
use super::walker::first_word;

/// The number in the 64 bits of `bytes` from the bit `offset` on.
#[inline(always)]
pub(crate) fn word_at(bytes: &[u8], offset: usize) -> u64
    requires offset { offset < 8 }
    requires inside { 9 ≤ length bytes.now }
    ensures { result ≡ value (part offset 64 (bits bytes.now)) }
{
    (first_word(bytes) << offset) + read_byte(bytes[8], 0, offset)
}

/// The bits of at most eight bytes, the first one highest, with zeros after the last.
#[inline(never)]
pub(crate) fn last_word(bytes: &[u8]) -> u64
    requires some { 0 < length bytes.now }
    requires most { length bytes.now ≤ 8 }
    ensures { num 64 result ≡ bits bytes.now ++ replicate (64 - 8 * length bytes.now) false }
{
    let mut word = 0u64;
    for byte in bytes {
        word = (word << 8) + u64::from(*byte);
    }
    word << (64 - 8 * bytes.len())
}

/// Writes a word into the first eight bytes.
#[inline(always)]
pub(crate) fn write_word(bytes: &mut [u8], word: u64)
    requires { 8 ≤ length bytes.old }
    ensures { bits bytes.new ≡ replaced 0 (num 64 word) (bits bytes.old) }
{
    bytes[..8].copy_from_slice(&word.to_be_bytes());
}

/// Copies this many words of `bytes`, from the bit `offset` on, to the front of `to`.
pub(crate) fn copy_words(bytes: &[u8], offset: usize, to: &mut [u8], words: usize)
    requires offset { offset < 8 }
    requires inside { 8 * words < length bytes.now }
    requires room { 8 * words ≤ length to.old }
    ensures { bits to.new ≡ replaced 0 (part offset (64 * words) (bits bytes.now)) (bits to.old) }
{
    let mut done = 0;
    while done < words {
        let word = word_at(&bytes[8 * done..], offset);
        write_word(&mut to[8 * done..], word);
        done += 1;
    }
}
