//! Bits put one after another, with places to go back to.

ghost use Rattle.std.specs.Prelude.{◌≡◌, ◌+◌, ◌/◌, ◌^◌, ◌<◌, ◌≤◌, [], ◌++◌, length, take, drop, OnOk, OnErr, IfOk};
ghost use Rattle.etcs_bits.specs.Bits.{num, bits};
ghost use Rattle.etcs_vars.specs.Reading.{spelled};
ghost use Rattle.etcs_vars.specs.BitPages.{Begins};

use crate::Var;
use crate::inner::VarSink;
use crate::joining::joined;
use crate::word_sink::write_front;
use etcs_bits::inner::write;
use std::alloc::AllocError;
use std::marker::Model;

/// How many bytes a page has: the 1,023 of the longest item, and more than the eight over which a number is put.
const BYTES: usize = 1_040;

/// Bits, put one after another over bytes that have room for those of any item.
#[derive(Drop)]
pub struct BitPage {
    bytes: [u8; BYTES],
    /// How many bits were put.
    len: usize,
}

impl Model for BitPage {
    ghost use Rattle.std.specs.Prelude.{◌≤◌, Bool, List, length, take};
    ghost use Rattle.etcs_bits.specs.Bits.{bits};

    ghost Value = { List Bool };

    ghost view = { λ p. take p.len (bits p.bytes) };

    ghost invariant = { λ p. p.len ≤ length (bits p.bytes) };
}

impl BitPage {
    /// A page on which nothing is put yet.
    pub fn new() -> BitPage
        ensures { result ≡ [] }
    {
        BitPage {
            bytes: [0; BYTES],
            len: 0,
        }
    }

    /// Begins again: nothing is put yet.
    #[inline(always)]
    pub fn clear(&mut self)
        ensures { self.new ≡ [] }
    {
        self.len = 0;
    }

    /// How many bits were put.
    #[inline(always)]
    pub fn len(&self) -> usize
        ensures { result ≡ length self.now }
    {
        self.len
    }

    /// All bytes of the page, which begin with the bits that were put. Of what is after these there is no clause.
    #[inline(always)]
    pub fn bytes(&self) -> &[u8]
        ensures within { length self.now ≤ length (bits result.now) }
        ensures first { take (length self.now) (bits result.now) ≡ self.now }
    {
        let _ = self.len;
        &self.bytes
    }

    /// Puts the lowest `width` bits of a number, at most 57, after the bits before, most significant bit first. The
    /// number must have no more bits.
    ///
    /// # Errors
    ///
    /// `AllocError` if the page has no room. It then stays as it was.
    #[inline(always)]
    pub fn put(&mut self, width: usize, number: u64) -> Result<(), AllocError>
        requires width { width ≤ 57 }
        requires fits { number < 2 ^ width }
        ensures ok { OnOk result (self.new ≡ self.old ++ num width number) }
        ensures err { OnErr result (self.new ≡ self.old) }
    {
        let len = self.len;
        if len / 8 + 8 > BYTES {
            return Err(AllocError);
        }
        put_after(&mut self.bytes, len, width, number);
        self.len += width;
        Ok(())
    }

    /// Puts a number of at most 57 bits over those that were put from the bit `at` on.
    #[inline(always)]
    pub fn put_over(&mut self, at: usize, width: usize, number: u64)
        requires width { width ≤ 57 }
        requires fits { number < 2 ^ width }
        requires inside { at + width ≤ length self.old }
        ensures { self.new ≡ take at self.old ++ (num width number ++ drop (at + width) self.old) }
    {
        let _ = self.len;
        write(&mut self.bytes, at, width, number);
    }

    /// Puts a number of 32 to 64 bits, as [`BitPage::put`] does.
    ///
    /// # Errors
    ///
    /// `AllocError` if the page has no room. The first of these bits may then be put.
    #[inline(always)]
    fn put_long(&mut self, width: usize, number: u64) -> Result<(), AllocError>
        requires least { 32 ≤ width }
        requires most { width ≤ 64 }
        requires fits { number < 2 ^ width }
        ensures ok { OnOk result (self.new ≡ self.old ++ num width number) }
        ensures err { OnErr result (Begins self.old self.new) }
    {
        self.put(width - 32, number >> 32)?;
        self.put(32, number % (1 << 32))?;
        Ok(())
    }

    /// Puts the first of some variables after the others, as one number, and returns how many.
    ///
    /// # Errors
    ///
    /// `AllocError` if the page has no room. The first of their bits may then be put.
    #[inline(always)]
    fn put_front(&mut self, sent: &[(Var, u64)]) -> Result<usize, AllocError>
        requires { 0 < length sent.now }
        ensures some { IfOk result (λ count. (0 < count) × (count ≤ length sent.now)) }
        ensures ok { IfOk result (λ count. self.new ≡ self.old ++ spelled (take count sent.now)) }
        ensures err { OnErr result (Begins self.old self.new) }
    {
        let front = joined(sent);
        if front.width > 57 {
            self.put_long(front.width, front.number)?;
        } else {
            self.put(front.width, front.number)?;
        }
        Ok(front.count)
    }

    /// Puts variables after the others, as few numbers as they take.
    ///
    /// # Errors
    ///
    /// `AllocError` if the page has no room. The first of their bits may then be put.
    #[inline(never)]
    fn put_rest(&mut self, sent: &[(Var, u64)]) -> Result<(), AllocError>
        ensures ok { OnOk result (self.new ≡ self.old ++ spelled sent.now) }
        ensures err { OnErr result (Begins self.old self.new) }
    {
        let mut done = 0;
        while done < sent.len() {
            done += self.put_front(&sent[done..])?;
        }
        Ok(())
    }
}

/// Puts a number after the first `len` bits of bytes. It writes eight bytes: of what they hold after the number there is
/// no clause.
#[inline(always)]
fn put_after(bytes: &mut [u8], len: usize, width: usize, number: u64)
    requires width { width ≤ 57 }
    requires fits { number < 2 ^ width }
    requires room { len / 8 + 8 ≤ length bytes.old }
    ensures { take (len + width) (bits bytes.new) ≡ take len (bits bytes.old) ++ num width number }
{
    let at = len / 8;
    let offset = len % 8;
    let before = u64::from(bytes[at]) >> (8 - offset);
    let joined = (before << width) + number;
    let word = joined.wrapping_shl((64 - width - offset) as u32);
    write_front(bytes, at, word, 8);
}

impl VarSink for BitPage {
    ghost use Rattle.std.specs.Prelude.{◌++◌};
    ghost use Rattle.etcs_vars.specs.Reading.{spelled};
    ghost use Rattle.etcs_vars.specs.BitPages.{Begins};
    ghost use Rattle.etcs_vars.specs.laws.BitPages.{bits_none, bits_both, bits_begin};

    ghost with = { λ s r. s ++ spelled r };

    ghost failed = { Begins };

    ghost with_none = { bits_none };

    ghost with_both = { bits_both };

    ghost failed_after = { bits_begin };

    /// Puts the variables after the bits before, in order, each in its width.
    ///
    /// # Errors
    ///
    /// `AllocError` if the page has no room. The first of their bits may then be put.
    #[inline(always)]
    fn send(&mut self, sent: &[(Var, u64)]) -> Result<(), AllocError> {
        if !sent.is_empty() {
            let done = self.put_front(sent)?;
            if done < sent.len() {
                self.put_rest(&sent[done..])?;
            }
        }
        Ok(())
    }
}
