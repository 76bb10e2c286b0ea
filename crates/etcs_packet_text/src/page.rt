//! Text with room after it, in which more is written in place.

mod bits;
mod fronts;
mod lines;
mod pairs;
mod place;
mod unrolled;

ghost use Rattle.std.specs.Prelude.{◌≡◌, ◌+◌, ◌≤◌, ◌++◌, ◌∷◌, [], codes, flat_map, length, map, take, OnErr, OnOk};
ghost use Rattle.std.specs.Fmt.{decimal};
ghost use Rattle.etcs_bits.specs.Bits.{num};
ghost use Rattle.etcs_vars.specs.Vars.{name};
ghost use Rattle.etcs_vars.specs.declared.var.Var.TheVariants.{L_PACKET};
ghost use Rattle.etcs_tables.specs.Frames.{directed};
ghost use Rattle.etcs_packet_text.specs.Packets.{packet_line};
ghost use Rattle.etcs_packet_text.specs.PairSinks.{with_pairs};
ghost use Rattle.etcs_packet_text.specs.Show.{bit_digit, bits_line, variable_line};

use bits::{BITS_ROOM, put_bits, put_slice};
use etcs_bits::BitSlice;
use etcs_tables::Way;
use etcs_vars::Var;
use etcs_vars::inner::VarSink;
use lines::{LINE_ROOM, put_bits_line, put_line, put_lines};
use pairs::{PAIR_ROOM, put_pairs};
use place::{put_around, put_array, put_between, put_bytes, put_decimal, put_number};
use std::alloc::AllocError;
use std::marker::Model;
use std::mem;

/// A text, in bytes that have room after it in which more is written. Variables that it is sent become a line each,
/// after the text.
#[derive(Drop)]
pub struct Page {
    bytes: Vec<u8>,
    at: usize,
}

/// The room for the lines of a packet's number, of Q_DIR and of L_PACKET.
const FRAME_ROOM: usize = 32 + 2 * LINE_ROOM;

/// The room for the line of an item that was accepted.
const CHECKED_ROOM: usize = 64;

/// How many bytes more a page makes room for if it has to.
const MORE: usize = 1536;

impl Model for Page {
    ghost use Rattle.std.specs.Prelude.{ℕ, List, ◌≤◌, take, length};

    ghost Value = { List ℕ };

    ghost view = { λ p. take p.at p.bytes.items };

    ghost invariant = { λ p. p.at ≤ length p.bytes.items };
}

impl Page {
    /// A page that has this text, which is taken from `text`.
    #[inline]
    pub fn open(text: &mut Vec<u8>) -> Page
        ensures { result ≡ text.old.items }
    {
        let empty = Vec::new(*text.allocator());
        Page::after(mem::replace(text, empty))
    }

    /// A page that has this text.
    #[inline]
    pub fn after(text: Vec<u8>) -> Page
        ensures { result ≡ text.items }
    {
        let at = text.len();
        Page { bytes: text, at }
    }

    /// The text.
    #[inline]
    pub fn as_slice(&self) -> &[u8]
        ensures { result.now ≡ self.now }
    {
        &self.bytes[..self.at]
    }

    /// How many bytes the text has.
    #[inline]
    pub fn len(&self) -> usize
        ensures { result ≡ length self.now }
    {
        self.at
    }

    /// The page's text, and nothing after it.
    #[inline]
    pub fn into_text(self) -> Vec<u8>
        ensures { result.items ≡ self }
    {
        let Page { bytes, at } = self;
        let mut bytes = bytes;
        bytes.truncate(at);
        bytes
    }

    /// Appends bytes.
    ///
    /// # Errors
    ///
    /// `AllocError` if out of memory. The page then stays as it was.
    #[inline(always)]
    pub fn put(&mut self, bytes: &[u8]) -> Result<(), AllocError>
        ensures ok { OnOk result (self.new ≡ self.old ++ bytes.now) }
        ensures err { OnErr result (self.new ≡ self.old) }
    {
        let at = self.at;
        room(&mut self.bytes, at, bytes.len())?;
        self.at = put_bytes(self.bytes.as_mut_slice(), at, bytes);
        Ok(())
    }

    /// Appends a constant count of bytes.
    ///
    /// # Errors
    ///
    /// `AllocError` if out of memory. The page then stays as it was.
    #[inline(always)]
    pub(crate) fn put_array<const N: usize>(&mut self, bytes: &[u8; N]) -> Result<(), AllocError>
        ensures ok { OnOk result (self.new ≡ self.old ++ bytes.now) }
        ensures err { OnErr result (self.new ≡ self.old) }
    {
        let at = self.at;
        room(&mut self.bytes, at, N)?;
        self.at = put_array(self.bytes.as_mut_slice(), at, bytes);
        Ok(())
    }

    /// Appends a number in decimal, with no leading zero, and one byte more.
    ///
    /// # Errors
    ///
    /// `AllocError` if out of memory. The page then stays as it was.
    #[inline(always)]
    pub fn put_decimal_and(&mut self, number: u64, end: u8) -> Result<(), AllocError>
        ensures ok { OnOk result (self.new ≡ self.old ++ (decimal number ++ end ∷ [])) }
        ensures err { OnErr result (self.new ≡ self.old) }
    {
        let at = self.at;
        room(&mut self.bytes, at, 24)?;
        self.at = put_number(self.bytes.as_mut_slice(), at, number, end);
        Ok(())
    }

    /// Appends a number in decimal, with no leading zero.
    ///
    /// # Errors
    ///
    /// `AllocError` if out of memory. The page then stays as it was.
    #[inline(always)]
    pub fn put_decimal(&mut self, number: u64) -> Result<(), AllocError>
        ensures ok { OnOk result (self.new ≡ self.old ++ decimal number) }
        ensures err { OnErr result (self.new ≡ self.old) }
    {
        let at = self.at;
        room(&mut self.bytes, at, 23)?;
        self.at = put_decimal(self.bytes.as_mut_slice(), at, number);
        Ok(())
    }

    /// Appends `front`, a number in decimal, with no leading zero, and `back`.
    ///
    /// # Errors
    ///
    /// `AllocError` if out of memory. The page then stays as it was.
    #[inline(always)]
    pub fn put_between(&mut self, front: &[u8], number: u64, back: &[u8]) -> Result<(), AllocError>
        ensures ok { OnOk result (self.new ≡ self.old ++ (front.now ++ (decimal number ++ back.now))) }
        ensures err { OnErr result (self.new ≡ self.old) }
    {
        let at = self.at;
        let count = front.len().saturating_add(back.len()).saturating_add(23);
        room(&mut self.bytes, at, count)?;
        self.at = put_between(self.bytes.as_mut_slice(), at, front, number, back);
        Ok(())
    }

    /// As [`Page::put_between`], between constant counts of bytes.
    ///
    /// # Errors
    ///
    /// `AllocError` if out of memory. The page then stays as it was.
    #[inline(always)]
    pub(crate) fn put_around<const F: usize, const B: usize>(
        &mut self,
        front: &[u8; F],
        number: u64,
        back: &[u8; B],
    ) -> Result<(), AllocError>
        ensures ok { OnOk result (self.new ≡ self.old ++ (front.now ++ (decimal number ++ back.now))) }
        ensures err { OnErr result (self.new ≡ self.old) }
    {
        let at = self.at;
        let count = F.saturating_add(B).saturating_add(23);
        room(&mut self.bytes, at, count)?;
        self.at = put_around(self.bytes.as_mut_slice(), at, front, number, back);
        Ok(())
    }

    /// Appends the line of an item of this number and this many bits that was accepted: `item <n> ok <bits> bits` and a
    /// LF.
    ///
    /// # Errors
    ///
    /// `AllocError` if out of memory. The page then stays as it was.
    #[inline(always)]
    pub fn put_checked(&mut self, item: u64, bits: u64) -> Result<(), AllocError>
        ensures ok { OnOk result (self.new ≡ self.old ++ (codes "item " ++ decimal item ++ codes " ok " ++ decimal bits ++ codes " bits\n")) }
        ensures err { OnErr result (self.new ≡ self.old) }
    {
        let at = self.at;
        room(&mut self.bytes, at, CHECKED_ROOM)?;
        let place = self.bytes.as_mut_slice();
        let end = put_around(place, at, b"item ", item, b" ok ");
        self.at = put_around(place, end, b"", bits, b" bits\n");
        Ok(())
    }

    /// Appends the lines of a packet's number, of Q_DIR, which is sent to the train alone, and of L_PACKET.
    ///
    /// # Errors
    ///
    /// `AllocError` if out of memory. The page then stays as it was.
    #[inline(always)]
    pub(crate) fn put_frame(
        &mut self,
        way: Way,
        nid: u8,
        dir: u8,
        bits: u64,
    ) -> Result<(), AllocError>
        ensures ok { OnOk result (self.new ≡ self.old ++ (packet_line nid ++ flat_map variable_line (directed way dir ((L_PACKET, bits) ∷ [])))) }
        ensures err { OnErr result (self.new ≡ self.old) }
    {
        let at = self.at;
        room(&mut self.bytes, at, FRAME_ROOM)?;
        let place = self.bytes.as_mut_slice();
        let end = put_around(place, at, b"packet ", u64::from(nid), b"\n");
        let end = match way {
            Way::ToTrain => put_line(place, end, Var::Q_DIR, u64::from(dir)),
            Way::ToTrack => end,
        };
        self.at = put_line(place, end, Var::L_PACKET, bits);
        Ok(())
    }

    /// Appends the lowest `width` bits of a number as digits 0 and 1, the most significant first.
    ///
    /// Requires a width of at most 64.
    ///
    /// # Errors
    ///
    /// `AllocError` if out of memory. The page then stays as it was.
    #[inline(always)]
    pub fn put_bits(&mut self, number: u64, width: usize) -> Result<(), AllocError>
        requires { width ≤ 64 }
        ensures ok { OnOk result (self.new ≡ self.old ++ map bit_digit (num width number)) }
        ensures err { OnErr result (self.new ≡ self.old) }
    {
        let at = self.at;
        room(&mut self.bytes, at, BITS_ROOM)?;
        self.at = put_bits(self.bytes.as_mut_slice(), at, number, width);
        Ok(())
    }

    /// Appends bits as digits 0 and 1.
    ///
    /// # Errors
    ///
    /// `AllocError` if out of memory. The page then stays as it was.
    pub fn put_slice(&mut self, bits: &BitSlice<'_>) -> Result<(), AllocError>
        ensures ok { OnOk result (self.new ≡ self.old ++ map bit_digit bits.now) }
        ensures err { OnErr result (self.new ≡ self.old) }
    {
        let at = self.at;
        room(&mut self.bytes, at, bits.len().saturating_add(8))?;
        self.at = put_slice(self.bytes.as_mut_slice(), at, bits);
        Ok(())
    }

    /// Appends the line of bits under a variable's name: two blanks, the name, their count, and the bits if there are
    /// any.
    ///
    /// # Errors
    ///
    /// `AllocError` if out of memory. The page then stays as it was.
    pub fn put_bits_line(&mut self, var: Var, bits: &BitSlice<'_>) -> Result<(), AllocError>
        ensures ok { OnOk result (self.new ≡ self.old ++ bits_line (name var) bits.now) }
        ensures err { OnErr result (self.new ≡ self.old) }
    {
        let at = self.at;
        room(&mut self.bytes, at, bits.len().saturating_add(64))?;
        self.at = put_bits_line(self.bytes.as_mut_slice(), at, var, bits);
        Ok(())
    }

    /// Appends pairs of a list, the first of them after a comma unless it is the first of the list.
    ///
    /// # Errors
    ///
    /// `AllocError` if out of memory. The page then stays as it was.
    #[inline(always)]
    pub(crate) fn put_pairs(&mut self, later: bool, sent: &[(Var, u64)]) -> Result<(), AllocError>
        ensures ok { OnOk result (self.new ≡ (with_pairs (self.old, later) sent.now).0) }
        ensures err { OnErr result (self.new ≡ self.old) }
    {
        let at = self.at;
        room(&mut self.bytes, at, sent.len().saturating_mul(PAIR_ROOM))?;
        self.at = put_pairs(self.bytes.as_mut_slice(), at, later, sent);
        Ok(())
    }

    /// The page's text. The page is then empty.
    #[inline]
    pub fn take_text(&mut self) -> Vec<u8>
        ensures { result.items ≡ self.old }
    {
        self.take_all().into_text()
    }

    /// The page. An empty one is left in its place.
    #[inline]
    pub(crate) fn take_all(&mut self) -> Page
        ensures { result ≡ self.old }
    {
        let empty = Vec::new(*self.bytes.allocator());
        let page = Page {
            bytes: mem::replace(&mut self.bytes, empty),
            at: self.at,
        };
        self.at = 0;
        page
    }

    /// Leaves the first `len` bytes of the text.
    ///
    /// Requires that the text has at least that many.
    pub fn cut(&mut self, len: usize)
        requires { len ≤ length self.old }
        ensures { self.new ≡ take len self.old }
    {
        self.at = len;
    }
}

/// Makes room for bytes from a place on.
///
/// # Errors
///
/// `AllocError` if out of memory.
#[inline(always)]
fn room(bytes: &mut Vec<u8>, at: usize, count: usize) -> Result<(), AllocError>
    requires { at ≤ length bytes.old.items }
    ensures same { take at bytes.new.items ≡ take at bytes.old.items }
    ensures len { at ≤ length bytes.new.items }
    ensures room { OnOk result (at + count ≤ length bytes.new.items) }
{
    if bytes.len() - at < count {
        grow(bytes, at, count)
    } else {
        Ok(())
    }
}

/// Makes room for bytes from a place on, of which there is too little.
#[inline(never)]
fn grow(bytes: &mut Vec<u8>, at: usize, count: usize) -> Result<(), AllocError>
    requires { at ≤ length bytes.old.items }
    ensures same { take at bytes.new.items ≡ take at bytes.old.items }
    ensures len { at ≤ length bytes.new.items }
    ensures room { OnOk result (at + count ≤ length bytes.new.items) }
{
    let wanted = at
        .checked_add(count)
        .and_then(|end| end.checked_add(MORE))
        .ok_or(AllocError)?;
    bytes.resize(wanted.max(bytes.len()), 0)
}

impl VarSink for Page {
    ghost use Rattle.etcs_packet_text.specs.Fronts.{Begins};
    ghost use Rattle.etcs_packet_text.specs.LineSinks.{with_lines};
    ghost use Rattle.etcs_packet_text.specs.laws.LineSinks.{with_lines_begins, with_lines_both, with_lines_none};

    ghost with = { with_lines };

    ghost failed = { Begins };

    ghost with_none = { with_lines_none };

    ghost with_both = { with_lines_both };

    ghost failed_after = { with_lines_begins };

    #[inline(always)]
    fn send(&mut self, sent: &[(Var, u64)]) -> Result<(), AllocError> {
        let at = self.at;
        room(&mut self.bytes, at, sent.len().saturating_mul(LINE_ROOM))?;
        self.at = put_lines(self.bytes.as_mut_slice(), at, sent);
        Ok(())
    }
}
