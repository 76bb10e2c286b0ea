//! A page of JSON.

ghost use Rattle.std.specs.Prelude.{◌≡◌, ◌≤◌, ◌++◌, ◌∷◌, [], false, length, map, take, true, OnErr, OnOk};
ghost use Rattle.std.specs.Fmt.{decimal};
ghost use Rattle.etcs_bits.specs.Bits.{num};
ghost use Rattle.etcs_packet_text.specs.Show.{bit_digit};

use crate::page::Page;
use etcs_bits::BitSlice;
use etcs_vars::Var;
use etcs_vars::inner::VarSink;
use std::alloc::AllocError;
use std::marker::Model;

/// A page, and whether a pair of the list that was opened last is at its end. Variables that it is sent become pairs of
/// that list, each after a comma if another pair of the list is before it.
#[derive(Drop)]
pub struct JsonPage {
    page: Page,
    later: bool,
}

impl Model for JsonPage {
    ghost use Rattle.etcs_packet_text.specs.PairSinks.{Listed};

    ghost Value = { Listed };

    ghost view = { λ p. (p.page, p.later) };
}

impl JsonPage {
    /// A page of JSON that has the text of another page, which is taken; no list is open.
    #[inline]
    pub fn open(page: &mut Page) -> JsonPage
        ensures { result ≡ (page.old, false) }
    {
        JsonPage {
            page: page.take_all(),
            later: false,
        }
    }

    /// The page, with all of its text.
    #[inline]
    pub fn into_page(self) -> Page
        ensures { result ≡ self.0 }
    {
        let JsonPage { page, .. } = self;
        page
    }

    /// Appends bytes.
    ///
    /// # Errors
    ///
    /// `AllocError` if out of memory. The page then stays as it was.
    #[inline(always)]
    pub fn put(&mut self, bytes: &[u8]) -> Result<(), AllocError>
        ensures ok { OnOk result (self.new.0 ≡ self.old.0 ++ bytes.now) }
        ensures err { OnErr result (self.new.0 ≡ self.old.0) }
    {
        self.page.put(bytes)
    }

    /// Appends a constant count of bytes.
    ///
    /// # Errors
    ///
    /// `AllocError` if out of memory. The page then stays as it was.
    #[inline(always)]
    pub(crate) fn put_array<const N: usize>(&mut self, bytes: &[u8; N]) -> Result<(), AllocError>
        ensures ok { OnOk result (self.new.0 ≡ self.old.0 ++ bytes.now) }
        ensures err { OnErr result (self.new.0 ≡ self.old.0) }
    {
        self.page.put_array(bytes)
    }

    /// Appends a number in decimal, with no leading zero, and one byte more.
    ///
    /// # Errors
    ///
    /// `AllocError` if out of memory. The page then stays as it was.
    #[inline(always)]
    pub fn put_decimal_and(&mut self, number: u64, end: u8) -> Result<(), AllocError>
        ensures ok { OnOk result (self.new.0 ≡ self.old.0 ++ (decimal number ++ end ∷ [])) }
        ensures err { OnErr result (self.new.0 ≡ self.old.0) }
    {
        self.page.put_decimal_and(number, end)
    }

    /// Appends `front`, a number in decimal, with no leading zero, and `back`.
    ///
    /// # Errors
    ///
    /// `AllocError` if out of memory. The page then stays as it was.
    #[inline(always)]
    pub fn put_between(&mut self, front: &[u8], number: u64, back: &[u8]) -> Result<(), AllocError>
        ensures ok { OnOk result (self.new.0 ≡ self.old.0 ++ (front.now ++ (decimal number ++ back.now))) }
        ensures err { OnErr result (self.new.0 ≡ self.old.0) }
    {
        self.page.put_between(front, number, back)
    }

    /// As [`JsonPage::put_between`], between constant counts of bytes.
    ///
    /// # Errors
    ///
    /// `AllocError` if out of memory. The page then stays as it was.
    #[inline(always)]
    pub(crate) fn put_around<const F: usize, const B: usize>(
        &mut self,
        front: &[u8; F],
        number: u64,
        back: &[u8; B],
    ) -> Result<(), AllocError>
        ensures ok { OnOk result (self.new.0 ≡ self.old.0 ++ (front.now ++ (decimal number ++ back.now))) }
        ensures err { OnErr result (self.new.0 ≡ self.old.0) }
    {
        self.page.put_around(front, number, back)
    }

    /// Appends the lowest `width` bits of a number as digits 0 and 1, the most significant first.
    ///
    /// Requires a width of at most 64.
    ///
    /// # Errors
    ///
    /// `AllocError` if out of memory. The page then stays as it was.
    #[inline(always)]
    pub fn put_bits(&mut self, number: u64, width: usize) -> Result<(), AllocError>
        requires { width ≤ 64 }
        ensures ok { OnOk result (self.new.0 ≡ self.old.0 ++ map bit_digit (num width number)) }
        ensures err { OnErr result (self.new.0 ≡ self.old.0) }
    {
        self.page.put_bits(number, width)
    }

    /// Appends bits as digits 0 and 1.
    ///
    /// # Errors
    ///
    /// `AllocError` if out of memory. The page then stays as it was.
    pub fn put_slice(&mut self, bits: &BitSlice<'_>) -> Result<(), AllocError>
        ensures ok { OnOk result (self.new.0 ≡ self.old.0 ++ map bit_digit bits.now) }
        ensures err { OnErr result (self.new.0 ≡ self.old.0) }
    {
        self.page.put_slice(bits)
    }

    /// How many bytes the text has.
    #[inline(always)]
    pub(crate) fn len(&self) -> usize
        ensures { result ≡ length self.now.0 }
    {
        self.page.len()
    }

    /// Whether an item of the list that was opened last is at the end.
    #[inline(always)]
    pub(crate) fn is_later(&self) -> bool
        ensures { result ≡ self.now.1 }
    {
        self.later
    }

    /// Leaves the first `len` bytes of the text, with an item of the list at the end if `later` is true.
    ///
    /// Requires that the text has at least that many bytes.
    #[inline(always)]
    pub(crate) fn cut(&mut self, len: usize, later: bool)
        requires { len ≤ length self.old.0 }
        ensures { self.new ≡ (take len self.old.0, later) }
    {
        self.page.cut(len);
        self.later = later;
    }

    /// An item of a list is at the end.
    #[inline(always)]
    pub(crate) fn go_on(&mut self)
        ensures { self.new ≡ (self.old.0, true) }
    {
        self.later = true;
    }

    /// The page. An empty one is left in its place.
    #[inline(always)]
    pub(crate) fn take_all(&mut self) -> JsonPage
        ensures { result ≡ self.old }
    {
        JsonPage {
            page: self.page.take_all(),
            later: self.later,
        }
    }

    /// Begins a list of items.
    ///
    /// # Errors
    ///
    /// `AllocError` if out of memory. The page then stays as it was.
    #[inline(always)]
    pub fn open_list(&mut self) -> Result<(), AllocError>
        ensures ok { OnOk result (self.new ≡ (self.old.0 ++ 91 ∷ [], false)) }
        ensures err { OnErr result (self.new.0 ≡ self.old.0) }
    {
        self.page.put_array(b"[")?;
        self.later = false;
        Ok(())
    }
}

impl VarSink for JsonPage {
    ghost use Rattle.etcs_packet_text.specs.Fronts.{Begins};
    ghost use Rattle.etcs_packet_text.specs.PairSinks.{with_pairs};
    ghost use Rattle.etcs_packet_text.specs.laws.PairSinks.{with_pairs_begins, with_pairs_both, with_pairs_none};

    ghost with = { with_pairs };

    ghost failed = { λ s t. Begins s.0 t.0 };

    ghost with_none = { with_pairs_none };

    ghost with_both = { with_pairs_both };

    ghost failed_after = { with_pairs_begins };

    #[inline(always)]
    fn send(&mut self, sent: &[(Var, u64)]) -> Result<(), AllocError> {
        if sent.is_empty() {
            return Ok(());
        }
        self.page.put_pairs(self.later, sent)?;
        self.later = true;
        Ok(())
    }
}
