//! An owned list of bits.

ghost use Rattle.std.specs.Prelude.{◌≡◌, ◌+◌, ◌^◌, ◌<◌, ◌≤◌, ◌==◌, [], ◌∷◌, ◌++◌, length, take, OnOk, OnErr, IfOk};
ghost use Rattle.etcs_bits.specs.Bits.{num};

use super::few::Few;
use super::many::Many;
use super::slice::BitSlice;
use std::alloc::{AllocError, Global};
use std::marker::Model;

/// An owned list of bits. Up to 56 of them lie in the value itself, and more in an allocation, which is kept if such a
/// list is made shorter. Two lists are equal exactly if they have the same bits in the same order.
#[derive(Debug, Drop)]
pub struct Bits {
    /// None if there are more of them.
    few: Few,
    many: Many,
}

impl Model for Bits {
    ghost use Rattle.std.specs.Prelude.{◌≡◌, ◌<◌, [], ◌++◌, Bool, List, length};

    ghost Value = { List Bool };

    ghost view = { λ b. b.few ++ b.many };

    ghost invariant = { λ b. 0 < length b.many → b.few ≡ [] };
}

/// Moves all bits to the allocation. If memory runs out they stay as they were.
#[cold]
#[inline(never)]
fn spill(few: &mut Few, many: &mut Many) -> Result<(), AllocError>
    requires { many.old ≡ [] }
    ensures ok { OnOk result ((few.new ≡ []) × (many.new ≡ few.old)) }
    ensures err { OnErr result ((few.new ≡ few.old) × (many.new ≡ many.old)) }
{
    many.push_slice(&few.as_slice())?;
    *few = Few::new();
    Ok(())
}

impl Bits {
    /// No bits. Nothing is allocated.
    pub fn new(alloc: Global) -> Bits
        ensures { result ≡ [] }
    {
        Bits {
            few: Few::new(),
            many: Many::new(alloc),
        }
    }

    /// The bits of `slice`, copied.
    ///
    /// # Errors
    ///
    /// `AllocError` if memory runs out.
    pub fn from_slice(alloc: Global, slice: BitSlice<'_>) -> Result<Bits, AllocError>
        ensures { IfOk result (λ b. b ≡ slice.entry) }
    {
        let mut bits = Bits::new(alloc);
        bits.push_slice(&slice)?;
        Ok(bits)
    }

    /// A copy: if it succeeds, it has the same bits.
    ///
    /// # Errors
    ///
    /// `AllocError` if memory runs out.
    pub fn try_clone(&self, alloc: Global) -> Result<Bits, AllocError>
        ensures { IfOk result (λ b. b ≡ self.now) }
    {
        Bits::from_slice(alloc, self.as_slice())
    }

    /// Adds a bit at the end: the bits are then those before with this one after them. All of them must be fewer than
    /// 2^64.
    ///
    /// # Errors
    ///
    /// `AllocError` if memory runs out. The bits then stay as they were.
    pub fn push(&mut self, bit: bool) -> Result<(), AllocError>
        requires { length self.old + 1 < 2 ^ 64 }
        ensures ok { OnOk result (self.new ≡ self.old ++ bit ∷ []) }
        ensures err { OnErr result (self.new ≡ self.old) }
    {
        self.push_number(1, u64::from(bit))
    }

    /// Adds a number of `width` bits at the end, most significant bit first. `width` must be at most 64, the number must
    /// fit it, and all bits must be fewer than 2^64.
    ///
    /// # Errors
    ///
    /// `AllocError` if memory runs out. The bits then stay as they were.
    pub fn push_number(&mut self, width: usize, value: u64) -> Result<(), AllocError>
        requires width { width ≤ 64 }
        requires fits { value < 2 ^ width }
        requires room { length self.old + width < 2 ^ 64 }
        ensures ok { OnOk result (self.new ≡ self.old ++ num width value) }
        ensures err { OnErr result (self.new ≡ self.old) }
    {
        if self.many.is_empty() && self.few.has_room(width) {
            self.few.push_number(width, value);
            return Ok(());
        }
        if !self.few.is_empty() {
            spill(&mut self.few, &mut self.many)?;
        }
        self.many.push_number(width, value)
    }

    /// Adds the bits of `slice` at the end. If memory runs out the bits stay as they were.
    pub(crate) fn push_slice(&mut self, slice: &BitSlice<'_>) -> Result<(), AllocError>
        requires { length self.old + length slice.now < 2 ^ 64 }
        ensures ok { OnOk result (self.new ≡ self.old ++ slice.now) }
        ensures err { OnErr result (self.new ≡ self.old) }
    {
        if self.many.is_empty() && self.few.has_room(slice.len()) {
            self.few.push_slice(slice);
            return Ok(());
        }
        if !self.few.is_empty() {
            spill(&mut self.few, &mut self.many)?;
        }
        self.many.push_slice(slice)
    }

    /// Keeps the first `len` bits, and drops the others. There must be at least as many.
    pub fn truncate(&mut self, len: usize)
        requires { len ≤ length self.old }
        ensures { self.new ≡ take len self.old }
    {
        if self.many.is_empty() {
            self.few.truncate(len);
        } else {
            self.many.truncate(len);
        }
    }

    /// How many bits there are.
    pub fn len(&self) -> usize
        ensures { result ≡ length self.now }
    {
        self.few.len() + self.many.len()
    }

    /// Whether there are no bits.
    pub fn is_empty(&self) -> bool
        ensures { result ≡ (length self.now == 0) }
    {
        self.len() == 0
    }

    /// All bits as a slice.
    pub fn as_slice(&self) -> BitSlice<'_>
        ensures { result ≡ self.now }
    {
        if self.many.is_empty() {
            self.few.as_slice()
        } else {
            self.many.as_slice()
        }
    }
}

/// True exactly if both have the same bits in the same order.
impl PartialEq for Bits {
    ghost use Rattle.std.specs.Cmp.{bool_eq_equiv};
    ghost use Rattle.std.specs.Cmp.{partial_equiv_from_equiv};
    ghost use Rattle.std.specs.Cmp.Lexicographic.{lists_per, pointwise};
    ghost use Rattle.std.proofs.Math.Bool.{beq};

    ghost eq = { pointwise beq };

    ghost laws = { lists_per (partial_equiv_from_equiv bool_eq_equiv) };

    fn eq(&self, other: &Bits) -> bool {
        self.as_slice() == other.as_slice()
    }
}

impl Eq for Bits {
    ghost use Rattle.std.specs.Cmp.{bool_eq_equiv};
    ghost use Rattle.std.specs.Cmp.Lexicographic.{lists_equiv};

    ghost laws = { lists_equiv bool_eq_equiv };
}
