//! Bits printed as digits, and made from digits.

ghost use Rattle.std.specs.Prelude.{◌≡◌, ◌+◌, Bool, List, Some, IfOk, IfSome};
ghost use Rattle.etcs_bits.specs.Bits.{bit};
ghost use Rattle.etcs_bits.specs.Texts.{digits};

use super::bits::Bits;
use super::slice::BitSlice;
use std::alloc::{AllocError, Global};
use std::fmt;

/// Prints a digit for each bit, 0 or 1, in order, and nothing else.
impl fmt::Display for BitSlice<'_> {
    ghost output = { λ s. Some (digits s) };

    fn fmt<W: fmt::Write>(&self, f: &mut fmt::Formatter<W>) -> fmt::Result {
        for bit in self.iter() {
            f.write_str(if bit { "1" } else { "0" })?;
        }
        Ok(())
    }
}

/// The bit that a digit 0 or 1 stands for.
fn bit_of(digit: u8) -> Option<bool>
    ensures some { IfSome result (λ b. digit ≡ 48 + bit b) }
    ensures only { (b : Bool) → digit ≡ 48 + bit b → result ≡ Some b }
{
    match digit {
        b'0' => Some(false),
        b'1' => Some(true),
        _ => None,
    }
}

impl Bits {
    /// The bits whose digits 0 and 1 `text` is, in its order: if it succeeds, `None` exactly if another byte is in the
    /// text.
    ///
    /// # Errors
    ///
    /// `AllocError` if memory runs out.
    pub fn from_digits(alloc: Global, text: &[u8]) -> Result<Option<Bits>, AllocError>
        ensures some { IfOk result (λ o. IfSome o (λ b. text.now ≡ digits b)) }
        ensures only { IfOk result (λ o. (b : List Bool) → text.now ≡ digits b → o ≡ Some b) }
    {
        let mut bits = Bits::new(alloc);
        for digit in text {
            match bit_of(*digit) {
                Some(bit) => bits.push(bit)?,
                None => return Ok(None),
            }
        }
        Ok(Some(bits))
    }
}
