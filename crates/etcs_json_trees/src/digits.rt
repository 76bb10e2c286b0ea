//! Numbers and bits as values of JSON.

ghost use Rattle.std.specs.Prelude.{◌≡◌, ◌↔◌, ℕ, ◌<◌, IsTrue, List, Bool, Some, Err, IfOk, IfSome};
ghost use Rattle.serde_json.specs.Data.{string};
ghost use Rattle.serde_json.specs.View.{view};
ghost use Rattle.etcs_packet_text.specs.Trees.{bits_tree};
ghost use Rattle.etcs_json_trees.specs.TreeReading.{plain};

use crate::fault::Fault;
use etcs_bits::Bits;
use serde_json::Value;
use std::alloc::Global;

/// Returns the bits of a text of the digits 0 and 1, in its order.
///
/// # Errors
///
/// `Invalid` only if the value is anything else; `Memory` if out of memory.
pub fn bits_in(alloc: Global, value: &Value) -> Result<Bits, Fault>
    ensures ok { IfOk result (λ b. view value.now ≡ bits_tree b) }
    ensures invalid { result ≡ Err Fault.Invalid → (b : List Bool) → view value.now ≡ bits_tree b → ⊥ }
{
    let Some(text) = value.as_str() else {
        return Err(Fault::Invalid);
    };
    match Bits::from_digits(alloc, text.as_bytes())? {
        Some(bits) => Ok(bits),
        None => Err(Fault::Invalid),
    }
}

/// Returns the number if the value is a whole number below 256, without fraction or exponent; `None` exactly if it is
/// anything else.
pub fn byte_in(value: &Value) -> Option<u8>
    ensures some { IfSome result (λ n. view value.now ≡ plain n) }
    ensures only { (n : ℕ) → n < 256 → view value.now ≡ plain n → result ≡ Some n }
{
    u8::try_from(value.as_u64()?).ok()
}

/// Whether a value is this text.
pub(crate) fn is_text(value: &Value, text: &str) -> bool
    ensures { IsTrue result ↔ (view value.now ≡ string text.now) }
{
    value.as_str() == Some(text)
}

/// Whether a value is the number 0.
pub(crate) fn is_zero(value: &Value) -> bool
    ensures { IsTrue result ↔ (view value.now ≡ plain 0) }
{
    value.as_u64() == Some(0)
}
