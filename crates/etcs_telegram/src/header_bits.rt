//! The header's bits, all at once.

ghost use Rattle.std.specs.Prelude.{◌≡◌, ◌+◌, ◌/◌, ◌%◌, ◌≤◌, ◌^◌, ◌<◌, length, IfSome, IsTrue};
ghost use Rattle.etcs_bits.specs.Bits.{bits, part};
ghost use Rattle.etcs_vars.specs.Reading.{spelled, IsAdmitted};
ghost use Rattle.etcs_vars.specs.Vars.{width, admits};
ghost use Rattle.etcs_telegram.specs.Telegrams.{header_reading};
ghost use Rattle.etcs_tables.specs.Headers.{header_row};
ghost use Rattle.etcs_sequence.specs.Fronts.{FrontAt};
ghost use Rattle.etcs_telegram.specs.Fronts.{FieldsIn};

use crate::header::{Header, header_by};
use arrayvec::ArrayVec;
use etcs_sequence::inner::number_at;
use etcs_vars::Var;

/// How many bits the header's variables take.
pub const HEADER_BITS: usize = 50;

/// The number of a variable in a word, with this many bits after it. `None` if the variable doesn't admit it.
#[inline(always)]
fn field(word: u64, beyond: usize, var: Var) -> Option<u64>
    requires { beyond + width var < 64 }
    ensures { IfSome result (λ n. IsTrue (admits var n) × (n ≡ word / 2 ^ beyond % 2 ^ width var)) }
{
    let number = (word >> beyond) % (1 << var.width());
    if !var.admits(number) {
        return None;
    }
    Some(number)
}

/// The numbers of the header's variables in the lowest 50 bits of a word. `None` if one doesn't admit its number.
#[inline(always)]
fn header_in(word: u64) -> Option<[u64; 10]>
    ensures { IfSome result (λ ns. FieldsIn header_row word ns) }
{
    Some([
        field(word, 49, Var::Q_UPDOWN)?,
        field(word, 42, Var::M_VERSION_HEADER)?,
        field(word, 41, Var::Q_MEDIA)?,
        field(word, 38, Var::N_PIG)?,
        field(word, 35, Var::N_TOTAL)?,
        field(word, 33, Var::M_DUP)?,
        field(word, 25, Var::M_MCOUNT)?,
        field(word, 15, Var::NID_C)?,
        field(word, 1, Var::NID_BG)?,
        field(word, 0, Var::Q_LINK)?,
    ])
}

/// The numbers of the header's variables from the bit `at` on, and the bit after them. `None` if the piece doesn't
/// have them all, or one doesn't admit its number.
#[inline]
pub(crate) fn header_at(piece: &[u8], at: usize) -> Option<(ArrayVec<u64, 10>, usize)>
    requires inside { at ≤ length (bits piece.now) }
    requires small { length (bits piece.now) < 2 ^ 64 }
    ensures { IfSome result (λ r. FrontAt header_row (bits piece.now) at r.0.items r.1) }
{
    if piece.len() * 8 - at < HEADER_BITS {
        return None;
    }
    let numbers = header_in(number_at(piece, at, HEADER_BITS))?;
    Some((ArrayVec::from(numbers), at + HEADER_BITS))
}

/// The header that a piece begins with. `None` if one of its variables doesn't admit its number.
#[inline(always)]
pub(crate) fn header_at_front(piece: &[u8]) -> Option<Header>
    requires { 50 ≤ length (bits piece.now) }
    ensures admitted { IfSome result (λ h. IsAdmitted (header_reading h)) }
    ensures bits { IfSome result (λ h. spelled (header_reading h) ≡ part 0 50 (bits piece.now)) }
{
    let numbers = header_in(number_at(piece, 0, HEADER_BITS))?;
    Some(header_by(&numbers))
}
