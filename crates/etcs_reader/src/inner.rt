//! For the crates above: numbers in a piece, and the front of an item, whose variables are passed one by one.

ghost use Rattle.std.specs.Prelude.{◌≡◌, ◌≤◌, ◌<◌, ◌^◌, length, IsTrue};
ghost use Rattle.etcs_bits.specs.Bits.{bits};
ghost use Rattle.etcs_reader.specs.Rests.{Goes, LeapsBy};

pub use crate::reader::number_at;
use crate::rest::Rest;

/// Passes the variables whose bits are the first `end` of a piece, one by one. If it returns true, these bits spell
/// whole variables, what is left is what `follows` has for them, and something is left. If it returns false, there may
/// be no such variables or memory ran out, and no clause says what is left.
///
/// Something must be left at first. `end` must be at least 1 and inside the piece, which has fewer than 2^64 bits.
pub fn pass_front<R: Rest>(rest: &mut R, piece: &[u8], end: usize) -> bool
    requires goes { Goes (R.left rest.old) }
    requires some { 0 < end }
    requires inside { end ≤ length (bits piece.now) }
    requires small { length (bits piece.now) < 2 ^ 64 }
    ensures { IsTrue result → LeapsBy (R.left rest.new) (λ p. R.follows rest.old p rest.new) (bits piece.now) 0 end }
{
    let mut at = 0;
    while at < end {
        let Some(var) = rest.var() else {
            return false;
        };
        let width = var.width();
        if width > end - at {
            return false;
        }
        let number = number_at(piece, at, width);
        if !rest.begins(var, 0, number) {
            return false;
        }
        match rest.pass(var, number) {
            Ok(()) => at += width,
            Err(_) => return false,
        }
    }
    true
}
