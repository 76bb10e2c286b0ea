//! The bits of a variable up to a refused one, and which numbers may come in place of those that begin with them.

ghost use Rattle.std.specs.Prelude.{◌≡◌, ◌+◌, Some, Err, take};
ghost use Rattle.etcs_bits.specs.Bits.{bits, num};
ghost use Rattle.etcs_reader.specs.Rests.{Goes};
ghost use Rattle.etcs_reader.specs.Readers.{Passed};
ghost use Rattle.etcs_reader.specs.Feeders.{Feeds, all_of};
ghost use Rattle.etcs_reader.specs.Blocks.{Continues, Blocks};

use crate::feeder::{Feeder, Stop};
use crate::nearest::{above, below};
use crate::reader::number_at;
use crate::rest::Rest;
use etcs_vars::Var;

/// The numbers of a variable that begin with its bits up to a refused one, and with this. Nothing continues with any of
/// them.
#[derive(Clone, Copy, Debug, PartialEq, Eq)]
pub struct Block {
    /// The bits as a number, the first one most significant.
    pub bits: u64,
    /// How many bits there are.
    pub count: usize,
    /// The greatest number below the block with which something continues.
    pub below: Option<u64>,
    /// The least number above the block with which something continues.
    pub above: Option<u64>,
}

impl<R: Rest> Feeder<R> {
    /// Returns the numbers that begin with the bits of `var` up to the refused bit `bit` of a piece, and the numbers next
    /// to them with which something continues.
    ///
    /// The reader must have been fed this piece from its first bit on, and nothing else, and must have refused this bit.
    /// `var` is then the variable that comes next in what is left, and something is left.
    pub fn block(&self, piece: &[u8], bit: usize, var: Var) -> Block
        requires fed { (start : R) × Feeds R R.left R.next R.follows R.fails (all_of start) (bits piece.now) (Err (Stop.Refused bit var)) self.now }
        ensures next { R.next self.now.rest ≡ Some var }
        ensures goes { Goes (R.left self.now.rest) }
        ensures block { Blocks (Continues (R.left self.now.rest) var) var result }
        ensures bits { (start : R) → Feeds R R.left R.next R.follows R.fails (all_of start) (bits piece.now) (Err (Stop.Refused bit var)) self.now → Passed (λ p. R.follows start p self.now.rest) (take (bit + 1) (bits piece.now)) (num result.count result.bits) }
    {
        let (part, taken) = self.unfinished();
        let bits = part * 2 + number_at(piece, bit, 1);
        let count = taken + 1;
        let rest = var.width() - count;
        let left = self.rest();
        Block {
            bits,
            count,
            below: below(left, var, rest, bits),
            above: above(left, var, rest, bits),
        }
    }
}
