//! Whether two slices have the same bits.

ghost use Rattle.std.specs.Prelude.{◌≡◌, ◌+◌, ◌≤◌, length};
ghost use Rattle.std.specs.Bool.{Decides};
ghost use Rattle.etcs_bits.specs.Bits.{part};

use super::inner::chunk;
use super::slice::BitSlice;

/// True exactly if both have the same bits in the same order, whatever bytes hold them and at whatever bit they begin.
impl PartialEq for BitSlice<'_> {
    ghost use Rattle.std.specs.Cmp.{bool_eq_equiv};
    ghost use Rattle.std.specs.Cmp.{partial_equiv_from_equiv};
    ghost use Rattle.std.specs.Cmp.Lexicographic.{lists_per, pointwise};
    ghost use Rattle.std.proofs.Math.Bool.{beq};

    ghost eq = { pointwise beq };

    ghost laws = { lists_per (partial_equiv_from_equiv bool_eq_equiv) };

    fn eq(&self, other: &Self) -> bool {
        self.len() == other.len() && same_bits(self, other)
    }
}

impl Eq for BitSlice<'_> {
    ghost use Rattle.std.specs.Cmp.{bool_eq_equiv};
    ghost use Rattle.std.specs.Cmp.Lexicographic.{lists_equiv};

    ghost laws = { lists_equiv bool_eq_equiv };
}

/// Whether two slices of one length have the same bits.
fn same_bits(left: &BitSlice<'_>, right: &BitSlice<'_>) -> bool
    requires { length left.now ≡ length right.now }
    ensures { Decides result (left.now ≡ right.now) }
{
    let len = left.len();
    let mut done = 0;
    while done < len {
        let count = (len - done).min(64);
        if !same_part(left, right, done, count) {
            return false;
        }
        done += count;
    }
    true
}

/// Whether the `count` bits after the first `from` are the same in both.
fn same_part(left: &BitSlice<'_>, right: &BitSlice<'_>, from: usize, count: usize) -> bool
    requires count { count ≤ 64 }
    requires left { from + count ≤ length left.now }
    requires right { from + count ≤ length right.now }
    ensures { Decides result (part from count left.now ≡ part from count right.now) }
{
    chunk(left, from, count) == chunk(right, from, count)
}
