//! Variables joined into one number.

ghost use Rattle.std.specs.Prelude.{◌≡◌, ◌≤◌, ◌<◌, ◌^◌, length};
ghost use Rattle.etcs_bits.specs.Bits.{num};
ghost use Rattle.etcs_vars.specs.Joins.{Joins};

use crate::Var;

/// This many bits are in eight bytes, at whatever bit of a byte they begin.
const WORD: usize = 57;

/// Variables joined into one number.
#[derive(Clone, Copy)]
pub(crate) struct Front {
    /// How many variables.
    pub(crate) count: usize,
    /// How many bits they take.
    pub(crate) width: usize,
    pub(crate) number: u64,
}

/// The first of some variables, as many as a word takes at any bit of a byte, joined into one number.
#[inline(always)]
pub(crate) fn joined(sent: &[(Var, u64)]) -> Front
    requires { 0 < length sent.now }
    ensures { Joins sent.now result.count result.width result.number }
{
    let mut count = 1;
    let mut width = sent[0].0.width();
    let mut number = lowest(width, sent[0].1);
    while count < sent.len() {
        let more = sent[count].0.width();
        if width + more > WORD {
            break;
        }
        number = (number << more) + sent[count].1 % (1 << more);
        width += more;
        count += 1;
    }
    Front {
        count,
        width,
        number,
    }
}

/// The lowest bits of a number.
#[inline]
fn lowest(width: usize, number: u64) -> u64
    requires some { 0 < width }
    requires most { width ≤ 64 }
    ensures fits { result < 2 ^ width }
    ensures bits { num width result ≡ num width number }
{
    (number << (64 - width)) >> (64 - width)
}
