//! Numbers in ranges with both ends.

ghost use Rattle.std.specs.Prelude.{◌≡◌, ℕ, ◌<◌, ◌≤◌, ◌/◌, ◌^◌, ◌&&◌, nat_le};
ghost use Rattle.etcs_vars.specs.Vars.{inside, begins};

/// Whether the number lies in the range.
#[inline]
pub(crate) fn within(range: (u64, u64), number: u64) -> bool
    ensures { result ≡ (nat_le range.0 number && nat_le number range.1) }
{
    range.0 <= number && number <= range.1
}

/// Whether the number lies in one of the ranges.
#[inline]
pub(crate) fn inside(ranges: &[(u64, u64)], number: u64) -> bool
    ensures { result ≡ inside ranges.now number }
{
    begins(ranges, 0, number)
}

/// Whether `bits` lies between the ends of one of the ranges, both included and both without their `rest` lowest bits.
/// For ranges whose ends are in order, as those of a variable are, this is whether some number of them begins with
/// `bits` and has `rest` bits after these; of a variable's own ranges that is proved as the lemma `begins_admitted`,
/// but it is no clause of this call. `rest` must be at most 64.
#[inline]
pub fn begins(ranges: &[(u64, u64)], rest: usize, bits: u64) -> bool
    requires { rest ≤ 64 }
    ensures { result ≡ begins ranges.now rest bits }
{
    match ranges {
        [] => false,
        [first, beyond @ ..] => begins_one(first, rest, bits) || begins_some(beyond, rest, bits),
    }
}

/// Whether `bits` may begin a number of the range.
#[inline]
pub(crate) fn begins_one(range: &(u64, u64), rest: usize, bits: u64) -> bool
    requires { rest ≤ 64 }
    ensures { result ≡ (nat_le (range.now.0 / 2 ^ rest) bits && nat_le bits (range.now.1 / 2 ^ rest)) }
{
    within((top(range.0, rest), top(range.1, rest)), bits)
}

/// As `begins`, range by range.
fn begins_some(ranges: &[(u64, u64)], rest: usize, bits: u64) -> bool
    requires { rest ≤ 64 }
    ensures { result ≡ begins ranges.now rest bits }
{
    ranges.iter().any(|range| begins_one(range, rest, bits))
}

/// The number without its `rest` lowest bits.
#[inline]
fn top(number: u64, rest: usize) -> u64
    requires { rest ≤ 64 }
    ensures { result ≡ number / 2 ^ rest }
{
    if rest < 64 { number >> rest } else { 0 }
}
