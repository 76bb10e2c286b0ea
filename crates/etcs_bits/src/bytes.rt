//! Numbers inside single bytes, and the byte where a bit is.

ghost use Rattle.std.specs.Prelude.{◌≡◌, ℕ, ◌+◌, ◌*◌, ◌^◌, ◌<◌, ◌≤◌};
ghost use Rattle.etcs_bits.specs.Bits.{num, value, part, replaced};

/// The byte that holds the bit `at` bits after the bit `start`, and the bit's place in it.
pub(crate) fn byte_of(start: usize, at: usize) -> (usize, usize)
    ensures place { 8 * result.0 + result.1 ≡ start + at }
    ensures offset { result.1 < 8 }
{
    let inner = start % 8 + at % 8;
    (start / 8 + at / 8 + inner / 8, inner % 8)
}

/// The number in `width` bits of a byte from `offset` on.
pub(crate) fn read_byte(byte: u8, offset: usize, width: usize) -> u64
    requires { offset + width ≤ 8 }
    ensures { result ≡ value (part offset width (num 8 byte)) }
{
    let lower = u64::from(byte) >> (8 - offset - width);
    lower % (1 << width)
}

/// The byte with `width` of its bits from `offset` on replaced by a number.
#[inline(always)]
pub(crate) fn with_number(byte: u8, offset: usize, width: usize, value: u64) -> u8
    requires inside { offset + width ≤ 8 }
    requires fits { value < 2 ^ width }
    ensures { num 8 result ≡ replaced offset (num width value) (num 8 byte) }
{
    let beyond = 8 - offset - width;
    let byte = u64::from(byte);
    let front = (byte >> (8 - offset)) << (8 - offset);
    (front + (value << beyond) + byte % (1 << beyond)) as u8
}
