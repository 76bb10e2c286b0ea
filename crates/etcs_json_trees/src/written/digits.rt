//! Digits, and the numbers and bits that they stand for.

ghost use Rattle.std.specs.Prelude.{◌≡◌, ◌+◌, ◌-◌, ◌%◌, ◌^◌, ◌<◌, ◌≤◌, ◌++◌, Bool, List, IfSome, OnSome, length, map};
ghost use Rattle.etcs_bits.specs.Bits.{num};
ghost use Rattle.etcs_packet_text.specs.Show.{bit_digit};

use etcs_vars::BitPage;

/// The number of a digit 0 or 1.
#[inline(always)]
fn bit_of(byte: u8) -> Option<u8>
    ensures { IfSome result (λ d. (d < 2) × (byte ≡ 48 + d)) }
{
    let digit = byte.wrapping_sub(b'0');
    if digit < 2 { Some(digit) } else { None }
}

/// How many digits 0 and 1 come first, the number of their bits, the first one the highest, and what is after them. `None`
/// if there are more than seven.
#[inline(always)]
pub fn few_bits(text: &[u8]) -> Option<(usize, u8, &[u8])>
    ensures count { IfSome result (λ p. p.0 ≤ 7) }
    ensures small { IfSome result (λ p. p.1 < 2 ^ p.0) }
    ensures bits { IfSome result (λ p. text.now ≡ map bit_digit (num p.0 p.1) ++ p.2.now) }
{
    let mut count = 0usize;
    let mut number = 0u8;
    let mut left = text;
    while let Some((byte, more)) = left.split_first() {
        let Some(bit) = bit_of(*byte) else {
            break;
        };
        if count == 7 {
            return None;
        }
        number = number * 2 + bit;
        count += 1;
        left = more;
    }
    Some((count, number, left))
}

/// The number of the bits of eight digits 0 and 1, the first one the highest.
#[inline(always)]
fn byte_of(eight: &[u8; 8]) -> Option<u64>
    ensures { IfSome result (λ b. (b < 256) × (eight.now ≡ map bit_digit (num 8 b))) }
{
    let word = u64::from_le_bytes(*eight);
    if word & 0xfefe_fefe_fefe_fefe != 0x3030_3030_3030_3030 {
        return None;
    }
    let bits = (word & 0x0101_0101_0101_0101).wrapping_mul(0x8040_2010_0804_0201);
    Some(bits >> 56)
}

/// The number of the bits of digits, at most 32, as far as they are whole eights, and the digits after these.
#[inline(always)]
fn eights(digits: &[u8]) -> Option<(u64, &[u8])>
    requires { length digits.now ≤ 32 }
    ensures few { IfSome result (λ p. length p.1.now ≡ length digits.now % 8) }
    ensures small { IfSome result (λ p. p.0 < 2 ^ (length digits.now - length p.1.now)) }
    ensures bits { IfSome result (λ p. digits.now ≡ map bit_digit (num (length digits.now - length p.1.now) p.0) ++ p.1.now) }
{
    let mut number = 0u64;
    let mut left = digits;
    while let Some((eight, more)) = left.split_first_chunk::<8>() {
        number = (number << 8) + byte_of(eight)?;
        left = more;
    }
    Some((number, left))
}

/// Puts the bits of digits, if each is 0 or 1. Otherwise those of some of them may be put.
#[inline(never)]
pub fn put_digits(digits: &[u8], out: &mut BitPage) -> Option<()>
    ensures some { OnSome result ((b : List Bool) × (digits.now ≡ map bit_digit b) × (out.new ≡ out.old ++ b)) }
    ensures more { (b : List Bool) × (out.new ≡ out.old ++ b) }
{
    let mut left = digits;
    while let Some((block, more)) = left.split_first_chunk::<32>() {
        put_few(block, out)?;
        left = more;
    }
    put_few(left, out)
}

/// Puts the bits of at most 32 digits, if each is 0 or 1.
#[inline(always)]
fn put_few(digits: &[u8], out: &mut BitPage) -> Option<()>
    requires { length digits.now ≤ 32 }
    ensures some { OnSome result ((b : List Bool) × (digits.now ≡ map bit_digit b) × (out.new ≡ out.old ++ b)) }
    ensures more { (b : List Bool) × (out.new ≡ out.old ++ b) }
{
    let number = few_number(digits)?;
    out.put(digits.len(), number).ok()
}

/// The number of the bits of at most 32 digits.
#[inline(always)]
fn few_number(digits: &[u8]) -> Option<u64>
    requires { length digits.now ≤ 32 }
    ensures { IfSome result (λ n. (n < 2 ^ length digits.now) × (digits.now ≡ map bit_digit (num (length digits.now) n))) }
{
    let (mut number, left) = eights(digits)?;
    for digit in left {
        number = 2 * number + u64::from(bit_of(*digit)?);
    }
    Some(number)
}
