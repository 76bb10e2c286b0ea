//! The number of a pair and what is after it.

ghost use Rattle.std.specs.Prelude.{◌≡◌, ◌+◌, ◌^◌, ◌<◌, ◌≤◌, ◌⊎◌, ◌++◌, ◌∷◌, ℕ, List, true, IfSome, IfNone, length, drop, decimal};
ghost use Rattle.etcs_packet_text.specs.Show.{hex_digit};
ghost use Rattle.etcs_json_trees.specs.PairTexts.{NoDigit, hex_text, number_text};

/// The decimal number from a place on, of no more digits than a number of this many bits may have, and the place after it
/// and this byte.
#[inline(always)]
pub(crate) fn decimal_number(
    text: &[u8; 64],
    at: usize,
    width: usize,
    end: u8,
) -> Option<(u64, usize)>
    requires at { at ≤ 32 }
    requires width { width ≤ 33 }
    ensures place { IfSome result (λ r. (at < r.1) × (r.1 ≤ at + 11)) }
    ensures small { IfSome result (λ r. r.0 < 10 ^ 10) }
    ensures some { IfSome result (λ r. drop at text.now ≡ decimal r.0 ++ end ∷ drop r.1 text.now) }
    ensures none { IfNone result (57 < end → (n : ℕ) (s : List ℕ) → n < 2 ^ width → drop at text.now ≡ decimal n ++ end ∷ s → ⊥) }
{
    let first = digit_at(text, at);
    if first > 9 {
        return None;
    }
    let (number, place) = more_digits(text, at, most_digits(width), first);
    if text[place] != end {
        return None;
    }
    Some((number, place + 1))
}

/// The number that the digit at a place and those after it are, of at most `most` digits, and the place after them. After a
/// zero there are no others.
#[inline(always)]
fn more_digits(text: &[u8; 64], at: usize, most: usize, first: u64) -> (u64, usize)
    requires at { at ≤ 32 }
    requires some { 0 < most }
    requires most { most ≤ 10 }
    requires digit { first < 10 }
    requires first { drop at text.now ≡ (48 + first) ∷ drop (at + 1) text.now }
    ensures from { at < result.1 }
    ensures place { result.1 ≤ at + most }
    ensures small { result.0 < 10 ^ 10 }
    ensures text { drop at text.now ≡ decimal result.0 ++ drop result.1 text.now }
    ensures stops { (result.0 ≡ 0) ⊎ (NoDigit (drop result.1 text.now) ⊎ (result.1 ≡ at + most)) }
{
    let mut number = first;
    let mut place = at + 1;
    if first == 0 {
        return (number, place);
    }
    while place < at + most {
        let digit = digit_at(text, place);
        if digit > 9 {
            break;
        }
        number = 10 * number + digit;
        place += 1;
    }
    (number, place)
}

/// How many digits a number of this many bits has at most, or a few more.
#[inline]
fn most_digits(width: usize) -> usize
    requires { width ≤ 33 }
    ensures some { 0 < result }
    ensures few { result ≤ 10 }
    ensures most { 2 ^ width ≤ 10 ^ result }
{
    match width {
        0..=3 => 1,
        4..=6 => 2,
        7..=9 => 3,
        10..=13 => 4,
        14..=16 => 5,
        17..=19 => 6,
        20..=26 => 8,
        _ => 10,
    }
}

/// What the byte at a place is above the digit zero, 0 to 9 if it is a digit.
#[inline]
fn digit_at(text: &[u8; 64], at: usize) -> u64
    requires { at < 64 }
    ensures digit { result < 10 → drop at text.now ≡ (48 + result) ∷ drop (at + 1) text.now }
    ensures none { 9 < result → NoDigit (drop at text.now) }
{
    u64::from(text[at]).wrapping_sub(48)
}

/// The number of sixteen hexadecimal digits in quotes from a place on, and the place after it and a bracket.
#[inline(never)]
pub(crate) fn hexadecimal_number(text: &[u8; 64], at: usize) -> Option<(u64, usize)>
    requires { at ≤ 32 }
    ensures place { IfSome result (λ r. r.1 ≡ at + 19) }
    ensures small { IfSome result (λ r. r.0 < 2 ^ 64) }
    ensures some { IfSome result (λ r. drop at text.now ≡ number_text true r.0 ++ 93 ∷ drop r.1 text.now) }
    ensures none { IfNone result ((n : ℕ) (s : List ℕ) → n < 2 ^ 64 → drop at text.now ≡ number_text true n ++ 93 ∷ s → ⊥) }
{
    if text[at] != b'"' {
        return None;
    }
    if text[at + 17] != b'"' {
        return None;
    }
    if text[at + 18] != b']' {
        return None;
    }
    let number = hex_number(&text[at + 1..at + 17])?;
    Some((number, at + 19))
}

/// The number of sixteen hexadecimal digits in lower case.
#[inline(always)]
fn hex_number(text: &[u8]) -> Option<u64>
    requires { length text.now ≡ 16 }
    ensures some { IfSome result (λ n. (n < 2 ^ 64) × (text.now ≡ hex_text n)) }
    ensures none { IfNone result ((n : ℕ) → text.now ≡ hex_text n → ⊥) }
{
    let mut number = 0u64;
    for digit in text {
        number = number * 16 + u64::from(digit_value(*digit)?);
    }
    Some(number)
}

/// The number that a hexadecimal digit in lower case stands for.
fn digit_value(digit: u8) -> Option<u8>
    ensures some { IfSome result (λ d. (d < 16) × (digit ≡ hex_digit d)) }
    ensures none { IfNone result ((d : ℕ) → d < 16 → digit ≡ hex_digit d → ⊥) }
{
    match digit {
        b'0'..=b'9' => Some(digit - 48),
        b'a'..=b'f' => Some(digit - 87),
        _ => None,
    }
}
