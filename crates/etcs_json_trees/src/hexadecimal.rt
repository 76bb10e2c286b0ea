//! Numbers read from their digits.

ghost use Rattle.std.specs.Prelude.{◌≡◌, ◌<◌, ◌^◌, ℕ, Some, IfSome, map};
ghost use Rattle.etcs_packet_text.specs.Show.{hex_digit, hex_digits};
ghost use Rattle.etcs_json_trees.specs.Digits.{lower};

/// The number that a hexadecimal digit of either case stands for.
fn digit_value(digit: u8) -> Option<u8>
    ensures some { IfSome result (λ d. (d < 16) × (lower digit ≡ hex_digit d)) }
    ensures only { (d : ℕ) → d < 16 → lower digit ≡ hex_digit d → result ≡ Some d }
{
    match digit {
        b'0'..=b'9' => Some(digit - 48),
        b'A'..=b'F' => Some(digit - 55),
        b'a'..=b'f' => Some(digit - 87),
        _ => None,
    }
}

/// Returns the number below 2^64 of exactly sixteen hexadecimal digits of either case, the first one the highest, as a pair
/// of NID_RADIO has them. `None` exactly if the text is anything else.
pub(crate) fn hex_number(text: &[u8]) -> Option<u64>
    ensures some { IfSome result (λ n. map lower text.now ≡ hex_digits 16 n) }
    ensures only { (n : ℕ) → n < 2 ^ 64 → map lower text.now ≡ hex_digits 16 n → result ≡ Some n }
{
    if text.len() != 16 {
        return None;
    }
    let mut number = 0u64;
    for digit in text {
        number = number * 16 + u64::from(digit_value(*digit)?);
    }
    Some(number)
}
