//! Hexadecimal digits, and the bytes that they stand for.

ghost use Rattle.std.specs.Prelude.{◌≡◌, ◌*◌, Ok, IsTrue, length, unwrap_or};
ghost use Rattle.std.specs.List.{list_all};
ghost use Rattle.hex.specs.Hex.{decode_of, hex_digit_value, is_hex_digit};

/// The value of each hexadecimal digit of either case, and 256 at each other character.
#[rattlefmt::skip]
static DIGITS: [u16; 256] = [
    256, 256, 256, 256, 256, 256, 256, 256, 256, 256, 256, 256, 256, 256, 256, 256,
    256, 256, 256, 256, 256, 256, 256, 256, 256, 256, 256, 256, 256, 256, 256, 256,
    256, 256, 256, 256, 256, 256, 256, 256, 256, 256, 256, 256, 256, 256, 256, 256,
    0, 1, 2, 3, 4, 5, 6, 7, 8, 9, 256, 256, 256, 256, 256, 256,
    256, 10, 11, 12, 13, 14, 15, 256, 256, 256, 256, 256, 256, 256, 256, 256,
    256, 256, 256, 256, 256, 256, 256, 256, 256, 256, 256, 256, 256, 256, 256, 256,
    256, 10, 11, 12, 13, 14, 15, 256, 256, 256, 256, 256, 256, 256, 256, 256,
    256, 256, 256, 256, 256, 256, 256, 256, 256, 256, 256, 256, 256, 256, 256, 256,
    256, 256, 256, 256, 256, 256, 256, 256, 256, 256, 256, 256, 256, 256, 256, 256,
    256, 256, 256, 256, 256, 256, 256, 256, 256, 256, 256, 256, 256, 256, 256, 256,
    256, 256, 256, 256, 256, 256, 256, 256, 256, 256, 256, 256, 256, 256, 256, 256,
    256, 256, 256, 256, 256, 256, 256, 256, 256, 256, 256, 256, 256, 256, 256, 256,
    256, 256, 256, 256, 256, 256, 256, 256, 256, 256, 256, 256, 256, 256, 256, 256,
    256, 256, 256, 256, 256, 256, 256, 256, 256, 256, 256, 256, 256, 256, 256, 256,
    256, 256, 256, 256, 256, 256, 256, 256, 256, 256, 256, 256, 256, 256, 256, 256,
    256, 256, 256, 256, 256, 256, 256, 256, 256, 256, 256, 256, 256, 256, 256, 256,
];

/// The value of a hexadecimal digit of either case, or 256.
fn digit(character: u8) -> u16
    ensures { result ≡ unwrap_or (hex_digit_value character) 256 }
{
    DIGITS[usize::from(character)]
}

/// Returns whether the character is a hexadecimal digit of either case.
pub fn is_digit(character: u8) -> bool
    ensures { result ≡ is_hex_digit character }
{
    digit(character) < 256
}

/// Decodes a word of hexadecimal digits of either case into `bytes`, which it fills, and returns `true` exactly if each
/// character of the word is such a digit. What `bytes` has after `false` isn't promised, except that its length stays.
///
/// Requires that the word has twice as many characters as `bytes` has bytes.
pub fn decode(word: &[u8], bytes: &mut [u8]) -> bool
    requires { length word.now ≡ 2 * length bytes.old }
    ensures good { result ≡ list_all is_hex_digit word.now }
    ensures bytes { IsTrue result → decode_of word.now ≡ Ok bytes.new }
    ensures room { length bytes.new ≡ length bytes.old }
{
    let mut all = 0;
    'pairs: for i in 0..bytes.len() {
        let byte = digit(word[2 * i]) * 16 + digit(word[2 * i + 1]);
        all |= byte;
        bytes[i] = (byte % 256) as u8;
    }
    all < 256
}
