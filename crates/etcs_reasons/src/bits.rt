//! Bits that are written as digits 0 and 1.

ghost use Rattle.std.specs.Prelude.{◌≡◌, ◌<◌, ◌≤◌, slice_index, length};
ghost use Rattle.std.specs.List.{list_all};
ghost use Rattle.etcs_reasons.specs.BitDigits.{are_bits, bit_pair, is_bit_pair, packed, packed_byte};

use etcs_text::Kind;

/// Whether these are two digits 0 or 1.
fn is_bit_pair(byte: u8) -> bool
    ensures { result ≡ is_bit_pair byte }
{
    matches!(byte, 0x00 | 0x01 | 0x10 | 0x11)
}

/// Whether each byte is two digits 0 or 1.
fn are_bit_pairs(bytes: &[u8]) -> bool
    ensures { result ≡ list_all is_bit_pair bytes.now }
{
    bytes.iter().all(|byte| is_bit_pair(*byte))
}

/// Whether the bytes of a line's digits are the bits of a telegram of the kind, written as 210 or 830 digits 0 and 1, two in
/// each byte. Never true for messages.
pub fn are_bits(kind: Kind, bytes: &[u8]) -> bool
    ensures { result ≡ are_bits kind bytes.now }
{
    match kind {
        Kind::Long => bytes.len() == 415 && are_bit_pairs(bytes),
        Kind::Short => bytes.len() == 105 && are_bit_pairs(bytes),
        Kind::Radio | Kind::Train => false,
    }
}

/// Returns the byte at this place, or 0 after the end.
#[tactic(auto, using(std::proofs::lemmas::List::get_or_past))]
pub fn byte_at(bytes: &[u8], i: usize) -> u8
    ensures { result ≡ slice_index bytes.now i }
{
    if i < bytes.len() { bytes[i] } else { 0 }
}

/// The bits that two such digits are, as a number.
fn bit_pair(byte: u8) -> u8
    ensures value { result ≡ bit_pair byte }
    ensures below { result ≤ 3 }
{
    match byte {
        0x11 => 3,
        0x10 => 2,
        0x01 => 1,
        _ => 0,
    }
}

/// The byte at this place that eight such digits are.
fn packed_byte(bytes: &[u8], i: usize) -> u8
    requires { i < 104 }
    ensures { result ≡ packed_byte bytes.now i }
{
    let first = bit_pair(byte_at(bytes, 4 * i)) * 4 + bit_pair(byte_at(bytes, 4 * i + 1));
    let second = bit_pair(byte_at(bytes, 4 * i + 2)) * 4 + bit_pair(byte_at(bytes, 4 * i + 3));
    first * 16 + second
}

/// Returns the bytes of the bits that such digits are, four bytes of digits to a byte, with zeros after them.
pub fn packed(bytes: &[u8]) -> [u8; 104]
    ensures { result ≡ packed bytes.now }
{
    let mut packed = [0; 104];
    for i in 0..104 {
        packed[i] = packed_byte(bytes, i);
    }
    packed
}
