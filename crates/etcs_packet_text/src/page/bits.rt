//! Bits as digits, written over bytes from a place on.

ghost use Rattle.std.specs.Prelude.{◌≡◌, ◌+◌, ◌<◌, ◌≤◌, ◌++◌, length, map, take};
ghost use Rattle.etcs_bits.specs.Bits.{num};
ghost use Rattle.etcs_packet_text.specs.Show.{bit_digit};

use super::place::put_bytes;
use etcs_bits::BitSlice;

/// The digits of each byte's bits.
#[rattlefmt::skip]
static BYTES: [[u8; 8]; 256] = [
    *b"00000000", *b"00000001", *b"00000010", *b"00000011", *b"00000100", *b"00000101", *b"00000110", *b"00000111",
    *b"00001000", *b"00001001", *b"00001010", *b"00001011", *b"00001100", *b"00001101", *b"00001110", *b"00001111",
    *b"00010000", *b"00010001", *b"00010010", *b"00010011", *b"00010100", *b"00010101", *b"00010110", *b"00010111",
    *b"00011000", *b"00011001", *b"00011010", *b"00011011", *b"00011100", *b"00011101", *b"00011110", *b"00011111",
    *b"00100000", *b"00100001", *b"00100010", *b"00100011", *b"00100100", *b"00100101", *b"00100110", *b"00100111",
    *b"00101000", *b"00101001", *b"00101010", *b"00101011", *b"00101100", *b"00101101", *b"00101110", *b"00101111",
    *b"00110000", *b"00110001", *b"00110010", *b"00110011", *b"00110100", *b"00110101", *b"00110110", *b"00110111",
    *b"00111000", *b"00111001", *b"00111010", *b"00111011", *b"00111100", *b"00111101", *b"00111110", *b"00111111",
    *b"01000000", *b"01000001", *b"01000010", *b"01000011", *b"01000100", *b"01000101", *b"01000110", *b"01000111",
    *b"01001000", *b"01001001", *b"01001010", *b"01001011", *b"01001100", *b"01001101", *b"01001110", *b"01001111",
    *b"01010000", *b"01010001", *b"01010010", *b"01010011", *b"01010100", *b"01010101", *b"01010110", *b"01010111",
    *b"01011000", *b"01011001", *b"01011010", *b"01011011", *b"01011100", *b"01011101", *b"01011110", *b"01011111",
    *b"01100000", *b"01100001", *b"01100010", *b"01100011", *b"01100100", *b"01100101", *b"01100110", *b"01100111",
    *b"01101000", *b"01101001", *b"01101010", *b"01101011", *b"01101100", *b"01101101", *b"01101110", *b"01101111",
    *b"01110000", *b"01110001", *b"01110010", *b"01110011", *b"01110100", *b"01110101", *b"01110110", *b"01110111",
    *b"01111000", *b"01111001", *b"01111010", *b"01111011", *b"01111100", *b"01111101", *b"01111110", *b"01111111",
    *b"10000000", *b"10000001", *b"10000010", *b"10000011", *b"10000100", *b"10000101", *b"10000110", *b"10000111",
    *b"10001000", *b"10001001", *b"10001010", *b"10001011", *b"10001100", *b"10001101", *b"10001110", *b"10001111",
    *b"10010000", *b"10010001", *b"10010010", *b"10010011", *b"10010100", *b"10010101", *b"10010110", *b"10010111",
    *b"10011000", *b"10011001", *b"10011010", *b"10011011", *b"10011100", *b"10011101", *b"10011110", *b"10011111",
    *b"10100000", *b"10100001", *b"10100010", *b"10100011", *b"10100100", *b"10100101", *b"10100110", *b"10100111",
    *b"10101000", *b"10101001", *b"10101010", *b"10101011", *b"10101100", *b"10101101", *b"10101110", *b"10101111",
    *b"10110000", *b"10110001", *b"10110010", *b"10110011", *b"10110100", *b"10110101", *b"10110110", *b"10110111",
    *b"10111000", *b"10111001", *b"10111010", *b"10111011", *b"10111100", *b"10111101", *b"10111110", *b"10111111",
    *b"11000000", *b"11000001", *b"11000010", *b"11000011", *b"11000100", *b"11000101", *b"11000110", *b"11000111",
    *b"11001000", *b"11001001", *b"11001010", *b"11001011", *b"11001100", *b"11001101", *b"11001110", *b"11001111",
    *b"11010000", *b"11010001", *b"11010010", *b"11010011", *b"11010100", *b"11010101", *b"11010110", *b"11010111",
    *b"11011000", *b"11011001", *b"11011010", *b"11011011", *b"11011100", *b"11011101", *b"11011110", *b"11011111",
    *b"11100000", *b"11100001", *b"11100010", *b"11100011", *b"11100100", *b"11100101", *b"11100110", *b"11100111",
    *b"11101000", *b"11101001", *b"11101010", *b"11101011", *b"11101100", *b"11101101", *b"11101110", *b"11101111",
    *b"11110000", *b"11110001", *b"11110010", *b"11110011", *b"11110100", *b"11110101", *b"11110110", *b"11110111",
    *b"11111000", *b"11111001", *b"11111010", *b"11111011", *b"11111100", *b"11111101", *b"11111110", *b"11111111",
];

/// Writes the bits of a byte at a place, the top bit first, and returns where they end.
#[inline(always)]
pub(crate) fn put_byte(place: &mut [u8], at: usize, byte: u8) -> usize
    requires { at + 8 ≤ length place.old }
    ensures len { length place.new ≡ length place.old }
    ensures end { result ≡ at + 8 }
    ensures bytes { take result place.new ≡ take at place.old ++ map bit_digit (num 8 byte) }
{
    let digits = byte_digits(byte);
    put_bytes(place, at, &digits)
}

/// The digits of a byte's bits, the top bit first.
#[inline]
fn byte_digits(byte: u8) -> [u8; 8]
    ensures { result ≡ map bit_digit (num 8 byte) }
{
    BYTES[usize::from(byte)]
}

/// The room for up to 64 bits.
pub(crate) const BITS_ROOM: usize = 72;

/// Writes the lowest bits of a number at a place, the most significant first, and returns where they end.
#[inline(always)]
pub(crate) fn put_bits(place: &mut [u8], at: usize, number: u64, width: usize) -> usize
    requires width { width ≤ 64 }
    requires room { at + width + 8 ≤ length place.old }
    ensures len { length place.new ≡ length place.old }
    ensures end { result ≡ at + width }
    ensures bytes { take result place.new ≡ take at place.old ++ map bit_digit (num width number) }
{
    let mut end = at;
    let mut left = width;
    while left >= 8 {
        left -= 8;
        end = put_byte(place, end, ((number >> left) & 0xff) as u8);
    }
    put_few(place, end, number, left)
}

/// Writes fewer than eight bits at a place.
#[inline(always)]
fn put_few(place: &mut [u8], at: usize, number: u64, width: usize) -> usize
    requires width { width < 8 }
    requires room { at + 8 ≤ length place.old }
    ensures len { length place.new ≡ length place.old }
    ensures end { result ≡ at + width }
    ensures bytes { take result place.new ≡ take at place.old ++ map bit_digit (num width number) }
{
    put_byte(place, at, ((number << (8 - width)) & 0xff) as u8);
    at + width
}

/// Writes bits as digits at a place, and returns where they end.
pub(crate) fn put_slice(place: &mut [u8], at: usize, bits: &BitSlice<'_>) -> usize
    requires room { at + length bits.now + 8 ≤ length place.old }
    ensures len { length place.new ≡ length place.old }
    ensures end { result ≡ at + length bits.now }
    ensures bytes { take result place.new ≡ take at place.old ++ map bit_digit bits.now }
{
    let count = bits.len();
    let mut end = at;
    let mut from = 0;
    while from < count {
        let width = (count - from).min(56);
        match bits.number(from, width) {
            Some(number) => end = put_bits(place, end, number, width),
            None => unreachable!(),
        }
        from += width;
    }
    end
}
