//! Lines of variables, written over bytes from a place on.

ghost use Rattle.std.specs.Prelude.{◌≡◌, ◌+◌, ◌*◌, ◌≤◌, ◌++◌, Some, codes, length, take, flat_map};
ghost use Rattle.std.specs.Fmt.{decimal};
ghost use Rattle.etcs_vars.specs.Vars.{name, special};
ghost use Rattle.etcs_packet_text.specs.Show.{hex_digits, number_text, signed_text, special_text, bits_line, variable_line};

use super::bits::put_slice;
use super::fronts::line_front;
use super::place::{put_bytes, put_front, put_hex, put_number};
use super::unrolled::{Five, Put, PutEach};
use etcs_bits::BitSlice;
use etcs_vars::Var;

/// The room for a line.
pub(crate) const LINE_ROOM: usize = 80;

/// Writes lines of variables at a place, and returns where they end. There is no loop if they are at most five.
#[inline(always)]
pub(super) fn put_lines(place: &mut [u8], at: usize, sent: &[(Var, u64)]) -> usize
    requires { at + 80 * length sent.now ≤ length place.old }
    ensures len { length place.new ≡ length place.old }
    ensures most { result ≤ at + 80 * length sent.now }
    ensures bytes { take result place.new ≡ take at place.old ++ flat_map variable_line sent.now }
{
    <Five as PutEach<Line>>::put_each(place, at, sent)
}

/// The line of a variable.
struct Line;

impl Put for Line {
    ghost room = { 80 };

    ghost text = { variable_line };

    #[inline(always)]
    fn put(place: &mut [u8], at: usize, var: Var, number: u64) -> usize {
        put_line(place, at, var, number)
    }
}

/// Writes the line of a variable at a place, and returns where it ends.
#[inline(always)]
pub(crate) fn put_line(place: &mut [u8], at: usize, var: Var, number: u64) -> usize
    requires { at + 80 ≤ length place.old }
    ensures len { length place.new ≡ length place.old }
    ensures most { result ≤ at + 80 }
    ensures bytes { take result place.new ≡ take at place.old ++ variable_line (var, number) }
{
    let end = put_front(place, at, line_front(var));
    put_rest(place, end, var, number)
}

/// Writes the line of bits under a variable's name at a place, and returns where it ends.
#[inline(always)]
pub(crate) fn put_bits_line(place: &mut [u8], at: usize, var: Var, bits: &BitSlice<'_>) -> usize
    requires room { at + length bits.now + 64 ≤ length place.old }
    ensures len { length place.new ≡ length place.old }
    ensures most { result ≤ at + length bits.now + 64 }
    ensures bytes { take result place.new ≡ take at place.old ++ bits_line (name var) bits.now }
{
    let end = put_front(place, at, line_front(var));
    if bits.is_empty() {
        return put_bytes(place, end, b"0\n");
    }
    let end = put_number(place, end, bits.len() as u64, b' ');
    let end = put_slice(place, end, bits);
    put_bytes(place, end, b"\n")
}

/// Writes the number of a variable, its meaning if it has one of its own, and a LF.
#[inline(always)]
fn put_rest(place: &mut [u8], at: usize, var: Var, number: u64) -> usize
    requires { at + 50 ≤ length place.old }
    ensures len { length place.new ≡ length place.old }
    ensures most { result ≤ at + 50 }
    ensures bytes { take result place.new ≡ take at place.old ++ (number_text var number ++ special_text (special var number) ++ codes "\n") }
{
    if var == Var::NID_RADIO {
        return put_radio(place, at, number);
    }
    if var == Var::D_REF {
        return put_signed(place, at, number);
    }
    match var.special(number) {
        None => put_number(place, at, number, b'\n'),
        Some(text) => put_special(place, at, number, text.as_bytes()),
    }
}

/// Writes a number, its meaning, and a LF.
#[inline(never)]
fn put_special(place: &mut [u8], at: usize, number: u64, text: &[u8]) -> usize
    requires { at + 24 + length text.now ≤ length place.old }
    ensures len { length place.new ≡ length place.old }
    ensures most { result ≤ at + 24 + length text.now }
    ensures bytes { take result place.new ≡ take at place.old ++ (decimal number ++ special_text (Some text.now) ++ codes "\n") }
{
    let end = put_number(place, at, number, b' ');
    let end = put_bytes(place, end, b"(");
    let end = put_bytes(place, end, text);
    put_bytes(place, end, b")\n")
}

/// Writes the number of D_REF with its sign, and a LF.
#[inline(never)]
fn put_signed(place: &mut [u8], at: usize, number: u64) -> usize
    requires { at + 25 ≤ length place.old }
    ensures len { length place.new ≡ length place.old }
    ensures most { result ≤ at + 22 }
    ensures bytes { take result place.new ≡ take at place.old ++ (signed_text number ++ codes "\n") }
{
    if number < 32768 {
        return put_number(place, at, number, b'\n');
    }
    let end = put_bytes(place, at, b"-");
    put_number(place, end, 65536u64.saturating_sub(number), b'\n')
}

/// Writes the number of NID_RADIO in hexadecimal, and a LF.
#[inline(never)]
fn put_radio(place: &mut [u8], at: usize, number: u64) -> usize
    requires { at + 17 ≤ length place.old }
    ensures len { length place.new ≡ length place.old }
    ensures most { result ≤ at + 17 }
    ensures bytes { take result place.new ≡ take at place.old ++ (hex_digits 16 number ++ codes "\n") }
{
    let end = put_hex(place, at, 16, number);
    put_bytes(place, end, b"\n")
}
