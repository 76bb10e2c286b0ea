//! Hexadecimal lines.

ghost use Rattle.std.specs.Prelude.{◌≡◌, ◌≤◌, None, Some, IfErr, IfOk, OnOk, not, length, take};
ghost use Rattle.std.specs.List.{position_or_len};
ghost use Rattle.hex.specs.Hex.{is_hex_digit};
ghost use Rattle.etcs_stream.specs.Lines.{bad_place, line_bytes};

use etcs_runs::inner::{decode, is_digit};

/// How many characters a line may have.
pub(crate) const MOST_CHARACTERS: usize = 4096;

/// The place of the first character that is no digit, or the end if all are digits.
fn first_bad(line: &[u8]) -> usize
    ensures { result ≡ position_or_len (λ c. not (is_hex_digit c)) line.now }
{
    line.iter()
        .take_while(|character| is_digit(**character))
        .count()
}

/// Writes the bytes of a line of hexadecimal digits to the front of `buffer` and returns how many they are; or returns the
/// place, from 0, at which the line is bad.
pub(crate) fn decode_line(line: &[u8], buffer: &mut [u8]) -> Result<usize, usize>
    requires { length buffer.old ≡ 2048 }
    ensures good { OnOk result (bad_place line.now ≡ None) }
    ensures within { IfOk result (λ n. n ≤ length buffer.new) }
    ensures bytes { IfOk result (λ n. take n buffer.new ≡ line_bytes line.now) }
    ensures bad { IfErr result (λ place. bad_place line.now ≡ Some place) }
{
    if line.len() > MOST_CHARACTERS {
        return Err(MOST_CHARACTERS);
    }
    if line.len() % 2 == 1 {
        return Err(line.len());
    }
    let count = line.len() / 2;
    if decode(line, &mut buffer[..count]) {
        return Ok(count);
    }
    Err(first_bad(line))
}
