//! Numbers as digits.

ghost use Rattle.std.specs.Prelude.{◌≡◌, ◌<◌, ◌++◌, OnErr, OnOk};
ghost use Rattle.std.specs.Fmt.{decimal};
ghost use Rattle.etcs_packet_text.specs.Fronts.{Begins};
ghost use Rattle.etcs_packet_text.specs.Show.{hex_digit};

use itoa::Buffer;
use std::alloc::AllocError;

/// Appends a number in decimal, with no leading zero.
///
/// # Errors
///
/// `AllocError` if out of memory. `out` then begins with what was there; what else it has isn't promised.
pub fn write_decimal(number: u64, out: &mut Vec<u8>) -> Result<(), AllocError>
    ensures ok { OnOk result (out.new.items ≡ out.old.items ++ decimal number) }
    ensures err { OnErr result (Begins out.old.items out.new.items) }
{
    let mut buffer = Buffer::new();
    out.extend_from_slice(buffer.format(number).as_bytes())
}

/// The digit of four bits, in lower case.
pub(crate) fn hex_digit_of(bits: u8) -> u8
    requires { bits < 16 }
    ensures { result ≡ hex_digit bits }
{
    if bits < 10 {
        b'0' + bits
    } else {
        b'a' + (bits - 10)
    }
}
