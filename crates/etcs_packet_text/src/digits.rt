//! Bytes as digits.

ghost use Rattle.std.specs.Prelude.{◌≡◌, ◌++◌, ◌∷◌, [], OnErr, OnOk};
ghost use Rattle.hex.specs.Hex.{encode_upper};

use std::alloc::AllocError;

/// Appends the hexadecimal digits of bytes, in upper case, and a LF.
///
/// # Errors
///
/// `AllocError` if out of memory. `out` then stays as it was.
pub fn append_digits(bytes: &[u8], out: &mut Vec<u8>) -> Result<(), AllocError>
    ensures ok { OnOk result (out.new.items ≡ out.old.items ++ (encode_upper bytes.now ++ 10 ∷ [])) }
    ensures err { OnErr result (out.new.items ≡ out.old.items) }
{
    let start = out.len();
    let digits = hex::encode_upper(*out.allocator(), bytes)?;
    out.extend_from_slice(digits.as_bytes())?;
    let ended = out.extend_from_slice(b"\n");
    if ended.is_err() {
        out.truncate(start);
    }
    ended
}
