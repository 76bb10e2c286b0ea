//! How many bytes a line has, and which, as they are reported.

ghost use Rattle.std.specs.Prelude.{◌≡◌, ◌++◌, Some};
ghost use Rattle.std.specs.Fmt.{WritesOnOk};
ghost use Rattle.etcs_log.specs.Notes.{byte_text, count_of, count_text, named_text, plural};

use etcs_reasons::inner::byte_at;
use std::fmt;

/// How many bytes there are.
#[derive(Clone, Copy)]
pub(crate) struct ByteCount {
    pub(crate) count: usize,
    /// The first four of them, and zeros after the end.
    first: [u8; 4],
    /// Whether the first ones are named.
    named: bool,
}

impl ByteCount {
    /// As many as these.
    pub(crate) fn of(named: bool, bytes: &[u8]) -> ByteCount
        ensures { result ≡ count_of named bytes.now }
    {
        ByteCount {
            count: bytes.len(),
            first: [
                byte_at(bytes, 0),
                byte_at(bytes, 1),
                byte_at(bytes, 2),
                byte_at(bytes, 3),
            ],
            named,
        }
    }
}

/// A byte as two digits.
#[derive(Clone, Copy)]
struct HexByte(u8);

impl fmt::Display for HexByte {
    ghost output = { λ byte. Some (byte_text byte.0) };

    fn fmt<W: fmt::Write>(&self, f: &mut fmt::Formatter<W>) -> fmt::Result {
        write!(f, "{:X}{:X}", self.0 / 16, self.0 % 16)
    }
}

/// The ending of a noun after this number.
pub(crate) fn plural(count: usize) -> &'static str
    ensures { result.now ≡ plural count }
{
    if count == 1 { "" } else { "s" }
}

/// Writes the first bytes, up to four, and two dots if there are more.
#[tactic(auto, using(std::proofs::Common::append_assoc), unfolding(crate::specs::Notes::named_text))]
fn write_named<W: fmt::Write>(count: &ByteCount, f: &mut fmt::Formatter<W>) -> fmt::Result
    ensures { WritesOnOk W.write_str_gives f.old result (named_text count.now) f.new }
{
    let (first, second) = (HexByte(count.first[0]), HexByte(count.first[1]));
    let (third, fourth) = (HexByte(count.first[2]), HexByte(count.first[3]));
    match count.count {
        1 => write!(f, " ({first})"),
        2 => write!(f, " ({first}{second})"),
        3 => write!(f, " ({first}{second}{third})"),
        4 => write!(f, " ({first}{second}{third}{fourth})"),
        _ => write!(f, " ({first}{second}{third}{fourth}..)"),
    }
}

impl fmt::Display for ByteCount {
    ghost output = { λ count. Some (count_text count) };

    #[tactic(auto, using(std::proofs::Common::append_assoc), unfolding(crate::specs::Notes::count_text))]
    fn fmt<W: fmt::Write>(&self, f: &mut fmt::Formatter<W>) -> fmt::Result {
        write!(f, "{} byte{}", self.count, plural(self.count))?;
        if !self.named {
            return Ok(());
        }
        write_named(self, f)
    }
}
