//! What comes before the number of a variable, in bytes of a constant count.

ghost use Rattle.std.specs.Prelude.{◌≡◌, ◌≤◌, ◌++◌, ◌∷◌, length, take, codes};
ghost use Rattle.serde_json.specs.Written.{comma_if};
ghost use Rattle.etcs_packet_text.specs.JsonParts.{pair_front};
ghost use Rattle.etcs_packet_text.specs.Show.{line_front};

use etcs_vars::inner::COUNT;
use etcs_vars::{Var, variables};

/// Two blanks, the name, a blank, and 29 blanks more.
macro_rules! padded_line {
    ($var:ident $name:ident $($more:tt)*) => { concat!("  ", stringify!($name), " ", "                             ") };
}

/// A comma, a bracket, the name in quotes, a comma, and 29 blanks.
macro_rules! padded_pair {
    ($var:ident $name:ident $($more:tt)*) => { concat!(",[\"", stringify!($name), "\",", "                             ") };
}

static PADDED_LINES: [&str; COUNT] = variables!(padded_line);

static PADDED_PAIRS: [&str; COUNT] = variables!(padded_pair);

/// A front in the first of 32 bytes, and how many they are.
#[derive(Clone, Copy)]
pub(crate) struct Front {
    pub(crate) bytes: [u8; 32],
    pub(crate) len: usize,
}

/// The front of a line, and 29 blanks more.
#[inline]
fn padded_line(var: Var) -> &'static [u8]
    ensures { result.now ≡ line_front var ++ codes "                             " }
{
    PADDED_LINES[var as usize].as_bytes()
}

/// The front of a line.
#[inline]
pub(crate) fn line_front(var: Var) -> Front
    ensures front { take result.len result.bytes ≡ line_front var }
    ensures most { result.len ≤ 24 }
{
    match padded_line(var).first_chunk::<32>() {
        Some(bytes) => Front {
            bytes: *bytes,
            len: var.name().len() + 3,
        },
        None => unreachable!(),
    }
}

/// The front of a pair after another, and 29 blanks more.
#[tactic(auto, unfolding(json::specs::Print::escape_byte))]
#[inline]
fn listed_pair(var: Var) -> &'static [u8]
    ensures { result.now ≡ 44 ∷ (pair_front var ++ codes "                             ") }
{
    PADDED_PAIRS[var as usize].as_bytes()
}

/// The front of a pair, after a comma unless it is the first of its list, and 29 blanks more.
#[inline]
fn padded_pair(later: bool, var: Var) -> &'static [u8]
    ensures { result.now ≡ comma_if later ++ (pair_front var ++ codes "                             ") }
{
    let front = listed_pair(var);
    if later { front } else { &front[1..] }
}

/// The front that the first bytes of some are.
#[inline]
fn first_front(bytes: &[u8], len: usize) -> Front
    requires room { 32 ≤ length bytes.now }
    requires len { len ≤ 32 }
    ensures front { take result.len result.bytes ≡ take len bytes.now }
    ensures len { result.len ≡ len }
{
    match bytes.first_chunk::<32>() {
        Some(bytes) => Front { bytes: *bytes, len },
        None => unreachable!(),
    }
}

/// The front of a pair, after a comma unless it is the first of its list.
#[inline(always)]
pub(crate) fn pair_front(later: bool, var: Var) -> Front
    ensures front { take result.len result.bytes ≡ comma_if later ++ pair_front var }
    ensures most { result.len ≤ 26 }
{
    let padded = padded_pair(later, var);
    let len = var.name().len() + 4;
    if later {
        return first_front(padded, len + 1);
    }
    first_front(padded, len)
}
