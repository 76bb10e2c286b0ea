//! Pairs of name and number, written over bytes from a place on.

ghost use Rattle.std.specs.Prelude.{◌≡◌, ◌+◌, ◌*◌, ◌≤◌, ◌++◌, ◌∷◌, [], true, length, take};
ghost use Rattle.serde_json.specs.Written.{comma_if, compact_text};
ghost use Rattle.etcs_vars.specs.declared.var.Var.TheVariants.{NID_RADIO};
ghost use Rattle.etcs_packet_text.specs.PairSinks.{later_pair, with_pairs};
ghost use Rattle.etcs_packet_text.specs.Trees.{number_tree, pair_tree};

use super::fronts::pair_front;
use super::place::{put_bytes, put_front, put_hex, put_number};
use super::unrolled::{Four, Put, PutEach};
use etcs_vars::Var;

/// The room for a pair.
pub(crate) const PAIR_ROOM: usize = 64;

/// Writes pairs at a place, the first of them after a comma unless it is the first of its list, and returns where they
/// end. There is no loop if they are at most five.
#[inline(always)]
pub(super) fn put_pairs(place: &mut [u8], at: usize, later: bool, sent: &[(Var, u64)]) -> usize
    requires { at + 64 * length sent.now ≤ length place.old }
    ensures len { length place.new ≡ length place.old }
    ensures most { result ≤ at + 64 * length sent.now }
    ensures bytes { take result place.new ≡ (with_pairs (take at place.old, later) sent.now).0 }
{
    match sent {
        [] => at,
        [first, others @ ..] => {
            let end = put_pair(place, at, later, first.0, first.1);
            <Four as PutEach<LaterPair>>::put_each(place, end, others)
        }
    }
}

/// The pair of a variable, after another.
struct LaterPair;

impl Put for LaterPair {
    ghost room = { 64 };

    ghost text = { later_pair };

    #[inline(always)]
    fn put(place: &mut [u8], at: usize, var: Var, number: u64) -> usize {
        put_pair(place, at, true, var, number)
    }
}

/// Writes the pair of a variable at a place, after a comma unless it is the first of its list, and returns where it
/// ends.
#[tactic(auto, using(std::proofs::Common::append_assoc))]
#[inline(always)]
pub(crate) fn put_pair(place: &mut [u8], at: usize, later: bool, var: Var, number: u64) -> usize
    requires { at + 64 ≤ length place.old }
    ensures len { length place.new ≡ length place.old }
    ensures most { result ≤ at + 64 }
    ensures bytes { take result place.new ≡ take at place.old ++ (comma_if later ++ compact_text (pair_tree (var, number))) }
{
    let end = put_front(place, at, pair_front(later, var));
    put_value(place, end, var, number)
}

/// Writes the number of a variable and the end of its pair.
#[inline(always)]
fn put_value(place: &mut [u8], at: usize, var: Var, number: u64) -> usize
    requires { at + 24 ≤ length place.old }
    ensures len { length place.new ≡ length place.old }
    ensures most { result ≤ at + 24 }
    ensures bytes { take result place.new ≡ take at place.old ++ (compact_text (number_tree var number) ++ 93 ∷ []) }
{
    if var == Var::NID_RADIO {
        return put_radio(place, at, number);
    }
    put_number(place, at, number, b']')
}

/// Writes the sixteen digits of NID_RADIO in quotes, and the end of its pair.
#[inline(never)]
fn put_radio(place: &mut [u8], at: usize, number: u64) -> usize
    requires { at + 19 ≤ length place.old }
    ensures len { length place.new ≡ length place.old }
    ensures most { result ≤ at + 19 }
    ensures bytes { take result place.new ≡ take at place.old ++ (compact_text (number_tree NID_RADIO number) ++ 93 ∷ []) }
{
    let end = put_bytes(place, at, b"\"");
    let end = put_hex(place, end, 16, number);
    put_bytes(place, end, b"\"]")
}
