//! What comes before the number of a pair.

ghost use Rattle.std.specs.Prelude.{◌≡◌, ◌↔◌, ◌+◌, ◌<◌, ◌≤◌, ◌++◌, ℕ, List, IsTrue, IfSome, IfNone, length, take, drop, codes};
ghost use Rattle.etcs_vars.specs.Vars.{name};
ghost use Rattle.etcs_json_trees.specs.PairTexts.{name_front};

use etcs_vars::inner::COUNT;
use etcs_vars::{Var, variables};

/// A bracket, the name in quotes, a comma, and 29 blanks.
macro_rules! padded_pair {
    ($var:ident $name:ident $($more:tt)*) => { concat!("[\"", stringify!($name), "\",", "                             ") };
}

static PADDED_PAIRS: [&str; COUNT] = variables!(padded_pair);

/// The front of a variable's pair, and 29 blanks.
#[inline(always)]
fn padded_front(var: Var) -> &'static [u8]
    ensures { result.now ≡ name_front (name var) ++ codes "                             " }
{
    PADDED_PAIRS[var as usize].as_bytes()
}

/// How many bytes the front of a variable's pair has, if the text begins with it.
#[inline(always)]
pub(crate) fn front_len(text: &[u8; 64], var: Var) -> Option<usize>
    ensures most { IfSome result (λ n. n ≤ 32) }
    ensures some { IfSome result (λ n. text.now ≡ name_front (name var) ++ drop n text.now) }
    ensures none { IfNone result ((s : List ℕ) → text.now ≡ name_front (name var) ++ s → ⊥) }
{
    let len = var.name().len() + 4;
    if !begin_alike(first_32(text), first_32(padded_front(var)), len) {
        return None;
    }
    Some(len)
}

/// The first 32 bytes.
#[inline]
fn first_32(bytes: &[u8]) -> &[u8; 32]
    requires { 32 ≤ length bytes.now }
    ensures { result.now ≡ take 32 bytes.now }
{
    match bytes.first_chunk::<32>() {
        Some(first) => first,
        None => unreachable!(),
    }
}

/// Whether the first `len` bytes, at least four, are the same, compared eight or four at a time.
#[inline(always)]
fn begin_alike(text: &[u8; 32], front: &[u8; 32], len: usize) -> bool
    requires least { 4 ≤ len }
    requires most { len ≤ 32 }
    ensures { IsTrue result ↔ (take len text.now ≡ take len front.now) }
{
    if len < 8 {
        return begin_by_four(text, front, len);
    }
    begin_by_eight(text, front, len)
}

/// Whether the first `len` bytes, four to eight, are the same: some may be compared twice.
#[inline(always)]
fn begin_by_four(text: &[u8; 32], front: &[u8; 32], len: usize) -> bool
    requires least { 4 ≤ len }
    requires most { len ≤ 8 }
    ensures { IsTrue result ↔ (take len text.now ≡ take len front.now) }
{
    if !same_four(text, front, 0) {
        return false;
    }
    same_four(text, front, len - 4)
}

/// Whether the first `len` bytes, at least eight, are the same: the last eight may be compared twice.
#[inline(always)]
fn begin_by_eight(text: &[u8; 32], front: &[u8; 32], len: usize) -> bool
    requires least { 8 ≤ len }
    requires most { len ≤ 32 }
    ensures { IsTrue result ↔ (take len text.now ≡ take len front.now) }
{
    if !same_eight(text, front, 0) {
        return false;
    }
    if !same_within(text, front, 8, len) {
        return false;
    }
    if !same_within(text, front, 16, len) {
        return false;
    }
    same_eight(text, front, len - 8)
}

/// Whether the eight bytes from a place on are the same, unless they are the last ones.
#[inline(always)]
fn same_within(text: &[u8; 32], front: &[u8; 32], at: usize, len: usize) -> bool
    requires { at + 8 ≤ 32 }
    ensures { IsTrue result ↔ (at + 8 < len → take 8 (drop at text.now) ≡ take 8 (drop at front.now)) }
{
    if len <= at + 8 {
        return true;
    }
    same_eight(text, front, at)
}

/// Whether the eight bytes from a place on are the same.
#[inline]
pub(crate) fn same_eight(text: &[u8], front: &[u8], at: usize) -> bool
    requires text { at + 8 ≤ length text.now }
    requires front { at + 8 ≤ length front.now }
    ensures { IsTrue result ↔ (take 8 (drop at text.now) ≡ take 8 (drop at front.now)) }
{
    match (
        text[at..].first_chunk::<8>(),
        front[at..].first_chunk::<8>(),
    ) {
        (Some(first), Some(second)) => is_same_word(first, second),
        _ => unreachable!(),
    }
}

/// Whether the four bytes from a place on are the same.
#[inline]
pub(crate) fn same_four(text: &[u8], front: &[u8], at: usize) -> bool
    requires text { at + 4 ≤ length text.now }
    requires front { at + 4 ≤ length front.now }
    ensures { IsTrue result ↔ (take 4 (drop at text.now) ≡ take 4 (drop at front.now)) }
{
    match (
        text[at..].first_chunk::<4>(),
        front[at..].first_chunk::<4>(),
    ) {
        (Some(first), Some(second)) => is_same_half(first, second),
        _ => unreachable!(),
    }
}

/// Whether eight bytes are the same, compared as one number.
#[inline(always)]
fn is_same_word(first: &[u8; 8], second: &[u8; 8]) -> bool
    ensures { IsTrue result ↔ (first.now ≡ second.now) }
{
    u64::from_le_bytes(*first) == u64::from_le_bytes(*second)
}

/// Whether four bytes are the same, compared as one number.
#[inline(always)]
pub(crate) fn is_same_half(first: &[u8; 4], second: &[u8; 4]) -> bool
    ensures { IsTrue result ↔ (first.now ≡ second.now) }
{
    u32::from_le_bytes(*first) == u32::from_le_bytes(*second)
}
