//! The numbers of the variable that comes next with which something continues, next to those that begin with some bits.

ghost use Rattle.std.specs.Prelude.{◌≡◌, ℕ, ◌-◌, ◌/◌, ◌^◌, ◌<◌, ◌≤◌, Some};
ghost use Rattle.etcs_vars.specs.Vars.{width};
ghost use Rattle.etcs_reader.specs.Rests.{Goes, Starts};
ghost use Rattle.etcs_reader.specs.Blocks.{Continues, IsAbove, IsBelow};

use crate::rest::Rest;
use etcs_vars::Var;

/// The least number with these first bits with which something continues; there is one.
fn least_begun<R: Rest>(left: &R, var: Var, rest: usize, bits: u64) -> u64
    requires next { R.next left.now ≡ Some var }
    requires rest { rest < width var }
    requires fits { bits < 2 ^ (width var - rest) }
    requires starts { Starts (R.left left.now) var rest bits }
    ensures continues { Continues (R.left left.now) var result }
    ensures begins { result / 2 ^ rest ≡ bits }
    ensures least { (n : ℕ) → n / 2 ^ rest ≡ bits → Continues (R.left left.now) var n → result ≤ n }
{
    let mut number = bits;
    let mut more = rest;
    while more > 0 {
        more -= 1;
        number *= 2;
        if !left.begins(var, more, number) {
            number += 1;
        }
    }
    number
}

/// The greatest number with these first bits with which something continues; there is one.
fn greatest_begun<R: Rest>(left: &R, var: Var, rest: usize, bits: u64) -> u64
    requires next { R.next left.now ≡ Some var }
    requires rest { rest < width var }
    requires fits { bits < 2 ^ (width var - rest) }
    requires starts { Starts (R.left left.now) var rest bits }
    ensures continues { Continues (R.left left.now) var result }
    ensures begins { result / 2 ^ rest ≡ bits }
    ensures greatest { (n : ℕ) → n / 2 ^ rest ≡ bits → Continues (R.left left.now) var n → n ≤ result }
{
    let mut number = bits;
    let mut more = rest;
    while more > 0 {
        more -= 1;
        number = number * 2 + 1;
        if !left.begins(var, more, number) {
            number -= 1;
        }
    }
    number
}

/// The least number with which something continues above those that begin with these bits.
pub(crate) fn above<R: Rest>(left: &R, var: Var, rest: usize, bits: u64) -> Option<u64>
    requires next { R.next left.now ≡ Some var }
    requires goes { Goes (R.left left.now) }
    requires rest { rest < width var }
    requires fits { bits < 2 ^ (width var - rest) }
    ensures { IsAbove (Continues (R.left left.now) var) rest bits result }
{
    let mut block = bits;
    let mut more = rest;
    while more < var.width() {
        if block % 2 == 0 && left.begins(var, more, block + 1) {
            return Some(least_begun(left, var, more, block + 1));
        }
        block /= 2;
        more += 1;
    }
    None
}

/// The greatest number with which something continues below those that begin with these bits.
pub(crate) fn below<R: Rest>(left: &R, var: Var, rest: usize, bits: u64) -> Option<u64>
    requires next { R.next left.now ≡ Some var }
    requires goes { Goes (R.left left.now) }
    requires rest { rest < width var }
    requires fits { bits < 2 ^ (width var - rest) }
    ensures { IsBelow (Continues (R.left left.now) var) rest bits result }
{
    let mut block = bits;
    let mut more = rest;
    while more < var.width() {
        if block % 2 == 1 && left.begins(var, more, block - 1) {
            return Some(greatest_begun(left, var, more, block - 1));
        }
        block /= 2;
        more += 1;
    }
    None
}
