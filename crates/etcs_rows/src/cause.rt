//! Why no number that begins with some bits may come next.

ghost use Rattle.std.specs.Prelude.{◌≡◌, ℕ, ◌-◌, ◌/◌, ◌^◌, ◌<◌, ◌≤◌, IsTrue, IfSome, IsNone};
ghost use Rattle.etcs_vars.specs.Vars.{width, admits};
ghost use Rattle.etcs_tables.specs.Frames.{is_framed};
ghost use Rattle.etcs_reader.specs.Blocks.{NoneOf};
ghost use Rattle.etcs_rows.specs.Frames.{BodyLength};
ghost use Rattle.etcs_rows.specs.Nearest.{IsFirst};
ghost use Rattle.etcs_rows.specs.Causes.{IsAt, HasNumber, HasLength, Passes, OneOf, Claims, cause_by};

use crate::frames::{Carrier, ends};
use crate::here::Here;
use crate::place::{Place, Reach};
use etcs_tables::{Way, frame_bits, is_framed, is_kept, row_of};
use etcs_vars::{Var, begins};

/// Why no number of a variable that begins with some bits may come next.
#[derive(Clone, Copy, Debug, PartialEq, Eq)]
pub enum Cause {
    /// The tables have none of them, whatever is left.
    Spare,
    /// The tables have this one, and perhaps others, but none of them fits here.
    Unfit(u64),
}

/// A number of the variable that it admits and that begins with these bits.
fn one_admitted(var: Var, rest: usize, bits: u64) -> Option<u64>
    requires rest { rest < width var }
    requires fits { bits < 2 ^ (width var - rest) }
    ensures { OneOf (λ n. IsTrue (admits var n)) rest bits result }
{
    if !begins(var.ranges(), rest, bits) {
        return None;
    }
    let mut number = bits;
    let mut more = rest;
    while more > 0 {
        more -= 1;
        number *= 2;
        if !begins(var.ranges(), more, number) {
            number += 1;
        }
    }
    Some(number)
}

/// The first number from low to high of a packet that has a frame.
fn first_framed(way: Way, low: u8, high: u8) -> Option<u8>
    ensures some { IfSome result (λ n. (low ≤ n) × (n ≤ high) × IsTrue (is_framed way n)) }
    ensures none { IsNone result → (n : ℕ) → low ≤ n → n ≤ high → IsTrue (is_framed way n) → ⊥ }
{
    for nid in low..=high {
        if is_framed(way, nid) {
            return Some(nid);
        }
    }
    None
}

/// A number of a packet that begins with these bits, whatever is left.
fn one_number(carrier: Carrier, rest: usize, bits: u64) -> Option<u64>
    requires rest { rest ≤ 8 }
    requires fits { bits < 2 ^ (8 - rest) }
    ensures { OneOf (HasNumber carrier) rest bits result }
{
    let (low, high) = ends(8, rest, bits);
    match carrier {
        Carrier::Telegram => Some(low as u64),
        Carrier::Message(way) => match first_framed(way, low as u8, high as u8) {
            Some(nid) => Some(u64::from(nid)),
            None => None,
        },
    }
}

/// The least number of bits, at least `from`, that a packet of this number may have after its frame.
fn least_body(way: Way, nid: u8, from: usize) -> Option<usize>
    requires { from ≤ 8191 }
    ensures { IsFirst (λ m. BodyLength way nid m × (m ≤ 8191) × (from ≤ m)) result }
{
    match row_of(way, nid) {
        Some(row) => Reach::new(Place::start(row)).around(from).above,
        None => { if is_kept(way, nid) { Some(from) } else { None } }
    }
}

/// A length of a packet of this number that begins with these bits, whatever is left.
fn one_length(carrier: Carrier, nid: u8, rest: usize, bits: u64) -> Option<u64>
    requires rest { rest ≤ 13 }
    requires fits { bits < 2 ^ (13 - rest) }
    ensures { OneOf (HasLength carrier nid) rest bits result }
{
    let (low, high) = ends(13, rest, bits);
    let way = carrier.way();
    let frame = frame_bits(way);
    match least_body(way, nid, low.saturating_sub(frame)) {
        Some(least) => {
            if least + frame <= high {
                Some((least + frame) as u64)
            } else {
                None
            }
        }
        None => None,
    }
}

/// The cause, from a number that the tables have, if they have one.
fn cause_by(one: Option<u64>) -> Cause
    ensures { result ≡ cause_by one }
{
    match one {
        Some(number) => Cause::Unfit(number),
        None => Cause::Spare,
    }
}

impl Here {
    /// Returns why no number of the variable may come here that begins with `bits` and has `rest` bits more.
    ///
    /// `var` must be the variable that comes here, `rest` less than its width, and `bits` must fit the other bits. None of
    /// these numbers may come here.
    pub fn cause(&self, var: Var, rest: usize, bits: u64) -> Cause
        requires at { IsAt self.now var }
        requires rest { rest < width var }
        requires fits { bits < 2 ^ (width var - rest) }
        requires none { NoneOf (Passes self.now var) rest bits }
        ensures { Claims self.now var rest bits result }
    {
        match self {
            Here::Any => cause_by(one_admitted(var, rest, bits)),
            Here::MessageLength(_, _) => Cause::Spare,
            Here::PacketNumber(carrier, _) => cause_by(one_number(*carrier, rest, bits)),
            Here::PacketLength(carrier, nid, _) => cause_by(one_length(*carrier, *nid, rest, bits)),
            Here::Row(_, _, _) => cause_by(one_admitted(var, rest, bits)),
        }
    }
}
