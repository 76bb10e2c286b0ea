//! The refusal of a bit that a reader refused.

ghost use Rattle.std.specs.Prelude.{◌≡◌, ◌+◌, ◌-◌, ◌*◌, ◌^◌, ◌<◌, ◌≤◌, Err, Some, length};
ghost use Rattle.etcs_bits.specs.Bits.{bits, number_at};
ghost use Rattle.etcs_vars.specs.declared.var.Var.{Var};
ghost use Rattle.etcs_vars.specs.Vars.{width};
ghost use Rattle.etcs_reader.specs.Feeders.{Feeds, all_of};
ghost use Rattle.etcs_reader.specs.Rests.{Goes};
ghost use Rattle.etcs_rows.specs.Causes.{Exactly, IsAt};
ghost use Rattle.etcs_rows.specs.Refusals.{FindsRefusal, IsBlockHere, Reasons, Tells};

use crate::here::Here;
use crate::refusal::Refusal;
use etcs_bits::peek;
use etcs_reader::{Block, Feeder, Rest, Stop};
use etcs_vars::Var;

/// What is left of a language, where it is known which numbers may come next.
pub trait Expects: Rest + Drop {
    /// What comes next, as far as it says which numbers may: exactly those, of the variable that comes next, with which
    /// something continues.
    fn here(&self) -> Here
        ensures at { (x : Var) → Self.next self.now ≡ Some x → IsAt result x }
        ensures exactly { (x : Var) → Self.next self.now ≡ Some x → Goes (Self.left self.now) → Exactly (Self.left self.now) x result };
}

/// The refusal of this bit, from the block of numbers that begin with the bits of its variable up to it.
fn refusal_by(bytes: &[u8], bit: usize, var: Var, block: Block, here: Here) -> Refusal
    requires at { IsAt here var }
    requires block { IsBlockHere here var block }
    requires within { block.count ≤ bit + 1 }
    ensures same { (result.bit ≡ bit) × (result.var ≡ var) × (result.bits ≡ block.bits) × (result.count ≡ block.count) × (result.here ≡ here) }
    ensures number { result.number ≡ number_at (bit + 1 - block.count) (width var) (bits bytes.now) }
    ensures reasons { Reasons result }
{
    let rest = var.width() - block.count;
    let before = block.count - 1;
    let at = bit - before;
    Refusal {
        bit,
        var,
        bits: block.bits,
        count: block.count,
        number: peek(bytes, at, var.width()),
        cause: here.cause(var, rest, block.bits),
        below: block.below,
        above: block.above,
        here,
    }
}

/// Returns why a bit is refused, from a reader that was fed these bytes from its first bit on, and nothing else, and
/// refused it. `here` must be what comes next in what is left, and `var` the variable that does.
fn refusal_of<R: Rest>(
    feeder: &Feeder<R>,
    bytes: &[u8],
    bit: usize,
    var: Var,
    here: Here,
) -> Refusal
    requires fed { (start : R) × Feeds R R.left R.next R.follows R.fails (all_of start) (bits bytes.now) (Err (Stop.Refused bit var)) feeder.now }
    requires at { IsAt here var }
    requires here { Exactly (R.left feeder.now.rest) var here }
    ensures { Tells R R.left R.next R.follows R.fails (bits bytes.now) bit var feeder.now result }
{
    let block = feeder.block(bytes, bit, var);
    refusal_by(bytes, bit, var, block, here)
}

/// Returns the first bit of these bytes with which nothing that is left continues, and why; `None` if there is none: then
/// they begin with something that is left, or end inside of it.
///
/// Something must be left, and what is left must take no memory.
pub fn refusal_in<R: Expects>(rest: R, bytes: &[u8]) -> Option<Refusal>
    requires goes { Goes (R.left rest) }
    requires memory { (s : R) → R.fails s → ⊥ }
    requires short { length bytes.now ≤ 1023 }
    ensures { FindsRefusal (R.left rest) (bits bytes.now) result }
{
    let mut feeder = Feeder::new(rest);
    match feeder.feed(bytes) {
        Ok(_) => None,
        Err(Stop::Refused { bit, var }) => {
            let here = feeder.rest().here();
            Some(refusal_of(&feeder, bytes, bit, var, here))
        }
        Err(Stop::Memory) => unreachable!(),
    }
}
