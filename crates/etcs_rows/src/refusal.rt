//! A refused bit, and why it is refused.

ghost use Rattle.std.specs.Prelude.{◌≡◌, ◌^◌, ◌<◌, ◌≤◌};
ghost use Rattle.etcs_vars.specs.Vars.{width};

use crate::cause::Cause;
use crate::here::Here;
use etcs_vars::Var;

/// A refused bit, and why it is refused: no number of its variable may come here that begins with the bits up to it.
#[derive(Debug, Drop)]
pub struct Refusal {
    /// The first bit with which nothing continues, counted from 0.
    pub bit: usize,
    /// The variable that holds it.
    pub var: Var,
    /// The bits of the variable up to the refused one, and with it, as a number, the first one most significant.
    pub bits: u64,
    /// How many they are.
    pub count: usize,
    /// The whole number of the variable, if the bytes have it.
    pub number: Option<u64>,
    /// Why no number that begins with these bits may come.
    pub cause: Cause,
    /// The greatest number below them that may come in their place.
    pub below: Option<u64>,
    /// The least number above them that may come in their place.
    pub above: Option<u64>,
    /// Which numbers may come here.
    pub here: Here,
    pub ghost some: { 0 < count },
    pub ghost short: { count ≤ width var },
    pub ghost fits: { bits < 2 ^ count },
}

impl Refusal {
    /// The same once more.
    pub fn copied(&self) -> Refusal
        ensures { result ≡ self.now }
    {
        Refusal {
            bit: self.bit,
            var: self.var,
            bits: self.bits,
            count: self.count,
            number: self.number,
            cause: self.cause,
            below: self.below,
            above: self.above,
            here: self.here.copied(),
        }
    }
}
