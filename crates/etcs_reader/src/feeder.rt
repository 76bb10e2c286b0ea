//! A reader of pieces of any length.

ghost use Rattle.std.specs.Prelude.{◌≡◌, ◌+◌, ◌*◌, ◌^◌, ◌<◌, ◌≤◌, ◌++◌, Bool, List, [], None, Err, length, take, IsSome, IfSome, IsNone};
ghost use Rattle.etcs_bits.specs.Bits.{bits, num};
ghost use Rattle.etcs_vars.specs.Vars.{width};
ghost use Rattle.etcs_vars.specs.Reading.{Owner};
ghost use Rattle.etcs_reader.specs.Rests.{Goes, LeapsBy};
ghost use Rattle.etcs_reader.specs.Readers.{Passed};
ghost use Rattle.etcs_reader.specs.Feeders.{stop_at, all_of};

use crate::reader::{Halt, Reader};
use crate::rest::Rest;
use etcs_vars::Var;
use std::marker::Model;

/// Why no more is taken.
#[derive(Clone, Copy, Debug, PartialEq, Eq)]
pub enum Stop {
    /// Nothing continues with the bit `bit`, counted from 0 from the first bit that was fed, and `var` holds
    /// it.
    Refused { bit: usize, var: Var },
    /// Out of memory.
    Memory,
}

/// Reads a language from pieces of any length. It keeps none of the bytes: only what is left, with what
/// that keeps of the variables that were read, and the bits of one unfinished variable.
///
/// After a refused bit it is in the state after the bits before that one, as if no more had been fed: its
/// count, its unfinished bits and what is left are those of these bits, and the next bit is the refused one. After
/// `Memory` no clause says what is left, since a variable may be kept by half; the count is of bits
/// that continue with the next one. After either, each later piece gets the same result.
#[derive(Drop)]
pub struct Feeder<R: Rest> {
    reader: Reader<R>,
    /// How many bits were taken.
    count: usize,
    stop: Option<Stop>,
}

impl<R: Rest> Model for Feeder<R> {
    ghost use Rattle.std.specs.Prelude.{◌≡◌, ◌^◌, ◌<◌, None};
    ghost use Rattle.etcs_bits.specs.Bits.{num};
    ghost use Rattle.etcs_reader.specs.Feeders.{FeederValue};
    ghost use Rattle.etcs_reader.specs.Readers.{Unfinished};

    ghost Value = { FeederValue R };

    ghost view = { λ s. record { rest = s.reader.rest; part = num s.reader.taken s.reader.number; count = s.count; stop = s.stop } };

    ghost invariant = { λ s. (s.reader.number < 2 ^ s.reader.taken) × (s.stop ≡ None → Unfinished (R.left s.reader.rest) (R.next s.reader.rest) s.reader.number s.reader.taken) };
}

/// Why no more is taken, after `count` bits.
fn stop_at(count: usize, halt: Halt) -> Stop
    ensures { result ≡ stop_at count halt }
{
    match halt {
        Halt::Refused { var, .. } => Stop::Refused { bit: count, var },
        Halt::Memory { .. } => Stop::Memory,
    }
}

impl<R: Rest> Feeder<R> {
    ghost use Rattle.etcs_reader.specs.Feeders.{Feeds, TakesBit};

    /// A reader of what is left of a language, that has taken no bits and has not stopped. Something must be left.
    pub fn new(rest: R) -> Feeder<R>
        requires { Goes (R.left rest) }
        ensures rest { result.rest ≡ rest }
        ensures part { result.part ≡ [] }
        ensures count { result.count ≡ 0 }
        ensures stop { result.stop ≡ None }
    {
        Feeder {
            reader: Reader::new(rest),
            count: 0,
            stop: None,
        }
    }

    /// A reader that takes the bits of a piece after the first `at`, and its result for the piece. If `rest` is what is
    /// left of some language after whole variables that these first bits spell, reader and result are those of a reader
    /// of this language that was fed the whole piece by [`Feeder::feed`].
    ///
    /// Something must be left, `at` must not be past the end of the piece, and the piece must have fewer than 2^64
    /// bits.
    ///
    /// # Errors
    ///
    /// Those of [`Feeder::feed`].
    pub fn after(rest: R, at: usize, piece: &[u8]) -> (Feeder<R>, Result<usize, Stop>)
        requires goes { Goes (R.left rest) }
        requires inside { at ≤ length (bits piece.now) }
        requires room { 8 * length piece.now < 2 ^ 64 }
        ensures { (s : R) → LeapsBy (R.left rest) (λ p. R.follows s p rest) (bits piece.now) 0 at → Feeds R R.left R.next R.follows R.fails (all_of s) (bits piece.now) result.1 result.0 }
    {
        let mut feeder = Feeder::new(rest);
        let fed = feeder.take(piece, at);
        (feeder, fed)
    }

    /// Takes the bits of a piece from the bit `at` on, up to the language's end, and returns how many they were with
    /// those in front.
    #[inline(always)]
    fn take(&mut self, piece: &[u8], at: usize) -> Result<usize, Stop>
        requires going { self.old.stop ≡ None }
        requires inside { at ≤ length (bits piece.now) }
        requires room { self.old.count + 8 * length piece.now < 2 ^ 64 }
        ensures { (s : R) (b : List Bool) → Passed (λ p. R.follows s p self.old.rest) (b ++ take at (bits piece.now)) self.old.part → Feeds R R.left R.next R.follows R.fails (record self.old { rest = s; part = b }) (bits piece.now) result self.new }
    {
        match self.reader.push(piece, at) {
            Ok(taken) => {
                self.count += taken;
                Ok(taken)
            }
            Err(Halt::Refused { at, var }) => {
                self.count += at;
                let stop = Stop::Refused {
                    bit: self.count,
                    var,
                };
                self.stop = Some(stop);
                Err(stop)
            }
            Err(Halt::Memory { at }) => {
                self.count += at;
                self.stop = Some(Stop::Memory);
                Err(Stop::Memory)
            }
        }
    }

    /// Takes the bits of a piece, up to the language's end, and returns how many it took: either no variable is left,
    /// and the unfinished bits from before with those taken spell what was left; or all bits of the piece were taken,
    /// and a variable comes next that holds the next bit. What is left is what `follows` has for the variables that
    /// were passed.
    ///
    /// The count of all bits, with those of the piece, must be below 2^64.
    ///
    /// # Errors
    ///
    /// `Refused` with the first bit, counted from 0 over all pieces, with which nothing continues, and the variable
    /// that holds it; the reader is then after the bits before it. `Memory` if memory runs out, only at a state at
    /// which it may (`fails`) and at a bit with which something continues: one variable holds that bit, all that is
    /// left there begins with it, and the bits that are counted are those before it. After either each later piece gets
    /// the same result, and changes nothing.
    pub fn feed(&mut self, piece: &[u8]) -> Result<usize, Stop>
        requires { self.old.count + 8 * length piece.now < 2 ^ 64 }
        ensures going { self.old.stop ≡ None → Feeds R R.left R.next R.follows R.fails self.old (bits piece.now) result self.new }
        ensures stopped { IfSome self.old.stop (λ stop. (result ≡ Err stop) × (self.new ≡ self.old)) }
    {
        match self.stop {
            Some(stop) => Err(stop),
            None => self.take(piece, 0),
        }
    }

    /// Takes one bit of the variable that comes next: what [`Feeder::feed`] would do with a piece of this bit alone. A
    /// variable must come next, and the count with this bit must be below 2^64.
    ///
    /// # Errors
    ///
    /// Those of [`Feeder::feed`].
    pub fn bit(&mut self, bit: bool) -> Result<(), Stop>
        requires room { self.old.count + 1 < 2 ^ 64 }
        requires next { IsSome (R.next self.old.rest) }
        ensures going { self.old.stop ≡ None → TakesBit R R.left R.next R.follows R.fails self.old bit result self.new }
        ensures stopped { IfSome self.old.stop (λ stop. (result ≡ Err stop) × (self.new ≡ self.old)) }
    {
        if let Some(stop) = self.stop {
            return Err(stop);
        }
        let Some(var) = self.var() else {
            unreachable!()
        };
        match self.reader.step(var, &[u8::from(bit)], 7) {
            Ok(_) => {
                self.count += 1;
                Ok(())
            }
            Err(halt) => {
                let why = stop_at(self.count, halt);
                self.stop = Some(why);
                Err(why)
            }
        }
    }

    /// How many bits were taken, over all pieces. If a bit was refused, these are the bits before
    /// it; if memory ran out, those before what couldn't be kept.
    pub fn count(&self) -> usize
        ensures { result ≡ self.now.count }
    {
        self.count
    }

    /// Why no more is taken. `None` if the reader has not stopped.
    pub fn stop(&self) -> Option<Stop>
        ensures { result ≡ self.now.stop }
    {
        self.stop
    }

    /// What is left of the language, with what it keeps of the variables that were read.
    pub fn rest(&self) -> &R
        ensures { result.now ≡ self.now.rest }
    {
        &self.reader.rest
    }

    /// What is left of the language, with what it keeps of the variables that were read.
    pub fn into_rest(self) -> R
        ensures { result ≡ self.rest }
    {
        self.reader.rest
    }

    /// The variable that comes next. Unless the reader has stopped, it holds the next bit, and not all of its bits are
    /// there; and `None` means that the language ends here, with no unfinished variable.
    #[inline]
    pub fn var(&self) -> Option<Var>
        ensures next { result ≡ R.next self.now.rest }
        ensures holds { self.now.stop ≡ None → IfSome result (Owner (R.left self.now.rest) self.now.part) }
        ensures short { self.now.stop ≡ None → IfSome result (λ x. length self.now.part < width x) }
        ensures ended { self.now.stop ≡ None → IsNone result → (self.now.part ≡ []) × R.left self.now.rest [] }
    {
        self.reader.rest.var()
    }

    /// The bits of the unfinished variable as a number, the first one most significant, and how many there are.
    pub fn unfinished(&self) -> (u64, usize)
        ensures bits { self.now.part ≡ num result.1 result.0 }
        ensures fits { result.0 < 2 ^ result.1 }
    {
        (self.reader.number, self.reader.taken)
    }
}
