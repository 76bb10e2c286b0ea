//! Numbers of a row, taken one by one.

ghost use Rattle.std.specs.Prelude.{◌≡◌, ◌<◌, ◌^◌, nat_lt, length, drop, Some, None, IfSome, IfNone, IsTrue};
ghost use Rattle.etcs_bits.specs.Bits.{bits};
ghost use Rattle.etcs_vars.specs.Vars.{admits};
ghost use Rattle.etcs_bodies.specs.Taking.{listed, in_bits, next_number, next_flag};
ghost use Rattle.etcs_bodies.specs.Sources.{bits_left};

use crate::runs::Run;
use crate::walk::{PieceWalker, Walk};
use etcs_bits::{BitSlice, SliceWalker};
use etcs_vars::Var;
use std::marker::Model;

/// Numbers that are still to be taken, one by one: of a list, of bits that spell them, or of names with numbers. Each
/// source proves the clauses.
pub trait NextNumber {
    ghost use Rattle.std.specs.Prelude.{◌≡◌, Some, None, IfSome, IfNone, IsTrue};
    ghost use Rattle.etcs_vars.specs.Vars.{admits};
    ghost use Rattle.etcs_vars.specs.Faults.{number_fault};
    ghost use Rattle.etcs_bodies.specs.Taking.{Left, is_spent, next_number, next_flag};

    /// What is left to be taken.
    ghost left: { Self → Left };

    /// Whether nothing is left to be taken.
    fn is_empty(&self) -> bool
        ensures { result ≡ is_spent (left self.now) };

    /// Takes the number that comes next, if the variable admits it and, of names with numbers, it is under the
    /// variable's name; what follows it is then left. `None` exactly if there is no such number; no clause says what is
    /// left then.
    fn next(&mut self, var: Var) -> Option<u64>
        ensures admitted { IfSome result (λ n. number_fault var n ≡ None) }
        ensures bounded { IfSome result (λ n. IsTrue (admits var n)) }
        ensures next { IfSome result (λ n. next_number var (left self.old) ≡ Some (n, left self.new)) }
        ensures none { IfNone result (next_number var (left self.old) ≡ None) };

    /// Takes the number that comes next as a flag, if it is 0 or 1 and, of names with numbers, it is under the
    /// variable's name; what follows it is then left. `None` exactly if there is no such number; no clause says what is
    /// left then.
    fn flag(&mut self, var: Var) -> Option<bool>
        ensures next { IfSome result (λ b. next_flag var (left self.old) ≡ Some (b, left self.new)) }
        ensures none { IfNone result (next_flag var (left self.old) ≡ None) };
}

/// Numbers that are still to be taken, one by one or several at a time. Each source proves the clauses.
pub trait Numbers: NextNumber {
    ghost use Rattle.std.specs.Prelude.{nat_lt, IfSome, IfNone, IsTrue};

    /// Takes the numbers of a run of variables: those that would be taken one after the other. `None` only if one of
    /// them isn't there or isn't admitted; no clause says what is left then. The run must take fewer than 64 bits in
    /// all.
    fn run<R: Run>(&mut self, run: R) -> Option<R::Taken>
        requires { IsTrue (nat_lt (R.bits run) 64) }
        ensures some { IfSome result (λ ns. R.Takes run (Self.left self.old) ns (Self.left self.new)) }
        ensures none { IfNone result (R.Lacks run (Self.left self.old)) };
}

/// The numbers of a list.
#[derive(Drop)]
pub struct Listed<'a> {
    list: &'a [u64],
}

impl<'a> Model for Listed<'a> {
    ghost use Rattle.etcs_bodies.specs.Taking.{Left, listed};

    ghost Value = { Left };

    ghost view = { λ s. listed s.list.now };
}

impl<'a> Listed<'a> {
    /// All of these numbers are left to be taken, in order.
    #[inline(always)]
    pub fn new(list: &'a [u64]) -> Listed<'a>
        ensures { result ≡ listed list.now }
    {
        Listed { list }
    }
}

impl<'a> NextNumber for Listed<'a> {
    ghost left = { λ s. s };

    #[tactic(auto, using(crate::specs::laws::Sources::none_listed))]
    #[inline(always)]
    fn is_empty(&self) -> bool {
        self.list.is_empty()
    }

    #[tactic(auto, using(crate::specs::laws::Takes::number_ok))]
    #[inline(always)]
    fn next(&mut self, var: Var) -> Option<u64> {
        next_listed(&mut self.list, var)
    }

    #[inline(always)]
    fn flag(&mut self, var: Var) -> Option<bool> {
        flag_listed(&mut self.list, var)
    }
}

impl<'a> Numbers for Listed<'a> {
    #[inline(always)]
    fn run<R: Run>(&mut self, run: R) -> Option<R::Taken> {
        run.each(self)
    }
}

/// The numbers that bits spell, each in the width of the variable that it is taken for.
#[derive(Drop)]
pub struct InBits<W: Walk> {
    walk: W,
}

/// The numbers that a slice's bits spell.
pub type Spelled<'a> = InBits<SliceWalker<'a>>;

/// The numbers that the bits of a piece spell from one of them on.
pub type Ahead<'a> = InBits<PieceWalker<'a>>;

impl<W: Walk> Model for InBits<W> {
    ghost Value = { W };

    ghost view = { λ s. s.walk };
}

impl<'a> InBits<SliceWalker<'a>> {
    /// All numbers that these bits spell are left to be taken, in order.
    #[inline(always)]
    pub fn new(bits: BitSlice<'a>) -> Spelled<'a>
        ensures { bits_left result ≡ in_bits bits.entry }
    {
        InBits {
            walk: SliceWalker::new(bits),
        }
    }
}

impl<'a> InBits<PieceWalker<'a>> {
    /// All numbers that the bits of a piece spell from this one on are left to be taken, in order. A word must count the
    /// bits of the piece.
    #[inline(always)]
    pub fn from(piece: &'a [u8], place: usize) -> Ahead<'a>
        requires { length (bits piece.now) < 2 ^ 64 }
        ensures { result ≡ record { bits = bits piece.now; place = place } }
    {
        InBits {
            walk: PieceWalker::new(piece, place),
        }
    }

    /// How many bits of the piece are left.
    #[inline(always)]
    pub fn left(&self) -> usize
        ensures { result ≡ length (drop self.now.place self.now.bits) }
    {
        self.walk.left()
    }
}

impl<W: Walk> NextNumber for InBits<W> {
    ghost left = { λ s. bits_left (W.walk s) };

    #[tactic(auto, using(crate::specs::laws::Sources::none_in_bits))]
    #[inline(always)]
    fn is_empty(&self) -> bool {
        self.walk.is_done()
    }

    #[tactic(auto, using(crate::specs::laws::Takes::number_ok))]
    #[inline(always)]
    fn next(&mut self, var: Var) -> Option<u64> {
        next_in_bits(&mut self.walk, var)
    }

    #[inline(always)]
    fn flag(&mut self, var: Var) -> Option<bool> {
        flag_in_bits(&mut self.walk, var)
    }
}

impl<W: Walk> Numbers for InBits<W> {
    #[inline(always)]
    fn run<R: Run>(&mut self, run: R) -> Option<R::Taken> {
        run_in_bits(&mut self.walk, run)
    }
}

/// Takes the first number of a list, if the variable admits it.
#[tactic(auto, using(crate::specs::laws::Sources::next_is_listed, crate::specs::laws::Sources::not_listed, crate::specs::laws::Sources::none_next))]
#[inline(always)]
fn next_listed<'a>(list: &mut &'a [u64], var: Var) -> Option<u64>
    ensures some { IfSome result (λ n. next_number var (listed list.old.now) ≡ Some (n, listed list.new.now)) }
    ensures bounded { IfSome result (λ n. IsTrue (admits var n)) }
    ensures none { IfNone result (next_number var (listed list.old.now) ≡ None) }
{
    match list.split_first() {
        None => None,
        Some((number, beyond)) => {
            if !var.admits(*number) {
                return None;
            }
            *list = beyond;
            Some(*number)
        }
    }
}

/// Takes the number of the next bits, in the variable's width, if it admits it.
#[tactic(auto, using(crate::specs::laws::Sources::next_is_in_bits, crate::specs::laws::Sources::not_in_bits, crate::specs::laws::Sources::no_more_bits))]
#[inline(always)]
fn next_in_bits<W: Walk>(walk: &mut W, var: Var) -> Option<u64>
    ensures some { IfSome result (λ n. next_number var (bits_left (W.walk walk.old)) ≡ Some (n, bits_left (W.walk walk.new))) }
    ensures bounded { IfSome result (λ n. IsTrue (admits var n)) }
    ensures none { IfNone result (next_number var (bits_left (W.walk walk.old)) ≡ None) }
{
    let number = walk.take(var.width())?;
    if !var.admits(number) {
        return None;
    }
    Some(number)
}

/// Takes the numbers of the next bits, all from one word.
#[inline(always)]
fn run_in_bits<W: Walk, R: Run>(walk: &mut W, run: R) -> Option<R::Taken>
    requires { R.bits run < 64 }
    ensures some { IfSome result (λ ns. R.Takes run (bits_left (W.walk walk.old)) ns (bits_left (W.walk walk.new))) }
    ensures none { IfNone result (R.Lacks run (bits_left (W.walk walk.old))) }
{
    let word = walk.take(run.width())?;
    run.split(word, 0)
}

/// Takes the first number of a list as a flag.
#[tactic(auto, using(crate::specs::laws::Sources::flag_is_listed, crate::specs::laws::Sources::no_flag, crate::specs::laws::Sources::flag_too_large))]
#[inline(always)]
fn flag_listed<'a>(list: &mut &'a [u64], var: Var) -> Option<bool>
    ensures some { IfSome result (λ b. next_flag var (listed list.old.now) ≡ Some (b, listed list.new.now)) }
    ensures none { IfNone result (next_flag var (listed list.old.now) ≡ None) }
{
    let _ = var;
    match list.split_first() {
        None => None,
        Some((number, beyond)) => {
            if *number > 1 {
                return None;
            }
            *list = beyond;
            Some(*number == 1)
        }
    }
}

/// Takes the next bit as a flag.
#[tactic(auto, using(crate::specs::laws::Sources::flag_is_in_bits, crate::specs::laws::Sources::no_flag_in_bits))]
#[inline(always)]
fn flag_in_bits<W: Walk>(walk: &mut W, var: Var) -> Option<bool>
    ensures some { IfSome result (λ b. next_flag var (bits_left (W.walk walk.old)) ≡ Some (b, bits_left (W.walk walk.new))) }
    ensures none { IfNone result (next_flag var (bits_left (W.walk walk.old)) ≡ None) }
{
    let _ = var;
    Some(walk.take(1)? == 1)
}
