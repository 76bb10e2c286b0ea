//! What every part of a packet is, and lists of parts.

ghost use Rattle.std.specs.Prelude.{◌≡◌, ◌++◌, ◌<◌, ℕ, List, Option, Some, None, OnOk, OnErr, IfOk, IfSome, IfNone, IsTrue, false, flat_map, length, All};
ghost use Rattle.etcs_vars.specs.Reading.{spelled};
ghost use Rattle.etcs_bodies.specs.Taking.{Left, times_from};
ghost use Rattle.etcs_bodies.specs.Codecs.{Codes, IsEntries, list_reading, list_from, both_from};
ghost use Rattle.etcs_vars.specs.declared.var.Var.TheVariants.{N_ITER};
ghost use Rattle.etcs_bodies.specs.Faults.{count_fault};
ghost use Rattle.etcs_bodies.specs.Passing.{Passed, Begun};
ghost use Rattle.etcs_bodies.specs.Repeats.{Stand};

use crate::numbers::Numbers;
use crate::taken;
use etcs_vars::Var;
use etcs_vars::inner::{VarSink, Variables, bits_of_all, send_all};
use std::alloc::{AllocError, Global};

/// A part of a packet: a run of variables of its row, sent as `Variables`, and taken as its `read_from` gives. That the
/// two go together is the law `codes`. Each part proves the clauses.
pub trait Part: Variables + Sized {
    ghost use Rattle.etcs_tables.specs.Layouts.{Layout};
    ghost use Rattle.etcs_bodies.specs.Taking.{Left};

    /// The row of the part, before the rest of a row.
    ghost row: { Layout → Layout };

    /// The part with which what is left begins, and what is after it.
    ghost read_from: { Left → Option (Self × Left) };

    /// Holds of every value of the type.
    ghost is_part: { Self → Type 0 };

    /// Nothing is wrong with the part: it is a value of its type, as every part is. It does nothing else.
    fn holds(&self)
        ensures { is_part self.now };

    /// Takes the part with which what is left begins (`read_from`), which is a value of the type; what is left is then
    /// what follows it. `None` only if `read_from` gives none; no clause says what is left then.
    ///
    /// # Errors
    ///
    /// `AllocError` if memory runs out. No clause says what is left then.
    fn take<L: Numbers>(alloc: Global, numbers: &mut L) -> Result<Option<Self>, AllocError>
        ensures part { IfOk result (λ o. IfSome o (λ p. is_part p)) }
        ensures from { IfOk result (λ o. IfSome o (λ p. read_from (L.left numbers.old) ≡ Some (p, L.left numbers.new))) }
        ensures none { IfOk result (λ o. IfNone o (read_from (L.left numbers.old) ≡ None)) };

    /// A copy: if it succeeds, it is equal.
    ///
    /// # Errors
    ///
    /// `AllocError` if memory runs out.
    fn try_clone(&self, alloc: Global) -> Result<Self, AllocError>
        ensures { IfOk result (λ p. p ≡ self.now) };

    /// What was sent of a part is read as that part, what is read was sent so, and the variables of parts are exactly
    /// what the row spells.
    ghost codes: { Codes row is_part Self.reading_of read_from };
}

/// A part whose variables go from numbers to a sink without a value of it. Each proves the clauses.
pub trait Passing: Part {
    ghost use Rattle.etcs_bodies.specs.Passing.{Passed, Begun};

    /// Sends the variables of the part with which what is left begins, without making it: if it returns `true`, there is
    /// such a part, the sink has its variables, and what follows it is left. After `false` the sink has some more
    /// variables, and no clause says what is left.
    ///
    /// # Errors
    ///
    /// That of the sink, whose `failed` then holds.
    fn pass<L: Numbers, S: VarSink>(numbers: &mut L, out: &mut S) -> Result<bool, AllocError>
        ensures passed { IfOk result (λ b. IsTrue b → Passed Self.is_part Self.reading_of S.with (L.left numbers.old) (L.left numbers.new) out.old out.new) }
        ensures begun { IfOk result (λ b. b ≡ false → Begun S.with out.old out.new) }
        ensures err { OnErr result (S.failed out.old out.new) };
}

/// A part without lists, which is taken without memory. Each proves the clauses.
pub trait Plain: Part + Copy {
    /// As [`Part::take`].
    fn read<L: Numbers>(numbers: &mut L) -> Option<Self>
        ensures part { IfSome result (λ p. Self.is_part p) }
        ensures from { IfSome result (λ p. Self.read_from (L.left numbers.old) ≡ Some (p, L.left numbers.new)) }
        ensures none { IfNone result (Self.read_from (L.left numbers.old) ≡ None) };
}

/// Nothing is wrong with any of these parts: each is a value of its type. It does nothing else.
pub fn hold_all<P: Part>(parts: &[P])
    ensures { All P.is_part parts.now }
{
    for part in parts {
        part.holds();
    }
}

/// Copies of the parts, in order: if it succeeds, they are equal.
///
/// # Errors
///
/// `AllocError` if memory runs out.
pub fn clone_all<P: Part + Drop>(alloc: Global, parts: &[P]) -> Result<Vec<P>, AllocError>
    ensures { IfOk result (λ ps. ps.items ≡ parts.now) }
{
    let mut copies = Vec::with_capacity(alloc, parts.len())?;
    for part in parts {
        copies.push(part.try_clone(alloc)?)?;
    }
    Ok(copies)
}

/// Takes this many parts.
fn take_all<P: Part + Drop, L: Numbers>(
    alloc: Global,
    numbers: &mut L,
    count: usize,
) -> Result<Option<Vec<P>>, AllocError>
    ensures count { IfOk result (λ o. IfSome o (λ ps. length ps.items ≡ count)) }
    ensures parts { IfOk result (λ o. IfSome o (λ ps. All P.is_part ps.items)) }
    ensures from { IfOk result (λ o. IfSome o (λ ps. times_from P.read_from count (L.left numbers.old) ≡ Some (ps.items, L.left numbers.new))) }
    ensures none { IfOk result (λ o. IfNone o (times_from P.read_from count (L.left numbers.old) ≡ None)) }
{
    let mut parts = Vec::with_capacity(alloc, count)?;
    for _ in 0..count {
        match P::take(alloc, numbers)? {
            Some(part) => parts.push(part)?,
            None => return Ok(None),
        }
    }
    Ok(Some(parts))
}

/// Takes a list of parts after its count, if what is left begins with one: a count that its variable admits, and as
/// many parts, each as its `read_from` gives. `None` only if what is left begins with none.
///
/// # Errors
///
/// `AllocError` if memory runs out. No clause says what is left then, nor after `None`.
#[tactic(auto, using(crate::specs::laws::Repeats::list_is, crate::specs::laws::Repeats::list_missing, crate::specs::laws::Repeats::list_uncounted, crate::specs::laws::Takes::counted_is))]
pub fn take_list<P: Part + Drop, L: Numbers>(
    alloc: Global,
    count: Var,
    numbers: &mut L,
) -> Result<Option<Vec<P>>, AllocError>
    ensures count { IfOk result (λ o. IfSome o (λ ps. count_fault count (length ps.items) ≡ None)) }
    ensures parts { IfOk result (λ o. IfSome o (λ ps. All P.is_part ps.items)) }
    ensures from { IfOk result (λ o. IfSome o (λ ps. list_from count P.read_from (L.left numbers.old) ≡ Some (ps.items, L.left numbers.new))) }
    ensures none { IfOk result (λ o. IfNone o (list_from count P.read_from (L.left numbers.old) ≡ None)) }
{
    let many = taken!(numbers.next(count));
    take_all(alloc, numbers, many as usize)
}

/// Sends a list of parts after its count: if it succeeds, the sink then holds what its `with` gives for the count and
/// the variables of the parts, in order.
///
/// # Errors
///
/// That of the sink, whose `failed` then holds.
pub fn send_list<P: Part, S: VarSink>(
    count: Var,
    parts: &[P],
    out: &mut S,
) -> Result<(), AllocError>
    ensures ok { OnOk result (out.new ≡ S.with out.old (list_reading count P.reading_of parts.now)) }
    ensures err { OnErr result (S.failed out.old out.new) }
{
    out.send(&[(count, parts.len() as u64)])?;
    send_all(parts, out)
}

impl<P: Plain> Passing for P {
    #[inline(always)]
    fn pass<L: Numbers, S: VarSink>(numbers: &mut L, out: &mut S) -> Result<bool, AllocError> {
        let Some(part) = P::read(numbers) else {
            return Ok(false);
        };
        part.send(out)?;
        Ok(true)
    }
}

/// Passes on this many parts, one after another.
///
/// # Errors
///
/// That of the sink, whose `failed` then holds.
fn pass_all<P: Passing, L: Numbers, S: VarSink>(
    count: u64,
    numbers: &mut L,
    out: &mut S,
) -> Result<bool, AllocError>
    ensures passed { IfOk result (λ b. IsTrue b → (ps : List P) × Stand P.is_part P.reading_of count (L.left numbers.old) ps (L.left numbers.new) × (out.new ≡ S.with out.old (flat_map P.reading_of ps))) }
    ensures begun { IfOk result (λ b. b ≡ false → Begun S.with out.old out.new) }
    ensures err { OnErr result (S.failed out.old out.new) }
{
    for _ in 0..count {
        if !P::pass(numbers, out)? {
            return Ok(false);
        }
    }
    Ok(true)
}

/// Passes on a list of parts after its count: if it returns `true`, what was left began with one, a count that its
/// variable admits and as many parts, the sink has its variables, and what follows it is left. After `false` the sink has
/// some more variables, and no clause says what is left.
///
/// # Errors
///
/// That of the sink, whose `failed` then holds.
#[inline(always)]
pub fn pass_list<P: Passing, L: Numbers, S: VarSink>(
    count: Var,
    numbers: &mut L,
    out: &mut S,
) -> Result<bool, AllocError>
    ensures passed { IfOk result (λ b. IsTrue b → Passed (IsEntries count P.is_part) (list_reading count P.reading_of) S.with (L.left numbers.old) (L.left numbers.new) out.old out.new) }
    ensures begun { IfOk result (λ b. b ≡ false → Begun S.with out.old out.new) }
    ensures err { OnErr result (S.failed out.old out.new) }
{
    let Some(many) = numbers.next(count) else {
        return Ok(false);
    };
    out.send(&[(count, many)])?;
    pass_all::<P, L, S>(many, numbers, out)
}
