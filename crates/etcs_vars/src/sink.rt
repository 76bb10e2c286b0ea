//! Where variables are sent to.

ghost use Rattle.std.specs.Prelude.{◌≡◌, ◌<◌, ◌*◌, ◌≤◌, ℕ, [], ◌++◌, length, take, flat_map, OnOk, OnErr};
ghost use Rattle.etcs_vars.specs.Reading.{Reading, numbers, spelled};

use crate::var::Var;
use std::alloc::{AllocError, Global};
use std::marker::Model;
use std::mem;

/// Takes variables with their numbers, one after another. After variables and then more variables it holds what it
/// holds after both at once; after none it is as it was; and a failure after some variables is one of the whole. Each
/// implementation proves this.
pub trait VarSink {
    /// What it holds with these variables added.
    ghost with: { Self → Reading → Self };

    /// What may be left of it if some weren't taken.
    ghost failed: { Self → Self → Type 0 };

    /// Takes variables with their numbers, in order: if it succeeds, it then holds what `with` gives for them.
    ///
    /// # Errors
    ///
    /// `AllocError` if memory runs out. Some of them may then be taken, and `failed` holds.
    fn send(&mut self, sent: &[(Var, u64)]) -> Result<(), AllocError>
        ensures ok { OnOk result (self.new ≡ with self.old sent.now) }
        ensures err { OnErr result (failed self.old self.new) };

    /// With no variables it is as it was.
    ghost with_none: { (s : Self) → with s [] ≡ s };

    /// Variables and then more variables are the same as both at once.
    ghost with_both: { (s : Self) (a b : Reading) → with s (a ++ b) ≡ with (with s a) b };

    /// A failure after some variables is a failure of the whole.
    ghost failed_after: { (s : Self) (a : Reading) (t : Self) → failed (with s a) t → failed s t };
}

/// A run of variables with their numbers, which is sent to sinks. Each implementation proves the clauses.
pub trait Variables {
    /// Its variables with their numbers, in the order of sending.
    ghost reading_of: { Self → Reading };

    /// How many bits these variables take, exactly. They are fewer than 65,536.
    fn bits(&self) -> usize
        ensures bits { result ≡ length (spelled (reading_of self.now)) }
        ensures small { result < 65536 };

    /// Sends these variables, in order: if it succeeds, the sink then holds what its `with` gives for them.
    ///
    /// # Errors
    ///
    /// That of the sink, whose `failed` then holds.
    fn send<S: VarSink>(&self, out: &mut S) -> Result<(), AllocError>
        ensures ok { OnOk result (out.new ≡ S.with out.old (reading_of self.now)) }
        ensures err { OnErr result (S.failed out.old out.new) };
}

/// Sends several runs, one after another: if it succeeds, the sink then holds what its `with` gives for all their
/// variables as one run.
///
/// # Errors
///
/// That of the sink, whose `failed` then holds.
pub fn send_all<V: Variables, S: VarSink>(lists: &[V], out: &mut S) -> Result<(), AllocError>
    ensures ok { OnOk result (out.new ≡ S.with out.old (flat_map V.reading_of lists.now)) }
    ensures err { OnErr result (S.failed out.old out.new) }
{
    for variables in lists {
        variables.send(out)?;
    }
    Ok(())
}

/// How many bits several runs take together, exactly. They must be at most 255 runs; the bits are then at most
/// 255 * 65,536.
pub fn bits_of_all<V: Variables>(lists: &[V]) -> usize
    requires { length lists.now ≤ 255 }
    ensures bits { result ≡ length (spelled (flat_map V.reading_of lists.now)) }
    ensures small { result ≤ 255 * 65536 }
{
    let mut bits = 0;
    for variables in lists {
        bits += variables.bits();
    }
    bits
}

/// A sink that keeps nothing of what it takes.
#[derive(Clone, Copy, Debug, PartialEq, Eq)]
pub struct Nothing;

impl VarSink for Nothing {
    ghost use Rattle.std.specs.Prelude.{refl};

    ghost with = { λ s r. s };

    ghost failed = { λ s t. ⊥ };

    ghost with_none = { λ s. refl };

    ghost with_both = { λ s a b. refl };

    ghost failed_after = { λ s a t h. h };

    #[inline(always)]
    fn send(&mut self, _sent: &[(Var, u64)]) -> Result<(), AllocError> {
        Ok(())
    }
}

/// Numbers without their variables, one after another.
#[derive(Debug, Drop)]
struct NumberList {
    held: Vec<u64>,
}

impl Model for NumberList {
    ghost use Rattle.std.specs.Prelude.{ℕ, List};

    ghost Value = { List ℕ };

    ghost view = { λ s. s.held.items };
}

impl NumberList {
    /// The numbers.
    fn into_vec(self) -> Vec<u64>
        ensures { result.items ≡ self }
    {
        let NumberList { held } = self;
        held
    }
}

impl VarSink for NumberList {
    ghost use Rattle.std.specs.Prelude.{◌≡◌, ◌++◌, length, take};
    ghost use Rattle.etcs_vars.specs.Reading.{numbers};
    ghost use Rattle.etcs_vars.specs.laws.Sinks.{numbers_none, numbers_both, numbers_begin};

    ghost with = { λ f r. f ++ numbers r };

    ghost failed = { λ f g. take (length f) g ≡ f };

    ghost with_none = { numbers_none };

    ghost with_both = { numbers_both };

    ghost failed_after = { numbers_begin };

    fn send(&mut self, sent: &[(Var, u64)]) -> Result<(), AllocError> {
        self.held.reserve(sent.len())?;
        for pair in sent {
            self.held.push(pair.1)?;
        }
        Ok(())
    }
}

/// Appends the numbers of a run's variables, in the order of sending.
///
/// # Errors
///
/// `AllocError` if memory runs out. `out` then has the numbers that it had before.
pub fn append_numbers<V: Variables>(variables: &V, out: &mut Vec<u64>) -> Result<(), AllocError>
    ensures ok { OnOk result (out.new.items ≡ out.old.items ++ numbers (V.reading_of variables.now)) }
    ensures err { OnErr result (out.new.items ≡ out.old.items) }
{
    let before = out.len();
    let empty = Vec::new(*out.allocator());
    let mut list = NumberList {
        held: mem::replace(out, empty),
    };
    let done = variables.send(&mut list);
    *out = list.into_vec();
    if done.is_err() {
        out.truncate(before);
    }
    done
}
