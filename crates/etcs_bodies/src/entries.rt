//! A first entry and further ones.

ghost use Rattle.std.specs.Prelude.{◌≡◌, ◌≤◌, ℕ, length, None, Some, IsTrue, nat_le, IfOk, IfErr};
ghost use Rattle.etcs_vars.specs.declared.var.Var.TheVariants.{N_ITER};
ghost use Rattle.etcs_bodies.specs.Faults.{count_fault};
ghost use Rattle.etcs_bodies.specs.Entries.{AreEntries};
ghost use Rattle.etcs_bodies.specs.Repeats.{bit_count};

use crate::faults::check_count;
use crate::list_of::ListOf;
use crate::numbers::Numbers;
use crate::part::{Part, Passing, clone_all, hold_all, pass_list, send_list, take_list};
use crate::taken;
use etcs_vars::inner::{VarSink, Variables, bits_of_all};
use etcs_vars::{BuildFault, Var};
use std::alloc::{AllocError, Global};
use std::marker::Model;

/// A part of which a packet has a first one and further ones. Each proves how many bits one takes at most.
pub trait Entry: Part + Drop {
    /// The most bits that one takes, at most 2,047.
    const MOST: usize;

    ghost MOST: { ℕ };

    /// No value of the type takes more bits.
    ghost most: { (e : Self) → Self.is_part e → bit_count (Self.reading_of e) ≤ MOST };

    /// The most are at most 2,047.
    ghost short: { IsTrue (nat_le MOST 2047) };
}

/// A first entry, and after N_ITER further ones, at most 31.
#[derive(Debug, Drop, PartialEq, Eq)]
pub struct Entries<E: Entry> {
    first: E,
    further: ListOf<E>,
}

impl<E: Entry> Model for Entries<E> {
    ghost use Rattle.std.specs.Prelude.{List};
    ghost use Rattle.etcs_bodies.specs.Entries.{AreEntries};

    ghost Value = { E × List E };

    ghost view = { λ s. (s.first, s.further) };

    ghost invariant = { λ s. AreEntries E.is_part (s.first, s.further) };

    ghost inverse = { λ s. record { first = s.0; further = s.1 } };
}

impl<E: Entry> Entries<E> {
    /// A first entry and further ones, in order: succeeds exactly if N_ITER admits the number of the further ones, at
    /// most 31.
    ///
    /// # Errors
    ///
    /// [`BuildFault::TooMany`] with N_ITER if there are more further ones. All entries come back.
    pub fn new(first: E, further: Vec<E>) -> Result<Entries<E>, (BuildFault, E, Vec<E>)>
        ensures ok { IfOk result (λ e. e ≡ (first, further.items)) }
        ensures entries { IfOk result (λ e. AreEntries E.is_part e) }
        ensures fault { IfErr result (λ e. count_fault N_ITER (length further.items) ≡ Some e.0) }
        ensures first { IfErr result (λ e. e.1 ≡ first) }
        ensures further { IfErr result (λ e. e.2.items ≡ further.items) }
    {
        if let Err(fault) = check_count(Var::N_ITER, further.len()) {
            return Err((fault, first, further));
        }
        first.holds();
        hold_all(further.as_slice());
        Ok(Entries {
            first,
            further: ListOf::from_vec(further),
        })
    }

    /// The first entry.
    pub fn first(&self) -> &E
        ensures { result.now ≡ self.now.0 }
    {
        &self.first
    }

    /// The entries after the first, in order.
    pub fn further(&self) -> &[E]
        ensures { result.now ≡ self.now.1 }
    {
        self.further.as_slice()
    }

    /// The first entry and the further ones, in order.
    pub fn into_parts(self) -> (E, Vec<E>)
        ensures first { result.0 ≡ self.0 }
        ensures further { result.1.items ≡ self.1 }
    {
        let Entries { first, further } = self;
        (first, further.into_vec())
    }
}

impl<E: Entry> Variables for Entries<E> {
    ghost use Rattle.etcs_bodies.specs.Entries.{entries_reading};

    ghost reading_of = { λ e. entries_reading E.reading_of e };

    fn bits(&self) -> usize {
        5 + self.first.bits() + bits_of_all(self.further.as_slice())
    }

    fn send<S: VarSink>(&self, out: &mut S) -> Result<(), AllocError> {
        self.first.send(out)?;
        send_list(Var::N_ITER, self.further.as_slice(), out)
    }
}

impl<E: Entry> Part for Entries<E> {
    ghost use Rattle.etcs_bodies.specs.Entries.{AreEntries, entries_from, entries_row};
    ghost use Rattle.etcs_bodies.specs.laws.Entries.{entries_codes};

    ghost row = { entries_row E.Part.row };

    ghost read_from = { λ s. entries_from E.read_from s };

    ghost is_part = { λ e. AreEntries E.is_part e };

    ghost codes = { entries_codes E.codes };

    fn holds(&self) {
        let _ = &self.first;
    }

    fn take<L: Numbers>(alloc: Global, numbers: &mut L) -> Result<Option<Entries<E>>, AllocError> {
        let first = taken!(E::take(alloc, numbers)?);
        let further = taken!(take_list(alloc, Var::N_ITER, numbers)?);
        Ok(Some(Entries {
            first,
            further: ListOf::from_vec(further),
        }))
    }

    fn try_clone(&self, alloc: Global) -> Result<Entries<E>, AllocError> {
        Ok(Entries {
            first: self.first.try_clone(alloc)?,
            further: ListOf::from_vec(clone_all(alloc, self.further.as_slice())?),
        })
    }
}

impl<E: Entry + Passing> Passing for Entries<E> {
    #[inline(always)]
    fn pass<L: Numbers, S: VarSink>(numbers: &mut L, out: &mut S) -> Result<bool, AllocError> {
        Ok(E::pass(numbers, out)? && pass_list::<E, L, S>(Var::N_ITER, numbers, out)?)
    }
}
