//! Entries after their count.

ghost use Rattle.std.specs.Prelude.{◌≡◌, length, None, Some, IfOk, IfErr};
ghost use Rattle.etcs_vars.specs.declared.var.Var.TheVariants.{N_ITER};
ghost use Rattle.etcs_bodies.specs.Faults.{count_fault};
ghost use Rattle.etcs_bodies.specs.Codecs.{IsEntries};

use crate::entries::Entry;
use crate::faults::check_count;
use crate::list_of::ListOf;
use crate::numbers::Numbers;
use crate::part::{Part, Passing, clone_all, hold_all, pass_list, send_list, take_list};
use crate::taken;
use etcs_vars::inner::{VarSink, Variables, bits_of_all};
use etcs_vars::{BuildFault, Var};
use std::alloc::{AllocError, Global};
use std::marker::Model;

/// Entries after their count, N_ITER: at most 31, as many as N_ITER admits.
#[derive(Debug, Drop, PartialEq, Eq)]
pub struct Counted<E: Entry> {
    entries: ListOf<E>,
}

impl<E: Entry> Model for Counted<E> {
    ghost use Rattle.std.specs.Prelude.{List};
    ghost use Rattle.etcs_vars.specs.declared.var.Var.TheVariants.{N_ITER};
    ghost use Rattle.etcs_bodies.specs.Codecs.{IsEntries};

    ghost Value = { List E };

    ghost view = { λ s. s.entries };

    ghost invariant = { λ s. IsEntries N_ITER E.is_part s.entries };

    ghost inverse = { λ s. record { entries = s } };
}

impl<E: Entry> Counted<E> {
    /// These entries, counted: succeeds exactly if N_ITER admits their number, at most 31.
    ///
    /// # Errors
    ///
    /// [`BuildFault::TooMany`] with N_ITER if there are more. The entries come back.
    pub fn new(entries: Vec<E>) -> Result<Counted<E>, (BuildFault, Vec<E>)>
        ensures ok { IfOk result (λ e. e ≡ entries.items) }
        ensures counted { IfOk result (λ e. IsEntries N_ITER E.is_part e) }
        ensures fault { IfErr result (λ e. count_fault N_ITER (length entries.items) ≡ Some e.0) }
        ensures back { IfErr result (λ e. e.1.items ≡ entries.items) }
    {
        if let Err(fault) = check_count(Var::N_ITER, entries.len()) {
            return Err((fault, entries));
        }
        hold_all(entries.as_slice());
        Ok(Counted {
            entries: ListOf::from_vec(entries),
        })
    }

    /// The entries, borrowed, in order.
    pub fn as_slice(&self) -> &[E]
        ensures { result.now ≡ self.now }
    {
        self.entries.as_slice()
    }
}

impl<E: Entry> Variables for Counted<E> {
    ghost use Rattle.etcs_vars.specs.declared.var.Var.TheVariants.{N_ITER};
    ghost use Rattle.etcs_bodies.specs.Codecs.{list_reading};

    ghost reading_of = { λ l. list_reading N_ITER E.reading_of l };

    fn bits(&self) -> usize {
        5 + bits_of_all(self.entries.as_slice())
    }

    fn send<S: VarSink>(&self, out: &mut S) -> Result<(), AllocError> {
        send_list(Var::N_ITER, self.entries.as_slice(), out)
    }
}

impl<E: Entry> Part for Counted<E> {
    ghost use Rattle.etcs_vars.specs.declared.var.Var.TheVariants.{N_ITER};
    ghost use Rattle.etcs_tables.specs.Layouts.{whole, one, counted};
    ghost use Rattle.etcs_bodies.specs.Codecs.{IsEntries, list_from};
    ghost use Rattle.etcs_bodies.specs.laws.Codecs.{list};

    ghost row = { λ rest. one N_ITER (counted (E.Part.row whole) rest) };

    ghost read_from = { λ s. list_from N_ITER E.read_from s };

    ghost is_part = { λ l. IsEntries N_ITER E.is_part l };

    ghost codes = { list N_ITER E.codes };

    fn holds(&self) {
        let _ = &self.entries;
    }

    fn take<L: Numbers>(alloc: Global, numbers: &mut L) -> Result<Option<Counted<E>>, AllocError> {
        let entries = taken!(take_list(alloc, Var::N_ITER, numbers)?);
        Ok(Some(Counted {
            entries: ListOf::from_vec(entries),
        }))
    }

    fn try_clone(&self, alloc: Global) -> Result<Counted<E>, AllocError> {
        Ok(Counted {
            entries: ListOf::from_vec(clone_all(alloc, self.entries.as_slice())?),
        })
    }
}

impl<E: Entry + Passing> Passing for Counted<E> {
    #[inline(always)]
    fn pass<L: Numbers, S: VarSink>(numbers: &mut L, out: &mut S) -> Result<bool, AllocError> {
        pass_list::<E, L, S>(Var::N_ITER, numbers, out)
    }
}
