//! Variables one after another, as a rest for the reader.

ghost use Rattle.etcs_vars.specs.Walking.{Residual};
ghost use Rattle.etcs_reader.specs.Fields.{ReadsFields, first_of};
ghost use Rattle.etcs_reader.specs.laws.FieldLaws.{residual_none, residual_along, fields_regular, fields_begin, fields_ended};

use crate::rest::Rest;
use etcs_vars::{Var, begins};
use std::alloc::AllocError;

/// Variables that are left, one after another, each with any number that it admits. It allocates nothing, so that its
/// reader never returns `Memory`.
#[derive(Drop)]
pub struct Fields {
    pub vars: &'static [Var],
}

impl Rest for Fields {
    ghost left = { λ s. ReadsFields s.vars.now };

    ghost next = { λ s. first_of s.vars.now };

    ghost follows = { λ s p t. Residual (ReadsFields s.vars.now) p (ReadsFields t.vars.now) };

    ghost fails = { λ s. ⊥ };

    #[inline]
    fn var(&self) -> Option<Var> {
        match self.vars {
            [] => None,
            [first, ..] => Some(*first),
        }
    }

    #[inline]
    fn begins(&self, var: Var, rest: usize, number: u64) -> bool {
        begins(var.ranges(), rest, number)
    }

    #[inline]
    fn pass(&mut self, _var: Var, _number: u64) -> Result<(), AllocError> {
        self.vars = &self.vars[1..];
        Ok(())
    }

    ghost regular = { λ s. fields_regular s.vars.now };

    ghost begins_with = { λ s. fields_begin s.vars.now };

    ghost ended = { λ s. fields_ended s.vars.now };

    ghost residual = { λ s t p h. h };

    ghost none = { λ s. residual_none (ReadsFields s.vars.now) };

    ghost both = { λ s t u p q h k. residual_along (ReadsFields s.vars.now) p (ReadsFields t.vars.now) q (ReadsFields u.vars.now) h k };
}
