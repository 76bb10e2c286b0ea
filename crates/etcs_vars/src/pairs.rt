//! Variables with their numbers, as a vector.

ghost use Rattle.std.specs.Prelude.{◌≡◌, IfOk};

use crate::sink::{VarSink, Variables};
use crate::var::Var;
use std::alloc::{AllocError, Global};
use std::marker::Model;

/// Variables with their numbers, one after another.
#[derive(Debug, Drop)]
pub struct PairList {
    held: Vec<(Var, u64)>,
}

impl Model for PairList {
    ghost use Rattle.etcs_vars.specs.Reading.{Reading};

    ghost Value = { Reading };

    ghost view = { λ s. s.held.items };
}

impl PairList {
    ghost use Rattle.std.specs.Prelude.{◌≡◌, []};

    /// No variables. Nothing is allocated.
    pub fn new(alloc: Global) -> PairList
        ensures { result ≡ [] }
    {
        PairList {
            held: Vec::new(alloc),
        }
    }

    /// The pairs, in the order in which they were sent.
    pub fn into_vec(self) -> Vec<(Var, u64)>
        ensures { result.items ≡ self }
    {
        let PairList { held } = self;
        held
    }
}

/// What is sent comes after what the list has. If memory runs out no clause says what it has then.
impl VarSink for PairList {
    ghost use Rattle.std.specs.Prelude.{⊤, ◌++◌};
    ghost use Rattle.etcs_vars.specs.laws.Sinks.{pairs_none, pairs_both};

    ghost with = { λ r s. r ++ s };

    ghost failed = { λ r s. ⊤ };

    ghost with_none = { pairs_none };

    ghost with_both = { pairs_both };

    ghost failed_after = { λ r a s h. h };

    fn send(&mut self, sent: &[(Var, u64)]) -> Result<(), AllocError> {
        self.held.extend_from_slice(sent)
    }
}

/// The variables of a value with their numbers, in the order of sending: if it succeeds, exactly those that the value
/// sends.
///
/// # Errors
///
/// `AllocError` if memory runs out.
pub fn pairs_of<V: Variables>(variables: &V, alloc: Global) -> Result<Vec<(Var, u64)>, AllocError>
    ensures { IfOk result (λ pairs. pairs.items ≡ V.reading_of variables.now) }
{
    let mut list = PairList::new(alloc);
    variables.send(&mut list)?;
    Ok(list.into_vec())
}
