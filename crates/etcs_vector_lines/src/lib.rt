//! A line of data, whose words are taken one after another (`Case`), and sheets of vectors, which are such lines with what is
//! expected of each (`Sheet`).
#![tactic(auto)]

mod case;
mod names;
mod sheet;

pub use case::{Argument, Case, FaultTexts, MOST_BITS};
pub use names::variable;
pub use sheet::{Kinds, Sheet};
