//! Why a JSON value is no item.

ghost use Rattle.std.specs.Prelude.{Some};

use etcs_vars::Var;
use std::error::Error;
use std::fmt;

/// Why a JSON value is no item. It is printed as its text (`json_fault_text`).
#[derive(Clone, Copy, Debug, PartialEq, Eq)]
pub enum JsonFault {
    /// It isn't the tree of an item of the kind.
    Shape,
    /// It is a tree that was stored when fewer packets were typed, and no item of the kind has its bits: `bit` is the first
    /// with which none continues, counted from 0, and `var` the variable that holds it.
    Refused { bit: usize, var: Var },
    /// Out of memory.
    Memory,
}

impl fmt::Display for JsonFault {
    ghost use Rattle.etcs_json.specs.FaultTexts.{json_fault_text};

    ghost output = { λ fault. Some (json_fault_text fault) };

    fn fmt<W: fmt::Write>(&self, f: &mut fmt::Formatter<W>) -> fmt::Result {
        match self {
            JsonFault::Shape => f.write_str("not the tree of an item"),
            JsonFault::Refused { bit, var } => {
                write!(f, "the bits of no item: refused at bit {bit}, {var}")
            }
            JsonFault::Memory => f.write_str("out of memory"),
        }
    }
}

impl Error for JsonFault {}
