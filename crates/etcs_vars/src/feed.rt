//! What readers return for a piece of bytes.

ghost use Rattle.std.specs.Prelude.{Some};
ghost use Rattle.etcs_vars.specs.Faults.{read_fault_text};

use crate::var::Var;
use std::error::Error;
use std::fmt;

/// The result of feeding a piece.
#[derive(Clone, Copy, Debug, PartialEq, Eq)]
pub enum Fed {
    /// The whole piece was taken, and the value isn't whole yet.
    More,
    /// The value is whole. It ends in this piece, `taken` bytes from the piece's beginning.
    Done { taken: usize },
}

/// Why a reader returns no value.
#[derive(Clone, Copy, Debug, PartialEq, Eq)]
pub enum ReadFault {
    /// No value begins with the bits up to and with the bit `bit`, counted from 0 from the value's first bit, and `var`
    /// holds this bit.
    Refused { bit: usize, var: Var },
    /// The value was whole before this piece.
    Ended,
    /// Out of memory.
    Memory,
}

/// Prints a fixed text for each fault, of a refusal with the bit and the name of the variable.
impl fmt::Display for ReadFault {
    ghost output = { λ fault. Some (read_fault_text fault) };

    fn fmt<W: fmt::Write>(&self, f: &mut fmt::Formatter<W>) -> fmt::Result {
        match self {
            ReadFault::Refused { bit, var } => write!(f, "refused at bit {bit}, {var}"),
            ReadFault::Ended => f.write_str("the value was whole before"),
            ReadFault::Memory => f.write_str("out of memory"),
        }
    }
}

impl Error for ReadFault {}
