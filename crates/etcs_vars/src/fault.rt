//! Why a value can't be built.

ghost use Rattle.std.specs.Prelude.{◌≡◌, None, Some, OnOk, IfErr};
ghost use Rattle.etcs_vars.specs.Faults.{number_fault, build_fault_text};

use crate::var::Var;
use std::error::Error;
use std::fmt;

/// Why a packet, a telegram, a message or a part of one can't be built from these values.
#[derive(Clone, Copy, Debug, PartialEq, Eq)]
pub enum BuildFault {
    /// The variable doesn't admit the number: it is spare, or too large for the variable's width. Also NID_PACKET or
    /// NID_MESSAGE that the type or the message can't have, and PADDING of more bits than are left.
    NotAdmitted(Var),
    /// A group is there although its guard on the variable doesn't hold, or is missing although it holds.
    Guard(Var),
    /// There are more entries than the variable can count.
    TooMany(Var),
    /// There are more or fewer numbers than the row has.
    Count,
    /// The packet, the telegram or the message would be longer than it may be.
    TooLong,
    /// The fill isn't exactly the rest of the telegram, or a message that is kept as bits isn't 3 to 1,023 whole bytes.
    FillLength,
    /// Out of memory.
    Memory,
}

/// Prints a fixed text for each fault, with the name of its variable.
impl fmt::Display for BuildFault {
    ghost output = { λ fault. Some (build_fault_text fault) };

    fn fmt<W: fmt::Write>(&self, f: &mut fmt::Formatter<W>) -> fmt::Result {
        match self {
            BuildFault::NotAdmitted(var) => write!(f, "{var} doesn't admit the number"),
            BuildFault::Guard(var) => write!(f, "{var} and the group that it guards don't agree"),
            BuildFault::TooMany(var) => write!(f, "more entries than {var} can count"),
            BuildFault::Count => f.write_str("not as many numbers as the row has"),
            BuildFault::TooLong => f.write_str("longer than may be sent"),
            BuildFault::FillLength => f.write_str("the fill isn't the rest of the bits"),
            BuildFault::Memory => f.write_str("out of memory"),
        }
    }
}

impl Error for BuildFault {}

/// Whether the variable admits the number: succeeds exactly if it does.
///
/// # Errors
///
/// [`BuildFault::NotAdmitted`] with this variable if it doesn't.
pub fn check(var: Var, number: u64) -> Result<(), BuildFault>
    ensures ok { OnOk result (number_fault var number ≡ None) }
    ensures fault { IfErr result (λ e. number_fault var number ≡ Some e) }
{
    if var.admits(number) {
        Ok(())
    } else {
        Err(BuildFault::NotAdmitted(var))
    }
}
