//! Why a group has no message.

ghost use Rattle.std.specs.Prelude.{◌≡◌, Some};

use std::alloc::AllocError;
use std::error::Error;
use std::fmt;

/// Why there is no message of a group.
#[derive(Clone, Copy, Debug, PartialEq, Eq)]
pub enum GroupFault {
    /// Nothing is held, or a position is missing.
    NotWhole,
    /// Out of memory.
    Memory,
}

impl fmt::Display for GroupFault {
    ghost use Rattle.etcs_group.specs.Texts.{group_fault_text};

    ghost output = { λ fault. Some (group_fault_text fault) };

    fn fmt<W: fmt::Write>(&self, f: &mut fmt::Formatter<W>) -> fmt::Result {
        f.write_str(match self {
            GroupFault::NotWhole => "the group isn't whole",
            GroupFault::Memory => "out of memory",
        })
    }
}

impl Error for GroupFault {}
