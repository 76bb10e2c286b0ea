//! Why a run ends early.

ghost use Rattle.std.specs.Prelude.{◌≡◌, OnOk};
ghost use Rattle.std.specs.Io.KnownBytes.{Appends};
ghost use Rattle.etcs_runs.specs.Faults.{fault_line};

use etcs_vars::Var;
use std::alloc::AllocError;
use std::io::{self, Write};
use thiserror::Error;

/// Why a run ends early. Items and lines count from 1, bits and places from 0.
#[derive(Clone, Copy, Debug, PartialEq, Eq, Error)]
pub enum RunFault {
    /// No item continues with this bit of the input, counted from the item's first; the variable holds it.
    #[error("item {item} was refused at bit {bit}, {var}")]
    Refused { item: u64, bit: usize, var: Var },
    /// The input ends inside an item, after this many bits of it.
    #[error("item {item} was truncated after {bits} bits")]
    Truncated { item: u64, bits: u64 },
    /// A line isn't hexadecimal. The place is 4,096 if the line is longer than that, its length if that is odd, else
    /// that of the first character that is no digit.
    #[error("line {line} is bad hexadecimal at {place}")]
    BadHex { line: u64, place: u64 },
    /// A line isn't the JSON of an item of the kind, or is longer than 1,048,576 bytes.
    #[error("line {line} is bad JSON")]
    BadJson { line: u64 },
    /// The reader failed.
    #[error("the input could not be read")]
    Read,
    /// The writer failed or took nothing, after this many bytes of the run.
    #[error("the output could not be written after {sent} bytes")]
    Write { sent: u64 },
    /// The input isn't at its end after as many reads or items as a run may have.
    #[error("the input has no end")]
    Endless,
    /// Memory was refused.
    #[error("out of memory")]
    Memory,
}

impl From<AllocError> for RunFault {
    ghost use Rattle.std.specs.Prelude.{◌≡◌};
    ghost use Rattle.etcs_runs.specs.declared.fault.RunFault.TheVariants.{Memory};

    ghost from_gives = { λ _ fault. fault ≡ Memory };

    #[inline(always)]
    fn from(_refused: AllocError) -> RunFault {
        RunFault::Memory
    }
}

/// Writes the line of the fault for standard error, with its LF (`fault_line`). If it succeeds, exactly this line was
/// written.
///
/// # Errors
///
/// That of the writer. Any part of the line may then be written.
#[tactic(auto, using(std::proofs::Common::append_assoc))]
pub fn write_fault<W: Write>(fault: &RunFault, out: &mut W) -> io::Result<()>
    ensures { OnOk result (Appends (W.contents out.old) (W.contents out.new) (fault_line fault.now)) }
{
    match fault {
        RunFault::Refused { item, bit, var } => {
            write!(
                out,
                "etcs: item {item} refused at bit {bit}, {}\n",
                var.name()
            )
        }
        RunFault::Truncated { item, bits } => {
            write!(out, "etcs: item {item} truncated after {bits} bits\n")
        }
        RunFault::BadHex { line, place } => {
            write!(out, "etcs: line {line}: bad hexadecimal at {place}\n")
        }
        RunFault::BadJson { line } => write!(out, "etcs: line {line}: bad JSON\n"),
        RunFault::Read => write!(out, "etcs: read fault\n"),
        RunFault::Write { sent } => write!(out, "etcs: write fault after {sent} bytes\n"),
        RunFault::Endless => write!(out, "etcs: input without end\n"),
        RunFault::Memory => write!(out, "etcs: out of memory\n"),
    }
}
