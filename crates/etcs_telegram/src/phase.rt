//! What is left of a telegram.

ghost use Rattle.std.specs.Prelude.{◌≡◌};
ghost use Rattle.etcs_telegram.specs.Phases.{header_var};

use crate::size::Size;
use etcs_tables::{RowItem, header_row};
use etcs_vars::Var;

/// What comes next in a telegram.
#[derive(Clone, Copy, Debug, PartialEq, Eq)]
pub(crate) enum Phase {
    /// The variable of the header at this place.
    Header(usize),
    /// Packets, with packet 255 after them.
    Packets,
    /// FILL, with this many bits left.
    Fill(usize),
    /// PAD, with this many bits left.
    Pad(usize),
    /// Nothing.
    Whole,
}

impl Phase {
    ghost use Rattle.etcs_telegram.specs.Phases.{after_header, after_fill};

    /// What comes after the variable at this place of the header.
    pub(crate) fn after_header(at: usize) -> Phase
        ensures { result ≡ after_header at }
    {
        if at < 9 {
            Phase::Header(at + 1)
        } else {
            Phase::Packets
        }
    }

    /// What comes after this many bits of FILL, of which `left` were left.
    pub(crate) fn after_fill(size: Size, left: usize, count: usize) -> Phase
        ensures { result ≡ after_fill size left count }
    {
        if count < left {
            Phase::Fill(left - count)
        } else {
            Phase::Pad(size.pad_bits())
        }
    }
}

/// The variable at this place of the header.
pub(crate) fn header_var(at: usize) -> Var
    ensures { result ≡ header_var at }
{
    match header_row().items.get(at) {
        Some(RowItem::One(var)) => *var,
        _ => Var::PAD,
    }
}
