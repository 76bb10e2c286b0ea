//! Why nothing is read from a text or a tree.

use std::alloc::{AllocError, AllocFailed};

/// Why nothing is read from a text or a tree.
#[derive(Clone, Copy, Debug, PartialEq, Eq)]
pub enum Fault {
    /// A text that isn't JSON, or a tree that isn't what is to be read.
    Invalid,
    /// Out of memory.
    Memory,
}

impl From<json::Invalid> for Fault {
    ghost use Rattle.etcs_json_trees.specs.declared.fault.Fault.TheVariants.{Invalid};
    ghost use Rattle.std.specs.Prelude.{◌≡◌};

    ghost from_gives = { λ _ e. e ≡ Invalid };

    fn from(_invalid: json::Invalid) -> Fault {
        Fault::Invalid
    }
}

impl From<AllocError> for Fault {
    ghost use Rattle.etcs_json_trees.specs.declared.fault.Fault.TheVariants.{Memory};
    ghost use Rattle.std.specs.Prelude.{◌≡◌};

    ghost from_gives = { λ _ e. e ≡ Memory };

    fn from(_refused: AllocError) -> Fault {
        Fault::Memory
    }
}

impl<T: Drop> From<AllocFailed<T>> for Fault {
    ghost use Rattle.etcs_json_trees.specs.declared.fault.Fault.TheVariants.{Memory};
    ghost use Rattle.std.specs.Prelude.{◌≡◌};

    ghost from_gives = { λ _ e. e ≡ Memory };

    fn from(_refused: AllocFailed<T>) -> Fault {
        Fault::Memory
    }
}
