//! Laws, each the contract of a function.

ghost use Rattle.etcs_sequence.specs.Spellings.{OneSpelling};

/// Packets of one room with one spelling are the same packets, and no spelling of such packets begins another.
pub fn one_spelling()
    ensures { OneSpelling }
{}
