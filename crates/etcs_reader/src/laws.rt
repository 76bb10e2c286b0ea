//! What a feeder's results mean for all bits that were fed.

ghost use Rattle.etcs_reader.specs.Feeders.{FedFrom};

use crate::rest::Rest;

/// What a feeder does with a piece (`Feeds`) is a promise about what is left and the bits of the unfinished variable.
/// The same holds of the whole language and of all bits that were fed, in place of these: a bit that is taken or
/// refused after what is left is taken or refused after all bits.
pub fn fed_from<R: Rest>()
    ensures { FedFrom R R.left R.next R.follows R.fails }
{}
