//! What a reader of any kind returns for pieces.

use etcs_fakes::Checks;
use etcs_reader::{Feeder, Rest, Stop};
use etcs_vars::Var;

/// A byte, how many of its bits are taken, the variable that holds the next bit, and its bits so far.
pub(crate) type After = (u8, usize, Option<Var>, (u64, usize));

/// A refused bit, its variable, and this one's bits so far.
pub(crate) type Refused = (usize, Var, (u64, usize));

/// What a reader of a few bytes returns for a piece.
pub(crate) fn fed<R: Rest>(feeder: &mut Feeder<R>, piece: &[u8]) -> Result<usize, Stop> {
    if feeder.count() > 1000 || piece.len() > 1000 {
        return Ok(usize::MAX);
    }
    feeder.feed(piece)
}

/// Feeds bytes, in one piece or one by one.
pub(crate) fn feed<R: Rest>(feeder: &mut Feeder<R>, bytes: &[u8], singly: bool) {
    if !singly {
        let _ = fed(feeder, bytes);
        return;
    }
    for byte in bytes {
        let _ = fed(feeder, &[*byte]);
    }
}

/// Checks what is answered to each byte.
pub(crate) fn check_bytes<R: Rest>(checks: &mut Checks, feeder: &mut Feeder<R>, bytes: &[After]) {
    for (byte, taken, var, part) in bytes {
        let answer = fed(feeder, &[*byte]);
        checks.check(answer == Ok(*taken), "other bits taken");
        checks.check(feeder.var() == *var, "another variable");
        checks.check(feeder.unfinished() == *part, "another part");
    }
}

/// Checks that a reader stopped before a refused bit, and reports it again for each further piece.
pub(crate) fn check_refused<R: Rest>(
    checks: &mut Checks,
    feeder: &mut Feeder<R>,
    refused: Refused,
) {
    let (bit, var, part) = refused;
    let stop = Stop::Refused { bit, var };
    checks.check(feeder.stop() == Some(stop), "another stop");
    checks.check(feeder.count() == bit, "another bit");
    checks.check(feeder.var() == Some(var), "another variable");
    checks.check(feeder.unfinished() == part, "another part");
    let again = fed(feeder, &[0xFF, 0x00]);
    checks.check(again == Err(stop), "another answer again");
    let again = fed(feeder, &[]);
    checks.check(again == Err(stop), "another answer to no bytes");
}

/// Checks that a reader is at its end after this many bits, and takes no more.
pub(crate) fn check_end<R: Rest>(checks: &mut Checks, feeder: &mut Feeder<R>, bits: usize) {
    let more = fed(feeder, &[0xFF, 0x00]);
    checks.check(more == Ok(0), "more taken");
    checks.check(feeder.count() == bits, "another end");
    checks.check(feeder.var().is_none() && feeder.stop().is_none(), "no end");
    checks.check(feeder.unfinished() == (0, 0), "a part at the end");
}
