//! Lines about walks over rows.

use crate::rows::{next_row, place_beyond};
use etcs_bits::BitSlice;
use etcs_rows::inner::{unfinished, wanted};
use etcs_rows::{LengthSet, RowWalk, Step, Stopped, lengths};
use etcs_tables::Row;
use etcs_vector_lines::Case;

/// How many lengths of the rest `fits` tries.
const MOST_REST: usize = 400;

/// Answers a line about walks: whether it is one.
pub(crate) fn answer(case: &mut Case, kind: &str) -> bool {
    match kind {
        "walk" => walked(case),
        "fits" => fits(case),
        _ => return false,
    }
    true
}

/// Whether a walk says the same by each of its calls, after a step.
fn is_sound(walk: &RowWalk, step: Step) -> bool {
    let next = walk.var();
    let same = walk.place().var() == next && walk.is_whole() == next.is_none();
    let whole = matches!(step, Step::Whole(_, _)) == walk.is_whole();
    let all = match next {
        Some(var) => var.width(),
        None => 0,
    };
    same && whole && unfinished(walk).1.saturating_add(wanted(walk)) == all
}

/// A variable, its number and a blank.
fn say_pair(case: &mut Case, name: &str, number: u64) {
    case.say(name);
    case.say("=");
    case.say_next(number);
}

/// Why a walk stopped and at which bit, and whether it says the same again.
fn say_stopped(case: &mut Case, walk: &mut RowWalk, stopped: Stopped, at: usize) {
    match stopped {
        Stopped::Refused(var) => case.say_of("refused ", var),
        Stopped::Ended => case.say("ended"),
    }
    case.say(" at ");
    case.say_number(at as u64);
    let again = walk.bit(true) == Err(stopped) && walk.bit(false) == Err(stopped);
    case.check(again, "forgotten");
}

/// What a walk has come to at the end of the digits.
fn say_end(case: &mut Case, walk: &RowWalk) {
    match walk.var() {
        Some(var) => {
            let (number, count) = unfinished(walk);
            case.say("more of ");
            say_pair(case, var.name(), number);
            case.say("by ");
            case.say_number(count as u64);
        }
        None => case.say("whole"),
    }
}

/// A step: a variable that is whole by it.
fn say_step(case: &mut Case, walk: &RowWalk, step: Step) {
    if let Step::Number(var, number) | Step::Whole(var, number) = step {
        say_pair(case, var.name(), number);
    }
    case.check(is_sound(walk, step), "unsound");
}

/// The course of a walk over the digits: its whole variables, and where it ended.
fn say_course(case: &mut Case, walk: &mut RowWalk, digits: &BitSlice<'_>) {
    for at in 0..digits.len() {
        match digits.bit(at).map(|bit| walk.bit(bit)) {
            Some(Ok(step)) => say_step(case, walk, step),
            Some(Err(stopped)) => return say_stopped(case, walk, stopped, at),
            None => return case.bad(),
        }
    }
    say_end(case, walk);
}

/// `walk ROW LEN DIGITS`: the course of a walk over the row of this many bits, or `no walk`.
fn walked(case: &mut Case) {
    if let Some(row) = next_row(case) {
        let len = case.place();
        let digits = case.bits();
        match RowWalk::start(row, len) {
            Some(mut walk) => say_course(case, &mut walk, &digits.as_slice()),
            None => case.say("no walk"),
        }
    }
}

/// Whether a walk takes a number of its next variable.
fn takes(walk: &mut RowWalk, number: u64) -> bool {
    let count = wanted(walk);
    if count == 0 || count > 63 || number >= 1 << count {
        return false;
    }
    for place in 0..count {
        if walk.bit((number >> (count - 1 - place)) % 2 == 1).is_err() {
            return false;
        }
    }
    true
}

/// Whether a walk over the row of this many bits takes the numbers.
fn takes_all(row: Row, len: usize, numbers: &[u64]) -> bool {
    let Some(mut walk) = RowWalk::start(row, len) else {
        return false;
    };
    for number in numbers {
        if !takes(&mut walk, *number) {
            return false;
        }
    }
    true
}

/// The lengths that may be left after the numbers, and how many bits these take.
fn left_after(row: Row, numbers: &[u64]) -> (Option<LengthSet>, usize) {
    match place_beyond(row, numbers) {
        Some((place, bits)) => (Some(lengths(&place)), bits),
        None => (None, 0),
    }
}

/// `fits ROW NUMBER ..`: `yes` where walks over the row take the numbers exactly where the rest of
/// the length is one of those that may be left after them, for each length of the rest.
fn fits(case: &mut Case) {
    if let Some(row) = next_row(case) {
        let numbers = case.numbers();
        let (left, bits) = left_after(row, numbers.as_slice());
        let mut alike = true;
        for rest in 0..=MOST_REST {
            let len = bits.saturating_add(rest);
            let fits = match &left {
                Some(set) => set.holds(rest),
                None => false,
            };
            alike &= takes_all(row, len, numbers.as_slice()) == fits;
        }
        case.say_truth(alike);
    }
}
