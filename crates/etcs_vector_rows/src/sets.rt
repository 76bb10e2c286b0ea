//! Lines about sets of lengths.
//!
//! A set is made by words, each of which takes the sets that were made last: a number is the set
//! with this number; `join` and `plus` take two sets; `>N` shifts one by N; `xN` takes N of its numbers.

ghost use Rattle.std.specs.Prelude.{◌≤◌, IfSome};

use etcs_rows::LengthSet;
use etcs_vector_lines::Case;

/// Answers a line about sets: whether it is one.
pub(crate) fn answer(case: &mut Case, kind: &str) -> bool {
    match kind {
        "sums" => sums(case),
        "same" => same(case),
        "inside" => inside(case),
        _ => return false,
    }
    true
}

/// The sets that the words left make.
fn made(case: &mut Case) -> Vec<LengthSet> {
    let mut sets = Vec::new(case.alloc());
    for word in case.rest().split(' ') {
        match next(&mut sets, word) {
            Some(set) => case.kept(sets.push(set).is_ok()),
            None => case.bad(),
        }
    }
    sets
}

/// The set that a word makes of those that were made before.
fn next(sets: &mut Vec<LengthSet>, word: &str) -> Option<LengthSet> {
    if let Some(count) = word.strip_prefix('x') {
        return Some(sets.pop()?.times(count.parse::<u64>().ok()?));
    }
    if let Some(by) = word.strip_prefix('>') {
        return Some(sets.pop()?.shift(length(by)?));
    }
    match word {
        "join" => both(sets, true),
        "plus" => both(sets, false),
        _ => Some(LengthSet::single(length(word)?)),
    }
}

/// A length.
fn length(word: &str) -> Option<usize>
    ensures { IfSome result (λ n. n ≤ 8191) }
{
    let number = word.parse::<usize>().ok()?;
    if number > 8191 { None } else { Some(number) }
}

/// The set of the two that were made last.
fn both(sets: &mut Vec<LengthSet>, joins: bool) -> Option<LengthSet> {
    let last = sets.pop()?;
    let before = sets.pop()?;
    Some(if joins {
        before.join(&last)
    } else {
        before.plus(&last)
    })
}

/// The numbers of a set up to `most`: each run of them as FIRST-LAST, or as FIRST where it has one.
pub(crate) fn say_set(case: &mut Case, set: &LengthSet, most: usize) {
    let mut first = 0;
    let mut is_in = false;
    for number in 0..8193usize {
        let held = number <= most && set.holds(number);
        if held && !is_in {
            first = number;
        }
        if is_in && !held {
            say_run(case, first, number.saturating_sub(1));
        }
        is_in = held;
    }
    let more = set.holds(8192) || set.holds(8207) || set.holds(usize::MAX);
    case.check(!more, "more");
}

/// A run of numbers and a blank.
fn say_run(case: &mut Case, first: usize, last: usize) {
    case.say_number(first as u64);
    if first < last {
        case.say("-");
        case.say_number(last as u64);
    }
    case.say(" ");
}

/// `sums WORD ..`: the numbers of the set that the words make.
fn sums(case: &mut Case) {
    match made(case).as_slice() {
        [set] => say_set(case, set, 8191),
        _ => case.bad(),
    }
}

/// `same WORD ..`: whether the two sets that the words make are equal.
fn same(case: &mut Case) {
    match made(case).as_slice() {
        [one, other] => {
            case.say_truth(one == other);
            case.check((one != other) != (one == other), "unequal too");
        }
        _ => case.bad(),
    }
}

/// `inside LOW HIGH WORD ..`: whether the set that the words make has a number from LOW to HIGH.
fn inside(case: &mut Case) {
    let low = case.place();
    let high = case.place();
    match made(case).as_slice() {
        [set] => case.say_truth(set.any_in(low, high)),
        _ => case.bad(),
    }
}
