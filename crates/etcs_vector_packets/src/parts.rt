//! Lines about parts of packets: built, sent, read and cloned, what is none, and what refuses a number.

use crate::sent::{BEFORE, BEYOND, Sent, sent_of};
use etcs_bits::BitSlice;
use etcs_bodies::laws::{Exact, exact_equality};
use etcs_bodies::{
    ListOf, Listed, NextNumber, Numbers, Part, Spelled, check, check_count, check_guard, clone_all,
    take_list,
};
use etcs_packets::{
    Authority, BaliseAt, Condition, Differing, Level, LevelAck, Link, ModeSection, ReportAt,
    Section, Shown, Slope, Speed, TextFrame,
};
use etcs_track::Located;
use etcs_vars::inner::{Variables, append_numbers};
use etcs_vars::{BuildFault, Var};
use etcs_vector_lines::{Case, FaultTexts, variable};

/// What is answered of a fault.
pub(crate) const FAULTS: FaultTexts = [
    "refused ",
    "guard ",
    "too many ",
    "count",
    "too long",
    "fill",
];

/// A part that words make.
pub(crate) trait Shape: Part + Exact + Drop {
    /// The part of the arguments that come next; notes where its readers don't give them back.
    fn of_words(case: &mut Case) -> Result<Self, BuildFault>;
}

/// Answers a line about parts: whether it is one.
pub(crate) fn answer(case: &mut Case, kind: &str) -> bool {
    match kind {
        "part" | "same_part" | "take" | "take_bits" => of_part(case, kind),
        "next" => next(case),
        "next_bits" => next_in_bits(case),
        "levels" => levels(case),
        "check_number" | "check_count" | "check_guard" => checked(case, kind),
        _ => return false,
    }
    true
}

/// What is asked of a part of this name.
fn of_part(case: &mut Case, kind: &str) {
    match case.word() {
        "balise_at" => line::<BaliseAt>(case, kind),
        "condition" => line::<Condition>(case, kind),
        "differing" => line::<Differing>(case, kind),
        "link" => line::<Link>(case, kind),
        "mode_section" => line::<ModeSection>(case, kind),
        "report_at" => line::<ReportAt>(case, kind),
        "slope" => line::<Slope>(case, kind),
        name => of_guarded(case, kind, name),
    }
}

/// The same of a part in which something is guarded or counted.
fn of_guarded(case: &mut Case, kind: &str, name: &str) {
    match name {
        "authority" => line::<Authority>(case, kind),
        "level" => line::<Level>(case, kind),
        "level_ack" => line::<LevelAck>(case, kind),
        "located" => line::<Located>(case, kind),
        "section" => line::<Section>(case, kind),
        "shown" => line::<Shown>(case, kind),
        "speed" => line::<Speed>(case, kind),
        "text_frame" => line::<TextFrame>(case, kind),
        _ => case.bad(),
    }
}

fn line<P: Shape>(case: &mut Case, kind: &str) {
    match kind {
        "part" => built::<P>(case),
        "same_part" => compared::<P>(case),
        "take" => {
            let numbers = case.numbers();
            say_taken::<P, _>(case, &mut Listed::new(numbers.as_slice()));
        }
        _ => {
            let bits = case.bits();
            say_taken::<P, _>(case, &mut Spelled::new(bits.as_slice()));
        }
    }
}

/// `part NAME ARGUMENTS`: the part's variables and bits, or why there is none.
fn built<P: Shape>(case: &mut Case) {
    match P::of_words(case) {
        Ok(part) => say_part(case, &part),
        Err(fault) => case.say_fault(fault, &FAULTS),
    }
}

/// The variables and the bits of a part, which has to be what they are read as.
fn say_part<P: Shape>(case: &mut Case, part: &P) {
    let sent = sent_of(case, part);
    let bits = sent.say_spelled(case);
    check_part(case, part, &sent);
    check_in_bits(case, part, bits.as_slice());
}

/// Checks that a part takes as many bits as it sends, is cloned, and is read from its numbers and from no fewer.
fn check_part<P: Shape>(case: &mut Case, part: &P, sent: &Sent) {
    case.check(part.bits() == sent.len(), "another length");
    let copy = case.got(part.try_clone(case.alloc()));
    case.check(copy.as_ref() == Some(part), "another copy");
    let mut numbers = sent.numbers(case);
    check_numbers(case, part, numbers.as_slice());
    check_listed::<P>(case, numbers.as_slice());
    case.kept(numbers.push(BEYOND).is_ok());
    check_taken(case, part, &mut Listed::new(numbers.as_slice()));
}

/// Checks that these are the numbers of a run of variables.
pub(crate) fn check_numbers<V: Variables>(case: &mut Case, part: &V, numbers: &[u64]) {
    let mut own = Vec::new(case.alloc());
    case.kept(append_numbers(part, &mut own).is_ok());
    case.check(own.as_slice() == numbers, "other numbers");
}

/// Checks that no part is read from fewer than these numbers.
fn check_listed<P: Shape>(case: &mut Case, numbers: &[u64]) {
    let mut some = numbers;
    for _ in 0..numbers.len() {
        if let Some((_, fewer)) = some.split_last() {
            some = fewer;
        }
        check_none::<P, _>(case, &mut Listed::new(some));
    }
}

/// Checks that a part is read from these bits but for those before, and from no fewer.
fn check_in_bits<P: Shape>(case: &mut Case, part: &P, bits: BitSlice<'_>) {
    if let Some(whole) = bits.cut(BEFORE, bits.len().saturating_sub(BEFORE)) {
        check_taken(case, part, &mut Spelled::new(whole));
    }
    for len in 0..part.bits() {
        if let Some(fewer) = bits.cut(BEFORE, len) {
            check_none::<P, _>(case, &mut Spelled::new(fewer));
        }
    }
}

/// Checks that the numbers are those of a part and the one after it.
fn check_taken<P: Shape, L: Numbers>(case: &mut Case, part: &P, numbers: &mut L) {
    let taken: Option<P> = next_part(case, numbers);
    case.check(taken.as_ref() == Some(part), "another part taken");
    case.check(!numbers.is_empty(), "nothing after it");
    let beyond = numbers.next(Var::NID_TEXTMESSAGE);
    case.check(
        beyond == Some(BEYOND) && numbers.is_empty(),
        "taken too far",
    );
}

/// Checks that no part begins the numbers.
fn check_none<P: Shape, L: Numbers>(case: &mut Case, numbers: &mut L) {
    let taken: Option<P> = next_part(case, numbers);
    case.check(taken.is_none(), "a part of fewer");
}

/// The part that begins the numbers.
pub(crate) fn next_part<P: Part + Drop, L: Numbers>(case: &mut Case, numbers: &mut L) -> Option<P> {
    match P::take(case.alloc(), numbers) {
        Ok(part) => part,
        Err(_) => {
            case.kept(false);
            None
        }
    }
}

/// `same_part NAME ARGUMENTS / ARGUMENTS`: whether two parts are equal.
fn compared<P: Shape>(case: &mut Case) {
    let beyond = case.split(" / ");
    let first = P::of_words(case);
    case.continue_with(beyond);
    let second = P::of_words(case);
    match (first.as_ref(), second.as_ref()) {
        (Ok(first), Ok(second)) => {
            case.say_truth(first == second);
            let same = exact_equality(first, second);
            case.check(same == (first == second), "not by the law");
        }
        _ => case.bad(),
    }
}

/// `take NAME NUMBERS` and `take_bits NAME BITS`: whether these begin with a part.
fn say_taken<P: Shape, L: Numbers>(case: &mut Case, numbers: &mut L) {
    let taken: Option<P> = next_part(case, numbers);
    case.say_either(taken.is_some(), "some", "none");
}

/// `next CALLS / NUMBERS`: what each call returns, one after another.
fn next(case: &mut Case) {
    let beyond = case.split(" / ");
    let calls = case.rest();
    case.continue_with(beyond);
    let numbers = case.numbers();
    say_calls(case, &mut Listed::new(numbers.as_slice()), calls);
}

/// `next_bits CALLS / BITS`: the same of bits, of which three before and four after are left out.
fn next_in_bits(case: &mut Case) {
    let beyond = case.split(" / ");
    let calls = case.rest();
    case.continue_with(beyond);
    let bits = case.bits();
    let bits = bits.as_slice();
    if let Some(inside) = bits.cut(3, bits.len().saturating_sub(7)) {
        say_calls(case, &mut Spelled::new(inside), calls);
    }
}

/// What each call returns: `flag`, `empty`, or the name of a variable of which the next number is taken.
fn say_calls<L: Numbers>(case: &mut Case, numbers: &mut L, calls: &str) {
    for call in calls.split(' ') {
        match call {
            "empty" => case.say_either(numbers.is_empty(), "true", "false"),
            "flag" => match numbers.flag(Var::Q_LINK) {
                Some(flag) => case.say_either(flag, "true", "false"),
                None => case.say("none"),
            },
            _ => match variable(call) {
                Some(var) => case.say_found(numbers.next(var)),
                None => case.bad(),
            },
        }
        case.say(" ");
    }
}

/// `levels VAR NUMBERS`: how many levels after a count of this variable, their numbers, and the first of NID_NTC
/// after them.
fn levels(case: &mut Case) {
    let count = case.var().unwrap_or(Var::N_ITER);
    let list = case.numbers();
    let mut numbers = Listed::new(list.as_slice());
    let alloc = case.alloc();
    match case.got(take_list(alloc, count, &mut numbers)) {
        Some(Some(levels)) => {
            say_levels(case, levels);
            case.say("/ ");
            case.say_found(numbers.next(Var::NID_NTC));
            case.say_either(numbers.is_empty(), " true", " false");
        }
        _ => case.say("none"),
    }
}

/// How many levels these are and their numbers.
fn say_levels(case: &mut Case, levels: Vec<Level>) {
    case.say_next(levels.len() as u64);
    for level in levels.as_slice() {
        for number in sent_of(case, level).numbers(case).as_slice() {
            case.say_next(*number);
        }
    }
    check_items(case, levels.as_slice());
}

/// Checks that clones of levels are held as items and given back.
fn check_items(case: &mut Case, levels: &[Level]) {
    if let Some(copies) = case.got(clone_all(case.alloc(), levels)) {
        let items = ListOf::from_vec(copies);
        let same = items.as_slice() == levels && items.len() == levels.len();
        case.check(same, "other items");
        let none = items == ListOf::from_vec(Vec::new(case.alloc()));
        case.check(!none, "no items");
        case.check(items.into_vec().as_slice() == levels, "other items back");
    }
}

/// `check_number VAR NUMBER`, `check_count VAR COUNT`, `check_guard VAR WANTED THERE`: `ok`, or the fault.
fn checked(case: &mut Case, kind: &str) {
    let var = case.var().unwrap_or(Var::N_ITER);
    let checked = match kind {
        "check_number" => check(var, case.number()),
        "check_count" => check_count(var, usize::from(case.half())),
        _ => {
            let wanted = case.flag();
            check_guard(var, wanted, case.flag())
        }
    };
    match checked {
        Ok(()) => case.say("ok"),
        Err(fault) => case.say_fault(fault, &FAULTS),
    }
}
