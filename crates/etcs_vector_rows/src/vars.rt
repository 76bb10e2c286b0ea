//! Lines about variables.

use etcs_vars::{Var, begins, check};
use etcs_vector_lines::Case;

/// Answers a line about variables: whether it is one.
pub(crate) fn answer(case: &mut Case, kind: &str) -> bool {
    match kind {
        "span" => span(case),
        "width" | "ranges" | "name" | "begins" | "admits" | "special" | "check" => {
            if let Some(var) = case.var() {
                of_var(case, kind, var);
            }
        }
        _ => return false,
    }
    true
}

/// What is asked of a variable.
fn of_var(case: &mut Case, kind: &str, var: Var) {
    match kind {
        "width" => case.say_number(var.width() as u64),
        "ranges" => ranges(case, var),
        "name" => name(case, var),
        "begins" => begun(case, var),
        _ => of_number(case, kind, var),
    }
}

/// What is asked of a variable and a number.
fn of_number(case: &mut Case, kind: &str, var: Var) {
    let number = case.number();
    match kind {
        "admits" => case.say_truth(var.admits(number)),
        "special" => case.say(var.special(number).unwrap_or("none")),
        _ => checked(case, var, number),
    }
}

/// `ranges VAR`: the admitted numbers, as ranges LOW-HIGH.
fn ranges(case: &mut Case, var: Var) {
    for range in var.ranges() {
        case.say_number(range.0);
        case.say("-");
        case.say_next(range.1);
    }
}

/// `name VAR`: the name as it is printed, which must be `Var::name`.
fn name(case: &mut Case, var: Var) {
    if let Some(text) = case.got(var.to_string(case.alloc())) {
        case.say(text.as_str());
        case.check(text.as_str() == var.name(), "another name");
    }
}

/// `begins VAR DIGITS`: whether some admitted number begins with these bits.
fn begun(case: &mut Case, var: Var) {
    let digits = case.word();
    let bits = case.bits_between("", digits, "");
    let taken = bits.len();
    if taken > 64 || taken > var.width() {
        return case.bad();
    }
    if let Some(number) = bits.as_slice().number(0, taken) {
        say_begun(case, var, number, taken);
    }
}

fn say_begun(case: &mut Case, var: Var, bits: u64, taken: usize) {
    if taken <= var.width() && (taken >= 64 || bits < 1 << taken) {
        case.say_truth(var.admits_prefix(bits, taken));
    }
}

/// `span REST BITS LOW HIGH ..`: whether some number of at most two ranges is BITS without its REST lowest bits.
fn span(case: &mut Case) {
    let rest = case.up_to(64) as usize;
    let bits = case.number();
    if case.is_empty() {
        return case.say_truth(begins(&[], rest, bits));
    }
    let first = (case.number(), case.number());
    if case.is_empty() {
        return case.say_truth(begins(&[first], rest, bits));
    }
    let second = (case.number(), case.number());
    case.say_truth(begins(&[first, second], rest, bits));
}

/// `check VAR NUMBER`: `ok`, or the fault of a builder that is given the number.
fn checked(case: &mut Case, var: Var, number: u64) {
    match check(var, number) {
        Ok(()) => case.say("ok"),
        Err(fault) => {
            if let Some(text) = case.got(fault.to_string(case.alloc())) {
                case.say(text.as_str());
            }
        }
    }
}
