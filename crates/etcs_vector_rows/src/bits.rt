//! Lines about bits at any offset.

use etcs_bits::{BitSlice, Bits, PokeFault, Poker, SliceWalker, Walker, inner, peek, poke};
use etcs_vector_lines::{Case, MOST_BITS};

/// How many numbers a line has at most.
const MOST: u8 = 100;

/// Answers a line about bits: whether it is one.
pub(crate) fn answer(case: &mut Case, kind: &str) -> bool {
    match kind {
        "peek" => peeked(case),
        "poke" => poked(case),
        "walker" => walker(case),
        "slice" => sliced(case, "slice"),
        "poker" => poker(case),
        "cut" => sliced(case, "cut"),
        "bits" => owned(case),
        "append" => appended(case),
        "lay" => laid(case),
        _ => return false,
    }
    true
}

/// `peek BYTES START WIDTH`: the number there, or `none`.
fn peeked(case: &mut Case) {
    let held = case.bytes();
    let start = case.place();
    let width = case.up_to(64) as usize;
    case.say_found(peek(held.as_slice(), start, width));
}

/// What a write answered, and a blank.
fn say_poked(case: &mut Case, poked: Result<(), PokeFault>) {
    case.say(match poked {
        Ok(()) => "ok ",
        Err(PokeFault::PastEnd) => "past-end ",
        Err(PokeFault::TooLarge) => "too-large ",
    });
}

/// `poke BYTES START WIDTH NUMBER`: `ok`, `past-end` or `too-large`, and the bytes then.
fn poked(case: &mut Case) {
    let mut held = case.bytes();
    let start = case.place();
    let width = case.up_to(64) as usize;
    let number = case.number();
    say_poked(case, poke(held.as_mut_slice(), start, width, number));
    case.say_hex(held.as_slice());
}

/// A number, or `none`, with the place after it.
fn say_walked(case: &mut Case, found: Option<u64>, place: usize) {
    case.say_found(found);
    case.say("@");
    case.say_number(place as u64);
}

/// `walker BYTES WIDTH ..`: the number of each width in turn, or `none`, each with the place after it.
fn walker(case: &mut Case) {
    let held = case.bytes();
    let mut walker = Walker::new(held.as_slice());
    for _ in 0..MOST {
        if case.is_empty() || walker.place() > MOST_BITS {
            break;
        }
        let found = walker.next(case.up_to(64) as usize);
        say_walked(case, found, walker.place());
        case.say(" ");
    }
}

/// `slice BYTES START LEN ..` and `cut BYTES START LEN ..`: what is asked of the bits of a slice; `no slice` where there
/// are no such bits.
fn sliced(case: &mut Case, kind: &str) {
    let held = case.bytes();
    let start = case.place();
    let len = case.place();
    match BitSlice::new(held.as_slice(), start, len) {
        Some(slice) if kind == "cut" => cut(case, slice),
        Some(slice) => walked(case, slice),
        None => {
            case.rest();
            case.say("no slice");
        }
    }
}

/// `.. WIDTH ..`: the number of each width in turn, or `none`, each with the place after it, and `.` at the end of the bits.
fn walked(case: &mut Case, slice: BitSlice<'_>) {
    let mut walker = SliceWalker::new(slice);
    for _ in 0..MOST {
        if case.is_empty() {
            break;
        }
        let found = walker.next(case.up_to(64) as usize);
        say_walked(case, found, walker.place());
        case.say_either(walker.is_at_end(), ". ", " ");
    }
}

/// `.. FROM COUNT`: the bits of a slice of the slice, and their number; `none` where they aren't there.
fn cut(case: &mut Case, slice: BitSlice<'_>) {
    let from = case.place();
    let count = case.place();
    if let Some(cut) = slice.cut(from, count) {
        say_digits(case, &cut);
        case.say(" ");
    }
    let number = if count > 64 {
        None
    } else {
        slice.number(from, count)
    };
    case.say_found(number);
}

/// Bits as digits, and none as `-`.
fn say_digits(case: &mut Case, slice: &BitSlice<'_>) {
    if slice.is_empty() {
        case.say("-");
    }
    case.say_bits(slice);
    case.check(slice.bit(slice.len()).is_none(), "a bit too many");
}

/// `poker BYTES WIDTH NUMBER ..`: how each number was written, with the place after it, and the bytes then.
fn poker(case: &mut Case) {
    let mut held = case.bytes();
    put_all(case, held.as_mut_slice());
    case.say_hex(held.as_slice());
}

fn put_all(case: &mut Case, bytes: &mut [u8]) {
    let mut poker = Poker::new(bytes);
    for _ in 0..MOST {
        if case.is_empty() || poker.place() > MOST_BITS {
            break;
        }
        let width = case.up_to(64) as usize;
        let number = case.number();
        say_poked(case, poker.put(width, number));
        case.say_next(poker.place() as u64);
    }
}

/// `bits DIGITS WIDTH NUMBER KEEP ..`: from no bits on, after each number of a width is appended
/// and at most KEEP bits are kept: the bits, and `*` where they are equal to DIGITS.
fn owned(case: &mut Case) {
    let digits = case.word();
    let wanted = case.bits_between("", digits, "");
    let mut held = Bits::new(case.alloc());
    for _ in 0..MOST {
        if case.is_empty() || held.len() > MOST_BITS {
            break;
        }
        change(case, &mut held);
        say_digits(case, &held.as_slice());
        case.say_either(held == wanted, "* ", " ");
    }
}

/// Appends the number of a width, and keeps this many bits at most.
fn change(case: &mut Case, held: &mut Bits) {
    let width = case.up_to(63) as usize;
    let number = case.bits_of(width);
    if held.len() > MOST_BITS {
        return;
    }
    case.kept(held.push_number(width, number).is_ok());
    let keep = case.place();
    if keep < held.len() {
        held.truncate(keep);
    }
}

/// `append DIGITS BYTES START LEN`: the bits with those of a slice after them.
fn appended(case: &mut Case) {
    let digits = case.word();
    let mut held = case.bits_between("", digits, "");
    let bytes = case.bytes();
    let start = case.place();
    let len = case.place();
    match BitSlice::new(bytes.as_slice(), start, len) {
        Some(slice) => append(case, &mut held, slice),
        None => case.bad(),
    }
    say_copy(case, held.as_slice());
}

/// Appends a slice, where neither list is too long.
fn append(case: &mut Case, held: &mut Bits, slice: BitSlice<'_>) {
    if slice.len() > MOST_BITS || held.len() > MOST_BITS {
        return case.bad();
    }
    case.kept(inner::append(held, &slice).is_ok());
}

/// The bits of a copy.
fn say_copy(case: &mut Case, bits: BitSlice<'_>) {
    if let Some(copy) = case.got(Bits::from_slice(case.alloc(), bits)) {
        case.say_bits(&copy.as_slice());
    }
}

/// `lay BYTES INTO START LEN AT`: the bytes INTO with the bits of a slice from bit AT on.
fn laid(case: &mut Case) {
    let held = case.bytes();
    let mut into = case.bytes();
    let start = case.place();
    let len = case.place();
    let at = case.place();
    match BitSlice::new(held.as_slice(), start, len) {
        Some(slice) => lay(case, into.as_mut_slice(), at, slice),
        None => case.bad(),
    }
    case.say_hex(into.as_slice());
}

/// Writes a slice over bits, where there is room.
fn lay(case: &mut Case, into: &mut [u8], at: usize, slice: BitSlice<'_>) {
    if BitSlice::new(into, at, slice.len()).is_none() {
        case.bad();
    } else {
        inner::write_slice(into, at, &slice);
    }
}
