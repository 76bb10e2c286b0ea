//! Variables with their numbers, one after another.

ghost use Rattle.std.specs.Prelude.{◌≡◌, ◌<◌, ◌≤◌, ◌++◌, length, replicate, MatchOption, IfSome, OnOk, Option, option_map, if◌then◌else◌};
ghost use Rattle.etcs_vars.specs.Reading.{kept, spelled};
ghost use Rattle.etcs_tables.specs.Layouts.{Layout, items, layout};
ghost use Rattle.etcs_blank.specs.Blanks.{blank_fields, blank_row, first_number};

use etcs_tables::{Row, RowItem};
use etcs_vars::Var;
use std::alloc::AllocError;

/// The most bits of an item: those of the longest message, 1,023 bytes.
const MOST_BITS: usize = 8184;

/// The number of a variable: 1 of Q_SCALE, else the least that it admits.
pub(crate) fn first_number(var: Var) -> u64
    ensures { result ≡ first_number var }
{
    if var.name() == Var::Q_SCALE.name() {
        return 1;
    }
    match var.ranges().first() {
        Some((least, _)) => *least,
        None => 0,
    }
}

/// How many bits the pairs take. `None` if they are more than any item has.
pub(crate) fn bits_of(pairs: &[(Var, u64)]) -> Option<usize>
    ensures bits { MatchOption result (8184 < length (spelled pairs.now)) (λ n. length (spelled pairs.now) ≡ n) }
    ensures most { IfSome result (λ n. n ≤ 8184) }
{
    let mut bits = 0;
    for pair in pairs {
        bits += pair.0.width();
        if bits > MOST_BITS {
            return None;
        }
    }
    Some(bits)
}

/// Appends the variables of a row after a number, each with its number, without the entries of lists.
///
/// # Errors
///
/// If memory runs out.
pub(crate) fn push_row(
    pairs: &mut Vec<(Var, u64)>,
    items: &'static [RowItem],
    before: u64,
) -> Result<(), AllocError>
    ensures { OnOk result (pairs.new.items ≡ pairs.old.items ++ blank_row (layout items.now) before) }
{
    match items.split_first() {
        None => Ok(()),
        Some((RowItem::One(var), rest)) => {
            let number = first_number(*var);
            pairs.push((*var, number))?;
            push_row(pairs, rest, number)
        }
        Some((RowItem::When(guard, count), rest)) => {
            let (group, rest) = rest.split_at(rest.len().min(*count));
            if guard.test.passes(before) {
                push_row(pairs, group, before)?;
            }
            push_row(pairs, rest, before)
        }
        Some((RowItem::Many(count), rest)) => {
            let (_, rest) = rest.split_at(rest.len().min(*count));
            push_row(pairs, rest, before)
        }
    }
}

/// Appends the variables of a row, if there is one, each with its number.
///
/// # Errors
///
/// If memory runs out.
pub(crate) fn push_fields(pairs: &mut Vec<(Var, u64)>, row: Option<Row>) -> Result<(), AllocError>
    ensures { (l : Option Layout) → option_map (λ r. r.items.now) row ≡ option_map items l → OnOk result (pairs.new.items ≡ pairs.old.items ++ blank_fields l) }
{
    match row {
        Some(row) => push_row(pairs, row.items, 0),
        None => Ok(()),
    }
}

/// A bit as a number.
fn number_of(bit: bool) -> u64
    ensures { result ≡ if bit then 1 else 0 }
{
    if bit { 1 } else { 0 }
}

/// Appends bits that are all alike, each as a pair of the variable.
///
/// # Errors
///
/// If memory runs out.
pub(crate) fn push_bits(
    pairs: &mut Vec<(Var, u64)>,
    var: Var,
    bit: bool,
    count: usize,
) -> Result<(), AllocError>
    ensures { OnOk result (pairs.new.items ≡ pairs.old.items ++ kept var (replicate count bit)) }
{
    for _ in 0..count {
        pairs.push((var, number_of(bit)))?;
    }
    Ok(())
}
