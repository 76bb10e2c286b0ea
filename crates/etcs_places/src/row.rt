//! The places of the variables of a row.

ghost use Rattle.std.specs.Prelude.{◌≡◌, ◌++◌, length, drop, OnOk};
ghost use Rattle.etcs_tables.specs.Layouts.{layout};
ghost use Rattle.etcs_places.specs.Walks.{row_places};

use crate::place::Place;
use etcs_tables::RowItem;
use etcs_vars::Var;
use std::alloc::AllocError;

/// Appends the places of a row's variables that come next, after this number: those of its entries, and `at` of all others.
///
/// # Errors
///
/// If memory runs out.
pub(crate) fn put_row(
    pairs: &[(Var, u64)],
    items: &'static [RowItem],
    before: u64,
    at: Place,
    places: &mut Vec<Place>,
) -> Result<(), AllocError>
    ensures { OnOk result (places.new.items ≡ places.old.items ++ row_places (layout items.now) before at (drop (length places.old.items) pairs.now)) }
{
    let Some((item, rest)) = items.split_first() else {
        return Ok(());
    };
    match item {
        RowItem::One(_) => {
            let Some(pair) = pairs.get(places.len()) else {
                return Ok(());
            };
            places.push(at)?;
            put_row(pairs, rest, pair.1, at, places)
        }
        RowItem::When(guard, count) => {
            let (group, rest) = rest.split_at(rest.len().min(*count));
            if guard.test.passes(before) {
                put_row(pairs, group, before, at, places)?;
            }
            put_row(pairs, rest, before, at, places)
        }
        RowItem::Many(count) => {
            let (group, rest) = rest.split_at(rest.len().min(*count));
            for entry in 0..before {
                put_row(pairs, group, before, at.entry(entry as usize + 1), places)?;
            }
            put_row(pairs, rest, before, at, places)
        }
    }
}
