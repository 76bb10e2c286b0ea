//! Tables of packets without groups: what is in them, with its numbers.

ghost use Rattle.etcs_bodies.specs.Passing.{Begun};
ghost use Rattle.std.specs.Prelude.{◌≡◌, ◌*◌, ◌≤◌, Some, None, length, map, sum_by, OnOk, OnErr, IfSome, IfNone, IsSome, ℕ, List, false, IsTrue, IfOk};
ghost use Rattle.std.specs.Option.{option_map};
ghost use Rattle.etcs_tables.specs.declared.item.RowItem.TheVariants.{One};
ghost use Rattle.etcs_flat.specs.Flats.{flat_row_to};
ghost use Rattle.etcs_flat.specs.Tables.{item_width, table_pairs, table_from};

use crate::flat::flat_row;
use arrayvec::ArrayVec;
use etcs_bodies::Numbers;
use etcs_tables::{RowItem, Way};
use etcs_vars::inner::VarSink;
use std::alloc::AllocError;

/// The items of a packet's row after L_PACKET, each a variable, at most six.
///
/// Requires that packets of this way and number are typed and without groups.
#[tactic(auto, using(crate::specs::laws::TableLaws::table_short))]
pub fn table_of(way: Way, nid: u8) -> &'static [RowItem]
    requires { IsSome (flat_row_to way nid) }
    ensures table { Some result.now ≡ option_map (λ vs. map One vs) (flat_row_to way nid) }
    ensures short { length result.now ≤ 6 }
{
    match flat_row(way, nid) {
        Some(table) => table,
        None => unreachable!(),
    }
}

/// How many bits the variables of a table take; at most 384. Requires that there are at most six items.
#[tactic(auto, using(crate::specs::laws::TableLaws::item_narrow, crate::specs::laws::TableLaws::width_narrow))]
pub fn table_bits(table: &[RowItem]) -> usize
    requires { length table.now ≤ 6 }
    ensures bits { result ≡ sum_by item_width table.now }
    ensures small { result ≤ 6 * 64 }
{
    let mut bits = 0;
    for item in table {
        if let RowItem::One(var) = item {
            bits += var.width();
        }
    }
    bits
}

/// Sends the variables of a table, each with its number, in order, as far as there are both. An item that is a group
/// and its number are skipped.
///
/// # Errors
///
/// `AllocError`: the sink failed; its `failed` then holds.
pub fn send_table<S: VarSink>(
    table: &[RowItem],
    numbers: &[u64],
    out: &mut S,
) -> Result<(), AllocError>
    ensures ok { OnOk result (out.new ≡ S.with out.old (table_pairs table.now numbers.now)) }
    ensures err { OnErr result (S.failed out.old out.new) }
{
    for (item, number) in table.iter().zip(numbers) {
        if let RowItem::One(var) = item {
            out.send(&[(*var, *number)])?;
        }
    }
    Ok(())
}

/// Takes the numbers of a table's variables off what is left, in order. `None` exactly if the table has a group, a
/// variable doesn't admit its number, or there are too few numbers; nothing is promised of what is then left.
///
/// Requires that the table has at most six items.
#[tactic(auto, using(crate::specs::laws::TableLaws::taken_more, crate::specs::laws::TableLaws::taken_none))]
pub fn take_table<L: Numbers>(table: &[RowItem], numbers: &mut L) -> Option<ArrayVec<u64, 6>>
    requires { length table.now ≤ 6 }
    ensures some { IfSome result (λ ns. table_from table.now (L.left numbers.old) ≡ Some (ns.items, L.left numbers.new)) }
    ensures none { IfNone result (table_from table.now (L.left numbers.old) ≡ None) }
{
    let mut taken = ArrayVec::new();
    for item in table {
        let RowItem::One(var) = item else {
            return None;
        };
        taken.push(numbers.next(*var)?);
    }
    Some(taken)
}

/// Sends the variables of a table, each with the number that comes next, and returns whether each variable admits it.
///
/// # Errors
///
/// That of the sink, whose `failed` then holds.
#[tactic(auto, using(crate::specs::laws::TableLaws::taken_more, crate::specs::laws::TableLaws::pairs_more))]
#[inline(always)]
pub fn pass_table<L: Numbers, S: VarSink>(
    table: &[RowItem],
    numbers: &mut L,
    out: &mut S,
) -> Result<bool, AllocError>
    ensures passed { IfOk result (λ b. IsTrue b → (ns : List ℕ) × (table_from table.now (L.left numbers.old) ≡ Some (ns, L.left numbers.new)) × (out.new ≡ S.with out.old (table_pairs table.now ns))) }
    ensures begun { IfOk result (λ b. b ≡ false → Begun S.with out.old out.new) }
    ensures err { OnErr result (S.failed out.old out.new) }
{
    for item in table {
        let RowItem::One(var) = item else {
            return Ok(false);
        };
        let Some(number) = numbers.next(*var) else {
            return Ok(false);
        };
        out.send(&[(*var, number)])?;
    }
    Ok(true)
}

/// The same numbers as an array. Requires that there are at most six.
pub fn few(numbers: &[u64]) -> ArrayVec<u64, 6>
    requires { length numbers.now ≤ 6 }
    ensures { result.items ≡ numbers.now }
{
    match ArrayVec::try_from(numbers) {
        Ok(few) => few,
        Err(_) => unreachable!(),
    }
}
