//! Rows put as bits, read from the trees of their pairs.

ghost use Rattle.std.specs.Prelude.{◌≡◌, ℕ, ◌<◌, ◌^◌, ◌++◌, [], IsTrue, Err, Some, IfSome, OnOk};
ghost use Rattle.serde_json.specs.View.{view, items_view};
ghost use Rattle.etcs_vars.specs.declared.var.Var.{Var};
ghost use Rattle.etcs_vars.specs.Reading.{Reading, spelled};
ghost use Rattle.etcs_vars.specs.Vars.{admits};
ghost use Rattle.etcs_tables.specs.Layouts.{Reads, layout};
ghost use Rattle.etcs_rows.specs.Places.{first_variable};
ghost use Rattle.etcs_json_trees.specs.Loose.{HasRoom};
ghost use Rattle.etcs_json_trees.specs.TreeReading.{ArePairTrees, IsPairList, IsPairTree, SaysNumber};

use crate::fault::Fault;
use crate::hexadecimal::hex_number;
use etcs_rows::Place;
use etcs_tables::Row;
use etcs_vars::inner::VarSink;
use etcs_vars::{BitPage, Var};
use serde_json::Value;

/// The most bits of an item: those of the longest message, 1,023 bytes.
pub const MOST_BITS: usize = 8184;

/// The number of a variable that the value is, if it is one.
fn number_in(var: Var, value: &Value) -> Option<u64>
    ensures some { IfSome result (λ n. SaysNumber var n (view value.now)) }
    ensures only { (n : ℕ) → n < 2 ^ 64 → SaysNumber var n (view value.now) → result ≡ Some n }
{
    if var == Var::NID_RADIO {
        return hex_number(value.as_str()?.as_bytes());
    }
    value.as_u64()
}

/// The number in a variable's pair, if the value is its pair.
fn pair_number(var: Var, value: &Value) -> Option<u64>
    ensures some { IfSome result (λ n. IsPairTree (var, n) (view value.now)) }
    ensures only { (n : ℕ) → n < 2 ^ 64 → IsPairTree (var, n) (view value.now) → result ≡ Some n }
{
    let list = value.as_array()?;
    if list.len() != 2 {
        return None;
    }
    if list[0].as_str()? != var.name() {
        return None;
    }
    number_in(var, &list[1])
}

/// The variable that comes next and its number, if this is its pair and it admits the number.
fn next_pair(place: &Place, value: &Value) -> Option<(Var, u64)>
    ensures some { IfSome result (λ p. (first_variable place.now ≡ Some p.0) × IsTrue (admits p.0 p.1) × IsPairTree p (view value.now)) }
    ensures only { (v : Var) (n : ℕ) → first_variable place.now ≡ Some v → IsTrue (admits v n) → IsPairTree (v, n) (view value.now) → result ≡ Some (v, n) }
{
    let var = place.var()?;
    let number = pair_number(var, value)?;
    if !var.admits(number) {
        return None;
    }
    Some((var, number))
}

/// Puts the variables of a row, if these are their pairs.
fn put_pairs(row: Row, list: &[Value], out: &mut BitPage) -> Result<(), Fault>
    ensures ok { OnOk result ((r : Reading) × Reads (layout row.items.now) [] r × ArePairTrees r (items_view list.now) × (out.new ≡ out.old ++ spelled r)) }
    ensures invalid { result ≡ Err Fault.Invalid → (r : Reading) → Reads (layout row.items.now) [] r → ArePairTrees r (items_view list.now) → HasRoom out.old r → ⊥ }
{
    let mut place = Place::start(row);
    for value in list {
        let Some((var, number)) = next_pair(&place, value) else {
            return Err(Fault::Invalid);
        };
        if out.len() > MOST_BITS {
            return Err(Fault::Invalid);
        }
        place.pass(number);
        out.send(&[(var, number)])?;
    }
    match place.var() {
        Some(_) => Err(Fault::Invalid),
        None => Ok(()),
    }
}

/// Puts the variables of a row if the value is the list of their pairs, in order and with numbers that the row admits.
///
/// # Errors
///
/// `Invalid` only if the value is no such list, or an item has no room for them after the bits that were put before;
/// `Memory` if the page is full.
pub fn put_row_tree(row: Row, value: &Value, out: &mut BitPage) -> Result<(), Fault>
    ensures ok { OnOk result ((r : Reading) × Reads (layout row.items.now) [] r × IsPairList r (view value.now) × (out.new ≡ out.old ++ spelled r)) }
    ensures invalid { result ≡ Err Fault.Invalid → (r : Reading) → Reads (layout row.items.now) [] r → IsPairList r (view value.now) → HasRoom out.old r → ⊥ }
{
    match value.as_array() {
        Some(list) => put_pairs(row, list.as_slice(), out),
        None => Err(Fault::Invalid),
    }
}
