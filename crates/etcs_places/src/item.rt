//! The places of the variables of an item.

ghost use Rattle.std.specs.Prelude.{◌≡◌, ◌++◌, length, IfOk, MatchOption};
ghost use Rattle.etcs_vars.specs.Reading.{Reading};
ghost use Rattle.etcs_text.specs.Pairs.{ItemLanguage};
ghost use Rattle.etcs_places.specs.Items.{FrontPlaces, PairsPlaces, way_of};

use crate::place::Place;
use crate::walk::walk;
use etcs_tables::Way;
use etcs_text::{Kind, write_pairs};
use etcs_vars::Var;
use std::alloc::{AllocError, Global};

/// Which way items of a kind go.
fn way_of(kind: Kind) -> Way
    ensures { result ≡ way_of kind }
{
    match kind {
        Kind::Long | Kind::Short | Kind::Radio => Way::ToTrain,
        Kind::Train => Way::ToTrack,
    }
}

/// Returns the place of each pair of variable and number of an item, in their order: its packet, and its entry in each
/// repeated group around it.
///
/// # Errors
///
/// If memory runs out.
pub fn item_places(
    alloc: Global,
    kind: Kind,
    pairs: &[(Var, u64)],
) -> Result<Vec<Place>, AllocError>
    requires { ItemLanguage kind pairs.now }
    ensures each { IfOk result (λ places. PairsPlaces kind pairs.now places.items) }
    ensures length { IfOk result (λ places. length places.items ≡ length pairs.now) }
{
    walk(alloc, way_of(kind), pairs)
}

/// Returns the places of the pairs that an item begins with, such as those before a refused bit
/// ([`End::Refused`](etcs_text::End), of [`read_pairs`](etcs_text::read_pairs)), in their order.
///
/// # Errors
///
/// If memory runs out.
pub fn front_places(
    alloc: Global,
    kind: Kind,
    pairs: &[(Var, u64)],
) -> Result<Vec<Place>, AllocError>
    requires { (rest : Reading) × ItemLanguage kind (pairs.now ++ rest) }
    ensures each { IfOk result (λ places. FrontPlaces kind pairs.now places.items) }
    ensures length { IfOk result (λ places. length places.items ≡ length pairs.now) }
{
    walk(alloc, way_of(kind), pairs)
}

/// The places of any pairs. `None` exactly if no item of the kind has them.
///
/// # Errors
///
/// If memory runs out.
pub fn places(
    alloc: Global,
    kind: Kind,
    pairs: &[(Var, u64)],
) -> Result<Option<Vec<Place>>, AllocError>
    ensures each { IfOk result (λ found. MatchOption found (ItemLanguage kind pairs.now → ⊥) (λ places. PairsPlaces kind pairs.now places.items)) }
    ensures length { IfOk result (λ found. MatchOption found (Unit {0}) (λ places. length places.items ≡ length pairs.now)) }
{
    let mut bytes = Vec::new(alloc);
    if !write_pairs(alloc, kind, pairs, &mut bytes)? {
        return Ok(None);
    }
    Ok(Some(item_places(alloc, kind, pairs)?))
}
