//! The places of the fields of items.

ghost use Rattle.std.specs.Prelude.{◌≡◌, IfOk};
ghost use Rattle.etcs_bits.specs.Bits.{bits};
ghost use Rattle.etcs_text.specs.Pairs.{ItemLanguage};
ghost use Rattle.etcs_c.specs.FieldPlaces.{ArePlaces, SaysPlaces, field_places, first_place, variables_in};

use crate::answer::{EtcsAnswer, WHOLE, deliver};
use crate::fields::{EtcsField, fields_in};
use crate::found::variables_of;
use crate::vars::var_number;
use etcs_places::Place;
use etcs_places::inner::item_places;
use etcs_text::Kind;
use etcs_vars::Var;
use std::alloc::{AllocError, Global};

/// Where a field of an item is.
#[repr(C)]
#[derive(Clone, Copy)]
pub struct EtcsPlace {
    /// Which packet it is of, counted from 1, packet 255 of a telegram among them; 0 if it is of none.
    pub packet: usize,
    /// Which entry of a repeated group it is in, counted from 1; 0 if it is in none.
    pub entry: usize,
    /// Which entry of a repeated group inside that one, counted from 1; 0 if it is in none.
    pub inner: usize,
}

/// The place of the first of some variables; outside of packets if there is none.
fn first_place(places: &[Place]) -> EtcsPlace
    ensures { result ≡ first_place places.now }
{
    match places.first() {
        Some(place) => EtcsPlace {
            packet: place.packet,
            entry: place.entry,
            inner: place.inner,
        },
        None => EtcsPlace {
            packet: 0,
            entry: 0,
            inner: 0,
        },
    }
}

/// How many variables a field has: of a run of bits, one for each bit.
fn variables_in(field: &EtcsField) -> usize
    ensures { result ≡ variables_in field.now }
{
    let var = field.var;
    if var == var_number(Var::FILL)
        || var == var_number(Var::OTHER_DATA)
        || var == var_number(Var::PADDING)
        || var == var_number(Var::PAD)
    {
        field.width as usize
    } else {
        1
    }
}

/// Returns the place of each field, by those of all variables: that of its first one.
///
/// # Errors
///
/// `AllocError` if out of memory.
fn field_places(
    alloc: Global,
    fields: &[EtcsField],
    places: &[Place],
) -> Result<Vec<EtcsPlace>, AllocError>
    ensures { IfOk result (λ found. found.items ≡ field_places fields.now places.now) }
{
    let mut found = Vec::with_capacity(alloc, fields.len())?;
    let mut left = places;
    for field in fields {
        found.push(first_place(left))?;
        left = left.get(variables_in(field)..).unwrap_or(&[]);
    }
    Ok(found)
}

/// Returns the places of the fields of an item with these variables.
///
/// # Errors
///
/// `AllocError` if out of memory.
fn places_in(alloc: Global, kind: Kind, vars: &[(Var, u64)]) -> Result<Vec<EtcsPlace>, AllocError>
    requires { ItemLanguage kind vars.now }
    ensures { IfOk result (λ places. ArePlaces kind vars.now places.items) }
{
    let fields = fields_in(alloc, vars)?;
    let places = item_places(alloc, kind, vars)?;
    field_places(alloc, fields.as_slice(), places.as_slice())
}

/// Returns the status of what the bytes begin with, and writes the places of an item's fields.
pub(crate) fn write_places(
    alloc: Global,
    kind: Kind,
    bytes: &[u8],
    out: &mut [EtcsPlace],
    answer: &mut EtcsAnswer,
) -> u32
    ensures { SaysPlaces kind (bits bytes.now) out.old out.new result answer.new }
{
    match variables_of(alloc, kind, bytes, answer) {
        Ok(account) => {
            let places = places_in(alloc, kind, account.fields.as_slice());
            deliver(WHOLE, places, out, answer)
        }
        Err(status) => status,
    }
}
