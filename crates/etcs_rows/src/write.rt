//! Rows as numbers and as bits.

ghost use Rattle.std.specs.Prelude.{◌≡◌, ◌↔◌, ◌+◌, ◌^◌, ◌<◌, ◌≤◌, Bool, List, [], ◌++◌, length, IsTrue, OnOk, OnErr};
ghost use Rattle.etcs_bits.specs.Bits.{bits, replaced};
ghost use Rattle.etcs_tables.specs.Layouts.{layout, AdmitsFields, Spells};

use crate::place::Place;
use etcs_bits::{Bits, inner};
use etcs_tables::Row;
use std::alloc::AllocError;

/// How many bits of its row the length of a packet can count.
const ROW_LIMIT: usize = 8168;

/// Whether the row spells these numbers, all of them and no more, in at most 8,168 bits, which is what L_PACKET leaves
/// to a packet to the train.
pub fn admits_fields(row: Row, fields: &[u64]) -> bool
    ensures { IsTrue result ↔ AdmitsFields (layout row.items.now) fields.now }
{
    let mut place = Place::start(row);
    let mut taken = 0;
    for number in fields {
        let Some(var) = place.var() else {
            return false;
        };
        taken += var.width();
        if taken > ROW_LIMIT || !var.admits(*number) {
            return false;
        }
        place.pass(*number);
    }
    place.var().is_none()
}

/// Appends the one spelling of the numbers by the row. The row must admit them (`admits_fields`), and all bits must be
/// fewer than 2^64.
///
/// # Errors
///
/// `AllocError` if memory runs out. `out` then stays as it was.
pub fn write_row(row: Row, fields: &[u64], out: &mut Bits) -> Result<(), AllocError>
    requires admitted { AdmitsFields (layout row.items.now) fields.now }
    requires room { (b : List Bool) → Spells (layout row.items.now) [] fields.now b → length out.old + length b < 2 ^ 64 }
    ensures ok { OnOk result ((b : List Bool) × Spells (layout row.items.now) [] fields.now b × (out.new ≡ out.old ++ b)) }
    ensures err { OnErr result (out.new ≡ out.old) }
{
    let begun = out.len();
    let mut place = Place::start(row);
    for number in fields {
        if let Some(var) = place.var() {
            if let Err(fault) = out.push_number(var.width(), *number) {
                out.truncate(begun);
                return Err(fault);
            }
            place.pass(*number);
        }
    }
    Ok(())
}

/// Writes the one spelling of the numbers by the row into `bytes` from the bit `start` on, without allocating, and
/// returns the place after it, in bits. All other bits stay. The row must admit the numbers (`admits_fields`), and the
/// spelling must end inside `bytes`, below bit 2^64.
pub fn put_row(row: Row, fields: &[u64], bytes: &mut [u8], start: usize) -> usize
    requires admitted { AdmitsFields (layout row.items.now) fields.now }
    requires inside { (b : List Bool) → Spells (layout row.items.now) [] fields.now b → start + length b ≤ length (bits bytes.old) }
    requires small { (b : List Bool) → Spells (layout row.items.now) [] fields.now b → start + length b < 2 ^ 64 }
    ensures { (b : List Bool) × Spells (layout row.items.now) [] fields.now b × (bits bytes.new ≡ replaced start b (bits bytes.old)) × (result ≡ start + length b) }
{
    let mut place = Place::start(row);
    let mut at = start;
    for number in fields {
        if let Some(var) = place.var() {
            inner::write(bytes, at, var.width(), *number);
            place.pass(*number);
            at += var.width();
        }
    }
    at
}
