//! The walk over the variables of an item.

ghost use Rattle.std.specs.Prelude.{◌≡◌, ◌<◌, ◌++◌, [], length, drop, IfOk, OnOk};
ghost use Rattle.etcs_places.specs.Walks.{opens, closes, is_length};
ghost use Rattle.etcs_places.specs.Scans.{start, step, body_places, scan};

use crate::place::Place;
use crate::row::put_row;
use etcs_tables::{Way, row_of};
use etcs_vars::Var;
use std::alloc::{AllocError, Global};

/// Where a walk is, outside of rows.
#[derive(Clone, Copy)]
pub(crate) struct Here {
    /// How many packets have begun.
    packets: usize,
    /// NID_PACKET of the last one.
    nid: u64,
    /// The place of the variable that came last.
    at: Place,
}

/// Whether a packet begins with this variable.
fn opens(var: Var) -> bool
    ensures { result ≡ opens var }
{
    matches!(var, Var::NID_PACKET)
}

/// Whether this variable comes after the packets.
fn closes(var: Var) -> bool
    ensures { result ≡ closes var }
{
    matches!(var, Var::FILL | Var::PADDING | Var::PAD)
}

/// Whether the row of a packet comes after this variable.
fn is_length(var: Var) -> bool
    ensures { result ≡ is_length var }
{
    matches!(var, Var::L_PACKET)
}

impl Here {
    /// Before the first variable.
    fn start() -> Here
        ensures { result ≡ start }
    {
        Here {
            packets: 0,
            nid: 0,
            at: Place::OUTSIDE,
        }
    }

    /// At the next variable.
    fn step(self, var: Var, number: u64) -> Here
        requires { self.packets < usize.MAX }
        ensures { result ≡ step self (var, number) }
    {
        if opens(var) {
            let packets = self.packets + 1;
            return Here {
                packets,
                nid: number,
                at: Place {
                    packet: packets,
                    ..Place::OUTSIDE
                },
            };
        }
        if closes(var) {
            return Here {
                at: Place::OUTSIDE,
                ..self
            };
        }
        self
    }
}

/// Appends the places of the row's variables, if this variable is followed by the row of a packet.
///
/// # Errors
///
/// If memory runs out.
fn put_body(
    pairs: &[(Var, u64)],
    way: Way,
    here: Here,
    var: Var,
    places: &mut Vec<Place>,
) -> Result<(), AllocError>
    ensures { OnOk result (places.new.items ≡ places.old.items ++ body_places way here var (drop (length places.old.items) pairs.now)) }
{
    if !is_length(var) {
        return Ok(());
    }
    let Ok(nid) = u8::try_from(here.nid) else {
        return Ok(());
    };
    match row_of(way, nid) {
        Some(row) => put_row(pairs, row.items, 0, here.at, places),
        None => Ok(()),
    }
}

/// The places of the variables of an item that goes this way.
///
/// # Errors
///
/// If memory runs out.
pub(crate) fn walk(alloc: Global, way: Way, pairs: &[(Var, u64)]) -> Result<Vec<Place>, AllocError>
    ensures { IfOk result (λ places. places.items ≡ scan way start [] pairs.now) }
{
    let mut places = Vec::with_capacity(alloc, pairs.len())?;
    let mut here = Here::start();
    while let Some(pair) = pairs.get(places.len()) {
        here = here.step(pair.0, pair.1);
        places.push(here.at)?;
        put_body(pairs, way, here, pair.0, &mut places)?;
    }
    Ok(places)
}
