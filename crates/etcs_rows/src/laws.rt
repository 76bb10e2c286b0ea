//! Laws, each the contract of a function.

ghost use Rattle.std.specs.Prelude.{◌≡◌, IfOk, Some};
ghost use Rattle.etcs_rows.specs.Places.{PlacesStand, PlacesMeasure};
ghost use Rattle.etcs_rows.specs.Walks.{WalksWhole};
ghost use Rattle.etcs_rows.specs.Writing.{OneSpelling};

use etcs_bodies::Packetlike;
use std::alloc::{AllocError, Global};

/// Numbers and bits of a row determine each other, and no spelling begins another.
pub fn one_spelling()
    ensures { OneSpelling }
{}

/// What is left after numbers of a row stands for them: the readings of the row that begin with these numbers are the
/// readings of what is left, each after the same pairs; if nothing is left, no reading of the row begins with them. So
/// exactly this many bits, up to 8,191, may follow the numbers as what is left may take.
pub fn places()
    ensures readings { PlacesStand }
    ensures lengths { PlacesMeasure }
{}

/// After pairs that were read of a sound row, bits are viable or a spelling in the row exactly if they are in what is
/// left of it, and the variable that holds the next bit in what is left holds it in the row. So what a walk returns for
/// what is left of a row holds of all bits of the row.
pub fn walks()
    ensures { WalksWhole }
{}

/// Makes a packet anew of its own direction and numbers: if it succeeds, it is the same packet. Its body fails only if
/// `fields` or `from_fields` of the packet does.
///
/// # Errors
///
/// `AllocError` if memory runs out.
pub fn read_back<P: Packetlike + Drop>(alloc: Global, packet: &P) -> Result<Option<P>, AllocError>
    ensures { IfOk result (λ again. again ≡ Some packet.now) }
{
    let mut fields = Vec::new(alloc);
    packet.fields(&mut fields)?;
    P::from_fields(alloc, packet.dir(), fields.as_slice())
}
