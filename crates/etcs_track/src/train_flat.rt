//! Packets to the track of rows without groups.

ghost use Rattle.std.specs.Prelude.{◌≡◌, ◌≤◌, length, map, None, Some, OnOk, IfOk, IfErr, IfSome, IfNone, IsSome};
ghost use Rattle.std.proofs.Common.{refl};
ghost use Rattle.std.specs.Option.{option_map};
ghost use Rattle.etcs_tables.specs.declared.item.RowItem.TheVariants.{One};
ghost use Rattle.etcs_tables.specs.declared.row.Way.TheVariants.{ToTrack};
ghost use Rattle.etcs_flat.specs.Flats.{flat_row_to, flat_fault_to, flat_reading_to};
ghost use Rattle.etcs_flat.specs.FlatCodes.{flat_from_to};
ghost use Rattle.etcs_track.specs.TrainFlats.{alone};
ghost use Rattle.etcs_track.specs.laws.TrainFlats.{train_flat_codes};

use arrayvec::ArrayVec;
use etcs_bodies::{Body, Numbers};
use etcs_flat::inner::{check_flat, few, pass_table, send_table, table_bits, table_of, take_table};
use etcs_tables::{RowItem, Way};
use etcs_vars::BuildFault;
use etcs_vars::inner::{VarSink, Variables};
use std::alloc::{AllocError, Global};
use std::marker::Model;

/// A packet to the track whose row has no groups (SUBSET-026, 7.4.3). Two of them are equal exactly if they have the
/// same numbers. A `NID` that isn't in the table has no packets. It is [`Packetlike`](crate::Packetlike), `Framed` and
/// `Variables` for the numbers 4 and 5 alone.
///
/// | NID | packet | number after L_PACKET |
/// |---|---|---|
/// | 4 | a fault | M_ERROR, the kind of the fault |
/// | 5 | the running number of the train | NID_OPERATIONAL, eight digits of four bits |
#[derive(Clone, Debug, Drop, PartialEq, Eq)]
pub struct TrainFlat<const NID: u8> {
    numbers: ArrayVec<u64, 6>,
}

impl<const NID: u8> Model for TrainFlat<NID> {
    ghost use Rattle.std.specs.Prelude.{◌≡◌, ℕ, List, None};
    ghost use Rattle.etcs_tables.specs.declared.row.Way.TheVariants.{ToTrack};
    ghost use Rattle.etcs_flat.specs.Flats.{flat_fault_to};

    ghost Value = { List ℕ };

    ghost view = { λ p. p.numbers.items };

    ghost invariant = { λ p. flat_fault_to ToTrack NID 0 p.numbers.items ≡ None };

    ghost inverse = { λ v. record { numbers = record { items = v } } };
}

impl<const NID: u8> TrainFlat<NID> {
    /// The packet of the numbers in the table of [`TrainFlat`], returned exactly if none of the errors below applies.
    /// Takes no memory.
    ///
    /// # Errors
    ///
    /// The first of these that applies:
    ///
    /// - `NotAdmitted(NID_PACKET)`: `NID` isn't in the table.
    /// - `Count`: there are more or fewer numbers than the table has for it.
    /// - `NotAdmitted` with the first variable, in order, that doesn't admit its number: it is spare, or too large for
    ///   the variable's width.
    pub fn new(numbers: &[u64]) -> Result<Self, BuildFault>
        ensures ok { IfOk result (λ p. p ≡ numbers.now) }
        ensures fits { OnOk result (flat_fault_to ToTrack NID 0 numbers.now ≡ None) }
        ensures fault { IfErr result (λ e. flat_fault_to ToTrack NID 0 numbers.now ≡ Some e) }
    {
        check_flat(Way::ToTrack, NID, 0, numbers)?;
        Ok(TrainFlat {
            numbers: few(numbers),
        })
    }

    /// Its numbers, in the order of the table of [`TrainFlat`].
    pub fn numbers(&self) -> &[u64]
        ensures { result.now ≡ self.now }
    {
        self.numbers.as_slice()
    }

    /// Takes the packet that the numbers begin with; `None` exactly if they begin with none. Takes no memory.
    fn taken<L: Numbers>(dir: u8, numbers: &mut L) -> Option<Self>
        requires { IsSome (flat_row_to ToTrack NID) }
        ensures some { IfSome result (λ p. flat_from_to ToTrack alone NID dir (L.left numbers.old) ≡ Some (p, L.left numbers.new)) }
        ensures none { IfNone result (flat_from_to ToTrack alone NID dir (L.left numbers.old) ≡ None) }
    {
        let _ = dir;
        let taken = take_table(table_of(Way::ToTrack, NID), numbers)?;
        Some(TrainFlat { numbers: taken })
    }

    /// The table of its row.
    #[tactic(auto, using(etcs_flat::specs::laws::TableLaws::row_there))]
    fn table(&self) -> &'static [RowItem]
        ensures table { Some result.now ≡ option_map (λ vs. map One vs) (flat_row_to ToTrack NID) }
        ensures short { length result.now ≤ 6 }
        ensures value { flat_fault_to ToTrack NID 0 self.now ≡ None }
    {
        let _ = &self.numbers;
        table_of(Way::ToTrack, NID)
    }
}

/// `N` is the number of a typed packet to the track whose row has no groups.
pub trait TrainFlatNumber<const N: u8> {
    ghost flat: { IsSome (flat_row_to ToTrack N) };
}

impl TrainFlatNumber<4> for TrainFlat<4> {
    ghost flat = { refl };
}

impl TrainFlatNumber<5> for TrainFlat<5> {
    ghost flat = { refl };
}

impl<const NID: u8> Variables for TrainFlat<NID> {
    ghost reading_of = { λ p. flat_reading_to ToTrack NID p };

    fn bits(&self) -> usize {
        table_bits(self.table())
    }

    fn send<S: VarSink>(&self, out: &mut S) -> Result<(), AllocError> {
        send_table(self.table(), self.numbers(), out)
    }
}

impl<const N: u8> Body for TrainFlat<N>
where
    TrainFlat<N>: TrainFlatNumber<N>,
{
    const NID: u8 = N;

    const WAY: Way = Way::ToTrack;

    ghost NID = { N };

    ghost WAY = { ToTrack };

    ghost direction = { λ p. 0 };

    ghost is_value = { λ p. flat_fault_to ToTrack N 0 p ≡ None };

    ghost read_from = { flat_from_to ToTrack alone N };

    ghost codes = { train_flat_codes N bound-1.flat };

    fn q_dir(&self) -> u8 {
        let _ = &self.numbers;
        0
    }

    fn take<L: Numbers>(
        _alloc: Global,
        dir: u8,
        numbers: &mut L,
    ) -> Result<Option<Self>, AllocError> {
        Ok(TrainFlat::taken(dir, numbers))
    }

    #[inline(always)]
    fn pass<L: Numbers, S: VarSink>(numbers: &mut L, out: &mut S) -> Result<bool, AllocError> {
        pass_table(table_of(Way::ToTrack, N), numbers, out)
    }

    fn copy(&self, _alloc: Global) -> Result<Self, AllocError> {
        Ok(TrainFlat {
            numbers: few(self.numbers.as_slice()),
        })
    }
}
