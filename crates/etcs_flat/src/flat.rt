//! Packets of rows without groups.

ghost use Rattle.std.specs.Prelude.{◌≡◌, ◌≤◌, List, length, map, Some, None, OnOk, IfOk, IfErr, IfSome, IfNone, IsSome, IsTrue};
ghost use Rattle.std.specs.List.{list_all};
ghost use Rattle.std.specs.Option.{option_map};
ghost use Rattle.etcs_vars.specs.declared.var.Var.{Var};
ghost use Rattle.etcs_vars.specs.declared.var.Var.TheVariants.{Q_DIR};
ghost use Rattle.etcs_vars.specs.Vars.{admits};
ghost use Rattle.etcs_tables.specs.declared.item.RowItem.TheVariants.{One};
ghost use Rattle.etcs_tables.specs.declared.row.Way.TheVariants.{ToTrain};
ghost use Rattle.etcs_flat.specs.Flats.{flat_value, flat_row, flat_row_to, flat_fault, flat_fault_to, flat_reading, numbers_fault, is_one};
ghost use Rattle.etcs_flat.specs.FlatCodes.{flat_from};
ghost use Rattle.etcs_flat.specs.laws.FlatCodes.{flat_codes};

use crate::body::FlatNumber;
use crate::other::check_direction;
use crate::table::{few, pass_table, send_table, table_bits, table_of, take_table};
use arrayvec::ArrayVec;
use etcs_bodies::{Body, Numbers};
use etcs_tables::{RowItem, Way, row_of};
use etcs_vars::inner::{VarSink, Variables};
use etcs_vars::{BuildFault, Var, check};
use std::alloc::{AllocError, Global};
use std::marker::Model;

/// A packet to the train whose row has no groups (SUBSET-026, 7.4.2). Two of them are equal exactly if they have the
/// same direction and the same numbers. A `NID` that isn't typed, or whose row has groups, has no packets.
///
/// Its numbers are those of its row, which comes after L_PACKET: one for each variable, in the order of the row.
/// docs/FORMAT.md has the rows of all packets. [`Var`] has the meaning and the unit of each variable.
///
/// It is [`Packetlike`](crate::Packetlike), `Framed` and `Variables` for the sixteen numbers 2, 16, 42, 45, 57, 64, 65,
/// 66, 131, 132, 135, 137, 140, 141, 145 and 254.
#[derive(Clone, Debug, Drop, PartialEq, Eq)]
pub struct Flat<const NID: u8> {
    dir: u8,
    /// At most six, those of packets 65 and 131.
    numbers: ArrayVec<u64, 6>,
}

impl<const NID: u8> Model for Flat<NID> {
    ghost use Rattle.std.specs.Prelude.{◌≡◌, None};
    ghost use Rattle.etcs_flat.specs.Flats.{FlatValue, flat_fault};

    ghost Value = { FlatValue };

    ghost view = { λ p. record { dir = p.dir; numbers = p.numbers.items } };

    ghost invariant = { λ p. flat_fault NID p.dir p.numbers.items ≡ None };

    ghost inverse = { λ v. record { dir = v.dir; numbers = record { items = v.numbers } } };
}

impl<const NID: u8> Flat<NID> {
    /// The packet of this Q_DIR (0 reverse, 1 nominal, 2 both directions) and of the numbers of its row, in order;
    /// returned exactly if none of the errors below applies. Takes no memory.
    ///
    /// # Errors
    ///
    /// The first of these that applies:
    ///
    /// - `NotAdmitted(NID_PACKET)`: `NID` isn't typed, or its row has groups.
    /// - `Count`: there are more or fewer numbers than variables in the row.
    /// - `NotAdmitted(Q_DIR)`: the direction is above 2.
    /// - `NotAdmitted` with the first variable, in order, that doesn't admit its number: it is spare, or too large
    ///   for the variable's width.
    pub fn new(dir: u8, numbers: &[u64]) -> Result<Self, BuildFault>
        ensures ok { IfOk result (λ p. p ≡ flat_value dir numbers.now) }
        ensures fits { OnOk result (flat_fault NID dir numbers.now ≡ None) }
        ensures fault { IfErr result (λ e. flat_fault NID dir numbers.now ≡ Some e) }
    {
        check_flat(Way::ToTrain, NID, dir, numbers)?;
        Ok(Flat {
            dir,
            numbers: few(numbers),
        })
    }

    /// Its numbers, in the order of its row.
    pub fn numbers(&self) -> &[u64]
        ensures { result.now ≡ self.now.numbers }
    {
        self.numbers.as_slice()
    }

    /// Takes the packet of a direction that the numbers begin with; `None` exactly if they begin with none. Takes no
    /// memory.
    fn taken<L: Numbers>(dir: u8, numbers: &mut L) -> Option<Self>
        requires flat { IsSome (flat_row NID) }
        requires dir { IsTrue (admits Q_DIR dir) }
        ensures some { IfSome result (λ p. flat_from NID dir (L.left numbers.old) ≡ Some (p, L.left numbers.new)) }
        ensures none { IfNone result (flat_from NID dir (L.left numbers.old) ≡ None) }
    {
        let taken = take_table(table_of(Way::ToTrain, NID), numbers)?;
        Some(Flat {
            dir,
            numbers: taken,
        })
    }

    /// The table of its row.
    #[tactic(auto, using(crate::specs::laws::TableLaws::row_there))]
    fn table(&self) -> &'static [RowItem]
        ensures table { Some result.now ≡ option_map (λ vs. map One vs) (flat_row NID) }
        ensures short { length result.now ≤ 6 }
        ensures value { flat_fault NID self.now.dir self.now.numbers ≡ None }
    {
        let _ = &self.numbers;
        table_of(Way::ToTrain, NID)
    }
}

impl<const NID: u8> Variables for Flat<NID> {
    ghost reading_of = { λ p. flat_reading NID p.numbers };

    fn bits(&self) -> usize {
        table_bits(self.table())
    }

    fn send<S: VarSink>(&self, out: &mut S) -> Result<(), AllocError> {
        send_table(self.table(), self.numbers(), out)
    }
}

impl<const N: u8> Body for Flat<N>
where
    Flat<N>: FlatNumber<N>,
{
    const NID: u8 = N;

    const WAY: Way = Way::ToTrain;

    ghost NID = { N };

    ghost WAY = { ToTrain };

    ghost direction = { λ p. p.dir };

    ghost is_value = { λ p. flat_fault N p.dir p.numbers ≡ None };

    ghost read_from = { flat_from N };

    ghost codes = { flat_codes N bound-1.flat };

    fn q_dir(&self) -> u8 {
        self.dir
    }

    fn take<L: Numbers>(
        _alloc: Global,
        dir: u8,
        numbers: &mut L,
    ) -> Result<Option<Self>, AllocError> {
        Ok(Flat::taken(dir, numbers))
    }

    #[inline(always)]
    fn pass<L: Numbers, S: VarSink>(numbers: &mut L, out: &mut S) -> Result<bool, AllocError> {
        pass_table(table_of(Way::ToTrain, N), numbers, out)
    }

    fn copy(&self, _alloc: Global) -> Result<Self, AllocError> {
        Ok(Flat {
            dir: self.dir,
            numbers: few(self.numbers.as_slice()),
        })
    }
}

/// Checks the parts of a packet without groups of this way, number and direction: `Ok` exactly if none of the errors
/// below applies. There are then at most six numbers.
///
/// # Errors
///
/// The first of these that applies:
///
/// - `NotAdmitted(NID_PACKET)`: no packet of this way and number is typed and without groups.
/// - `Count`: there are more or fewer numbers than variables in the row.
/// - `NotAdmitted(Q_DIR)`: a packet of this way may not have the direction.
/// - `NotAdmitted` with the first variable, in order, that doesn't admit its number.
pub fn check_flat(way: Way, nid: u8, dir: u8, numbers: &[u64]) -> Result<(), BuildFault>
    ensures ok { OnOk result (flat_fault_to way nid dir numbers.now ≡ None) }
    ensures short { OnOk result (length numbers.now ≤ 6) }
    ensures fault { IfErr result (λ e. flat_fault_to way nid dir numbers.now ≡ Some e) }
{
    let Some(table) = flat_row(way, nid) else {
        return Err(BuildFault::NotAdmitted(Var::NID_PACKET));
    };
    if numbers.len() != table.len() {
        return Err(BuildFault::Count);
    }
    check_direction(way, dir)?;
    check_numbers(table, numbers)
}

/// The table of the packet's row; `None` exactly if the packet isn't typed or its row has groups.
#[tactic(auto, using(crate::specs::laws::TableLaws::flat_table))]
pub(crate) fn flat_row(way: Way, nid: u8) -> Option<&'static [RowItem]>
    ensures { option_map (λ table. table.now) result ≡ option_map (λ vs. map One vs) (flat_row_to way nid) }
{
    let row = row_of(way, nid)?;
    is_flat(row.items).then_some(row.items)
}

/// Whether a table has no groups.
fn is_flat(table: &[RowItem]) -> bool
    ensures { result ≡ list_all is_one table.now }
{
    table.iter().all(|item| matches!(item, RowItem::One(_)))
}

/// `Ok` exactly if each variable of a table without groups admits its number, else the first that doesn't.
fn check_numbers(table: &[RowItem], numbers: &[u64]) -> Result<(), BuildFault>
    ensures ok { (vs : List Var) → table.now ≡ map One vs → OnOk result (numbers_fault vs numbers.now ≡ None) }
    ensures fault { (vs : List Var) → table.now ≡ map One vs → IfErr result (λ e. numbers_fault vs numbers.now ≡ Some e) }
{
    for (item, number) in table.iter().zip(numbers) {
        if let RowItem::One(var) = item {
            check(*var, *number)?;
        }
    }
    Ok(())
}
