//! Lists of balise groups.

ghost use Rattle.std.specs.Prelude.{◌≡◌, None, Some, OnOk, IfOk, IfErr, IfSome, IfNone, IsTrue};
ghost use Rattle.std.proofs.Common.{refl};
ghost use Rattle.etcs_vars.specs.declared.var.Var.TheVariants.{Q_DIR};
ghost use Rattle.etcs_vars.specs.Vars.{admits};
ghost use Rattle.etcs_vars.specs.Faults.{◌or_else◌, number_fault};
ghost use Rattle.etcs_tables.specs.declared.row.Way.TheVariants.{ToTrain};
ghost use Rattle.etcs_tables.specs.Rows.{row_to, balise_list};
ghost use Rattle.etcs_bodies.specs.PacketFormats.{packet_left};
ghost use Rattle.etcs_grouped.specs.BaliseLists.{balise_list_value, nid_fault, balise_list_fault, balise_list_packet};

use etcs_bodies::laws::Exact;
use etcs_bodies::{Body, Counted, Numbers, Part, Passing, check, taken};
use etcs_parts::BaliseAt;
use etcs_tables::Way;
use etcs_vars::inner::{VarSink, Variables};
use etcs_vars::{BuildFault, Var};
use std::alloc::{AllocError, Global};
use std::marker::Model;

/// A list of balise groups (SUBSET-026, 7.4.2): with NID 49 those over which the train may run in shunting mode, with
/// NID 63 those over which it may run in staff responsible mode. No other NID has lists.
#[derive(Debug, Drop, PartialEq, Eq)]
pub struct BaliseList<const NID: u8> {
    dir: u8,
    balises: Counted<BaliseAt>,
}

impl<const NID: u8> Model for BaliseList<NID> {
    ghost use Rattle.etcs_grouped.specs.BaliseLists.{BaliseListValue, balise_list_value, IsBaliseList};

    ghost Value = { BaliseListValue };

    ghost view = { λ s. balise_list_value s.dir s.balises };

    ghost invariant = { λ s. IsBaliseList NID (balise_list_value s.dir s.balises) };

    ghost inverse = { λ s. record { dir = s.dir; balises = s.balises } };
}

impl<const NID: u8> BaliseList<NID> {
    /// The list of these groups, returned exactly if none of the errors below applies. Groups are values already, and
    /// aren't checked again.
    ///
    /// - `dir`: Q_DIR, for which direction of the train it holds (0 reverse, 1 nominal, 2 both);
    /// - `balises`: the groups; without any, the train may run over none.
    ///
    /// # Errors
    ///
    /// The first of these that applies, with the groups that were given:
    ///
    /// - `NotAdmitted(NID_PACKET)`: `NID` is neither 49 nor 63.
    /// - `NotAdmitted(Q_DIR)`: the direction is above 2.
    /// - `TooMany(N_ITER)`: there are more than 31 groups.
    pub fn new(dir: u8, balises: Vec<BaliseAt>) -> Result<Self, (BuildFault, Vec<BaliseAt>)>
        ensures ok { IfOk result (λ p. p ≡ balise_list_value dir balises.items) }
        ensures none { IfOk result (λ p. balise_list_fault NID (balise_list_value dir balises.items) ≡ None) }
        ensures fault { IfErr result (λ e. balise_list_fault NID (balise_list_value dir balises.items) ≡ Some e.0) }
        ensures balises { IfErr result (λ e. e.1.items ≡ balises.items) }
    {
        if let Err(fault) = check_head(NID, dir) {
            return Err((fault, balises));
        }
        let balises = Counted::new(balises)?;
        Ok(BaliseList { dir, balises })
    }

    /// The groups.
    pub fn balises(&self) -> &[BaliseAt]
        ensures { result.now ≡ self.now.balises }
    {
        self.balises.as_slice()
    }

    /// Takes the packet of a direction that the numbers begin with, if they begin with one.
    #[tactic(auto, using(etcs_bodies::specs::laws::Takes::number_ok), unfolding(etcs_bodies::specs::PacketCodes::directed_from))]
    fn taken<L: Numbers>(
        alloc: Global,
        dir: u8,
        numbers: &mut L,
    ) -> Result<Option<Self>, AllocError>
        requires nid { nid_fault NID ≡ None }
        requires dir { IsTrue (admits Q_DIR dir) }
        ensures some { IfOk result (λ o. IfSome o (λ p. packet_left balise_list_packet dir (L.left numbers.old) ≡ Some (p, L.left numbers.new))) }
        ensures none { IfOk result (λ o. IfNone o (packet_left balise_list_packet dir (L.left numbers.old) ≡ None)) }
    {
        let balises = taken!(Counted::take(alloc, numbers)?);
        Ok(Some(BaliseList { dir, balises }))
    }
}

/// Refuses a number of other packets, or a direction that Q_DIR doesn't admit.
fn check_head(nid: u8, dir: u8) -> Result<(), BuildFault>
    ensures nid { OnOk result (nid_fault nid ≡ None) }
    ensures dir { OnOk result (number_fault Q_DIR dir ≡ None) }
    ensures fault { IfErr result (λ e. nid_fault nid or_else number_fault Q_DIR dir ≡ Some e) }
{
    match nid {
        49 | 63 => check(Var::Q_DIR, u64::from(dir)),
        _ => Err(BuildFault::NotAdmitted(Var::NID_PACKET)),
    }
}

/// `N` is 49 or 63, the numbers whose packets are lists of balise groups.
pub trait ListNumber<const N: u8> {
    ghost listed: { nid_fault N ≡ None };

    ghost typed: { row_to ToTrain N ≡ Some balise_list };
}

impl ListNumber<49> for BaliseList<49> {
    ghost listed = { refl };

    ghost typed = { refl };
}

impl ListNumber<63> for BaliseList<63> {
    ghost listed = { refl };

    ghost typed = { refl };
}

impl<const NID: u8> Variables for BaliseList<NID> {
    ghost use Rattle.etcs_bodies.specs.PacketFormats.{packet_reading};
    ghost use Rattle.etcs_grouped.specs.BaliseLists.{balise_list_packet};

    ghost reading_of = { λ p. packet_reading balise_list_packet p };

    fn bits(&self) -> usize {
        self.balises.bits()
    }

    fn send<S: VarSink>(&self, out: &mut S) -> Result<(), AllocError> {
        self.balises.send(out)
    }
}

impl<const N: u8> Body for BaliseList<N>
where
    BaliseList<N>: ListNumber<N>,
{
    ghost use Rattle.etcs_tables.specs.declared.row.Way.TheVariants.{ToTrain};
    ghost use Rattle.etcs_bodies.specs.PacketFormats.{packet_left};
    ghost use Rattle.etcs_grouped.specs.BaliseLists.{IsBaliseList, balise_list_packet};
    ghost use Rattle.etcs_grouped.specs.laws.BaliseLists.{balise_list_codes};

    const NID: u8 = N;

    const WAY: Way = Way::ToTrain;

    ghost NID = { N };

    ghost WAY = { ToTrain };

    ghost direction = { λ p. p.dir };

    ghost is_value = { λ p. IsBaliseList N p };

    ghost read_from = { λ dir s. packet_left balise_list_packet dir s };

    ghost codes = { balise_list_codes N bound-1.listed bound-1.typed };

    fn q_dir(&self) -> u8 {
        self.dir
    }

    fn take<L: Numbers>(
        alloc: Global,
        dir: u8,
        numbers: &mut L,
    ) -> Result<Option<Self>, AllocError> {
        BaliseList::taken(alloc, dir, numbers)
    }

    #[inline(always)]
    fn pass<L: Numbers, S: VarSink>(numbers: &mut L, out: &mut S) -> Result<bool, AllocError> {
        Counted::<BaliseAt>::pass(numbers, out)
    }

    fn copy(&self, alloc: Global) -> Result<Self, AllocError> {
        Ok(BaliseList {
            dir: self.dir,
            balises: self.balises.try_clone(alloc)?,
        })
    }
}

impl<const NID: u8> Exact for BaliseList<NID> {
    ghost use Rattle.etcs_grouped.specs.laws.BaliseLists.{balise_list_exact};

    ghost exact = { balise_list_exact };
}
