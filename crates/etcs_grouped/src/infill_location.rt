//! Where the infill that follows begins.

ghost use Rattle.std.specs.Prelude.{◌≡◌, None, Some, IfOk, IfErr};
ghost use Rattle.etcs_grouped.specs.InfillLocations.{infill_location_value, infill_location_fault};

use etcs_bodies::laws::Exact;
use etcs_bodies::{Body, Numbers, Part, Passing, check, taken};
use etcs_parts::BaliseAt;
use etcs_tables::Way;
use etcs_vars::inner::{VarSink, Variables};
use etcs_vars::{BuildFault, Var};
use std::alloc::{AllocError, Global};
use std::marker::Model;

/// The infill location reference: the balise group at which the infill that follows begins (packet 136; SUBSET-026,
/// 7.4.2).
#[derive(Clone, Copy, Debug, PartialEq, Eq)]
pub struct InfillLocation {
    dir: u8,
    balise: BaliseAt,
}

impl Model for InfillLocation {
    ghost use Rattle.etcs_bodies.specs.PacketFormats.{IsPacketOf};
    ghost use Rattle.etcs_grouped.specs.InfillLocations.{infill_location_packet, InfillLocation};

    ghost Value = { InfillLocation };

    ghost view = { λ s. s };

    ghost invariant = { IsPacketOf infill_location_packet };

    ghost inverse = { λ s. s };
}

impl InfillLocation {
    /// The location at this group, returned exactly if none of the errors below applies.
    ///
    /// - `dir`: Q_DIR, for which direction of the train it holds (0 reverse, 1 nominal, 2 both);
    /// - `nid_c`: the country or region of the group, 0 to 1,023, if it isn't that of the group that sends the packet;
    /// - `nid_bg`: the number of the group, 0 to 16,383.
    ///
    /// # Errors
    ///
    /// `NotAdmitted` with the first of Q_DIR (0 to 2), NID_C (10 bits) and NID_BG (14) that doesn't admit its number.
    pub fn new(dir: u8, nid_c: Option<u16>, nid_bg: u16) -> Result<InfillLocation, BuildFault>
        ensures ok { IfOk result (λ p. p ≡ infill_location_value dir nid_c nid_bg) }
        ensures none { IfOk result (λ p. infill_location_fault (infill_location_value dir nid_c nid_bg) ≡ None) }
        ensures fault { IfErr result (λ e. infill_location_fault (infill_location_value dir nid_c nid_bg) ≡ Some e) }
    {
        check(Var::Q_DIR, u64::from(dir))?;
        let balise = BaliseAt::new(nid_c, nid_bg)?;
        Ok(InfillLocation { dir, balise })
    }

    /// NID_C: the country or region of the group, if it isn't that of the group that sends the packet.
    pub fn nid_c(&self) -> Option<u16>
        ensures { result ≡ self.now.balise.nid_c }
    {
        self.balise.nid_c()
    }

    /// NID_BG: the number of the group.
    pub fn nid_bg(&self) -> u16
        ensures { result ≡ self.now.balise.nid_bg }
    {
        self.balise.nid_bg()
    }
}

impl Variables for InfillLocation {
    ghost use Rattle.etcs_bodies.specs.PacketFormats.{packet_reading};
    ghost use Rattle.etcs_grouped.specs.InfillLocations.{infill_location_packet};

    ghost reading_of = { λ p. packet_reading infill_location_packet p };

    fn bits(&self) -> usize {
        self.balise.bits()
    }

    fn send<S: VarSink>(&self, out: &mut S) -> Result<(), AllocError> {
        self.balise.send(out)
    }
}

impl Body for InfillLocation {
    ghost use Rattle.etcs_tables.specs.declared.row.Way.TheVariants.{ToTrain};
    ghost use Rattle.etcs_bodies.specs.PacketFormats.{IsPacketOf, packet_left};
    ghost use Rattle.etcs_grouped.specs.InfillLocations.{infill_location_packet};
    ghost use Rattle.etcs_grouped.specs.laws.InfillLocations.{infill_location_codes};

    const NID: u8 = 136;

    const WAY: Way = Way::ToTrain;

    ghost NID = { 136 };

    ghost WAY = { ToTrain };

    ghost direction = { λ p. p.dir };

    ghost is_value = { λ p. IsPacketOf infill_location_packet p };

    ghost read_from = { λ dir s. packet_left infill_location_packet dir s };

    ghost codes = { infill_location_codes };

    fn q_dir(&self) -> u8 {
        self.dir
    }

    #[tactic(auto, using(etcs_bodies::specs::laws::Takes::number_ok), unfolding(etcs_bodies::specs::PacketCodes::directed_from))]
    fn take<L: Numbers>(
        alloc: Global,
        dir: u8,
        numbers: &mut L,
    ) -> Result<Option<Self>, AllocError> {
        let balise = taken!(BaliseAt::take(alloc, numbers)?);
        Ok(Some(InfillLocation { dir, balise }))
    }

    #[inline(always)]
    fn pass<L: Numbers, S: VarSink>(numbers: &mut L, out: &mut S) -> Result<bool, AllocError> {
        BaliseAt::pass(numbers, out)
    }

    fn copy(&self, _alloc: Global) -> Result<InfillLocation, AllocError> {
        Ok(*self)
    }
}

impl Exact for InfillLocation {
    ghost use Rattle.etcs_grouped.specs.laws.InfillLocations.{infill_location_exact};

    ghost exact = { infill_location_exact };
}
