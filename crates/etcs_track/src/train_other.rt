//! Packets to the track that are kept as bits.

ghost use Rattle.std.specs.Prelude.{◌≡◌, ◌≤◌, length, Some, None, OnOk, IfOk, IfErr};
ghost use Rattle.etcs_tables.specs.declared.row.Way.TheVariants.{ToTrack};
ghost use Rattle.etcs_flat.specs.Others.{other_fault};
ghost use Rattle.etcs_track.specs.TrainOthers.{train_other_value};

use etcs_bits::{BitSlice, Bits};
use etcs_flat::inner::check_other;
use etcs_tables::Way;
use etcs_vars::BuildFault;
use std::alloc::{AllocError, Global};
use std::marker::Model;

/// A packet to the track that isn't typed, kept as bits (SUBSET-026, 7.4). Two of them are equal exactly if they have
/// the same number and bits.
#[derive(Debug, Drop, PartialEq, Eq)]
pub struct TrainOther {
    nid: u8,
    body: Bits,
}

impl Model for TrainOther {
    ghost use Rattle.std.specs.Prelude.{◌≡◌, length, None};
    ghost use Rattle.etcs_tables.specs.declared.row.Way.TheVariants.{ToTrack};
    ghost use Rattle.etcs_flat.specs.Others.{other_fault};
    ghost use Rattle.etcs_track.specs.TrainOthers.{TrainOther};

    ghost Value = { TrainOther };

    ghost view = { λ s. s };

    ghost invariant = { λ p. other_fault ToTrack p.nid 0 (length p.body) ≡ None };

    ghost inverse = { λ s. s };
}

impl TrainOther {
    /// The packet of this NID_PACKET, with the bits after L_PACKET; returned exactly if none of the errors below
    /// applies. Takes no memory.
    ///
    /// # Errors
    ///
    /// The first of these that applies, with the bits that were given:
    ///
    /// - `NotAdmitted(NID_PACKET)`: the number is 0, 1, 4 or 5, that of a typed packet.
    /// - `TooLong`: there are more than 8,170 bits, which L_PACKET can't count.
    pub fn new(nid: u8, body: Bits) -> Result<TrainOther, (BuildFault, Bits)>
        ensures ok { IfOk result (λ p. p ≡ train_other_value nid body) }
        ensures fits { OnOk result (other_fault ToTrack nid 0 (length body) ≡ None) }
        ensures back { IfErr result (λ e. e.1 ≡ body) }
        ensures fault { IfErr result (λ e. other_fault ToTrack nid 0 (length body) ≡ Some e.0) }
    {
        match check_other(Way::ToTrack, nid, 0, body.len()) {
            Ok(()) => Ok(TrainOther { nid, body }),
            Err(fault) => Err((fault, body)),
        }
    }

    /// As `new`, of parts to which no error applies.
    #[inline(always)]
    pub(crate) fn sound(nid: u8, body: Bits) -> TrainOther
        requires { other_fault ToTrack nid 0 (length body) ≡ None }
        ensures { result ≡ train_other_value nid body }
    {
        TrainOther { nid, body }
    }

    /// NID_PACKET, not that of a typed packet.
    pub fn nid(&self) -> u8
        ensures nid { result ≡ self.now.nid }
        ensures value { other_fault ToTrack self.now.nid 0 (length self.now.body) ≡ None }
    {
        self.nid
    }

    /// The bits after L_PACKET, at most 8,170.
    pub fn body(&self) -> BitSlice<'_>
        ensures { result ≡ self.now.body }
    {
        self.body.as_slice()
    }

    /// How many bits are after L_PACKET: at most 8,170.
    #[tactic(auto, using(etcs_flat::specs::laws::OtherLaws::other_short))]
    pub fn bits(&self) -> usize
        ensures bits { result ≡ length self.now.body }
        ensures most { result ≤ 8170 }
    {
        self.body.len()
    }

    /// An equal packet.
    ///
    /// # Errors
    ///
    /// `AllocError`: out of memory.
    pub fn try_clone(&self, alloc: Global) -> Result<TrainOther, AllocError>
        ensures { IfOk result (λ p. p ≡ self.now) }
    {
        Ok(TrainOther {
            nid: self.nid,
            body: Bits::from_slice(alloc, self.body())?,
        })
    }
}
