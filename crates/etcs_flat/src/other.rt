//! Packets that are kept as bits.

ghost use Rattle.std.specs.Prelude.{◌≡◌, ◌≤◌, length, Some, None, OnOk, IfOk, IfErr};
ghost use Rattle.etcs_tables.specs.declared.row.Way.TheVariants.{ToTrain};
ghost use Rattle.etcs_tables.specs.Layouts.{ROW_LIMIT};
ghost use Rattle.etcs_flat.specs.Others.{other_value, direction_fault, other_fault};

use etcs_bits::{BitSlice, Bits};
use etcs_tables::{Way, is_direction, is_kept, kept_limit};
use etcs_vars::{BuildFault, Var};
use std::alloc::{AllocError, Global};
use std::marker::Model;

/// A packet to the train that isn't typed, kept as bits (SUBSET-026, 7.4). Two of them are equal exactly if they have
/// the same number, direction and bits.
#[derive(Debug, Drop, PartialEq, Eq)]
pub struct Other {
    nid: u8,
    dir: u8,
    body: Bits,
}

impl Model for Other {
    ghost use Rattle.std.specs.Prelude.{◌≡◌, ◌≤◌, length, None};
    ghost use Rattle.etcs_tables.specs.declared.row.Way.TheVariants.{ToTrain};
    ghost use Rattle.etcs_flat.specs.Others.{Other, other_fault};

    ghost Value = { Other };

    ghost view = { λ s. s };

    ghost invariant = { λ p. other_fault ToTrain p.nid p.dir (length p.body) ≡ None };

    ghost inverse = { λ s. s };
}

impl Other {
    /// The packet of this NID_PACKET and Q_DIR, with the bits after L_PACKET; returned exactly if none of the errors
    /// below applies. Takes no memory.
    ///
    /// # Errors
    ///
    /// The first of these that applies, with the bits that were given:
    ///
    /// - `NotAdmitted(NID_PACKET)`: the number is 0, 255 or that of a typed packet.
    /// - `NotAdmitted(Q_DIR)`: the direction is above 2.
    /// - `TooLong`: there are more than 8,168 bits, which L_PACKET can't count.
    pub fn new(nid: u8, dir: u8, body: Bits) -> Result<Other, (BuildFault, Bits)>
        ensures ok { IfOk result (λ p. p ≡ other_value nid dir body) }
        ensures fits { OnOk result (other_fault ToTrain nid dir (length body) ≡ None) }
        ensures back { IfErr result (λ e. e.1 ≡ body) }
        ensures fault { IfErr result (λ e. other_fault ToTrain nid dir (length body) ≡ Some e.0) }
    {
        match check_other(Way::ToTrain, nid, dir, body.len()) {
            Ok(()) => Ok(Other { nid, dir, body }),
            Err(fault) => Err((fault, body)),
        }
    }

    /// As `new`, of parts to which no error applies.
    #[inline(always)]
    pub(crate) fn sound(nid: u8, dir: u8, body: Bits) -> Other
        requires { other_fault ToTrain nid dir (length body) ≡ None }
        ensures { result ≡ other_value nid dir body }
    {
        Other { nid, dir, body }
    }

    /// NID_PACKET: 1 to 254, and not that of a typed packet.
    pub fn nid(&self) -> u8
        ensures nid { result ≡ self.now.nid }
        ensures value { other_fault ToTrain self.now.nid self.now.dir (length self.now.body) ≡ None }
    {
        self.nid
    }

    /// Q_DIR: 0 reverse, 1 nominal, 2 both directions.
    pub fn dir(&self) -> u8
        ensures { result ≡ self.now.dir }
    {
        self.dir
    }

    /// The bits after L_PACKET, at most 8,168.
    pub fn body(&self) -> BitSlice<'_>
        ensures { result ≡ self.now.body }
    {
        self.body.as_slice()
    }

    /// How many bits are after L_PACKET: at most 8,168.
    #[tactic(auto, using(crate::specs::laws::OtherLaws::other_short))]
    pub fn bits(&self) -> usize
        ensures bits { result ≡ length self.now.body }
        ensures most { result ≤ ROW_LIMIT }
    {
        self.body.len()
    }

    /// An equal packet.
    ///
    /// # Errors
    ///
    /// `AllocError`: out of memory.
    pub fn try_clone(&self, alloc: Global) -> Result<Other, AllocError>
        ensures { IfOk result (λ p. p ≡ self.now) }
    {
        Ok(Other {
            nid: self.nid,
            dir: self.dir,
            body: Bits::from_slice(alloc, self.body())?,
        })
    }
}

/// `Ok` exactly if a packet of this way may have the direction.
pub(crate) fn check_direction(way: Way, dir: u8) -> Result<(), BuildFault>
    ensures ok { OnOk result (direction_fault way dir ≡ None) }
    ensures fault { IfErr result (λ e. direction_fault way dir ≡ Some e) }
{
    if is_direction(way, dir) {
        Ok(())
    } else {
        Err(BuildFault::NotAdmitted(Var::Q_DIR))
    }
}

/// Checks the parts of a kept packet of this way, number and direction, of this many bits after L_PACKET: `Ok` exactly
/// if none of the errors below applies.
///
/// # Errors
///
/// The first of these that applies:
///
/// - `NotAdmitted(NID_PACKET)`: packets of this way and number aren't kept as bits.
/// - `NotAdmitted(Q_DIR)`: a packet of this way may not have the direction.
/// - `TooLong`: it has more bits than a kept packet of this way may have, 8,168 to the train and 8,170 to the track.
pub fn check_other(way: Way, nid: u8, dir: u8, bits: usize) -> Result<(), BuildFault>
    ensures ok { OnOk result (other_fault way nid dir bits ≡ None) }
    ensures fault { IfErr result (λ e. other_fault way nid dir bits ≡ Some e) }
{
    if !is_kept(way, nid) {
        return Err(BuildFault::NotAdmitted(Var::NID_PACKET));
    }
    check_direction(way, dir)?;
    if bits > kept_limit(way) {
        return Err(BuildFault::TooLong);
    }
    Ok(())
}
