//! For the crates above: the marker, which has no constructor of its own, kept packets that were checked, and what
//! packets of both ways share.

ghost use Rattle.std.specs.Prelude.{◌≡◌, length, Some, None, OnOk, IfOk, IfErr};
ghost use Rattle.etcs_tables.specs.declared.row.Way.TheVariants.{ToTrain};
ghost use Rattle.etcs_vars.specs.declared.var.Var.TheVariants.{NID_VBCMK};
ghost use Rattle.etcs_vars.specs.Faults.{number_fault};
ghost use Rattle.etcs_flat.specs.Others.{other_fault, other_value};

pub use crate::flat::check_flat;
use crate::marker::Marker;
use crate::other::Other;
pub use crate::other::check_other;
pub use crate::table::{few, pass_table, send_table, table_bits, table_of, take_table};
use etcs_bits::Bits;
use etcs_vars::BuildFault;

/// The packet to the train of this NID_PACKET and Q_DIR, with the bits after L_PACKET. It checks nothing, and
/// requires that no error of [`Other::new`] applies.
#[inline(always)]
pub fn other(nid: u8, dir: u8, body: Bits) -> Other
    requires { other_fault ToTrain nid dir (length body) ≡ None }
    ensures { result ≡ other_value nid dir body }
{
    Other::sound(nid, dir, body)
}

/// The marker of this NID_VBCMK, returned exactly if the variable admits the number.
///
/// # Errors
///
/// `NotAdmitted(NID_VBCMK)`: the number is above 63.
pub fn marker(number: u8) -> Result<Marker, BuildFault>
    ensures ok { IfOk result (λ m. m ≡ number) }
    ensures fits { OnOk result (number_fault NID_VBCMK number ≡ None) }
    ensures fault { IfErr result (λ e. number_fault NID_VBCMK number ≡ Some e) }
{
    Marker::new(number)
}
