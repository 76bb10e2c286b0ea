//! The virtual balise cover marker.

ghost use Rattle.std.specs.Prelude.{◌≡◌, Some, None, OnOk, IfOk, IfErr, IsTrue};
ghost use Rattle.etcs_vars.specs.declared.var.Var.TheVariants.{NID_VBCMK};
ghost use Rattle.etcs_vars.specs.Faults.{number_fault};
ghost use Rattle.etcs_vars.specs.Vars.{admits};

use etcs_vars::{BuildFault, Var, check};
use std::marker::Model;

/// Packet 0, the virtual balise cover marker: NID_PACKET 0 and NID_VBCMK, with no direction and no length
/// (SUBSET-026, 7.4.2).
#[derive(Clone, Copy, Debug, PartialEq, Eq)]
pub struct Marker {
    number: u8,
}

impl Model for Marker {
    ghost use Rattle.std.specs.Prelude.{ℕ, IsTrue};
    ghost use Rattle.etcs_vars.specs.declared.var.Var.TheVariants.{NID_VBCMK};
    ghost use Rattle.etcs_vars.specs.Vars.{admits};

    ghost Value = { ℕ };

    ghost view = { λ m. m.number };

    ghost invariant = { λ m. IsTrue (admits NID_VBCMK m.number) };

    ghost inverse = { λ n. record { number = n } };
}

impl Marker {
    /// The marker of this number, as `inner::marker` promises it.
    pub(crate) fn new(number: u8) -> Result<Marker, BuildFault>
        ensures ok { IfOk result (λ m. m ≡ number) }
        ensures fits { OnOk result (number_fault NID_VBCMK number ≡ None) }
        ensures fault { IfErr result (λ e. number_fault NID_VBCMK number ≡ Some e) }
    {
        check(Var::NID_VBCMK, u64::from(number))?;
        Ok(Marker { number })
    }

    /// NID_VBCMK, an admitted number: 0 to 63.
    pub fn number(&self) -> u8
        ensures value { result ≡ self.now }
        ensures admitted { IsTrue (admits NID_VBCMK result) }
    {
        self.number
    }
}
