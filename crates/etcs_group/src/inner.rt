//! For the crates above: which group the telegrams of an assembly are of, and parts of its text.

ghost use Rattle.std.specs.Prelude.{◌≡◌, IfSome, IfNone};
ghost use Rattle.etcs_telegram.specs.Telegrams.{TelegramContent};
ghost use Rattle.etcs_group.specs.Groups.{Holds, HoldsNone};

use crate::assembly::Assembly;
pub use crate::states::{write_number, write_positions};

/// NID_C and NID_BG, which all held telegrams have. `None` exactly if nothing is held.
pub fn group(assembly: &Assembly) -> Option<(u16, u16)>
    ensures held { IfSome result (λ g. (t : TelegramContent) × Holds assembly.now t) }
    ensures group { IfSome result (λ g. (t : TelegramContent) → Holds assembly.now t → (t.header.nid_c ≡ g.0) × (t.header.nid_bg ≡ g.1)) }
    ensures none { IfNone result (HoldsNone assembly.now) }
{
    match assembly.first_held() {
        Some(telegram) => {
            let header = telegram.header();
            Some((header.nid_c(), header.nid_bg()))
        }
        None => None,
    }
}
