//! What an assembly holds.

ghost use Rattle.std.specs.Prelude.{◌≡◌, IfSome, IfNone};
ghost use Rattle.etcs_telegram.specs.Telegrams.{TelegramContent};
ghost use Rattle.etcs_group.specs.Groups.{Holds, HoldsNone};
ghost use Rattle.etcs_group.specs.Messages.{IsHeldAt};

use crate::assembly::Assembly;
use crate::inner;
use etcs_telegram::Telegram;

impl Assembly {
    /// The one held telegram of this N_PIG, 0 to 7. `None` exactly if none is held at this position.
    pub fn telegram(&self, position: usize) -> Option<&Telegram>
        ensures some { IfSome result (λ t. Holds self.now t.now × (t.now.header.n_pig ≡ position)) }
        ensures only { IfSome result (λ t. (u : TelegramContent) → Holds self.now u → u.header.n_pig ≡ position → u ≡ t.now) }
        ensures none { IfNone result (IsHeldAt self.now position → ⊥) }
    {
        self.at(position)
    }

    /// NID_C and NID_BG, which all held telegrams have. `None` exactly if nothing is held.
    pub fn group(&self) -> Option<(u16, u16)>
        ensures held { IfSome result (λ g. (t : TelegramContent) × Holds self.now t) }
        ensures group { IfSome result (λ g. (t : TelegramContent) → Holds self.now t → (t.header.nid_c ≡ g.0) × (t.header.nid_bg ≡ g.1)) }
        ensures none { IfNone result (HoldsNone self.now) }
    {
        inner::group(self)
    }
}
