//! The kinds by their numbers.

ghost use Rattle.std.specs.Prelude.{◌≡◌, IfSome, IsNone};
ghost use Rattle.etcs_text.specs.declared.entry.Kind.{Kind};
ghost use Rattle.etcs_c.specs.Answers.{kind_number};

use etcs_text::Kind;

/// The kind of this number, if there is one.
pub(crate) fn kind_of(number: u32) -> Option<Kind>
    ensures some { IfSome result (λ kind. kind_number kind ≡ number) }
    ensures none { IsNone result → (kind : Kind) → kind_number kind ≡ number → ⊥ }
{
    match number {
        1 => Some(Kind::Long),
        2 => Some(Kind::Short),
        3 => Some(Kind::Radio),
        4 => Some(Kind::Train),
        _ => None,
    }
}
