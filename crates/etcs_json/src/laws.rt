//! Laws, each the contract of a function.

ghost use Rattle.std.specs.Prelude.{◌≡◌, ◌≢◌, ℕ, List, All, IsUtf8, Some};
ghost use Rattle.serde_json.specs.Data.{Data};
ghost use Rattle.serde_json.specs.Read.{read};
ghost use Rattle.serde_json.specs.Written.{compact_text};
ghost use Rattle.etcs_vars.specs.declared.var.Var.{Var};
ghost use Rattle.etcs_vars.specs.Reading.{Reading};
ghost use Rattle.etcs_text.specs.Entries.{EntryReads, EntryValue, Spells};
ghost use Rattle.etcs_text.specs.Trees.{json_tree};
ghost use Rattle.etcs_text.specs.declared.entry.Kind.{Kind};
ghost use Rattle.etcs_json.specs.JsonLines.{SaysItem, SaysRefused};
ghost use Rattle.etcs_json.specs.Loose.{TreeRefused, TreeSays};
ghost use Rattle.etcs_json.specs.TreeReading.{IsTreeOf};

/// For each item that has a spelling: the compact text of its tree is read as this tree, is UTF-8, and has neither LF nor
/// CR in it.
pub fn read_tree()
    ensures tree { (e : EntryValue) (r : Reading) → Spells e r → read (compact_text (json_tree e)) ≡ Some (json_tree e) }
    ensures utf8 { (e : EntryValue) (r : Reading) → Spells e r → IsUtf8 (compact_text (json_tree e)) }
    ensures without_lf { (e : EntryValue) (r : Reading) → Spells e r → All (λ c. c ≢ 10) (compact_text (json_tree e)) }
    ensures without_cr { (e : EntryValue) (r : Reading) → Spells e r → All (λ c. c ≢ 13) (compact_text (json_tree e)) }
{}

/// A line is the JSON of at most one item of a kind, is refused at no two bits or variables, and isn't both the JSON of
/// an item of a kind and refused for that kind.
pub fn one_line()
    ensures said { (kind : Kind) (line : List ℕ) (e e' : EntryValue) → SaysItem kind line e → SaysItem kind line e' → e ≡ e' }
    ensures refused { (kind : Kind) (line : List ℕ) (i j : ℕ) (x y : Var) → SaysRefused kind line i x → SaysRefused kind line j y → (i ≡ j) × (x ≡ y) }
    ensures either { (kind : Kind) (line : List ℕ) (e : EntryValue) (i : ℕ) (x : Var) → SaysItem kind line e → SaysRefused kind line i x → ⊥ }
{}

/// The tree that [`to_value`](crate::to_value) makes of an item is a tree of the item, and if the item has a spelling, of
/// that item of its kind. A tree is that of at most one item of a kind, is refused at no two bits or variables, and isn't
/// both that of an item of a kind and refused for that kind.
pub fn one_tree()
    ensures own { (e : EntryValue) → IsTreeOf e (json_tree e) }
    ensures says { (kind : Kind) (e : EntryValue) (r : Reading) → EntryReads kind e r → TreeSays kind (json_tree e) e }
    ensures said { (kind : Kind) (d : Data) (e e' : EntryValue) → TreeSays kind d e → TreeSays kind d e' → e ≡ e' }
    ensures refused { (kind : Kind) (d : Data) (i j : ℕ) (x y : Var) → TreeRefused kind d i x → TreeRefused kind d j y → (i ≡ j) × (x ≡ y) }
    ensures either { (kind : Kind) (d : Data) (e : EntryValue) (i : ℕ) (x : Var) → TreeSays kind d e → TreeRefused kind d i x → ⊥ }
{}
