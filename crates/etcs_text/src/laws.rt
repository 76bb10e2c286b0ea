//! Laws, each the contract of a function.

ghost use Rattle.std.specs.Prelude.{◌≡◌, ◌++◌, Bool, List, [], IfOk};
ghost use Rattle.etcs_vars.specs.Reading.{Reading, spelled};
ghost use Rattle.etcs_text.specs.declared.account.End.TheVariants.{Whole};
ghost use Rattle.etcs_text.specs.declared.entry.Kind.{Kind};
ghost use Rattle.etcs_text.specs.Entries.{entry_kind, entry_value};
ghost use Rattle.etcs_text.specs.Pairs.{ItemLanguage, entry_reading};

use crate::Account;
use crate::encodings::encoded;
use crate::entry::{Entry, Kind};
use crate::pairs::{hold, read_pairs};
use etcs_telegram::Size;
use std::alloc::{AllocError, Global};

/// No two items of a kind have the same spelling, and no spelling begins another.
pub fn one_item()
    ensures { (kind : Kind) (p q : Reading) (beyond : List Bool) → ItemLanguage kind p → ItemLanguage kind q → spelled q ≡ spelled p ++ beyond → (p ≡ q) × (beyond ≡ []) }
{}

/// The kind of an item.
fn kind_of(entry: &Entry) -> Kind
    ensures { result ≡ entry_kind (entry_value entry.now) }
{
    match entry {
        Entry::Telegram(telegram) => match telegram.size() {
            Size::Long => Kind::Long,
            Size::Short => Kind::Short,
        },
        Entry::Message(_) => Kind::Radio,
        Entry::Train(_) => Kind::Train,
    }
}

/// Encodes an item and reads the pairs of its bytes: they are its variables with their numbers, which are an item of its kind.
///
/// # Errors
///
/// `AllocError` if out of memory; the body has no other way to fail.
pub fn encoded_pairs(alloc: Global, entry: &Entry) -> Result<Account, AllocError>
    ensures item { ItemLanguage (entry_kind (entry_value entry.now)) (entry_reading entry.now) }
    ensures pairs { IfOk result (λ a. (a.end ≡ Whole) × (a.fields.items ≡ entry_reading entry.now)) }
{
    hold(entry);
    let mut bytes = Vec::new(alloc);
    encoded(entry, &mut bytes)?;
    read_pairs(alloc, kind_of(entry), bytes.as_slice())
}
