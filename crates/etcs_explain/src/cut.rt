//! Where an item was cut short, and a line begins another.

ghost use Rattle.std.specs.Prelude.{◌≡◌, ◌↔◌, true, take, IfOk, IsTrue};
ghost use Rattle.etcs_bits.specs.Bits.{bits};
ghost use Rattle.etcs_vars.specs.Reading.{readings_of};
ghost use Rattle.etcs_text.specs.Accounts.{Accounts};
ghost use Rattle.etcs_text.specs.Entries.{EntryReads};
ghost use Rattle.etcs_explain.specs.Cuts.{BeginsItem, IsCut, is_kept};

use crate::kinds::kind_of;
use crate::titles::awaited;
use etcs_reasons::inner::way_of;
use etcs_reasons::{Account, End};
use etcs_tables::message_row;
use etcs_text::Kind;
use etcs_text::inner::refusal_at;
use std::alloc::{AllocError, Global};

/// Whether the item that the held bytes begin was cut short before the bytes of a line.
///
/// # Errors
///
/// If memory runs out.
pub(crate) fn is_cut(
    alloc: Global,
    asked: Option<Kind>,
    held: &[u8],
    line: &[u8],
) -> Result<bool, AllocError>
    ensures cut { IfOk result (λ cut. IsTrue cut ↔ IsCut asked held.now line.now) }
{
    let mut all = Vec::new(alloc);
    all.extend_from_slice(held)?;
    all.extend_from_slice(line)?;
    let kind = kind_of(asked, all.as_slice());
    let is_longer = all.len() > awaited(kind, all.as_slice());
    let own = kind_of(asked, line);
    let alone = Account::read(alloc, own, line)?;
    Ok(begins(own, line, &alone, is_longer) && refusal_at(kind, all.as_slice()).is_some())
}

/// Whether a line with this account begins an item: a whole one, or, if the line is longer than the rest of the item before,
/// the front of one. A message that is kept as bits has to be whole and all of the line, as nearly any bytes begin one.
fn begins(kind: Kind, line: &[u8], alone: &Account, is_longer: bool) -> bool
    requires { Accounts (readings_of (EntryReads kind)) alone.now.fields.items alone.now.end (take 8184 (bits line.now)) }
    ensures { IsTrue result ↔ BeginsItem kind line.now (is_longer ≡ true) }
{
    match alone.end {
        End::Whole => !is_kept(kind, line) || alone.bytes() == line.len(),
        End::Open(_) => is_longer && !is_kept(kind, line),
        End::Refused(_, _) => false,
    }
}

/// Whether bytes begin a message that is kept as bits.
fn is_kept(kind: Kind, bytes: &[u8]) -> bool
    ensures { result ≡ is_kept kind bytes.now }
{
    match (kind, bytes.first()) {
        (Kind::Radio | Kind::Train, Some(nid)) => message_row(way_of(kind), *nid).is_none(),
        _ => false,
    }
}
