//! The item whose bits are on a page.

ghost use Rattle.std.specs.Prelude.{◌≡◌, ◌≢◌, ◌%◌, ℕ, Err, IfOk, length};
ghost use Rattle.etcs_bits.specs.Bits.{bits};
ghost use Rattle.etcs_vars.specs.declared.var.Var.{Var};
ghost use Rattle.etcs_vars.specs.Reading.{IsOutcome, Reading, refused, spelled};
ghost use Rattle.etcs_text.specs.Entries.{EntryReads, entry_value};
ghost use Rattle.etcs_text.specs.Verdicts.{IsItem};
ghost use Rattle.etcs_json.specs.Loose.{HasLength};

use crate::fault::JsonFault;
use etcs_text::{Entry, Kind, SingleReader, Verdict};
use etcs_vars::BitPage;
use std::alloc::Global;

/// The item of the kind whose bits are on a page.
///
/// # Errors
///
/// `Refused` if they are none's; `Memory` if out of memory.
#[inline(never)]
pub(crate) fn item_on(alloc: Global, kind: Kind, page: &BitPage) -> Result<Entry, JsonFault>
    requires whole { length page.now % 8 ≡ 0 }
    requires long { HasLength kind page.now }
    ensures ok { IfOk result (λ e. (r : Reading) × EntryReads kind (entry_value e) r × (page.now ≡ spelled r)) }
    ensures refused { (i : ℕ) (x : Var) → result ≡ Err (JsonFault.Refused i x) → IsOutcome (EntryReads kind) page.now (refused i x) }
    ensures shape { result ≢ Err JsonFault.Shape }
{
    let bytes = &page.bytes()[..page.len() / 8];
    let mut reader = SingleReader::new(alloc, kind);
    let entry = read_by(&mut reader, bytes);
    drop(reader);
    entry
}

/// The item of the reader's kind that these bytes are.
fn read_by(reader: &mut SingleReader, bytes: &[u8]) -> Result<Entry, JsonFault>
    requires { HasLength reader.old (bits bytes.now) }
    ensures ok { IfOk result (λ e. IsItem reader.old bytes.now (entry_value e)) }
    ensures refused { (i : ℕ) (x : Var) → result ≡ Err (JsonFault.Refused i x) → IsOutcome (EntryReads reader.old) (bits bytes.now) (refused i x) }
    ensures shape { result ≢ Err JsonFault.Shape }
{
    let Ok(verdict) = reader.read(bytes) else {
        return Err(JsonFault::Memory);
    };
    match verdict {
        Verdict::Item(entry) => Ok(entry),
        Verdict::Refused { bit, var } => Err(JsonFault::Refused { bit, var }),
        Verdict::TooShort => unreachable!(),
        Verdict::TooLong => unreachable!(),
    }
}
