//! How the line of an item begins.

ghost use Rattle.std.specs.Prelude.{◌≡◌, ◌++◌, codes, OnErr, OnOk};
ghost use Rattle.std.specs.Fmt.{decimal};
ghost use Rattle.etcs_packet_text.specs.Fronts.{Begins};

use etcs_packet_text::inner::Page;
use std::alloc::AllocError;

/// Appends `item ` and the number, with which the line of an item begins.
///
/// # Errors
///
/// `AllocError` if out of memory. The page then begins with what was there; what else it has isn't promised.
pub fn write_item_number(item: u64, page: &mut Page) -> Result<(), AllocError>
    ensures ok { OnOk result (page.new ≡ page.old ++ (codes "item " ++ decimal item)) }
    ensures err { OnErr result (Begins page.old page.new) }
{
    page.put(b"item ")?;
    page.put_decimal(item)
}
