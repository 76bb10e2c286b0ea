//! How the state of a group is written: complete, missing or empty.

ghost use Rattle.std.specs.Prelude.{◌≡◌, ◌++◌, ℕ, List, OnErr, OnOk};
ghost use Rattle.std.specs.Fmt.{decimal};
ghost use Rattle.etcs_packet_text.specs.Fronts.{Begins};
ghost use Rattle.etcs_group.specs.GroupLines.{StateText, positions_text, trues};

use crate::assembly::Assembly;
use etcs_packet_text::inner::Page;
use std::alloc::AllocError;

/// Appends whether the group is complete (` complete`), which positions are missing (` missing 1 2`), or that nothing
/// is held (` empty`).
///
/// # Errors
///
/// `AllocError` if out of memory. A part of the text may then be in the page, after what was there.
#[tactic(auto, using(etcs_packet_text::specs::laws::Fronts::begins_more))]
pub(crate) fn write_state(assembly: &Assembly, page: &mut Page) -> Result<(), AllocError>
    ensures ok { OnOk result ((text : List ℕ) × StateText assembly.now text × (page.new ≡ page.old ++ text)) }
    ensures err { OnErr result (Begins page.old page.new) }
{
    if assembly.is_complete() {
        return page.put(b" complete");
    }
    if assembly.first_held().is_none() {
        return page.put(b" empty");
    }
    page.put(b" missing")?;
    write_positions(&assembly.missing(), page)
}

/// Appends in decimal, in rising order, the positions at which the list is true, each after a blank.
///
/// # Errors
///
/// `AllocError` if out of memory. A part of the text may then be in the page, after what was there.
#[tactic(auto, using(etcs_packet_text::specs::laws::Fronts::begins_more))]
pub fn write_positions(marked: &[bool; 8], page: &mut Page) -> Result<(), AllocError>
    ensures ok { OnOk result (page.new ≡ page.old ++ positions_text (trues 8 marked.now)) }
    ensures err { OnErr result (Begins page.old page.new) }
{
    for position in 0..8 {
        if marked[position] {
            write_number(b" ", position as u64, page)?;
        }
    }
    Ok(())
}

/// Appends the bytes of `front` and a number in decimal after them.
///
/// # Errors
///
/// `AllocError` if out of memory. A part of the text may then be in the page, after what was there.
#[tactic(auto, using(etcs_packet_text::specs::laws::Fronts::begins_more))]
pub fn write_number(front: &[u8], number: u64, page: &mut Page) -> Result<(), AllocError>
    ensures ok { OnOk result (page.new ≡ page.old ++ (front.now ++ decimal number)) }
    ensures err { OnErr result (Begins page.old page.new) }
{
    page.put(front)?;
    page.put_decimal(number)
}
