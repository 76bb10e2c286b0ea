//! The lines of a balise group.

ghost use Rattle.std.specs.Prelude.{◌≡◌, ◌++◌, ℕ, List, codes, map, OnErr, OnOk};
ghost use Rattle.etcs_tables.specs.declared.row.Way.TheVariants.{ToTrain};
ghost use Rattle.etcs_packets.specs.PacketValues.{packet_value};
ghost use Rattle.etcs_packet_text.specs.Fronts.{Begins};
ghost use Rattle.etcs_packet_text.specs.Packets.{packets_text};
ghost use Rattle.std.specs.Fmt.{decimal};
ghost use Rattle.etcs_group.specs.GroupLines.{positions_text, trues};
ghost use Rattle.etcs_stream.specs.Groups.{LastLines, answer_line, answer_words, clash_name, group_front};

use etcs_group::inner::{group, write_number, write_positions};
use etcs_group::{Added, Assembly, Clash, GroupFault};
use etcs_packet_text::inner::{Page, write_packets};
use etcs_packets::Packet;
use etcs_text::inner::write_item_number;
use std::alloc::{AllocError, Global};

/// Appends the line that reports what the item of this number is to the group, or nothing.
///
/// # Errors
///
/// `AllocError` if out of memory.
pub(crate) fn answer_line(
    item: u64,
    answer: Result<Added, Clash>,
    page: &mut Page,
) -> Result<(), AllocError>
    ensures ok { OnOk result (page.new ≡ page.old ++ answer_line item answer) }
    ensures err { OnErr result (page.new ≡ page.old) }
{
    let len = page.len();
    let written = write_answer(item, answer, page);
    if written.is_err() {
        page.cut(len);
    }
    written
}

/// Appends the last lines of a run over a group, or nothing: that nothing is held; which positions are missing; or that
/// the group is whole, and the packets of its message.
///
/// # Errors
///
/// `AllocError` if out of memory.
pub(crate) fn last_lines(
    alloc: Global,
    assembly: &Assembly,
    page: &mut Page,
) -> Result<(), AllocError>
    ensures ok { OnOk result ((last : List ℕ) × LastLines assembly.now last × (page.new ≡ page.old ++ last)) }
    ensures err { OnErr result (page.new ≡ page.old) }
{
    let len = page.len();
    let written = write_last(alloc, assembly, page);
    if written.is_err() {
        page.cut(len);
    }
    written
}

/// The name of a clash.
fn name_of(clash: Clash) -> &'static str
    ensures { result.now ≡ clash_name clash }
{
    match clash {
        Clash::BadPosition => "BadPosition",
        Clash::BadDuplicate => "BadDuplicate",
        Clash::OtherGroup => "OtherGroup",
        Clash::OtherTotal => "OtherTotal",
        Clash::Counter => "Counter",
        Clash::Differs => "Differs",
    }
}

/// Appends the words for what a telegram is to the group.
#[tactic(auto, using(etcs_packet_text::specs::laws::Fronts::begins_more))]
fn write_words(answer: Result<Added, Clash>, page: &mut Page) -> Result<(), AllocError>
    ensures ok { OnOk result (page.new ≡ page.old ++ answer_words answer) }
    ensures err { OnErr result (Begins page.old page.new) }
{
    match answer {
        Ok(Added::New) => page.put(b"new"),
        Ok(Added::Repeat) => page.put(b"repeat"),
        Err(clash) => {
            page.put(b"clash ")?;
            page.put(name_of(clash).as_bytes())
        }
    }
}

/// Appends the line for what a telegram is to the group.
#[tactic(auto, using(etcs_packet_text::specs::laws::Fronts::begins_more))]
fn write_answer(item: u64, answer: Result<Added, Clash>, page: &mut Page) -> Result<(), AllocError>
    ensures ok { OnOk result (page.new ≡ page.old ++ answer_line item answer) }
    ensures err { OnErr result (Begins page.old page.new) }
{
    write_item_number(item, page)?;
    page.put(b" ")?;
    write_words(answer, page)?;
    page.put(b"\n")
}

/// Appends NID_C and NID_BG of a group.
#[tactic(auto, using(etcs_packet_text::specs::laws::Fronts::begins_more))]
fn write_group(country: u16, group: u16, page: &mut Page) -> Result<(), AllocError>
    ensures ok { OnOk result (page.new ≡ page.old ++ group_front country group) }
    ensures err { OnErr result (Begins page.old page.new) }
{
    write_number(b"group ", country as u64, page)?;
    write_number(b" ", group as u64, page)
}

/// Appends the end of the line of a whole group, and the packets of its message.
#[tactic(auto, using(etcs_packet_text::specs::laws::Fronts::begins_more))]
fn write_complete(packets: &[Packet], page: &mut Page) -> Result<(), AllocError>
    ensures ok { OnOk result (page.new ≡ page.old ++ (codes " complete\n" ++ packets_text ToTrain (map packet_value packets.now))) }
    ensures err { OnErr result (Begins page.old page.new) }
{
    page.put(b" complete\n")?;
    write_packets(packets, page)
}

/// Appends the end of the line of a group that isn't whole.
#[tactic(auto, using(etcs_packet_text::specs::laws::Fronts::begins_more))]
fn write_lacking(missing: &[bool; 8], page: &mut Page) -> Result<(), AllocError>
    ensures ok { OnOk result (page.new ≡ page.old ++ (codes " missing" ++ positions_text (trues 8 missing.now) ++ codes "\n")) }
    ensures err { OnErr result (Begins page.old page.new) }
{
    page.put(b" missing")?;
    write_positions(missing, page)?;
    page.put(b"\n")
}

/// Appends the last lines.
#[tactic(auto, using(etcs_packet_text::specs::laws::Fronts::begins_more))]
fn write_last(alloc: Global, assembly: &Assembly, page: &mut Page) -> Result<(), AllocError>
    ensures ok { OnOk result ((last : List ℕ) × LastLines assembly.now last × (page.new ≡ page.old ++ last)) }
    ensures err { OnErr result (Begins page.old page.new) }
{
    let Some((country, group)) = group(assembly) else {
        return page.put(b"group empty\n");
    };
    write_group(country, group, page)?;
    match assembly.message(alloc) {
        Ok(packets) => write_complete(packets.as_slice(), page),
        Err(GroupFault::NotWhole) => write_lacking(&assembly.missing(), page),
        Err(GroupFault::Memory) => Err(AllocError),
    }
}
