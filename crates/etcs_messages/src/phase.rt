//! What comes next in a message.

ghost use Rattle.std.specs.Prelude.{◌≡◌, List, Some, length, drop, option_map, slice_get};
ghost use Rattle.etcs_vars.specs.declared.var.Var.{Var};
ghost use Rattle.etcs_reader.specs.Fields.{first_of};
ghost use Rattle.etcs_tables.specs.MessageRows.{header_bits};
ghost use Rattle.etcs_messages.specs.Lefts.{front_row, front_bits, var_of};

use etcs_tables::{Row, RowItem, Way, head_row, message_bits, message_row};
use etcs_vars::Var;

/// What comes next in a message.
#[derive(Clone, Copy, Debug, PartialEq, Eq)]
pub(crate) enum Phase {
    /// NID_MESSAGE.
    Number,
    /// L_MESSAGE.
    Length,
    /// The variable at this place of those between L_MESSAGE and the packets.
    Front(usize),
    /// Packets.
    Packets,
    /// PADDING, with this many bits left.
    Padding(usize),
    /// OTHER_DATA of a message that is kept, with this many bits left.
    Data(usize),
    /// Nothing.
    Whole,
}

/// How many bits the header of a typed message has.
pub(crate) fn header_bits(way: Way) -> usize
    ensures { result ≡ header_bits way }
{
    match way {
        Way::ToTrain => 75,
        Way::ToTrack => 74,
    }
}

/// How many variables are between L_MESSAGE and the packets of a message of this number (SUBSET-026, 8).
/// `None` if the number isn't typed.
pub(crate) fn front_count(way: Way, nid: u8) -> Option<usize>
    ensures { result ≡ option_map length (front_row way nid) }
{
    let row = message_row(way, nid)?;
    Some(head_row(way).items.len() + row.items.len())
}

/// How many bits come before the packets of a message of this number. `None` if the number isn't typed.
pub(crate) fn front_bits(way: Way, nid: u8) -> Option<usize>
    ensures { result ≡ option_map front_bits (front_row way nid) }
{
    let own = message_bits(way, nid)?;
    Some(header_bits(way) + own)
}

/// The variable at a place of a row. `None` if no variable is there.
fn var_at(row: Row, at: usize) -> Option<Var>
    ensures { result ≡ var_of (slice_get row.items.now at) }
{
    match row.items.get(at) {
        Some(RowItem::One(var)) => Some(*var),
        _ => None,
    }
}

/// The variable at a place of those between L_MESSAGE and the packets.
pub(crate) fn front_var(way: Way, nid: u8, at: usize) -> Option<Var>
    ensures { (vars : List Var) → front_row way nid ≡ Some vars → result ≡ first_of (drop at vars) }
{
    let head = head_row(way);
    let count = head.items.len();
    if at < count {
        return var_at(head, at);
    }
    var_at(message_row(way, nid)?, at - count)
}
