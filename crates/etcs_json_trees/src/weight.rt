//! What values weigh.

ghost use Rattle.std.specs.Prelude.{◌≡◌, ◌+◌, ◌<◌, MatchBool, MatchOption};
ghost use Rattle.serde_json.specs.View.{items_view, members_view, view};
ghost use Rattle.etcs_json_trees.specs.Fits.{items_weight, members_weight, weight};
ghost use Rattle.etcs_json_trees.specs.Found.{HasNull};

use serde_json::{Map, Value};

/// The room that the value leaves; `None` if the value is heavier than the room.
#[cycle(spend)]
pub(crate) fn spend(value: &Value, room: usize) -> Option<usize>
    ensures { MatchOption result (room < weight (view value.now)) (λ left. weight (view value.now) + left ≡ room) }
{
    match value {
        Value::Array(items) => spend_items(items, room.checked_sub(1)?),
        Value::Object(members) => spend_members(members, room.checked_sub(16)?),
        _ => room.checked_sub(1),
    }
}

/// The room that the items of a list leave.
#[cycle(spend)]
fn spend_items(items: &Vec<Value>, room: usize) -> Option<usize>
    ensures { MatchOption result (room < items_weight (items_view items.now.items)) (λ left. items_weight (items_view items.now.items) + left ≡ room) }
{
    let mut left = room;
    for item in items {
        left = spend(item, left)?;
    }
    Some(left)
}

/// The room that the members of an object leave.
#[cycle(spend)]
pub(crate) fn spend_members(members: &Map<String, Value>, room: usize) -> Option<usize>
    ensures { MatchOption result (room < members_weight (members_view members.now.entries)) (λ left. members_weight (members_view members.now.entries) + left ≡ room) }
{
    let mut left = room;
    for (_, member) in members.iter() {
        left = spend(member, left)?;
    }
    Some(left)
}

/// Whether a member is null.
pub(crate) fn has_null(members: &Map<String, Value>) -> bool
    ensures { MatchBool result (HasNull (members_view members.now.entries)) (HasNull (members_view members.now.entries) → ⊥) }
{
    for (_, member) in members.iter() {
        if member.is_null() {
            return true;
        }
    }
    false
}
