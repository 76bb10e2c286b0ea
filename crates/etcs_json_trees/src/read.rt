//! Reading values: only those that an item may have at their place are made.

ghost use Rattle.std.specs.Prelude.{◌≡◌, ◌≤◌, ◌<◌, ◌⊎◌, ◌++◌, [], ◌∷◌, Err, IfOk, MatchOption, None, OnOk, length, option_map};
ghost use Rattle.json.specs.Json.{parse_map};
ghost use Rattle.serde_json.specs.Data.{array, object, put};
ghost use Rattle.serde_json.specs.View.{items_view, members_view, view};
ghost use Rattle.etcs_json_trees.specs.Fits.{Fits, ItemsFit, MembersFit, members_weight};
ghost use Rattle.etcs_json_trees.specs.Found.{Finds, FindsMember, HasNull, first_items, first_members, first_value};

use crate::fault::Fault;
use crate::number::number;
use crate::place::Place;
use crate::skip::{skip, skip_items, skip_members};
use crate::weight::{has_null, spend, spend_members};
use json::{Reader, Token};
use serde_json::{Map, Value};
use std::alloc::{AllocError, Global};

/// Reads the next value, in which lists and objects nest at most `depth` deep: `None` if it doesn't fit its place and room.
#[cycle(read)]
pub(crate) fn read(
    alloc: Global,
    reader: &mut Reader<'_>,
    depth: usize,
    place: Place,
    room: usize,
) -> Result<Option<Value>, Fault>
    ensures ok { IfOk result (λ o. Finds (first_value depth reader.old) (Fits place room) (option_map view o) reader.new) }
    ensures shorter { OnOk result (length reader.new < length reader.old) }
    ensures err { result ≡ Err Fault.Invalid → first_value depth reader.old ≡ None }
{
    let token = reader.next().ok_or(Fault::Invalid)?;
    match token {
        Token::String(text) => {
            if !place.admits_scalar(room) {
                return Ok(None);
            }
            Ok(Some(Value::String(String::from_str(alloc, text)?)))
        }
        Token::Number(text) => {
            let Some(found) = number(text) else {
                return Err(Fault::Invalid);
            };
            if !place.admits_scalar(room) {
                return Ok(None);
            }
            Ok(Some(Value::Number(found)))
        }
        Token::Bool(_) => Ok(None),
        Token::Null => Ok(None),
        Token::EndObject | Token::EndArray | Token::Key(_) | Token::Bad => Err(Fault::Invalid),
        Token::BeginArray => {
            let inner = depth.checked_sub(1).ok_or(Fault::Invalid)?;
            read_array(alloc, reader, inner, place, room)
        }
        Token::BeginObject => {
            let inner = depth.checked_sub(1).ok_or(Fault::Invalid)?;
            read_object(alloc, reader, inner, place, room)
        }
    }
}

/// Reads the list whose bracket was taken.
#[cycle(read)]
fn read_array(
    alloc: Global,
    reader: &mut Reader<'_>,
    depth: usize,
    place: Place,
    room: usize,
) -> Result<Option<Value>, Fault>
    ensures ok { IfOk result (λ o. Finds (parse_map array (first_items depth reader.old)) (Fits place room) (option_map view o) reader.new) }
    ensures shorter { OnOk result (length reader.new < length reader.old) }
    ensures err { result ≡ Err Fault.Invalid → first_items depth reader.old ≡ None }
{
    let Some((inner, left)) = place.list(room) else {
        skip_items(reader, depth)?;
        return Ok(None);
    };
    Ok(read_items(alloc, reader, depth, inner, left)?.map(Value::Array))
}

/// Reads the items of a list.
#[cycle(read)]
fn read_items(
    alloc: Global,
    reader: &mut Reader<'_>,
    depth: usize,
    place: Place,
    room: usize,
) -> Result<Option<Vec<Value>>, Fault>
    ensures ok { IfOk result (λ o. Finds (first_items depth reader.old) (ItemsFit place room) (option_map (λ v. items_view v.items) o) reader.new) }
    ensures shorter { OnOk result (length reader.new < length reader.old) }
    ensures err { result ≡ Err Fault.Invalid → first_items depth reader.old ≡ None }
{
    let mut found = Vec::new(alloc);
    let mut left = room;
    'items: while !reader.take_end_array() {
        let Some(item) = read(alloc, reader, depth, place, left)? else {
            skip_items(reader, depth)?;
            return Ok(None);
        };
        let Some(rest) = spend(&item, left) else {
            unreachable!()
        };
        left = rest;
        add(&mut found, item)?;
    }
    Ok(Some(found))
}

/// Adds an item. The first room is for two, as many as a pair has.
fn add(found: &mut Vec<Value>, item: Value) -> Result<(), AllocError>
    ensures { OnOk result (found.new.items ≡ found.old.items ++ item ∷ []) }
{
    if found.is_empty() {
        found.reserve_exact(2)?;
    }
    found.push(item)?;
    Ok(())
}

/// Reads the object whose brace was taken.
#[cycle(read)]
fn read_object(
    alloc: Global,
    reader: &mut Reader<'_>,
    depth: usize,
    place: Place,
    room: usize,
) -> Result<Option<Value>, Fault>
    ensures ok { IfOk result (λ o. Finds (parse_map object (first_members depth reader.old)) (Fits place room) (option_map view o) reader.new) }
    ensures shorter { OnOk result (length reader.new < length reader.old) }
    ensures err { result ≡ Err Fault.Invalid → first_members depth reader.old ≡ None }
{
    let Some(left) = place.object(room) else {
        skip_members(reader, depth)?;
        return Ok(None);
    };
    Ok(read_members(alloc, reader, depth, place, left)?.map(Value::Object))
}

/// Reads the members of an object. One that doesn't fit is null until its name comes again.
#[cycle(read)]
fn read_members(
    alloc: Global,
    reader: &mut Reader<'_>,
    depth: usize,
    place: Place,
    room: usize,
) -> Result<Option<Map<String, Value>>, Fault>
    ensures ok { IfOk result (λ o. Finds (first_members depth reader.old) (MembersFit place room) (option_map (λ m. members_view m.entries) o) reader.new) }
    ensures shorter { OnOk result (length reader.new < length reader.old) }
    ensures err { result ≡ Err Fault.Invalid → first_members depth reader.old ≡ None }
{
    let mut found = Map::new(alloc);
    'members: while let Some(name) = reader.next_key()? {
        let Some(inner) = place.member(name) else {
            skip(reader, depth)?;
            skip_members(reader, depth)?;
            return Ok(None);
        };
        let left = inner.room(room);
        read_member(alloc, reader, depth, inner, left, &mut found, name)?;
    }
    Ok(finished(found, room))
}

/// Reads the value of the member of this name, which is null until then.
#[cycle(read)]
fn read_member(
    alloc: Global,
    reader: &mut Reader<'_>,
    depth: usize,
    place: Place,
    room: usize,
    found: &mut Map<String, Value>,
    name: &str,
) -> Result<(), Fault>
    ensures ok { OnOk result (FindsMember place room name.now (first_value depth reader.old) reader.new (members_view found.old.entries) (members_view found.new.entries)) }
    ensures shorter { OnOk result (length reader.new < length reader.old) }
    ensures err { result ≡ Err Fault.Invalid → first_value depth reader.old ≡ None }
{
    set(alloc, found, name, Value::Null)?;
    if let Some(member) = read(alloc, reader, depth, place, room)? {
        set(alloc, found, name, member)?;
    }
    Ok(())
}

/// Sets the member of this name.
fn set(
    alloc: Global,
    found: &mut Map<String, Value>,
    name: &str,
    value: Value,
) -> Result<(), AllocError>
    ensures { OnOk result (members_view found.new.entries ≡ put name.now (view value) (members_view found.old.entries)) }
{
    let key = String::from_str(alloc, name)?;
    drop(found.insert(key, value)?);
    Ok(())
}

/// The members, if none is null and they fit the room.
fn finished(found: Map<String, Value>, room: usize) -> Option<Map<String, Value>>
    ensures { let ms = members_view found.entries in MatchOption result (HasNull ms ⊎ (room < members_weight ms)) (λ m. (members_view m.entries ≡ ms) × (HasNull ms → ⊥) × (members_weight ms ≤ room)) }
{
    if has_null(&found) || spend_members(&found, room).is_none() {
        return None;
    }
    Some(found)
}
