//! The members of an object, which are in the order of their names.

ghost use Rattle.std.specs.Prelude.{◌≡◌, IfSome, IsSome};
ghost use Rattle.serde_json.specs.Data.{Data, Members, member, no_members, object, string};
ghost use Rattle.serde_json.specs.View.{members_view, view};

use crate::digits::is_text;
use serde_json::Value;
use std::collections::btree_map::Iter;

/// What is left of an object's members, in the order of their names. What is left after a call returned `None` isn't
/// promised.
#[derive(Drop)]
pub struct Rest<'a> {
    members: Iter<'a, String, Value>,
}

impl<'a> Rest<'a> {
    /// Returns all members of an object; `None` exactly if the value isn't one.
    pub fn of(value: &'a Value) -> Option<Rest<'a>>
        ensures some { IfSome result (λ s. view value.now ≡ object (members_view s.members)) }
        ensures none { (ms : Members) → view value.now ≡ object ms → IsSome result }
    {
        let map = value.as_object()?;
        Some(Rest {
            members: map.iter(),
        })
    }

    /// Takes the member that comes next and returns its value; `None` exactly if none is left or it has another name.
    pub fn next(&mut self, name: &str) -> Option<&'a Value>
        ensures some { IfSome result (λ v. members_view self.old.members ≡ member name.now (view v.now) (members_view self.new.members)) }
        ensures none { (d : Data) (ms : Members) → members_view self.old.members ≡ member name.now d ms → IsSome result }
    {
        let (found, value) = self.members.next()?;
        (found.as_str() == name).then_some(value)
    }

    /// Takes the member that comes next; `None` exactly if none is left, it has another name, or its value isn't this text.
    pub fn text(&mut self, name: &str, text: &str) -> Option<()>
        ensures some { IfSome result (λ _. members_view self.old.members ≡ member name.now (string text.now) (members_view self.new.members)) }
        ensures none { (ms : Members) → members_view self.old.members ≡ member name.now (string text.now) ms → IsSome result }
    {
        let value = self.next(name)?;
        if is_text(value, text) { Some(()) } else { None }
    }

    /// Takes the two members that come next and returns their values; `None` exactly if they don't have these names.
    pub fn two(&mut self, first: &str, second: &str) -> Option<(&'a Value, &'a Value)>
        ensures some { IfSome result (λ v. members_view self.old.members ≡ member first.now (view v.0.now) (member second.now (view v.1.now) (members_view self.new.members))) }
        ensures none { (d e : Data) (ms : Members) → members_view self.old.members ≡ member first.now d (member second.now e ms) → IsSome result }
    {
        let one = self.next(first)?;
        let other = self.next(second)?;
        Some((one, other))
    }

    /// Returns the value of the member that comes next and is the last; `None` exactly if it has another name, or isn't the
    /// only one left.
    pub fn last(&mut self, name: &str) -> Option<&'a Value>
        ensures some { IfSome result (λ v. members_view self.old.members ≡ member name.now (view v.now) no_members) }
        ensures none { (d : Data) → members_view self.old.members ≡ member name.now d no_members → IsSome result }
    {
        let value = self.next(name)?;
        match self.members.next() {
            Some(_) => None,
            None => Some(value),
        }
    }

    /// Returns the values of the last two members; `None` exactly if they don't have these names, or aren't the only
    /// two left.
    pub fn last_two(&mut self, first: &str, second: &str) -> Option<(&'a Value, &'a Value)>
        ensures some { IfSome result (λ v. members_view self.old.members ≡ member first.now (view v.0.now) (member second.now (view v.1.now) no_members)) }
        ensures none { (d e : Data) → members_view self.old.members ≡ member first.now d (member second.now e no_members) → IsSome result }
    {
        let one = self.next(first)?;
        let other = self.last(second)?;
        Some((one, other))
    }
}
