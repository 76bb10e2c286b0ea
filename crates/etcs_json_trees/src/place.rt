//! Places in the tree of an item.

ghost use Rattle.std.specs.Prelude.{◌≡◌, ◌+◌, [], IsTrue, MatchBool, MatchOption, min};
ghost use Rattle.serde_json.specs.Data.{Items, Members, array, object, string};
ghost use Rattle.etcs_json_trees.specs.Fits.{Fits};
ghost use Rattle.etcs_json_trees.specs.Places.{is_object, items_place, limit, member_place};

/// What may be at a place in the tree of an item: an object at `Item` and `Packet`, a list at `Own`, `Packets`, `Pairs` and
/// `Pair`, a number or a text at `Scalar`.
#[derive(Clone, Copy, Debug, PartialEq, Eq)]
pub enum Place {
    /// An item: an object.
    Item,
    /// The list of the pairs of a header, or of those that a message has in addition to packets.
    Own,
    /// A list of packets.
    Packets,
    /// A packet: an object.
    Packet,
    /// The list of the pairs of a packet.
    Pairs,
    /// A pair: a list of a name and a number.
    Pair,
    /// A number or a text.
    Scalar,
}

/// What an object weighs without its members.
const OBJECT: usize = 16;

impl Place {
    /// How much a value may weigh here.
    pub(crate) fn limit(self) -> usize
        ensures { result ≡ limit self }
    {
        match self {
            Place::Item => 32768,
            Place::Own => 256,
            _ => 24576,
        }
    }

    /// How much a value may weigh here if its object has this room.
    pub(crate) fn room(self, room: usize) -> usize
        ensures { result ≡ min room (limit self) }
    {
        room.min(self.limit())
    }

    /// Whether a number or a text may be here, with this room.
    pub(crate) fn admits_scalar(self, room: usize) -> bool
        ensures { MatchBool result (Fits self room (string [])) (Fits self room (string []) → ⊥) }
    {
        self == Place::Scalar && room > 0
    }

    /// The place of the items of a list with this room, and the room for them; `None` if no list fits here.
    pub(crate) fn list(self, room: usize) -> Option<(Place, usize)>
        ensures { MatchOption result ((ds : Items) → Fits self room (array ds) → ⊥)
            (λ p. (items_place self ≡ Some p.0) × (1 + p.1 ≡ room)) }
    {
        Some((self.items()?, room.checked_sub(1)?))
    }

    /// The place of the items of a list; `None` if no list may be here.
    fn items(self) -> Option<Place>
        ensures { result ≡ items_place self }
    {
        match self {
            Place::Packets => Some(Place::Packet),
            Place::Own | Place::Pairs => Some(Place::Pair),
            Place::Pair => Some(Place::Scalar),
            _ => None,
        }
    }

    /// The room for the members of an object with this room; `None` if no object fits here.
    pub(crate) fn object(self, room: usize) -> Option<usize>
        ensures { MatchOption result ((ms : Members) → Fits self room (object ms) → ⊥)
            (λ left. IsTrue (is_object self) × (16 + left ≡ room)) }
    {
        if !self.is_object() || room < OBJECT {
            return None;
        }
        Some(room - OBJECT)
    }

    /// Whether an object may be here.
    fn is_object(self) -> bool
        ensures { result ≡ is_object self }
    {
        matches!(self, Place::Item | Place::Packet)
    }

    /// The place of an object's member of this name; `None` if there may be no such member.
    pub(crate) fn member(self, name: &str) -> Option<Place>
        ensures { result ≡ member_place self name.now }
    {
        match self {
            Place::Item => of_item(name),
            Place::Packet => of_packet(name),
            _ => None,
        }
    }
}

/// The place of an item's member of this name; `None` if an item has no such member.
fn of_item(name: &str) -> Option<Place>
    ensures { result ≡ member_place Place.Item name.now }
{
    match name {
        "data" => Some(Place::Scalar),
        "fields" => Some(Place::Own),
        "fill" => Some(Place::Scalar),
        "header" => Some(Place::Own),
        "kind" => Some(Place::Scalar),
        "nid" => Some(Place::Scalar),
        "packets" => Some(Place::Packets),
        "padding" => Some(Place::Scalar),
        _ => None,
    }
}

/// The place of a packet's member of this name; `None` if a packet has no such member.
fn of_packet(name: &str) -> Option<Place>
    ensures { result ≡ member_place Place.Packet name.now }
{
    match name {
        "data" => Some(Place::Scalar),
        "dir" => Some(Place::Scalar),
        "fields" => Some(Place::Pairs),
        "nid" => Some(Place::Scalar),
        _ => None,
    }
}
