//! Places of variables.

ghost use Rattle.std.specs.Prelude.{◌≡◌};
ghost use Rattle.etcs_places.specs.Places.{in_entry};

/// Where a variable of an item is.
#[derive(Clone, Copy, Debug, PartialEq, Eq)]
pub struct Place {
    /// Which packet it is of, counted from 1 in the order of sending, packet 255 of a telegram among them. 0 if it is of
    /// none: of a header, of a message's own variables, of the bits of a message that is kept, FILL, PADDING or PAD.
    pub packet: usize,
    /// Which entry of a repeated group it is in, counted from 1. 0 if it is in none.
    pub entry: usize,
    /// Which entry of a repeated group inside that one, counted from 1. 0 if it is in none.
    pub inner: usize,
}

impl Place {
    /// Outside of packets and groups.
    pub(crate) const OUTSIDE: Place = Place {
        packet: 0,
        entry: 0,
        inner: 0,
    };

    /// The place of this entry of a group that is here.
    pub(crate) fn entry(self, entry: usize) -> Place
        ensures { result ≡ in_entry self entry }
    {
        if self.entry == 0 {
            Place { entry, ..self }
        } else {
            Place {
                inner: entry,
                ..self
            }
        }
    }
}
