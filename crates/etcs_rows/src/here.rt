//! What comes next of an item, as far as it says which numbers may.

ghost use Rattle.std.specs.Prelude.{◌≡◌, Some};
ghost use Rattle.etcs_vars.specs.declared.var.Var.{Var};
ghost use Rattle.etcs_tables.specs.Layouts.{ReadsIn};
ghost use Rattle.etcs_rows.specs.Places.{first_variable};
ghost use Rattle.etcs_rows.specs.Causes.{Exactly};

use crate::frames::Carrier;
use crate::place::Place;
use crate::rest::RowRest;
use etcs_tables::Way;

/// What comes next of an item, as far as it says which numbers may.
#[derive(Debug, Drop)]
pub enum Here {
    /// A variable with any number that it admits.
    Any,
    /// L_MESSAGE of a message this way and of this number.
    MessageLength(Way, u8),
    /// NID_PACKET where this many bits are left.
    PacketNumber(Carrier, usize),
    /// L_PACKET of a packet of this number where this many bits are left, counted from the packet's first bit.
    PacketLength(Carrier, u8, usize),
    /// A variable of the row of a packet of this number, of which this is left in this many bits.
    Row(u8, Place, usize),
}

impl Here {
    /// The same once more.
    pub fn copied(&self) -> Here
        ensures { result ≡ self.now }
    {
        match self {
            Here::Any => Here::Any,
            Here::MessageLength(way, nid) => Here::MessageLength(*way, *nid),
            Here::PacketNumber(carrier, room) => Here::PacketNumber(*carrier, *room),
            Here::PacketLength(carrier, nid, room) => Here::PacketLength(*carrier, *nid, *room),
            Here::Row(nid, place, len) => Here::Row(*nid, place.copied(), *len),
        }
    }
}

impl RowRest {
    /// What comes next of the row, which is that of a packet of this number, as far as it says which numbers may: exactly
    /// those, of the variable that comes next, with which the row can go on to its end.
    pub fn here(&self, nid: u8) -> Here
        ensures value { result ≡ Here.Row nid self.now.place self.now.len }
        ensures exactly { (x : Var) → first_variable self.now.place ≡ Some x → Exactly (ReadsIn self.now.place self.now.len) x result }
    {
        Here::Row(nid, self.place.copied(), self.len)
    }
}
