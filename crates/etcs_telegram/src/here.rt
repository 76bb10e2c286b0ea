//! Which numbers may come next of a telegram.

use crate::phase::Phase;
use crate::rest::TelegramRest;
use etcs_rows::{Expects, Here};
use etcs_sequence::PacketStore;

impl<S: PacketStore + Drop> Expects for TelegramRest<S> {
    fn here(&self) -> Here {
        match self.phase {
            Phase::Header(_) => Here::Any,
            Phase::Packets => self.packets.left.here(),
            Phase::Fill(_) => Here::Any,
            Phase::Pad(_) => Here::Any,
            Phase::Whole => Here::Any,
        }
    }
}
