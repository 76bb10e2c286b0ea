//! Which numbers may come next of packets.

ghost use Rattle.std.specs.Prelude.{◌≡◌, Some};
ghost use Rattle.etcs_vars.specs.declared.var.Var.{Var};
ghost use Rattle.etcs_reader.specs.Rests.{Goes};
ghost use Rattle.etcs_rows.specs.Causes.{IsAt, Exactly};
ghost use Rattle.etcs_sequence.specs.Lefts.{next_of, left_of};

use crate::stage::Stage;
use crate::state::PacketsState;
use etcs_rows::Here;

impl PacketsState {
    /// What comes next of the packets, as far as it says which numbers may: exactly those, of the variable that comes next,
    /// with which the packets can go on.
    pub fn here(&self) -> Here
        ensures at { (x : Var) → next_of self.now.stage ≡ Some x → IsAt result x }
        ensures exactly { (x : Var) → next_of self.now.stage ≡ Some x → Goes (left_of self.now.carrier self.now.room self.now.stage) → Exactly (left_of self.now.carrier self.now.room self.now.stage) x result }
    {
        match &self.stage {
            Stage::Number => Here::PacketNumber(self.carrier, self.room),
            Stage::Marker => Here::Any,
            Stage::Direction(_) => Here::Any,
            Stage::Length(nid, _) => Here::PacketLength(self.carrier, *nid, self.room),
            Stage::Row(nid, _, row) => row.here(*nid),
            Stage::Kept(_, _, _) => Here::Any,
            Stage::Closed => Here::Any,
        }
    }
}
