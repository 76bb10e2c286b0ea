//! What is left of packets in a room of bits.

ghost use Rattle.std.specs.Prelude.{◌≡◌, ◌↔◌, ◌-◌, ◌^◌, ◌<◌, ◌≤◌, [], ◌∷◌, Some, None, true, false, Bool, List, length, IsTrue};
ghost use Rattle.etcs_vars.specs.declared.var.Var.TheVariants.{NID_PACKET, NID_VBCMK, Q_DIR, L_PACKET, OTHER_DATA};
ghost use Rattle.etcs_vars.specs.Vars.{width};
ghost use Rattle.etcs_vars.specs.Reading.{Reading, kept, numbers};
ghost use Rattle.etcs_vars.proofs.Languages.{Same};
ghost use Rattle.etcs_tables.specs.Layouts.{layout, ReadsIn};
ghost use Rattle.etcs_tables.specs.Rows.{row_to};
ghost use Rattle.etcs_tables.specs.Frames.{is_kept};
ghost use Rattle.etcs_rows.specs.Frames.{way_of};
ghost use Rattle.etcs_sequence.specs.Contents.{PacketsIn};
ghost use Rattle.etcs_reader.specs.Rests.{Goes, Starts};
ghost use Rattle.etcs_rows.specs.declared.rest.RowRest.{RowRest};
ghost use Rattle.etcs_rows.specs.Walks.{Follows};
ghost use Rattle.etcs_sequence.specs.Lefts.{next_of, after_framed, left_of, ahead, is_stage, keeps_at, Here, After, Becomes};

use crate::stage::{Event, Keep, Stage};
use etcs_reader::Rest;
use etcs_rows::inner::{Carrier, MOST_PADDING, RowRest, length_fits, number_fits};
use etcs_tables::{CLOSING, CLOSING_BITS, MARKER_BITS, Row, Way, frame_bits, is_framed, row_of};
use etcs_vars::{Var, begins};

/// What is left of packets one after another in a room of this many bits, up to packet 255 in a telegram
/// and to the padding in a message.
#[derive(Drop)]
pub struct PacketsState {
    pub carrier: Carrier,
    /// How many bits of the room are left, counted from the first bit of the packet that is being read. Once its length
    /// is known, those after that packet.
    pub room: usize,
    pub stage: Stage,
    pub ghost small: { room ≤ 8191 },
    pub ghost stands: { IsTrue (is_stage carrier room stage) },
}

/// What comes after a packet.
fn after_packet(carrier: Carrier, room: usize) -> Stage
    ensures stage { IsTrue (is_stage carrier room result) }
    ensures ahead { ahead carrier room result ≡ room }
    ensures same { Same (left_of carrier room result) (PacketsIn carrier room) }
    ensures here { Here carrier result [] [] [] }
{
    match carrier {
        Carrier::Telegram => Stage::Number,
        Carrier::Message(_) => {
            if room <= MOST_PADDING {
                Stage::Closed
            } else {
                Stage::Number
            }
        }
    }
}

/// What comes after the number of a packet that has a frame.
#[inline]
fn after_framed(way: Way, nid: u8) -> Stage
    ensures { result ≡ after_framed way nid }
{
    match way {
        Way::ToTrain => Stage::Direction(nid),
        Way::ToTrack => Stage::Length(nid, 0),
    }
}

impl PacketsState {
    ghost use Rattle.etcs_sequence.specs.Leaps.{IsFrontOf, Moves, RowBecomes, KeptBecomes};

    /// All packets of a room of this many bits.
    pub(crate) fn new(carrier: Carrier, room: usize) -> PacketsState
        requires small { room ≤ 8191 }
        ensures carrier { result.carrier ≡ carrier }
        ensures ahead { ahead result.carrier result.room result.stage ≡ room }
        ensures left { Same (left_of result.carrier result.room result.stage) (PacketsIn carrier room) }
        ensures here { Here carrier result.stage [] [] [] }
    {
        PacketsState {
            carrier,
            room,
            stage: after_packet(carrier, room),
        }
    }

    /// The variable that comes next.
    #[inline]
    pub(crate) fn var(&self) -> Option<Var>
        ensures { result ≡ next_of self.now.stage }
    {
        match &self.stage {
            Stage::Number => Some(Var::NID_PACKET),
            Stage::Marker => Some(Var::NID_VBCMK),
            Stage::Direction(_) => Some(Var::Q_DIR),
            Stage::Length(_, _) => Some(Var::L_PACKET),
            Stage::Row(_, _, row) => row.var(),
            Stage::Kept(_, _, _) => Some(Var::OTHER_DATA),
            Stage::Closed => None,
        }
    }

    /// Whether NID_PACKET comes next.
    #[inline]
    pub(crate) fn is_at_number(&self) -> bool
        ensures { IsTrue result ↔ (self.now.stage ≡ Stage.Number) }
    {
        match &self.stage {
            Stage::Number => true,
            _ => false,
        }
    }

    /// Where the number of the variable that comes next is kept.
    pub(crate) fn keeps(&self) -> Keep
        ensures { result ≡ keeps_at self.now.stage }
    {
        match &self.stage {
            Stage::Row(_, _, _) => Keep::Number,
            Stage::Kept(_, _, _) => Keep::Bit,
            _ => Keep::Nothing,
        }
    }

    /// Whether the packets can continue with some number of the variable that comes next whose first bits these are,
    /// with `rest` bits more after them.
    #[inline(always)]
    pub(crate) fn begins(&self, var: Var, rest: usize, number: u64) -> bool
        requires next { next_of self.now.stage ≡ Some var }
        requires rest { rest < width var }
        requires fits { number < 2 ^ (width var - rest) }
        requires goes { Goes (left_of self.now.carrier self.now.room self.now.stage) }
        ensures { IsTrue result ↔ Starts (left_of self.now.carrier self.now.room self.now.stage) var rest number }
    {
        match &self.stage {
            Stage::Number => number_fits(self.carrier, self.room, rest, number),
            Stage::Marker => begins(Var::NID_VBCMK.ranges(), rest, number),
            Stage::Direction(_) => begins(Var::Q_DIR.ranges(), rest, number),
            Stage::Length(nid, _) => length_fits(self.carrier, *nid, self.room, rest, number),
            Stage::Row(_, _, row) => row.begins(var, rest, number),
            Stage::Kept(_, _, _) => true,
            Stage::Closed => unreachable!(),
        }
    }

    /// Whether packet 255 may come next.
    #[inline]
    pub(crate) fn may_close(&self) -> bool
        requires stage { self.now.stage ≡ Stage.Number }
        ensures { IsTrue result → Starts (left_of self.now.carrier self.now.room self.now.stage) NID_PACKET 0 255 }
    {
        match self.carrier {
            Carrier::Telegram => self.room >= CLOSING_BITS,
            Carrier::Message(_) => false,
        }
    }

    /// After NID_PACKET.
    pub(crate) fn pass_number(&mut self, number: u64)
        requires stage { self.old.stage ≡ Stage.Number }
        requires goes { Starts (left_of self.old.carrier self.old.room self.old.stage) NID_PACKET 0 number }
        ensures moved { Moves self.old ((NID_PACKET, number) ∷ []) self.new }
        ensures here { Becomes self.old.carrier self.old.stage NID_PACKET number Event.More self.new.stage }
    {
        let nid = number as u8;
        let way = self.carrier.way();
        if is_framed(way, nid) {
            self.stage = after_framed(way, nid);
            return;
        }
        if nid == CLOSING {
            self.room -= CLOSING_BITS;
            self.stage = Stage::Closed;
            return;
        }
        self.stage = Stage::Marker;
    }

    /// After NID_VBCMK.
    fn pass_marker(&mut self, number: u64)
        requires stage { self.old.stage ≡ Stage.Marker }
        requires goes { Starts (left_of self.old.carrier self.old.room self.old.stage) NID_VBCMK 0 number }
        ensures moved { Moves self.old ((NID_VBCMK, number) ∷ []) self.new }
        ensures here { Becomes self.old.carrier self.old.stage NID_VBCMK number (Event.Marker number) self.new.stage }
    {
        self.room -= MARKER_BITS;
        self.stage = after_packet(self.carrier, self.room);
    }

    /// After Q_DIR.
    fn pass_direction(&mut self, nid: u8, number: u64)
        requires stage { self.old.stage ≡ Stage.Direction nid }
        requires goes { Starts (left_of self.old.carrier self.old.room self.old.stage) Q_DIR 0 number }
        ensures moved { Moves self.old ((Q_DIR, number) ∷ []) self.new }
        ensures here { Becomes self.old.carrier self.old.stage Q_DIR number Event.More self.new.stage }
    {
        self.stage = Stage::Length(nid, number as u8);
    }

    /// After L_PACKET of a typed packet.
    fn begin_row(&mut self, nid: u8, dir: u8, length: usize, row: Row) -> Event
        requires stage { self.old.stage ≡ Stage.Length nid dir }
        requires goes { Starts (left_of self.old.carrier self.old.room self.old.stage) L_PACKET 0 length }
        requires row { row_to (way_of self.old.carrier) nid ≡ Some (layout row.items.now) }
        ensures moved { Moves self.old ((L_PACKET, length) ∷ []) self.new }
        ensures here { Becomes self.old.carrier self.old.stage L_PACKET length result self.new.stage }
    {
        let left = RowRest::begin(row, length - frame_bits(self.carrier.way()));
        self.room -= length;
        if left.var().is_none() {
            self.stage = after_packet(self.carrier, self.room);
            return Event::Typed(nid, dir);
        }
        self.stage = Stage::Row(nid, dir, left);
        Event::More
    }

    /// After L_PACKET of a packet whose bits are kept.
    fn begin_kept(&mut self, nid: u8, dir: u8, length: usize) -> Event
        requires stage { self.old.stage ≡ Stage.Length nid dir }
        requires goes { Starts (left_of self.old.carrier self.old.room self.old.stage) L_PACKET 0 length }
        requires kept { IsTrue (is_kept (way_of self.old.carrier) nid) }
        ensures moved { Moves self.old ((L_PACKET, length) ∷ []) self.new }
        ensures here { Becomes self.old.carrier self.old.stage L_PACKET length result self.new.stage }
    {
        let bits = length - frame_bits(self.carrier.way());
        self.room -= length;
        if bits == 0 {
            self.stage = after_packet(self.carrier, self.room);
            return Event::Kept(nid, dir);
        }
        self.stage = Stage::Kept(nid, dir, bits);
        Event::More
    }

    /// After L_PACKET.
    fn pass_length(&mut self, nid: u8, dir: u8, number: u64) -> Event
        requires stage { self.old.stage ≡ Stage.Length nid dir }
        requires goes { Starts (left_of self.old.carrier self.old.room self.old.stage) L_PACKET 0 number }
        ensures moved { Moves self.old ((L_PACKET, number) ∷ []) self.new }
        ensures here { Becomes self.old.carrier self.old.stage L_PACKET number result self.new.stage }
    {
        match row_of(self.carrier.way(), nid) {
            Some(row) => self.begin_row(nid, dir, number as usize, row),
            None => self.begin_kept(nid, dir, number as usize),
        }
    }

    /// After a number of a row.
    fn pass_row(&mut self, nid: u8, dir: u8, var: Var, number: u64) -> Event
        requires next { next_of self.old.stage ≡ Some var }
        requires row { (row : RowRest) × (self.old.stage ≡ Stage.Row nid dir row) }
        requires goes { Starts (left_of self.old.carrier self.old.room self.old.stage) var 0 number }
        ensures moved { Moves self.old ((var, number) ∷ []) self.new }
        ensures here { Becomes self.old.carrier self.old.stage var number result self.new.stage }
    {
        let Stage::Row(_, _, row) = &mut self.stage else {
            unreachable!()
        };
        row.continue_with(var, number);
        if row.var().is_some() {
            return Event::More;
        }
        self.stage = after_packet(self.carrier, self.room);
        Event::Typed(nid, dir)
    }

    /// After several numbers of a row, of which this is left.
    pub(crate) fn pass_to(&mut self, nid: u8, dir: u8, left: RowRest) -> Event
        requires row { (row : RowRest) × (self.old.stage ≡ Stage.Row nid dir row) }
        requires goes { Goes (ReadsIn left.place left.len) }
        ensures moved { (row : RowRest) (p : Reading) → self.old.stage ≡ Stage.Row nid dir row → Follows row.place row.len p left.place left.len → Moves self.old p self.new }
        ensures here { (row : RowRest) (p : Reading) → self.old.stage ≡ Stage.Row nid dir row → Follows row.place row.len p left.place left.len → RowBecomes self.old p result self.new }
    {
        if left.var().is_some() {
            self.stage = Stage::Row(nid, dir, left);
            return Event::More;
        }
        self.stage = after_packet(self.carrier, self.room);
        Event::Typed(nid, dir)
    }

    /// After this many bits of OTHER_DATA, of which `left` are left.
    pub(crate) fn pass_bits(&mut self, nid: u8, dir: u8, left: usize, count: usize) -> Event
        requires stage { self.old.stage ≡ Stage.Kept nid dir left }
        requires some { 0 < count }
        requires within { count ≤ left }
        ensures moved { (t : List Bool) → length t ≡ count → Moves self.old (kept OTHER_DATA t) self.new }
        ensures here { (t : List Bool) → length t ≡ count → KeptBecomes self.old t result self.new }
    {
        if count < left {
            self.stage = Stage::Kept(nid, dir, left - count);
            return Event::More;
        }
        self.stage = after_packet(self.carrier, self.room);
        Event::Kept(nid, dir)
    }

    /// Continues after the number of the variable that comes next, and returns what is whole then.
    #[inline(always)]
    pub(crate) fn pass(&mut self, var: Var, number: u64) -> Event
        requires next { next_of self.old.stage ≡ Some var }
        requires goes { Starts (left_of self.old.carrier self.old.room self.old.stage) var 0 number }
        ensures moved { Moves self.old ((var, number) ∷ []) self.new }
        ensures here { Becomes self.old.carrier self.old.stage var number result self.new.stage }
    {
        match &self.stage {
            Stage::Number => {
                self.pass_number(number);
                Event::More
            }
            Stage::Marker => {
                self.pass_marker(number);
                Event::Marker(number as u8)
            }
            Stage::Direction(nid) => {
                let nid = *nid;
                self.pass_direction(nid, number);
                Event::More
            }
            Stage::Length(nid, dir) => {
                let (nid, dir) = (*nid, *dir);
                self.pass_length(nid, dir, number)
            }
            Stage::Row(nid, dir, _) => {
                let (nid, dir) = (*nid, *dir);
                self.pass_row(nid, dir, var, number)
            }
            Stage::Kept(nid, dir, left) => {
                let (nid, dir, left) = (*nid, *dir, *left);
                self.pass_bits(nid, dir, left, 1)
            }
            Stage::Closed => unreachable!(),
        }
    }

    /// Continues after whole packets of this many bits.
    pub(crate) fn skip(&mut self, bits: usize)
        requires stage { self.old.stage ≡ Stage.Number }
        requires within { bits ≤ self.old.room }
        ensures moved { (p : Reading) → IsFrontOf self.old.carrier self.old.room bits p → Moves self.old p self.new }
        ensures carrier { self.new.carrier ≡ self.old.carrier }
        ensures here { Here self.new.carrier self.new.stage [] [] [] }
        ensures room { Same (left_of self.new.carrier self.new.room self.new.stage) (PacketsIn self.old.carrier (self.old.room - bits)) }
    {
        self.room -= bits;
        match after_packet(self.carrier, self.room) {
            Stage::Number => {}
            stage => self.stage = stage,
        }
    }

    /// Expects nothing more, whatever was left.
    pub(crate) fn close(&mut self)
        ensures stage { self.new.stage ≡ Stage.Closed }
        ensures carrier { self.new.carrier ≡ self.old.carrier }
    {
        self.room = 0;
        self.stage = Stage::Closed;
    }
}
