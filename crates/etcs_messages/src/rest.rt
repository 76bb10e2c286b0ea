//! What is left of a message, for the one reader.

ghost use Rattle.std.specs.Prelude.{◌≡◌, ℕ, ◌-◌, ◌+◌, ◌^◌, ◌<◌, ◌≤◌, nat_lt, if◌then◌else◌, Bool, List, [], ◌∷◌, Some, length, IsTrue, OnOk, OnErr, IfOk, IfSome, IsNone};
ghost use Rattle.etcs_bits.specs.Bits.{bits, num, part};
ghost use Rattle.etcs_vars.specs.Reading.{kept, Viable};
ghost use Rattle.etcs_vars.specs.declared.var.Var.{Var};
ghost use Rattle.etcs_vars.specs.declared.var.Var.TheVariants.{NID_MESSAGE, L_MESSAGE, PADDING, OTHER_DATA};
ghost use Rattle.etcs_vars.proofs.Languages.{Same};
ghost use Rattle.etcs_reader.specs.Rests.{Goes, Starts};
ghost use Rattle.etcs_rows.specs.declared.frames.Carrier.TheVariants.{Message};
ghost use Rattle.etcs_packets.specs.PacketValues.{PacketValue};
ghost use Rattle.etcs_sequence.specs.AtOnce.{RunFirst};
ghost use Rattle.etcs_messages.specs.Messages.{MessageLanguage};
ghost use Rattle.etcs_messages.specs.Lefts.{stands_at, after_packets, beyond_front, Left, next_var, MayAsk, HoldsIn, Follows, Leaps};
ghost use Rattle.etcs_messages.specs.laws.RestLaws.{rest_regular, rest_begins, rest_ended, follows_none, follows_along};

use crate::kind::{Head, Own};
use crate::phase::{Phase, front_bits, front_count, front_var};
use arrayvec::ArrayVec;
use etcs_bits::BitSlice;
use etcs_packets::inner::AnyPacket;
use etcs_reader::Rest;
use etcs_rows::inner::{Carrier, message_lengths};
use etcs_sequence::inner::{bits_at, number_at, run_at};
use etcs_sequence::{ListStore, PacketStore, PacketsRest, PacketsState, Stage};
use etcs_vars::{Var, begins};
use std::alloc::AllocError;
use std::marker::{Model, PhantomData};

/// What is left of a message, and what is kept of the variables that were read.
#[derive(Drop)]
pub struct MessageRest<H: Head, B: Own<Front = H>, S: PacketStore = <H as Head>::Store> {
    /// Which messages they are.
    kind: PhantomData<(H, B)>,
    /// NID_MESSAGE, once it was read.
    pub(crate) nid: u8,
    pub(crate) phase: Phase,
    /// The numbers after L_MESSAGE and before the packets so far.
    pub(crate) front: ArrayVec<u64, 5>,
    /// The packets. The bits of a message that is kept are in their store.
    pub(crate) packets: PacketsRest<S>,
    /// The bits of PADDING so far, as a number.
    pub(crate) padding: u8,
    ghost stands: { IsTrue (stands_at H.Packet.WAY nid phase (length front.items) packets.left) },
    ghost way_is: { H.Packet.WAY ≡ S.WAY },
}

impl<H: Head, B: Own<Front = H>, S: PacketStore> Model for MessageRest<H, B, S> {
    ghost use Rattle.std.specs.Coded.{codes};
    ghost use Rattle.etcs_sequence.specs.contracts.state.PacketsState as packets_state;
    ghost use Rattle.etcs_messages.specs.Lefts.{MessageState, DataFits};

    ghost Value = { MessageState S };

    ghost coded = { Prim.hlevel (codes, packets_state.the_row.coded) };

    ghost view = { λ s. record { way = H.Packet.WAY; nid = s.nid; phase = s.phase; front = s.front.items; left = s.packets.left; padding = s.padding; store = s.packets.store; stands = s.stands } };

    ghost invariant = { λ s. ∥ DataFits s.phase (S.holds s.packets.store) ∥₁ };
}

/// What comes next if this many bits of a phase are left.
fn after_bits(left: usize, phase: Phase) -> Phase
    ensures { result ≡ if nat_lt 0 left then phase else Phase.Whole }
{
    if left > 0 { phase } else { Phase::Whole }
}

/// What comes after a variable of the packets.
fn after_packets(left: &PacketsState) -> Phase
    ensures { result ≡ after_packets left.now }
{
    match &left.stage {
        Stage::Closed => after_bits(left.room, Phase::Padding(left.room)),
        _ => Phase::Packets,
    }
}

/// What comes next at this place among the variables before the packets, which are this many.
fn beyond_front(count: usize, at: usize, left: &PacketsState) -> Phase
    ensures { result ≡ beyond_front count at left.now }
{
    if at < count {
        Phase::Front(at)
    } else {
        after_packets(left)
    }
}

impl<H: Head, B: Own<Front = H>, S: PacketStore> MessageRest<H, B, S> {
    /// All of a message, and a store that holds no packet.
    pub(crate) fn new(store: S) -> MessageRest<H, B, S>
        requires way { H.Packet.WAY ≡ S.WAY }
        requires none { S.holds store [] [] [] }
        ensures store { result.store ≡ store }
        ensures way { result.way ≡ H.Packet.WAY }
        ensures left { Same (Left result) (MessageLanguage H.Packet.WAY) }
        ensures holds { HoldsIn S.holds result [] }
    {
        MessageRest {
            kind: PhantomData,
            nid: 0,
            phase: Phase::Number,
            front: ArrayVec::new(),
            packets: PacketsRest::new(Carrier::Message(H::Packet::WAY), 0, store),
            padding: 0,
        }
    }

    /// After NID_MESSAGE.
    fn pass_number(&mut self, number: u64)
        requires phase { self.old.phase ≡ Phase.Number }
        requires goes { Starts (Left self.old) NID_MESSAGE 0 number }
        ensures { Follows S.holds self.old ((NID_MESSAGE, number) ∷ []) self.new }
    {
        self.nid = number as u8;
        self.phase = Phase::Length;
    }

    /// After L_MESSAGE.
    fn pass_length(&mut self, number: u64)
        requires phase { self.old.phase ≡ Phase.Length }
        requires goes { Starts (Left self.old) L_MESSAGE 0 number }
        ensures { Follows S.holds self.old ((L_MESSAGE, number) ∷ []) self.new }
    {
        let bits = number as usize * 8;
        let way = H::Packet::WAY;
        match front_bits(way, self.nid) {
            Some(front) => {
                self.packets.start(Carrier::Message(way), bits - front);
                self.phase = Phase::Front(0);
            }
            None => self.phase = Phase::Data(bits - 18),
        }
    }

    /// After a variable before the packets.
    fn pass_front(&mut self, at: usize, number: u64)
        requires phase { self.old.phase ≡ Phase.Front at }
        ensures { (x : Var) → next_var self.old ≡ Some x → Starts (Left self.old) x 0 number → Follows S.holds self.old ((x, number) ∷ []) self.new }
    {
        let count = match front_count(H::Packet::WAY, self.nid) {
            Some(count) => count,
            None => unreachable!(),
        };
        let next = beyond_front(count, at + 1, &self.packets.left);
        self.front.push(number);
        self.phase = next;
    }

    /// After a variable of the packets.
    fn pass_packets(&mut self, var: Var, number: u64) -> Result<(), AllocError>
        requires phase { self.old.phase ≡ Phase.Packets }
        requires next { next_var self.old ≡ Some var }
        requires goes { Starts (Left self.old) var 0 number }
        ensures ok { OnOk result (Follows S.holds self.old ((var, number) ∷ []) self.new) }
        ensures err { OnErr result (S.fails × MayAsk self.old) }
    {
        self.phase = Phase::Whole;
        let packets = &mut self.packets;
        packets.pass(var, number)?;
        self.phase = after_packets(&packets.left);
        Ok(())
    }

    /// Takes variables of the packets together if a piece has such, and returns how many bits they are.
    fn leap_packets(&mut self, piece: &[u8], at: usize) -> Result<Option<usize>, AllocError>
        requires phase { self.old.phase ≡ Phase.Packets }
        requires inside { at < length (bits piece.now) }
        requires small { length (bits piece.now) < 2 ^ 64 }
        requires goes { Goes (Left self.old) }
        ensures none { IfOk result (λ o. IsNone o → self.new ≡ self.old) }
        ensures some { IfOk result (λ o. IfSome o (λ n. Leaps S.holds self.old self.new (bits piece.now) at n)) }
        ensures err { OnErr result (S.fails × MayAsk self.old) }
        ensures viable { OnErr result (Viable (Left self.old) (part at 1 (bits piece.now))) }
    {
        self.phase = Phase::Whole;
        let packets = &mut self.packets;
        let leapt = packets.leap(piece, at)?;
        self.phase = after_packets(&packets.left);
        Ok(leapt)
    }

    /// Takes bits of a message that is kept, of which `left` are left with them.
    fn keep(&mut self, left: usize, slice: &BitSlice<'_>) -> Result<(), AllocError>
        requires phase { self.old.phase ≡ Phase.Data left }
        requires within { length slice.now ≤ left }
        ensures ok { OnOk result (Follows S.holds self.old (kept OTHER_DATA slice.now) self.new) }
        ensures goes { OnOk result (Goes (Left self.new)) }
        ensures err { OnErr result (S.fails × MayAsk self.old) }
    {
        self.phase = Phase::Whole;
        let packets = &mut self.packets;
        packets.store.bits(slice)?;
        let wanted = left - slice.len();
        self.phase = after_bits(wanted, Phase::Data(wanted));
        Ok(())
    }

    /// After a bit of a message that is kept, of which `left` were left with it.
    fn pass_data(&mut self, left: usize, number: u64) -> Result<(), AllocError>
        requires phase { self.old.phase ≡ Phase.Data left }
        requires small { number < 2 }
        ensures ok { OnOk result (Follows S.holds self.old ((OTHER_DATA, number) ∷ []) self.new) }
        ensures err { OnErr result (S.fails × MayAsk self.old) }
    {
        let byte = [number as u8];
        self.keep(left, &bits_at(&byte, 7, 1))
    }

    /// Takes a run of bits of a message that is kept, of which `left` are left with it, and returns how many they were.
    fn leap_data(
        &mut self,
        left: usize,
        piece: &[u8],
        at: usize,
    ) -> Result<Option<usize>, AllocError>
        requires phase { self.old.phase ≡ Phase.Data left }
        requires inside { at < length (bits piece.now) }
        requires small { length (bits piece.now) < 2 ^ 64 }
        ensures none { IfOk result (λ o. IsNone o → self.new ≡ self.old) }
        ensures some { IfOk result (λ o. IfSome o (λ n. Leaps S.holds self.old self.new (bits piece.now) at n)) }
        ensures err { OnErr result (S.fails × MayAsk self.old) }
        ensures viable { OnErr result (Viable (Left self.old) (part at 1 (bits piece.now))) }
    {
        let run = run_at(piece, at, left);
        self.keep(left, &run)?;
        Ok(Some(run.len()))
    }

    /// Takes this many bits of PADDING, of which `left` are left with them, as a number.
    fn pad(&mut self, left: usize, count: usize, number: u64)
        requires phase { self.old.phase ≡ Phase.Padding left }
        requires within { count ≤ left }
        requires small { number < 2 ^ count }
        ensures follows { Follows S.holds self.old (kept PADDING (num count number)) self.new }
        ensures goes { Goes (Left self.new) }
    {
        self.padding = (self.padding << count) | number as u8;
        let wanted = left - count;
        self.phase = after_bits(wanted, Phase::Padding(wanted));
    }

    /// Takes the bits of PADDING that a piece has, of which `left` are left with them, and returns how many they were.
    fn leap_padding(&mut self, left: usize, piece: &[u8], at: usize) -> usize
        requires phase { self.old.phase ≡ Phase.Padding left }
        requires inside { at < length (bits piece.now) }
        requires small { length (bits piece.now) < 2 ^ 64 }
        ensures { Leaps S.holds self.old self.new (bits piece.now) at result }
    {
        let count = left.min(piece.len() * 8 - at);
        self.pad(left, count, number_at(piece, at, count));
        count
    }
}

impl<H: Head, B: Own<Front = H>> MessageRest<H, B, H::Store> {
    /// Whether the packets come next, in a room of this many bits, and none was read yet.
    pub(crate) fn is_at_packets(&self, room: usize) -> bool
        ensures phase { IsTrue result → self.now.phase ≡ Phase.Packets }
        ensures stage { IsTrue result → self.now.left.stage ≡ Stage.Number }
        ensures room { IsTrue result → self.now.left.room ≡ room }
        ensures none { IsTrue result → (vs : List PacketValue) → H.Store.holds self.now.store vs [] [] → vs ≡ [] }
    {
        let packets = &self.packets;
        match (self.phase, &packets.left.stage) {
            (Phase::Packets, Stage::Number) => {
                packets.left.room == room && packets.store.list().packets.is_empty()
            }
            _ => false,
        }
    }

    /// Continues after the packets that a store has taken of their room, of which this many bits are left. None was
    /// read before.
    pub(crate) fn resume(&mut self, store: H::Store, left: usize)
        requires phase { self.old.phase ≡ Phase.Packets }
        requires stage { self.old.left.stage ≡ Stage.Number }
        requires none { (vs : List PacketValue) → H.Store.holds self.old.store vs [] [] → vs ≡ [] }
        requires run { (xs : List Bool) × (at : ℕ) × RunFirst (Message H.Packet.WAY) self.old.left.room (H.Store.holds store) xs at left }
        ensures { (xs : List Bool) (at : ℕ) → RunFirst (Message H.Packet.WAY) self.old.left.room (H.Store.holds store) xs at left → Leaps H.Store.holds self.old self.new xs at (self.old.left.room - left) }
    {
        self.phase = Phase::Whole;
        let packets = &mut self.packets;
        packets.resume(store, left);
        self.phase = after_packets(&packets.left);
    }
}

impl<H: Head, B: Own<Front = H>, S: PacketStore> Rest for MessageRest<H, B, S> {
    ghost left = { Left };

    ghost next = { next_var };

    ghost follows = { Follows S.holds };

    ghost fails = { λ s. S.fails × MayAsk s };

    #[inline(always)]
    fn var(&self) -> Option<Var> {
        match self.phase {
            Phase::Number => Some(Var::NID_MESSAGE),
            Phase::Length => Some(Var::L_MESSAGE),
            Phase::Front(at) => front_var(H::Packet::WAY, self.nid, at),
            Phase::Packets => self.packets.var(),
            Phase::Padding(_) => Some(Var::PADDING),
            Phase::Data(_) => Some(Var::OTHER_DATA),
            Phase::Whole => None,
        }
    }

    #[inline(always)]
    fn begins(&self, var: Var, rest: usize, number: u64) -> bool {
        match self.phase {
            Phase::Number => true,
            Phase::Length => begins(message_lengths(H::Packet::WAY, self.nid), rest, number),
            Phase::Front(_) => begins(var.ranges(), rest, number),
            Phase::Packets => self.packets.begins(var, rest, number),
            Phase::Padding(_) => true,
            Phase::Data(_) => true,
            Phase::Whole => unreachable!(),
        }
    }

    #[inline(always)]
    fn pass(&mut self, var: Var, number: u64) -> Result<(), AllocError> {
        match self.phase {
            Phase::Number => {
                self.pass_number(number);
                Ok(())
            }
            Phase::Length => {
                self.pass_length(number);
                Ok(())
            }
            Phase::Front(at) => {
                self.pass_front(at, number);
                Ok(())
            }
            Phase::Packets => self.pass_packets(var, number),
            Phase::Padding(left) => {
                self.pad(left, 1, number);
                Ok(())
            }
            Phase::Data(left) => self.pass_data(left, number),
            Phase::Whole => unreachable!(),
        }
    }

    #[inline]
    fn leap(&mut self, piece: &[u8], at: usize) -> Result<Option<usize>, AllocError> {
        match self.phase {
            Phase::Packets => self.leap_packets(piece, at),
            Phase::Padding(left) => Ok(Some(self.leap_padding(left, piece, at))),
            Phase::Data(left) => self.leap_data(left, piece, at),
            _ => Ok(None),
        }
    }

    ghost regular = { rest_regular };

    ghost begins_with = { rest_begins };

    ghost ended = { rest_ended };

    ghost residual = { λ s t p h. h.residual };

    ghost none = { follows_none S.holds };

    ghost both = { follows_along S.holds };
}
