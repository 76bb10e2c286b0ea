//! What is left of a telegram, for the one reader.

ghost use Rattle.std.specs.Prelude.{◌≡◌, ℕ, ◌-◌, ◌^◌, ◌<◌, ◌≤◌, Bool, List, [], ◌∷◌, Some, length, IsTrue, OnOk, OnErr, IfOk, IfSome, IsNone};
ghost use Rattle.etcs_bits.specs.Bits.{bits, part};
ghost use Rattle.etcs_vars.specs.Reading.{kept, Viable};
ghost use Rattle.etcs_vars.specs.declared.var.Var.{Var};
ghost use Rattle.etcs_vars.specs.declared.var.Var.TheVariants.{FILL, PAD};
ghost use Rattle.etcs_vars.proofs.Languages.{Same};
ghost use Rattle.etcs_tables.specs.declared.row.Way.TheVariants.{ToTrain};
ghost use Rattle.etcs_reader.specs.Rests.{Goes, Starts};
ghost use Rattle.etcs_packets.specs.PacketValues.{PacketValue};
ghost use Rattle.etcs_sequence.specs.AtOnce.{RunFirst};
ghost use Rattle.etcs_telegram.specs.declared.size.Size.{Size};
ghost use Rattle.etcs_telegram.specs.Telegrams.{TelegramLanguage, packet_room};
ghost use Rattle.etcs_telegram.specs.Phases.{after_pad};
ghost use Rattle.etcs_telegram.specs.Lefts.{stands_at, after_packets, Left, next_var, MayAsk, HoldsIn, Follows, Leaps};
ghost use Rattle.etcs_telegram.specs.Readers.{store_holds};
ghost use Rattle.etcs_telegram.specs.laws.RestLaws.{rest_regular, rest_begins, rest_ended, follows_none, follows_along};

use crate::header_bits::header_at;
use crate::phase::{Phase, header_var};
use crate::size::Size;
use crate::store::TelegramStore;
use arrayvec::ArrayVec;
use etcs_bits::BitSlice;
use etcs_reader::Rest;
use etcs_rows::inner::Carrier;
use etcs_sequence::inner::{bits_at, number_at, run_at};
use etcs_sequence::{PacketStore, PacketsRest, PacketsState, Stage};
use etcs_vars::{Var, begins};
use std::alloc::AllocError;
use std::marker::Model;

/// What is left of a telegram, and what is kept of the variables that were read.
#[derive(Drop)]
pub struct TelegramRest<S: PacketStore> {
    pub(crate) size: Size,
    pub(crate) phase: Phase,
    /// The header's numbers so far.
    pub(crate) header: ArrayVec<u64, 10>,
    /// The packets. FILL's bits are in their store.
    pub(crate) packets: PacketsRest<S>,
    ghost stands: { IsTrue (stands_at phase (length header.items) packets.left) },
}

impl<S: PacketStore> Model for TelegramRest<S> {
    ghost use Rattle.std.specs.Coded.{codes};
    ghost use Rattle.etcs_sequence.specs.contracts.state.PacketsState as packets_state;
    ghost use Rattle.etcs_telegram.specs.Lefts.{TelegramState, FillFits};

    ghost Value = { TelegramState S };

    ghost coded = { Prim.hlevel (codes, packets_state.the_row.coded) };

    ghost view = { λ s. record { size = s.size; phase = s.phase; header = s.header.items; left = s.packets.left; store = s.packets.store; stands = s.stands } };

    ghost invariant = { λ s. ∥ FillFits s.phase (S.holds s.packets.store) ∥₁ };
}

/// What comes after a variable of the packets.
fn after_packets(size: Size, left: &PacketsState) -> Phase
    ensures { result ≡ after_packets size left.now }
{
    match &left.stage {
        Stage::Closed => Phase::after_fill(size, left.room, 0),
        _ => Phase::Packets,
    }
}

/// What comes after a bit of PAD, of which `left` are left with it.
fn beyond_pad(left: usize) -> Phase
    ensures { result ≡ after_pad left }
{
    if left > 1 {
        Phase::Pad(left - 1)
    } else {
        Phase::Whole
    }
}

impl<S: PacketStore> TelegramRest<S> {
    /// All of a telegram of this size, and a store that holds no packet.
    pub(crate) fn new(size: Size, store: S) -> TelegramRest<S>
        requires way { ToTrain ≡ S.WAY }
        requires none { S.holds store [] [] [] }
        ensures size { result.size ≡ size }
        ensures store { result.store ≡ store }
        ensures left { Same (Left result) (TelegramLanguage size) }
        ensures holds { HoldsIn S.holds result [] }
    {
        TelegramRest {
            size,
            phase: Phase::Header(0),
            header: ArrayVec::new(),
            packets: PacketsRest::new(Carrier::Telegram, size.packet_room(), store),
        }
    }

    /// After a number of the header.
    fn pass_header(&mut self, at: usize, number: u64)
        requires phase { self.old.phase ≡ Phase.Header at }
        ensures { (x : Var) → next_var self.old ≡ Some x → Starts (Left self.old) x 0 number → Follows S.holds self.old ((x, number) ∷ []) self.new }
    {
        self.header.push(number);
        self.phase = Phase::after_header(at);
    }

    /// Takes the whole header, if the piece has it and each number is admitted, and returns how many bits it was.
    fn leap_header(&mut self, piece: &[u8], at: usize) -> Option<usize>
        requires phase { self.old.phase ≡ Phase.Header 0 }
        requires inside { at < length (bits piece.now) }
        requires small { length (bits piece.now) < 2 ^ 64 }
        requires goes { Goes (Left self.old) }
        ensures none { IsNone result → self.new ≡ self.old }
        ensures some { IfSome result (λ n. Leaps S.holds self.old self.new (bits piece.now) at n) }
    {
        let (numbers, end) = header_at(piece, at)?;
        self.header = numbers;
        self.phase = Phase::Packets;
        Some(end - at)
    }

    /// After a variable of the packets.
    fn pass_packets(&mut self, var: Var, number: u64) -> Result<(), AllocError>
        requires phase { self.old.phase ≡ Phase.Packets }
        requires next { next_var self.old ≡ Some var }
        requires goes { Starts (Left self.old) var 0 number }
        ensures ok { OnOk result (Follows S.holds self.old ((var, number) ∷ []) self.new) }
        ensures err { OnErr result (S.fails × MayAsk self.old) }
    {
        self.phase = Phase::Whole;
        let packets = &mut self.packets;
        packets.pass(var, number)?;
        self.phase = after_packets(self.size, &packets.left);
        Ok(())
    }

    /// Takes variables of the packets together if a piece has such, and returns how many bits they are.
    fn leap_packets(&mut self, piece: &[u8], at: usize) -> Result<Option<usize>, AllocError>
        requires phase { self.old.phase ≡ Phase.Packets }
        requires inside { at < length (bits piece.now) }
        requires small { length (bits piece.now) < 2 ^ 64 }
        requires goes { Goes (Left self.old) }
        ensures none { IfOk result (λ o. IsNone o → self.new ≡ self.old) }
        ensures some { IfOk result (λ o. IfSome o (λ n. Leaps S.holds self.old self.new (bits piece.now) at n)) }
        ensures err { OnErr result (S.fails × MayAsk self.old) }
        ensures viable { OnErr result (Viable (Left self.old) (part at 1 (bits piece.now))) }
    {
        self.phase = Phase::Whole;
        let packets = &mut self.packets;
        let leapt = packets.leap(piece, at)?;
        self.phase = after_packets(self.size, &packets.left);
        Ok(leapt)
    }

    /// Takes bits of FILL, of which `left` are left with them.
    #[inline(always)]
    fn fill(&mut self, left: usize, slice: &BitSlice<'_>) -> Result<(), AllocError>
        requires phase { self.old.phase ≡ Phase.Fill left }
        requires within { length slice.now ≤ left }
        ensures ok { OnOk result (Follows S.holds self.old (kept FILL slice.now) self.new) }
        ensures goes { OnOk result (Goes (Left self.new)) }
        ensures err { OnErr result (S.fails × MayAsk self.old) }
    {
        self.phase = Phase::Whole;
        let packets = &mut self.packets;
        packets.store.bits(slice)?;
        self.phase = Phase::after_fill(self.size, left, slice.len());
        Ok(())
    }

    /// After a bit of FILL, of which `left` were left with it.
    fn pass_fill(&mut self, left: usize, number: u64) -> Result<(), AllocError>
        requires phase { self.old.phase ≡ Phase.Fill left }
        requires small { number < 2 }
        ensures ok { OnOk result (Follows S.holds self.old ((FILL, number) ∷ []) self.new) }
        ensures err { OnErr result (S.fails × MayAsk self.old) }
    {
        let byte = [number as u8];
        self.fill(left, &bits_at(&byte, 7, 1))
    }

    /// Takes a run of FILL, of which `left` bits are left with it, and returns how many bits it was.
    fn leap_fill(
        &mut self,
        left: usize,
        piece: &[u8],
        at: usize,
    ) -> Result<Option<usize>, AllocError>
        requires phase { self.old.phase ≡ Phase.Fill left }
        requires inside { at < length (bits piece.now) }
        requires small { length (bits piece.now) < 2 ^ 64 }
        ensures none { IfOk result (λ o. IsNone o → self.new ≡ self.old) }
        ensures some { IfOk result (λ o. IfSome o (λ n. Leaps S.holds self.old self.new (bits piece.now) at n)) }
        ensures err { OnErr result (S.fails × MayAsk self.old) }
        ensures viable { OnErr result (Viable (Left self.old) (part at 1 (bits piece.now))) }
    {
        let run = run_at(piece, at, left);
        self.fill(left, &run)?;
        Ok(Some(run.len()))
    }

    /// After a bit of PAD, of which `left` were left with it.
    fn pass_pad(&mut self, left: usize)
        requires phase { self.old.phase ≡ Phase.Pad left }
        ensures { Follows S.holds self.old ((PAD, 0) ∷ []) self.new }
    {
        self.phase = beyond_pad(left);
    }

    /// Takes the `left` bits of PAD that are left, if the piece has them all and they are zeros, and returns how many
    /// they were.
    fn leap_pad(&mut self, left: usize, piece: &[u8], at: usize) -> Option<usize>
        requires phase { self.old.phase ≡ Phase.Pad left }
        requires inside { at < length (bits piece.now) }
        requires small { length (bits piece.now) < 2 ^ 64 }
        ensures none { IsNone result → self.new ≡ self.old }
        ensures some { IfSome result (λ n. Leaps S.holds self.old self.new (bits piece.now) at n) }
    {
        if left > 8 || piece.len() * 8 - at < left || number_at(piece, at, left) > 0 {
            return None;
        }
        self.phase = Phase::Whole;
        Some(left)
    }
}

impl TelegramRest<TelegramStore> {
    /// Whether the packets come next, and none was read yet.
    pub(crate) fn is_at_packets(&self) -> bool
        ensures phase { IsTrue result → self.now.phase ≡ Phase.Packets }
        ensures stage { IsTrue result → self.now.left.stage ≡ Stage.Number }
        ensures room { IsTrue result → self.now.left.room ≡ packet_room self.now.size }
        ensures none { IsTrue result → (vs : List PacketValue) → store_holds self.now.store vs [] [] → vs ≡ [] }
    {
        let packets = &self.packets;
        match (self.phase, &packets.left.stage) {
            (Phase::Packets, Stage::Number) => {
                packets.left.room == self.size.packet_room()
                    && packets.store.list.packets.is_empty()
            }
            _ => false,
        }
    }

    /// Continues after the packets that a store has taken of their room, of which this many bits are left. None was
    /// read before.
    pub(crate) fn resume(&mut self, store: TelegramStore, left: usize)
        requires phase { self.old.phase ≡ Phase.Packets }
        requires stage { self.old.left.stage ≡ Stage.Number }
        requires none { (vs : List PacketValue) → store_holds self.old.store vs [] [] → vs ≡ [] }
        requires run { ∥ ((xs : List Bool) × ((at : ℕ) × RunFirst Carrier.Telegram self.old.left.room (store_holds store) xs at left)) ∥₁ }
        ensures { (xs : List Bool) (at : ℕ) → RunFirst Carrier.Telegram self.old.left.room (store_holds store) xs at left → Leaps store_holds self.old self.new xs at (self.old.left.room - left) }
    {
        self.phase = Phase::Whole;
        let packets = &mut self.packets;
        packets.resume(store, left);
        self.phase = after_packets(self.size, &packets.left);
    }
}

impl<S: PacketStore> Rest for TelegramRest<S> {
    ghost left = { Left };

    ghost next = { next_var };

    ghost follows = { Follows S.holds };

    ghost fails = { λ s. S.fails × MayAsk s };

    #[inline]
    fn var(&self) -> Option<Var> {
        match self.phase {
            Phase::Header(at) => Some(header_var(at)),
            Phase::Packets => self.packets.var(),
            Phase::Fill(_) => Some(Var::FILL),
            Phase::Pad(_) => Some(Var::PAD),
            Phase::Whole => None,
        }
    }

    #[inline]
    fn begins(&self, var: Var, rest: usize, number: u64) -> bool {
        match self.phase {
            Phase::Header(_) => begins(var.ranges(), rest, number),
            Phase::Packets => self.packets.begins(var, rest, number),
            Phase::Fill(_) => true,
            Phase::Pad(_) => number == 0,
            Phase::Whole => unreachable!(),
        }
    }

    fn pass(&mut self, var: Var, number: u64) -> Result<(), AllocError> {
        match self.phase {
            Phase::Header(at) => {
                self.pass_header(at, number);
                Ok(())
            }
            Phase::Packets => self.pass_packets(var, number),
            Phase::Fill(left) => self.pass_fill(left, number),
            Phase::Pad(left) => {
                self.pass_pad(left);
                Ok(())
            }
            Phase::Whole => unreachable!(),
        }
    }

    #[inline]
    fn leap(&mut self, piece: &[u8], at: usize) -> Result<Option<usize>, AllocError> {
        match self.phase {
            Phase::Header(0) => Ok(self.leap_header(piece, at)),
            Phase::Packets => self.leap_packets(piece, at),
            Phase::Fill(left) => self.leap_fill(left, piece, at),
            Phase::Pad(left) => Ok(self.leap_pad(left, piece, at)),
            _ => Ok(None),
        }
    }

    ghost regular = { rest_regular };

    ghost begins_with = { rest_begins };

    ghost ended = { rest_ended };

    ghost residual = { λ s t p h. h.residual };

    ghost none = { follows_none S.holds };

    ghost both = { follows_along S.holds };
}
