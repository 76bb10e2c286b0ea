//! What is left of packets, and what is kept of those that were read.

ghost use Rattle.std.specs.Prelude.{◌≡◌, ◌≢◌, ℕ, ◌+◌, ◌-◌, ◌*◌, ◌^◌, ◌<◌, ◌≤◌, [], ◌++◌, Some, None, false, Bool, List, length, IsTrue, OnOk, OnErr, IfOk, IfSome, IsNone};
ghost use Rattle.etcs_bits.specs.Bits.{part, bits};
ghost use Rattle.etcs_vars.specs.Reading.{Reading, Viable};
ghost use Rattle.etcs_vars.proofs.Languages.{Same};
ghost use Rattle.etcs_packets.specs.PacketValues.{PacketValue};
ghost use Rattle.etcs_rows.specs.Frames.{way_of};
ghost use Rattle.etcs_sequence.specs.Contents.{PacketsIn};
ghost use Rattle.etcs_rows.specs.declared.frames.Carrier.{Carrier};
ghost use Rattle.etcs_rows.specs.declared.rest.RowRest.{RowRest};
ghost use Rattle.etcs_reader.specs.Rests.{Goes};
ghost use Rattle.etcs_sequence.specs.declared.stage.Stage.{Stage};
ghost use Rattle.etcs_sequence.specs.AtOnce.{RunFirst};
ghost use Rattle.etcs_sequence.specs.Leaps.{Follows, Leaps, EntriesTo, BeginsAt};
ghost use Rattle.etcs_tables.specs.Layouts.{ReadsIn};
ghost use Rattle.etcs_sequence.specs.Lefts.{next_of, left_of, ahead, is_closed, may_grow, numbers_with, bits_with, MayFinish, Finishes, HoldsAt};
ghost use Rattle.etcs_sequence.specs.laws.LeftLaws.{left_regular, left_begins, left_ended};
ghost use Rattle.etcs_sequence.specs.laws.Leaps.{follows_none, follows_along};

use crate::inner::{bits_at, number_at, run_at};
use crate::run::{is_long_profile, take_framed};
use crate::stage::{Event, Keep, Stage};
use crate::state::PacketsState;
use crate::store::PacketStore;
use etcs_bits::next_bits;
use etcs_reader::Rest;
use etcs_rows::inner::{Carrier, EntryRun, RowRest, RowRun};
use etcs_tables::{CLOSING, CLOSING_BITS};
use etcs_vars::Var;
use std::alloc::AllocError;

/// What is left of packets one after another in a room of bits, and the store of those that were read: a [`Rest`].
/// After each variable, and after several that are taken at once (packet 255, whole packets, a run of a row's variables
/// or of kept bits), what is left is the residual of the packets' language, and the store holds the packets that were
/// read and the numbers or bits of the one that is being read.
#[derive(Drop)]
pub struct PacketsRest<S: PacketStore> {
    pub left: PacketsState,
    pub store: S,
    /// Whether what comes next was tried together with what follows, in vain, so that it has to be passed by itself.
    tried: bool,
    pub ghost way: { way_of left.carrier ≡ S.WAY },
    pub ghost held: { ∥ (is_closed left.stage ≡ false → ((q : Reading) × HoldsAt left.carrier left.stage (S.holds store) q)) ∥₁ },
}

/// What the store returned. If it is out of memory, nothing more is expected, and the function returns.
macro_rules! stored {
    ($this:ident, $answer:expr) => {
        match $answer {
            Ok(value) => value,
            Err(error) => {
                $this.left.close();
                return Err(error);
            }
        }
    };
}

/// Keeps a number among a row's numbers or the kept bits, or nowhere.
fn absorb<S: PacketStore>(store: &mut S, keep: Keep, number: u64) -> Result<(), AllocError>
    requires { keep ≡ Keep.Bit → ∥ ((vs : List PacketValue) × ((f : List ℕ) × ((k : List Bool) × (S.holds store.old vs f k × (length k < 8191))))) ∥₁ }
    ensures ok { OnOk result ((vs : List PacketValue) (f : List ℕ) (k : List Bool) → S.holds store.old vs f k → S.holds store.new vs (numbers_with keep f number) (bits_with keep k number)) }
    ensures err { OnErr result (S.fails × (keep ≢ Keep.Nothing)) }
{
    match keep {
        Keep::Number => store.number(number),
        Keep::Bit => {
            let byte = [if number == 1 { 1 } else { 0 }];
            store.bits(&bits_at(&byte, 7, 1))
        }
        Keep::Nothing => Ok(()),
    }
}

/// Keeps numbers of a row.
fn absorb_numbers<S: PacketStore>(store: &mut S, numbers: &[u64]) -> Result<(), AllocError>
    ensures ok { OnOk result ((vs : List PacketValue) (f : List ℕ) (k : List Bool) → S.holds store.old vs f k → S.holds store.new vs (f ++ numbers.now) k) }
    ensures err { OnErr result S.fails }
{
    for number in numbers {
        store.number(*number)?;
    }
    Ok(())
}

/// Takes the next entries of a row's speed profile as far as the piece has them whole and the row can end in its bits
/// after them, keeps their numbers, and returns how many bits they have and what is left of the row then.
///
/// # Errors
///
/// `AllocError`: out of memory. No clause says what the store holds then.
#[inline(always)]
fn take_entries<S: PacketStore>(
    store: &mut S,
    row: &RowRest,
    piece: &[u8],
    at: usize,
) -> Result<(usize, RowRest), AllocError>
    requires inside { at ≤ length (bits piece.now) }
    requires small { length (bits piece.now) < 2 ^ 64 }
    requires goes { Goes (ReadsIn row.now.place row.now.len) }
    ensures taken { IfOk result (λ t. EntriesTo row.now.place row.now.len (bits piece.now) at t.0 t.1.place t.1.len (S.holds store.old) (S.holds store.new)) }
    ensures none { IfOk result (λ t. t.0 ≡ 0 → store.new ≡ store.old) }
    ensures err { OnErr result S.fails }
    ensures begun { OnErr result (BeginsAt row.now.place row.now.len (bits piece.now) at) }
{
    let mut run = EntryRun::new(row);
    let mut taken = 0;
    while let Some(count) = run.next(piece, at + taken) {
        absorb_numbers(store, run.numbers.as_slice())?;
        taken += count;
    }
    Ok((taken, run.rest))
}

/// Makes the packet that is whole.
#[inline(always)]
fn finish<S: PacketStore>(store: &mut S, event: Event) -> Result<(), AllocError>
    requires { ∥ MayFinish S.WAY (S.holds store.old) event ∥₁ }
    ensures ok { OnOk result (Finishes S.WAY (S.holds store.old) (S.holds store.new) event) }
    ensures err { OnErr result (S.fails × (event ≢ Event.More)) }
{
    match event {
        Event::More => Ok(()),
        Event::Marker(number) => store.marker(number),
        Event::Typed(nid, dir) => store.typed(nid, dir),
        Event::Kept(nid, dir) => store.kept(nid, dir),
    }
}

impl<S: PacketStore> PacketsRest<S> {
    /// All packets of a room of this many bits, and this store, which holds nothing.
    ///
    /// Requires that the store's packets go the carrier's way, that the room has at most 8,191 bits, and that
    /// the store holds nothing.
    pub fn new(carrier: Carrier, room: usize, store: S) -> PacketsRest<S>
        requires way { way_of carrier ≡ S.WAY }
        requires small { room ≤ 8191 }
        requires none { S.holds store [] [] [] }
        ensures carrier { result.left.carrier ≡ carrier }
        ensures ahead { ahead result.left.carrier result.left.room result.left.stage ≡ room }
        ensures left { Same (left_of result.left.carrier result.left.room result.left.stage) (PacketsIn carrier room) }
        ensures store { result.store ≡ store }
        ensures held { HoldsAt result.left.carrier result.left.stage (S.holds result.store) [] }
    {
        PacketsRest {
            left: PacketsState::new(carrier, room),
            store,
            tried: false,
        }
    }

    /// All packets of a room of this many bits again, over the same store, which holds nothing yet.
    ///
    /// Requires that the store's packets go the carrier's way, that the room has at most 8,191 bits, and that
    /// the store holds nothing.
    pub fn start(&mut self, carrier: Carrier, room: usize)
        requires way { way_of carrier ≡ S.WAY }
        requires small { room ≤ 8191 }
        requires none { ∥ S.holds self.old.store [] [] [] ∥₁ }
        ensures carrier { self.new.left.carrier ≡ carrier }
        ensures ahead { ahead self.new.left.carrier self.new.left.room self.new.left.stage ≡ room }
        ensures left { Same (left_of self.new.left.carrier self.new.left.room self.new.left.stage) (PacketsIn carrier room) }
        ensures store { self.new.store ≡ self.old.store }
        ensures held { S.holds self.old.store [] [] [] → HoldsAt self.new.left.carrier self.new.left.stage (S.holds self.new.store) [] }
    {
        self.left = PacketsState::new(carrier, room);
        self.tried = false;
    }

    /// Takes packet 255, if the piece has it and it may come next, and returns how many bits it has.
    #[inline]
    fn leap_closing(&mut self, piece: &[u8], at: usize) -> Option<usize>
        requires stage { self.old.left.stage ≡ Stage.Number }
        requires inside { at < length (bits piece.now) }
        requires small { length (bits piece.now) < 2 ^ 64 }
        ensures none { IsNone result → self.new ≡ self.old }
        ensures some { IfSome result (λ n. Leaps self.old.left (S.holds self.old.store) self.new.left (S.holds self.new.store) (bits piece.now) at n) }
    {
        if piece.len() * 8 - at < CLOSING_BITS {
            return None;
        }
        let number = u64::from(CLOSING);
        if number_at(piece, at, 8) != number {
            return None;
        }
        if !self.left.may_close() {
            return None;
        }
        self.left.pass_number(number);
        Some(CLOSING_BITS)
    }

    /// Takes the packet with a frame that begins at `at`, if it lies whole in the piece, and returns how many bits it
    /// has. It may always return `None`.
    ///
    /// # Errors
    ///
    /// `AllocError`: out of memory. Nothing more is expected then, and no clause says what the store holds.
    fn leap_packet(&mut self, piece: &[u8], at: usize) -> Result<Option<usize>, AllocError>
        requires stage { self.old.left.stage ≡ Stage.Number }
        requires inside { at < length (bits piece.now) }
        requires small { length (bits piece.now) < 2 ^ 64 }
        ensures none { IfOk result (λ o. IsNone o → self.new ≡ self.old) }
        ensures some { IfOk result (λ o. IfSome o (λ n. Leaps self.old.left (S.holds self.old.store) self.new.left (S.holds self.new.store) (bits piece.now) at n)) }
        ensures err { OnErr result S.fails }
        ensures viable { OnErr result (Viable (left_of self.old.left.carrier self.old.left.room self.old.left.stage) (part at 1 (bits piece.now))) }
    {
        let word = next_bits(piece, at);
        if is_long_profile(self.left.carrier, word) {
            return Ok(None);
        }
        let (carrier, room) = (self.left.carrier, self.left.room);
        let count = piece.len() * 8 - at;
        let taken = stored!(
            self,
            take_framed(&mut self.store, carrier, room, count, piece, at, word)
        );
        let Some(len) = taken else {
            return Ok(None);
        };
        self.left.skip(len);
        Ok(Some(len))
    }

    /// Takes packets from `at` on, one after another, up to the first that [`PacketsRest::leap_packet`] doesn't take,
    /// and returns how many bits they have; `None` if it takes none.
    ///
    /// # Errors
    ///
    /// As of [`PacketsRest::leap_packet`].
    fn leap_packets(&mut self, piece: &[u8], at: usize) -> Result<Option<usize>, AllocError>
        requires stage { self.old.left.stage ≡ Stage.Number }
        requires inside { at < length (bits piece.now) }
        requires small { length (bits piece.now) < 2 ^ 64 }
        ensures none { IfOk result (λ o. IsNone o → self.new ≡ self.old) }
        ensures some { IfOk result (λ o. IfSome o (λ n. Leaps self.old.left (S.holds self.old.store) self.new.left (S.holds self.new.store) (bits piece.now) at n)) }
        ensures err { OnErr result S.fails }
        ensures viable { OnErr result (Viable (left_of self.old.left.carrier self.old.left.room self.old.left.stage) (part at 1 (bits piece.now))) }
    {
        let end = piece.len() * 8;
        let mut place = at;
        while place < end && self.left.is_at_number() {
            match self.leap_packet(piece, place)? {
                Some(count) => place += count,
                None => break,
            }
        }
        if place == at {
            return Ok(None);
        }
        self.tried = place < end && self.left.is_at_number();
        Ok(Some(place - at))
    }

    /// Takes the next entries of a row's speed profile as far as the piece has them whole and the row can end in its bits
    /// after them, and returns how many bits they have. It may always return `None`.
    ///
    /// # Errors
    ///
    /// `AllocError`: out of memory. Nothing more is expected then, and no clause says what the store holds.
    #[inline(never)]
    fn leap_entries(
        &mut self,
        nid: u8,
        dir: u8,
        piece: &[u8],
        at: usize,
    ) -> Result<Option<usize>, AllocError>
        requires row { (row : RowRest) × (self.old.left.stage ≡ Stage.Row nid dir row) }
        requires inside { at < length (bits piece.now) }
        requires small { length (bits piece.now) < 2 ^ 64 }
        requires goes { Goes (left_of self.old.left.carrier self.old.left.room self.old.left.stage) }
        ensures none { IfOk result (λ o. IsNone o → self.new ≡ self.old) }
        ensures some { IfOk result (λ o. IfSome o (λ n. Leaps self.old.left (S.holds self.old.store) self.new.left (S.holds self.new.store) (bits piece.now) at n)) }
        ensures err { OnErr result (S.fails × IsTrue (may_grow self.old.left.stage)) }
        ensures viable { OnErr result (Viable (left_of self.old.left.carrier self.old.left.room self.old.left.stage) (part at 1 (bits piece.now))) }
    {
        let left = &self.left;
        let Stage::Row(_, _, row) = &left.stage else {
            unreachable!()
        };
        let (taken, rest) = stored!(self, take_entries(&mut self.store, row, piece, at));
        if taken == 0 {
            return Ok(None);
        }
        let event = self.left.pass_to(nid, dir, rest);
        stored!(self, finish(&mut self.store, event));
        Ok(Some(taken))
    }

    /// Takes the next variables of a row as far as the piece has them whole, if the row can end in its bits after them,
    /// and returns how many bits they have.
    ///
    /// # Errors
    ///
    /// `AllocError`: out of memory. Nothing more is expected then, and no clause says what the store holds.
    #[inline(never)]
    fn leap_row(
        &mut self,
        nid: u8,
        dir: u8,
        piece: &[u8],
        at: usize,
    ) -> Result<Option<usize>, AllocError>
        requires row { (row : RowRest) × (self.old.left.stage ≡ Stage.Row nid dir row) }
        requires inside { at < length (bits piece.now) }
        requires small { length (bits piece.now) < 2 ^ 64 }
        requires goes { Goes (left_of self.old.left.carrier self.old.left.room self.old.left.stage) }
        ensures none { IfOk result (λ o. IsNone o → self.new ≡ self.old) }
        ensures some { IfOk result (λ o. IfSome o (λ n. Leaps self.old.left (S.holds self.old.store) self.new.left (S.holds self.new.store) (bits piece.now) at n)) }
        ensures err { OnErr result (S.fails × IsTrue (may_grow self.old.left.stage)) }
        ensures viable { OnErr result (Viable (left_of self.old.left.carrier self.old.left.room self.old.left.stage) (part at 1 (bits piece.now))) }
    {
        let Stage::Row(_, _, row) = &self.left.stage else {
            unreachable!()
        };
        let Some(run) = RowRun::ahead(row, piece, at) else {
            return Ok(None);
        };
        stored!(
            self,
            absorb_numbers(&mut self.store, run.numbers.as_slice())
        );
        let taken = run.bits;
        let event = self.left.pass_to(nid, dir, run.rest);
        stored!(self, finish(&mut self.store, event));
        self.tried = run.singly;
        Ok(Some(taken))
    }

    /// Takes the next entries of a row's speed profile, or, if it takes none, the next variables, and returns how many
    /// bits they have.
    ///
    /// # Errors
    ///
    /// As of [`PacketsRest::leap_row`].
    fn leap_profile(
        &mut self,
        nid: u8,
        dir: u8,
        piece: &[u8],
        at: usize,
    ) -> Result<Option<usize>, AllocError>
        requires row { (row : RowRest) × (self.old.left.stage ≡ Stage.Row nid dir row) }
        requires inside { at < length (bits piece.now) }
        requires small { length (bits piece.now) < 2 ^ 64 }
        requires goes { Goes (left_of self.old.left.carrier self.old.left.room self.old.left.stage) }
        ensures none { IfOk result (λ o. IsNone o → self.new ≡ self.old) }
        ensures some { IfOk result (λ o. IfSome o (λ n. Leaps self.old.left (S.holds self.old.store) self.new.left (S.holds self.new.store) (bits piece.now) at n)) }
        ensures err { OnErr result (S.fails × IsTrue (may_grow self.old.left.stage)) }
        ensures viable { OnErr result (Viable (left_of self.old.left.carrier self.old.left.room self.old.left.stage) (part at 1 (bits piece.now))) }
    {
        match self.leap_entries(nid, dir, piece, at)? {
            Some(taken) => Ok(Some(taken)),
            None => self.leap_row(nid, dir, piece, at),
        }
    }

    /// Takes a run of OTHER_DATA, of which `left` bits are left, and returns how many bits it took.
    ///
    /// # Errors
    ///
    /// `AllocError`: out of memory. Nothing more is expected then, and no clause says what the store holds.
    fn leap_kept(
        &mut self,
        nid: u8,
        dir: u8,
        left: usize,
        piece: &[u8],
        at: usize,
    ) -> Result<Option<usize>, AllocError>
        requires stage { self.old.left.stage ≡ Stage.Kept nid dir left }
        requires inside { at < length (bits piece.now) }
        requires small { length (bits piece.now) < 2 ^ 64 }
        requires goes { Goes (left_of self.old.left.carrier self.old.left.room self.old.left.stage) }
        ensures none { IfOk result (λ o. IsNone o → self.new ≡ self.old) }
        ensures some { IfOk result (λ o. IfSome o (λ n. Leaps self.old.left (S.holds self.old.store) self.new.left (S.holds self.new.store) (bits piece.now) at n)) }
        ensures err { OnErr result (S.fails × IsTrue (may_grow self.old.left.stage)) }
        ensures viable { OnErr result (Viable (left_of self.old.left.carrier self.old.left.room self.old.left.stage) (part at 1 (bits piece.now))) }
    {
        let run = run_at(piece, at, left);
        let count = run.len();
        stored!(self, self.store.bits(&run));
        let event = self.left.pass_bits(nid, dir, left, count);
        stored!(self, finish(&mut self.store, event));
        Ok(Some(count))
    }
}

impl<S: PacketStore + Drop> PacketsRest<S> {
    /// Continues, with this store in place of its own, after the packets that the store has taken of the room, of which
    /// `left` bits are left.
    ///
    /// Requires that NID_PACKET comes next, that its own store holds no packets, and that the store holds
    /// packets with which the room begins and which leave that many bits of it (`RunFirst`).
    #[cold]
    #[inline(never)]
    pub fn resume(&mut self, store: S, left: usize)
        requires stage { self.old.left.stage ≡ Stage.Number }
        requires none { (vs : List PacketValue) → S.holds self.old.store vs [] [] → vs ≡ [] }
        requires run { ∥ ((xs : List Bool) × ((at : ℕ) × RunFirst self.old.left.carrier self.old.left.room (S.holds store) xs at left)) ∥₁ }
        ensures { (xs : List Bool) (at : ℕ) → RunFirst self.old.left.carrier self.old.left.room (S.holds store) xs at left → Leaps self.old.left (S.holds self.old.store) self.new.left (S.holds self.new.store) xs at (self.old.left.room - left) }
    {
        let taken = self.left.room - left;
        self.left.skip(taken);
        self.store = store;
        self.tried = true;
    }
}

impl<S: PacketStore> Rest for PacketsRest<S> {
    ghost left = { λ s. left_of s.left.carrier s.left.room s.left.stage };

    ghost next = { λ s. next_of s.left.stage };

    ghost follows = { λ s p t. Follows s.left (S.holds s.store) p t.left (S.holds t.store) };

    ghost fails = { λ s. S.fails × IsTrue (may_grow s.left.stage) };

    #[inline]
    fn var(&self) -> Option<Var> {
        self.left.var()
    }

    #[inline]
    fn begins(&self, var: Var, rest: usize, number: u64) -> bool {
        self.left.begins(var, rest, number)
    }

    fn pass(&mut self, var: Var, number: u64) -> Result<(), AllocError> {
        let keep = self.left.keeps();
        self.tried = false;
        stored!(self, absorb(&mut self.store, keep, number));
        let event = self.left.pass(var, number);
        stored!(self, finish(&mut self.store, event));
        Ok(())
    }

    #[inline]
    fn leap(&mut self, piece: &[u8], at: usize) -> Result<Option<usize>, AllocError> {
        if self.tried {
            return Ok(None);
        }
        match &self.left.stage {
            Stage::Number => match self.leap_closing(piece, at) {
                Some(count) => Ok(Some(count)),
                None => self.leap_packets(piece, at),
            },
            Stage::Kept(nid, dir, left) => {
                let (nid, dir, left) = (*nid, *dir, *left);
                self.leap_kept(nid, dir, left, piece, at)
            }
            Stage::Row(nid, dir, row) => {
                let (nid, dir, at_entry) = (*nid, *dir, row.is_at_entry());
                if at_entry {
                    self.leap_profile(nid, dir, piece, at)
                } else {
                    self.leap_row(nid, dir, piece, at)
                }
            }
            _ => Ok(None),
        }
    }

    ghost regular = { λ s. left_regular s.left.carrier s.left.room s.left.stage };

    ghost begins_with = { λ s. left_begins s.left.carrier s.left.room s.left.stage s.left.stands };

    ghost ended = { λ s. left_ended s.left.carrier s.left.room s.left.stage s.left.stands };

    ghost residual = { λ s t p h. h.0.residual };

    ghost none = { λ s. follows_none s.left (S.holds s.store) };

    ghost both = { λ s t u p q h k. follows_along s.left t.left u.left (S.holds s.store) (S.holds t.store) (S.holds u.store) p q h k };
}
