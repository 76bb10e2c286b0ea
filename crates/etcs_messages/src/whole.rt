//! A message that lies whole in a piece, in one pass.

ghost use Rattle.std.specs.Prelude.{◌≡◌, ◌+◌, ◌-◌, ◌*◌, ◌≤◌, ◌<◌, ◌^◌, ◌++◌, ◌∷◌, [], ℕ, List, Some, None, length, IfSome, OnSome};
ghost use Rattle.etcs_bits.specs.Bits as bit_lists;
ghost use Rattle.etcs_bits.specs.Bits.{bits, num, part};
ghost use Rattle.etcs_vars.specs.declared.var.Var.{Var};
ghost use Rattle.etcs_vars.specs.Reading.{Reading, spelled};
ghost use Rattle.etcs_tables.specs.Layouts.{layout};
ghost use Rattle.etcs_flat.specs.Flats.{variables};
ghost use Rattle.etcs_rows.specs.declared.frames.Carrier.TheVariants.{Message};
ghost use Rattle.etcs_sequence.specs.AtOnce.{RunFirst};
ghost use Rattle.etcs_sequence.specs.Fronts.{FrontAt};
ghost use Rattle.etcs_messages.specs.Messages.{MessageReads, MessageValue, message_value, IsMessage};
ghost use Rattle.etcs_messages.specs.Kinds.{IsFrontBy};
ghost use Rattle.etcs_messages.specs.Fronts.{WholeFront};
ghost use Rattle.etcs_messages.specs.Outlines.{IsOutline};
ghost use Rattle.etcs_messages.specs.Lefts.{front_row, front_vars, front_bits};
ghost use Rattle.etcs_messages.specs.Readers.{IsMessagePart};

use crate::kind::{Head, Own};
use crate::message::{Content, MessageOf};
use crate::phase::front_bits;
use crate::reader::front_by;
use crate::rest::MessageRest;
use arrayvec::ArrayVec;
use etcs_bits::{BitSlice, Bits};
use etcs_bodies::{ListOf, PieceWalker, Walk};
use etcs_packets::inner::AnyPacket;
use etcs_reader::inner::pass_front;
use etcs_rows::inner::Carrier;
use etcs_sequence::inner::{Run, bits_at, number_at, take_run};
use etcs_sequence::{ListStore, PacketCount, PacketList};
use etcs_tables::{RowItem, Way, head_row, message_row};
use etcs_vars::Var;
use std::alloc::Global;

/// The bits of NID_MESSAGE.
const NUMBER_BITS: usize = 8;

/// The bits of L_MESSAGE.
const LENGTH_BITS: usize = 10;

/// The message that a piece begins with, and how many bytes it has. It may always return `None`, as it does if the
/// piece begins with none, or if out of memory. Then it may put into `part` what is left of the item after the first
/// bits of the piece, and how many these are.
pub(crate) fn message_at<H: Head, B: Own<Front = H>>(
    alloc: Global,
    piece: &[u8],
    part: &mut Option<(MessageRest<H, B, H::Store>, usize)>,
) -> Option<(MessageOf<H, B>, usize)>
    requires small { length (bits piece.now) < 2 ^ 64 }
    requires part { IfSome part.old (λ t. IsMessagePart H.Store.holds H.Packet.WAY (bits piece.now) t.0 t.1) }
    ensures within { IfSome result (λ t. t.1 ≤ length piece.now) }
    ensures value { IfSome result (λ t. IsMessage H.Packet.WAY H.head B.own H.Packet.form t.0) }
    ensures reads { IfSome result (λ t. (r : Reading) × MessageReads H.Packet.WAY (message_value H.Packet.WAY H.head B.own H.Packet.form t.0) r × (spelled r ≡ bit_lists.part 0 (8 * t.1) (bits piece.now))) }
    ensures left { IfSome result (λ t. part.new ≡ part.old) }
    ensures part { IfSome part.new (λ t. IsMessagePart H.Store.holds H.Packet.WAY (bits piece.now) t.0 t.1) }
{
    let (nid, bytes) = frame_at(piece)?;
    match front_bits(H::Packet::WAY, nid) {
        Some(front) => Some((typed_at(alloc, nid, front, piece, bytes, part)?, bytes)),
        None => Some((kept_at(alloc, nid, piece, bytes)?, bytes)),
    }
}

/// How many bytes a message of this way has that a piece begins with, which then lies whole in it. It may always return
/// `None`. Takes no memory.
#[inline(always)]
pub fn message_seen<H: Head, B: Own<Front = H>>(piece: &[u8]) -> Option<usize>
    requires small { length (bits piece.now) < 2 ^ 64 }
    ensures within { IfSome result (λ n. n ≤ length piece.now) }
    ensures reads { IfSome result (λ n. (m : MessageValue) × (r : Reading) × MessageReads H.Packet.WAY m r × (spelled r ≡ bit_lists.part 0 (8 * n) (bits piece.now))) }
{
    let (nid, bytes) = frame_at(piece)?;
    let Some(front) = front_bits(H::Packet::WAY, nid) else {
        return Some(bytes);
    };
    let end = 8 * bytes;
    if front > end {
        return None;
    }
    front_numbers(H::Packet::WAY, nid, piece)?;
    let mut store = PacketCount::<H::Packet>::new();
    match take_run(
        &mut store,
        Carrier::Message(H::Packet::WAY),
        end - front,
        piece,
        front,
    )? {
        Run::All(_) => Some(bytes),
        Run::First(_) => None,
    }
}

/// What a message is but for its packets and PADDING.
#[derive(Drop)]
pub enum Outline<'a, H, B> {
    /// A typed message of this head and body, which take this many bits with what comes before them.
    Typed { head: H, body: B, front: usize },
    /// A message of this number, whose bits after L_MESSAGE are kept.
    Kept { nid: u8, bits: BitSlice<'a> },
}

/// The outline of the message of this way that a piece begins with, if the bits before its packets are admitted, and how
/// many bytes it has, which lie in the piece. It may always return `None`. Takes no memory.
#[inline(always)]
pub fn outline_of<H: Head, B: Own<Front = H>>(piece: &[u8]) -> Option<(Outline<'_, H, B>, usize)>
    requires small { length (bits piece.now) < 2 ^ 64 }
    ensures most { IfSome result (λ t. t.1 < 1024) }
    ensures within { IfSome result (λ t. t.1 ≤ length piece.now) }
    ensures outline { IfSome result (λ t. IsOutline H.Packet.WAY H.reading_of B.reading_of B.own (bits piece.now) t.1 t.0) }
{
    let (nid, bytes) = frame_at(piece)?;
    let end = 8 * bytes;
    let Some(front) = front_bits(H::Packet::WAY, nid) else {
        let begin = NUMBER_BITS + LENGTH_BITS;
        let bits = bits_at(piece, begin, end - begin);
        return Some((Outline::Kept { nid, bits }, bytes));
    };
    if front > end {
        return None;
    }
    let (head, body) = front_at(nid, piece)?;
    Some((Outline::Typed { head, body, front }, bytes))
}

/// NID_MESSAGE and L_MESSAGE of the message that a piece begins with, if as many bytes lie in it.
#[inline(always)]
pub(crate) fn frame_at(piece: &[u8]) -> Option<(u8, usize)>
    ensures small { IfSome result (λ t. t.0 < 2 ^ 8) }
    ensures number { IfSome result (λ t. num 8 t.0 ≡ bit_lists.part 0 8 (bits piece.now)) }
    ensures length { IfSome result (λ t. num 10 t.1 ≡ bit_lists.part 8 10 (bits piece.now)) }
    ensures least { IfSome result (λ t. 3 ≤ t.1) }
    ensures most { IfSome result (λ t. t.1 < 2 ^ 10) }
    ensures within { IfSome result (λ t. t.1 ≤ length piece.now) }
    ensures inside { IfSome result (λ t. 8 * t.1 ≤ length (bits piece.now)) }
{
    if piece.len() < 3 {
        return None;
    }
    let nid = number_at(piece, 0, NUMBER_BITS) as u8;
    let bytes = number_at(piece, NUMBER_BITS, LENGTH_BITS) as usize;
    if bytes < 3 || bytes > piece.len() {
        return None;
    }
    Some((nid, bytes))
}

/// The message of a number that isn't typed, whose bits after L_MESSAGE are kept.
#[cold]
#[inline(never)]
fn kept_at<H: Head, B: Own<Front = H>>(
    alloc: Global,
    nid: u8,
    piece: &[u8],
    bytes: usize,
) -> Option<MessageOf<H, B>>
    requires inside { 8 * bytes ≤ length (bits piece.now) }
    requires least { 3 ≤ bytes }
    requires most { bytes < 2 ^ 10 }
    requires untyped { front_row H.Packet.WAY nid ≡ None }
    requires number { num 8 nid ≡ part 0 8 (bits piece.now) }
    requires length { num 10 bytes ≡ part 8 10 (bits piece.now) }
    ensures value { IfSome result (λ m. IsMessage H.Packet.WAY H.head B.own H.Packet.form m) }
    ensures reads { IfSome result (λ m. (r : Reading) × MessageReads H.Packet.WAY (message_value H.Packet.WAY H.head B.own H.Packet.form m) r × (spelled r ≡ part 0 (8 * bytes) (bits piece.now))) }
{
    let front = NUMBER_BITS + LENGTH_BITS;
    match Bits::from_slice(alloc, bits_at(piece, front, 8 * bytes - front)) {
        Ok(bits) => Some(MessageOf {
            content: Content::Kept { nid, bits },
            bytes,
        }),
        Err(_) => None,
    }
}

/// The typed message of this number, with this many bits before its packets.
#[inline(always)]
fn typed_at<H: Head, B: Own<Front = H>>(
    alloc: Global,
    nid: u8,
    front: usize,
    piece: &[u8],
    bytes: usize,
    part: &mut Option<(MessageRest<H, B, H::Store>, usize)>,
) -> Option<MessageOf<H, B>>
    requires inside { 8 * bytes ≤ length (bits piece.now) }
    requires small { length (bits piece.now) < 2 ^ 64 }
    requires most { bytes < 2 ^ 10 }
    requires typed { (vars : List Var) × (front_row H.Packet.WAY nid ≡ Some vars) × (front ≡ front_bits vars) }
    requires number { num 8 nid ≡ bit_lists.part 0 8 (bits piece.now) }
    requires length { num 10 bytes ≡ bit_lists.part 8 10 (bits piece.now) }
    requires part { IfSome part.old (λ t. IsMessagePart H.Store.holds H.Packet.WAY (bits piece.now) t.0 t.1) }
    ensures value { IfSome result (λ m. IsMessage H.Packet.WAY H.head B.own H.Packet.form m) }
    ensures reads { IfSome result (λ m. (r : Reading) × MessageReads H.Packet.WAY (message_value H.Packet.WAY H.head B.own H.Packet.form m) r × (spelled r ≡ bit_lists.part 0 (8 * bytes) (bits piece.now))) }
    ensures left { IfSome result (λ t. part.new ≡ part.old) }
    ensures part { IfSome part.new (λ t. IsMessagePart H.Store.holds H.Packet.WAY (bits piece.now) t.0 t.1) }
{
    let end = 8 * bytes;
    if front > end {
        return None;
    }
    let (head, body) = front_at(nid, piece)?;
    let mut store = H::Store::over(PacketList::new(alloc));
    let carrier = Carrier::Message(H::Packet::WAY);
    let left = match take_run(&mut store, carrier, end - front, piece, front)? {
        Run::All(left) => left,
        Run::First(left) => {
            resume(alloc, store, front, end, left, piece, part);
            return None;
        }
    };
    let padding = number_at(piece, end - left, left) as u8;
    Some(MessageOf {
        content: Content::Typed {
            head,
            body,
            packets: ListOf::from_vec(store.into_list().packets),
            padding,
        },
        bytes,
    })
}

/// Puts into `part` what is left of a typed message of which the first packets were taken in one pass. Its packets have the
/// room from `front` to `end`, of which this many bits are left. The variables before them are passed once more. It may
/// always put nothing there.
#[cold]
#[inline(never)]
fn resume<H: Head, B: Own<Front = H>>(
    alloc: Global,
    store: H::Store,
    front: usize,
    end: usize,
    left: usize,
    piece: &[u8],
    part: &mut Option<(MessageRest<H, B, H::Store>, usize)>,
)
    requires some { 0 < front }
    requires order { front ≤ end }
    requires inside { end ≤ length (bits piece.now) }
    requires most { end ≤ 8 * 1023 }
    requires small { length (bits piece.now) < 2 ^ 64 }
    requires run { RunFirst (Message H.Packet.WAY) (end - front) (H.Store.holds store) (bits piece.now) front left }
    requires part { IfSome part.old (λ t. IsMessagePart H.Store.holds H.Packet.WAY (bits piece.now) t.0 t.1) }
    ensures { IfSome part.new (λ t. IsMessagePart H.Store.holds H.Packet.WAY (bits piece.now) t.0 t.1) }
{
    let mut rest = MessageRest::new(H::Store::over(PacketList::new(alloc)));
    if !pass_front(&mut rest, piece, front) || !rest.is_at_packets(end - front) {
        return;
    }
    rest.resume(store, left);
    *part = Some((rest, end - left));
}

/// What comes before the packets of a message of this number, after L_MESSAGE, if the number is typed and each variable
/// admits its number.
#[inline(always)]
fn front_at<H: Head, B: Own<Front = H>>(nid: u8, piece: &[u8]) -> Option<(H, B)>
    requires inside { 18 ≤ length (bits piece.now) }
    requires small { length (bits piece.now) < 2 ^ 64 }
    ensures { IfSome result (λ t. (f : List ℕ) × FrontAt (front_vars H.Packet.WAY nid) (bits piece.now) 18 f (front_bits (front_vars H.Packet.WAY nid)) × IsFrontBy H.Packet.WAY H.head B.own nid f t.0 t.1) }
{
    let numbers = front_numbers(H::Packet::WAY, nid, piece)?;
    Some(front_by(nid, numbers.as_slice()))
}

/// The numbers of the variables before the packets of a message of this number, after L_MESSAGE, if the number is typed
/// and each is admitted.
#[inline(always)]
fn front_numbers(way: Way, nid: u8, piece: &[u8]) -> Option<ArrayVec<u64, 5>>
    requires inside { 18 ≤ length (bits piece.now) }
    requires small { length (bits piece.now) < 2 ^ 64 }
    ensures { IfSome result (λ f. WholeFront way nid (bits piece.now) f.items) }
{
    let mut walker = PieceWalker::new(piece, NUMBER_BITS + LENGTH_BITS);
    let mut numbers = ArrayVec::new();
    take_items(head_row(way).items, &mut walker, &mut numbers)?;
    let row = message_row(way, nid)?;
    take_items(row.items, &mut walker, &mut numbers)?;
    Some(numbers)
}

/// Takes the number of a variable, if it is admitted.
#[inline(always)]
fn take_number(var: Var, walker: &mut PieceWalker<'_>, numbers: &mut ArrayVec<u64, 5>) -> Option<()>
    requires room { length numbers.old.items < 5 }
    requires place { walker.old.place ≤ length walker.old.bits }
    ensures front { OnSome result ((n : ℕ) × (numbers.new.items ≡ numbers.old.items ++ n ∷ []) × FrontAt (var ∷ []) walker.old.bits walker.old.place (n ∷ []) walker.new.place) }
    ensures bits { walker.new.bits ≡ walker.old.bits }
{
    let number = walker.take(var.width())?;
    if !var.admits(number) {
        return None;
    }
    numbers.push(number);
    Some(())
}

/// Takes the numbers of the variables of a table, if each is admitted.
#[inline(always)]
fn take_items(
    items: &[RowItem],
    walker: &mut PieceWalker<'_>,
    numbers: &mut ArrayVec<u64, 5>,
) -> Option<()>
    requires room { length numbers.old.items + length items.now ≤ 5 }
    requires place { walker.old.place ≤ length walker.old.bits }
    ensures front { OnSome result ((vars : List Var) → variables (layout items.now) ≡ Some vars → (ns : List ℕ) × (numbers.new.items ≡ numbers.old.items ++ ns) × FrontAt vars walker.old.bits walker.old.place ns walker.new.place) }
    ensures bits { walker.new.bits ≡ walker.old.bits }
{
    for item in items {
        match item {
            RowItem::One(var) => take_number(*var, walker, numbers)?,
            _ => return None,
        }
    }
    Some(())
}
