//! Why a bit is refused, as numbers.

ghost use Rattle.std.specs.Prelude.{◌≡◌, ◌≤◌, ℕ, MatchResult};
ghost use Rattle.etcs_bits.specs.Bits.{bits};
ghost use Rattle.etcs_vars.specs.declared.var.Var.{Var};
ghost use Rattle.etcs_vars.specs.Reading.{IsOutcome, refused};
ghost use Rattle.etcs_text.specs.Entries.{EntryReads};
ghost use Rattle.etcs_c.specs.Explained.{IsFound, SaysReason, SaysUnrefused};
ghost use Rattle.etcs_c.specs.Reasons.{cause_number, here_number, mark_of, nid_of, number_of, reason_of, room_of, unfit_of};

use crate::answer::{EtcsAnswer, REFUSED, refuse};
use crate::found::check;
use etcs_rows::{Cause, Here, Refusal};
use etcs_text::Kind;
use etcs_text::inner::refusal_at;
use std::alloc::Global;

/// The tables have none of the numbers that begin with these bits.
pub const SPARE: u32 = 0;
/// The tables have some of them, but none that fits here.
pub const UNFIT: u32 = 1;

/// The variable may have any number that it admits.
pub const ANY: u32 = 0;
/// It is L_MESSAGE.
pub const MESSAGE_LENGTH: u32 = 1;
/// It is NID_PACKET.
pub const PACKET_NUMBER: u32 = 2;
/// It is L_PACKET.
pub const PACKET_LENGTH: u32 = 3;
/// It is a variable of a packet, after L_PACKET.
pub const ROW: u32 = 4;

/// The bytes have the whole number.
pub const HAS_NUMBER: u32 = 1;
/// There is a number below that may come.
pub const HAS_BELOW: u32 = 2;
/// There is a number above that may come.
pub const HAS_ABOVE: u32 = 4;
/// A number of bits is left.
pub const HAS_ROOM: u32 = 8;
/// A message or packet is named.
pub const HAS_NID: u32 = 16;

/// Why a bit is refused: no number of its variable may come here that begins with the bits up to it. A member that isn't
/// there is 0.
#[repr(C)]
#[derive(Clone, Copy)]
pub struct EtcsReason {
    /// The bits of the variable up to the refused one, and with it, as a number, the first one highest.
    pub bits: u64,
    /// How many they are.
    pub count: u64,
    /// The whole number of the variable, if the bytes have it (`HAS_NUMBER`).
    pub number: u64,
    /// The greatest number below those that begin with the bits that may come in their place (`HAS_BELOW`).
    pub below: u64,
    /// The least number above them that may (`HAS_ABOVE`).
    pub above: u64,
    /// With `UNFIT` one of the numbers that the tables have.
    pub unfit: u64,
    /// How many bits are left (`HAS_ROOM`): of the packet, or, at NID_PACKET and L_PACKET, of the telegram or message, counted
    /// from the packet's first bit.
    pub room: u64,
    /// Why none of the numbers may come: `SPARE` or `UNFIT`.
    pub cause: u32,
    /// What comes here: `ANY`, `MESSAGE_LENGTH`, `PACKET_NUMBER`, `PACKET_LENGTH` or `ROW`.
    pub here: u32,
    /// The number of the message whose length comes here, or of the packet that it is in (`HAS_NID`).
    pub nid: u32,
    /// Which members are there: the sum of their `HAS_NUMBER` and so on.
    pub has: u32,
}

/// The number of a cause.
fn cause_number(cause: Cause) -> u32
    ensures { result ≡ cause_number cause }
{
    match cause {
        Cause::Spare => SPARE,
        Cause::Unfit(_) => UNFIT,
    }
}

/// The number that the tables have.
fn unfit_of(cause: Cause) -> u64
    ensures { result ≡ unfit_of cause }
{
    match cause {
        Cause::Spare => 0,
        Cause::Unfit(number) => number,
    }
}

/// The number of what comes next.
fn here_number(here: &Here) -> u32
    ensures { result ≡ here_number here.now }
{
    match here {
        Here::Any => ANY,
        Here::MessageLength(_, _) => MESSAGE_LENGTH,
        Here::PacketNumber(_, _) => PACKET_NUMBER,
        Here::PacketLength(_, _, _) => PACKET_LENGTH,
        Here::Row(_, _, _) => ROW,
    }
}

/// The number of the message whose length comes next, or of the packet whose length or variable does.
fn nid_of(here: &Here) -> Option<u32>
    ensures { result ≡ nid_of here.now }
{
    match here {
        Here::Any => None,
        Here::MessageLength(_, nid) => Some(u32::from(*nid)),
        Here::PacketNumber(_, _) => None,
        Here::PacketLength(_, nid, _) => Some(u32::from(*nid)),
        Here::Row(nid, _, _) => Some(u32::from(*nid)),
    }
}

/// How many bits are left.
fn room_of(here: &Here) -> Option<u64>
    ensures { result ≡ room_of here.now }
{
    match here {
        Here::Any => None,
        Here::MessageLength(_, _) => None,
        Here::PacketNumber(_, room) => Some(*room as u64),
        Here::PacketLength(_, _, room) => Some(*room as u64),
        Here::Row(_, _, room) => Some(*room as u64),
    }
}

/// The mark of a member that is there, else 0.
fn mark_of<T: Copy>(mark: u32, member: Option<T>) -> u32
    ensures value { result ≡ mark_of mark member }
    ensures most { result ≤ mark }
{
    match member {
        Some(_) => mark,
        None => 0,
    }
}

/// The reason of a refusal.
fn reason_of(refusal: &Refusal) -> EtcsReason
    ensures { result ≡ reason_of refusal.now }
{
    let (nid, room) = (nid_of(&refusal.here), room_of(&refusal.here));
    let nearest = mark_of(HAS_BELOW, refusal.below) + mark_of(HAS_ABOVE, refusal.above);
    let left = mark_of(HAS_ROOM, room) + mark_of(HAS_NID, nid);
    EtcsReason {
        bits: refusal.bits,
        count: refusal.count as u64,
        number: refusal.number.unwrap_or(0),
        below: refusal.below.unwrap_or(0),
        above: refusal.above.unwrap_or(0),
        unfit: unfit_of(refusal.cause),
        room: room.unwrap_or(0),
        cause: cause_number(refusal.cause),
        here: here_number(&refusal.here),
        nid: nid.unwrap_or(0),
        has: mark_of(HAS_NUMBER, refusal.number) + nearest + left,
    }
}

/// Why a bit of the bytes is refused; that bit and its variable are put into the answer. Or the status of what the bytes
/// begin with, as for a check.
pub(crate) fn refusal_of(
    alloc: Global,
    kind: Kind,
    bytes: &[u8],
    answer: &mut EtcsAnswer,
) -> Result<Refusal, u32>
    ensures { MatchResult result (λ r. IsFound kind (bits bytes.now) r answer.new) (λ s. SaysUnrefused (EntryReads kind) (bits bytes.now) s answer.new × ((i : ℕ) (x : Var) → IsOutcome (EntryReads kind) (bits bytes.now) (refused i x) → ⊥)) }
{
    match refusal_at(kind, bytes) {
        Some(refusal) => {
            refuse(refusal.bit, refusal.var, answer);
            Ok(refusal)
        }
        None => {
            let status = check(alloc, kind, bytes, answer);
            answer.written = 0;
            Err(status)
        }
    }
}

/// Returns the status of what the bytes begin with, and writes why a bit is refused.
pub(crate) fn write_reason(
    alloc: Global,
    kind: Kind,
    bytes: &[u8],
    out: &mut EtcsReason,
    answer: &mut EtcsAnswer,
) -> u32
    ensures { SaysReason kind (bits bytes.now) out.old out.new result answer.new }
{
    match refusal_of(alloc, kind, bytes, answer) {
        Ok(refusal) => {
            *out = reason_of(&refusal);
            REFUSED
        }
        Err(status) => status,
    }
}
