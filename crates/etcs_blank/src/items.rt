//! Blanks of each kind.

ghost use Rattle.std.specs.Prelude.{◌≡◌, ◌<◌, ◌++◌, [], length, OnErr, OnOk, IfOk, Option, option_map};
ghost use Rattle.std.specs.Bool.{MatchBool};
ghost use Rattle.etcs_bits.specs.Bits.{bits};
ghost use Rattle.etcs_vars.specs.Reading.{spelled};
ghost use Rattle.etcs_tables.specs.Layouts.{Layout, items};
ghost use Rattle.etcs_text.specs.Pairs.{ItemLanguage};
ghost use Rattle.etcs_blank.specs.Blanks.{blank_front, blank_message, blank_own, blank_reading, closed, closes, filled};

use crate::frames::push_packets;
use crate::pairs::{bits_of, push_bits, push_row};
use etcs_tables::{Row, Way, head_row, header_row, message_row};
use etcs_text::{Kind, write_pairs};
use etcs_vars::Var;
use std::alloc::{AllocError, Global};

/// Appends header, packets, packet 255, FILL and PAD of a telegram of this many user bits and bits of PAD. Returns `false` if
/// these are more than any item has.
///
/// # Errors
///
/// If memory runs out.
fn push_telegram(
    alloc: Global,
    pairs: &mut Vec<(Var, u64)>,
    user: usize,
    pad: usize,
    nids: &[u8],
) -> Result<bool, AllocError>
    requires { pairs.old.items ≡ [] }
    ensures { IfOk result (λ yes. MatchBool yes (pairs.new.items ≡ filled user pad (blank_front nids.now)) (8184 < length (spelled (filled user pad (blank_front nids.now))))) }
{
    push_row(pairs, header_row().items, 0)?;
    if !push_packets(alloc, pairs, Way::ToTrain, nids)? {
        return Ok(false);
    }
    pairs.push((Var::NID_PACKET, 255))?;
    let Some(bits) = bits_of(pairs.as_slice()) else {
        return Ok(false);
    };
    push_bits(pairs, Var::FILL, true, user.saturating_sub(bits))?;
    push_bits(pairs, Var::PAD, false, pad)?;
    Ok(true)
}

/// Appends the message of this number with these pairs between L_MESSAGE and what fills the last byte. Returns `false` if they
/// are more than any item has.
///
/// # Errors
///
/// If memory runs out.
fn push_closed(
    pairs: &mut Vec<(Var, u64)>,
    nid: u8,
    closes: Var,
    rest: &[(Var, u64)],
) -> Result<bool, AllocError>
    requires { pairs.old.items ≡ [] }
    ensures { IfOk result (λ yes. MatchBool yes (pairs.new.items ≡ closed nid closes rest.now) (8184 < length (spelled rest.now))) }
{
    let Some(bits) = bits_of(rest) else {
        return Ok(false);
    };
    let bits = 18 + bits;
    let bytes = (bits + 7) / 8;
    pairs.push((Var::NID_MESSAGE, u64::from(nid)))?;
    pairs.push((Var::L_MESSAGE, bytes as u64))?;
    pairs.extend_from_slice(rest)?;
    push_bits(pairs, closes, false, 8 * bytes - bits)?;
    Ok(true)
}

/// Appends what a message of this row has after L_MESSAGE and before its packets.
///
/// # Errors
///
/// If memory runs out.
fn push_own(pairs: &mut Vec<(Var, u64)>, way: Way, row: Option<Row>) -> Result<(), AllocError>
    ensures { (l : Option Layout) → option_map (λ r. r.items.now) row ≡ option_map items l → OnOk result (pairs.new.items ≡ pairs.old.items ++ blank_own way l) }
{
    match row {
        Some(row) => {
            push_row(pairs, head_row(way).items, 0)?;
            push_row(pairs, row.items, 0)
        }
        None => Ok(()),
    }
}

/// What fills the last byte of a message of this row.
fn closes(row: Option<Row>) -> Var
    ensures { (l : Option Layout) → option_map (λ r. r.items.now) row ≡ option_map items l → result ≡ closes l }
{
    match row {
        Some(_) => Var::PADDING,
        None => Var::OTHER_DATA,
    }
}

/// Appends the message of the first number with packets of the others; nothing without a number. Returns `false` if it is
/// longer than any item.
///
/// # Errors
///
/// If memory runs out.
fn push_message(
    alloc: Global,
    pairs: &mut Vec<(Var, u64)>,
    way: Way,
    nids: &[u8],
) -> Result<bool, AllocError>
    requires { pairs.old.items ≡ [] }
    ensures { IfOk result (λ yes. MatchBool yes (pairs.new.items ≡ blank_message way nids.now) (8184 < length (spelled (blank_message way nids.now)))) }
{
    let Some((nid, nids)) = nids.split_first() else {
        return Ok(true);
    };
    let row = message_row(way, *nid);
    let mut rest = Vec::new(alloc);
    push_own(&mut rest, way, row)?;
    if !push_packets(alloc, &mut rest, way, nids)? {
        return Ok(false);
    }
    push_closed(pairs, *nid, closes(row), rest.as_slice())
}

/// Appends the pairs of the item of a kind with packets of these numbers. Returns `false` if it is longer than any item.
///
/// # Errors
///
/// If memory runs out.
fn push_item(
    alloc: Global,
    pairs: &mut Vec<(Var, u64)>,
    kind: Kind,
    nids: &[u8],
) -> Result<bool, AllocError>
    requires { pairs.old.items ≡ [] }
    ensures { IfOk result (λ yes. MatchBool yes (pairs.new.items ≡ blank_reading kind nids.now) (8184 < length (spelled (blank_reading kind nids.now)))) }
{
    match kind {
        Kind::Long => push_telegram(alloc, pairs, 830, 2, nids),
        Kind::Short => push_telegram(alloc, pairs, 210, 6, nids),
        Kind::Radio => push_message(alloc, pairs, Way::ToTrain, nids),
        Kind::Train => push_message(alloc, pairs, Way::ToTrack, nids),
    }
}

/// Appends the bytes of the item of a kind with packets of these numbers, for a message after its own, and returns `true`; or
/// returns `false` and appends nothing, exactly if this is no item of the kind: a packet isn't one of the kind, there is no room
/// for it, or a message has no number.
///
/// Each variable has its least number, except that Q_SCALE and Q_DIR have 1; lists have no entries, and a packet or message
/// whose number isn't typed has no variables. FILL is ones, PADDING zeros.
///
/// # Errors
///
/// If memory runs out. `out` then stays as it was.
pub fn blank(alloc: Global, kind: Kind, nids: &[u8], out: &mut Vec<u8>) -> Result<bool, AllocError>
    ensures ok { IfOk result (λ yes. MatchBool yes (ItemLanguage kind (blank_reading kind nids.now) × (bits out.new.items ≡ bits out.old.items ++ spelled (blank_reading kind nids.now))) ((ItemLanguage kind (blank_reading kind nids.now) → ⊥) × (out.new.items ≡ out.old.items))) }
    ensures err { OnErr result (out.new.items ≡ out.old.items) }
{
    let mut pairs = Vec::new(alloc);
    if push_item(alloc, &mut pairs, kind, nids)? {
        write_pairs(alloc, kind, pairs.as_slice(), out)
    } else {
        Ok(false)
    }
}
