//! Packets, and what is around them.

ghost use Rattle.std.specs.Prelude.{◌≡◌, ◌<◌, ◌++◌, length, IfOk};
ghost use Rattle.std.specs.Bool.{MatchBool};
ghost use Rattle.etcs_vars.specs.declared.var.Var.{Var};
ghost use Rattle.etcs_vars.specs.Reading.{spelled};
ghost use Rattle.etcs_tables.specs.Rows.{row_to};
ghost use Rattle.etcs_packets.specs.PacketReadings.{in_frame};
ghost use Rattle.etcs_blank.specs.Blanks.{blank_packet, blank_packets, blank_fields};

use crate::pairs::{bits_of, first_number, push_fields};
use etcs_tables::{Way, frame_bits, row_of};
use etcs_vars::Var;
use std::alloc::{AllocError, Global};

/// Appends the frame of a packet, and then its variables. Returns `false` if these are more than any item has.
///
/// # Errors
///
/// If memory runs out.
fn push_framed(
    pairs: &mut Vec<(Var, u64)>,
    way: Way,
    nid: u8,
    fields: &[(Var, u64)],
) -> Result<bool, AllocError>
    ensures { IfOk result (λ yes. MatchBool yes (pairs.new.items ≡ pairs.old.items ++ in_frame way nid 1 (length (spelled fields.now)) fields.now) (8184 < length (spelled fields.now))) }
{
    let Some(bits) = bits_of(fields) else {
        return Ok(false);
    };
    pairs.push((Var::NID_PACKET, u64::from(nid)))?;
    if way == Way::ToTrain {
        pairs.push((Var::Q_DIR, 1))?;
    }
    pairs.push((Var::L_PACKET, (frame_bits(way) + bits) as u64))?;
    pairs.extend_from_slice(fields)?;
    Ok(true)
}

/// Appends the packet of this number with its frame. Returns `false` if it is longer than any item.
///
/// # Errors
///
/// If memory runs out.
fn push_typed(
    alloc: Global,
    pairs: &mut Vec<(Var, u64)>,
    way: Way,
    nid: u8,
) -> Result<bool, AllocError>
    ensures { IfOk result (λ yes. MatchBool yes (pairs.new.items ≡ pairs.old.items ++ in_frame way nid 1 (length (spelled (blank_fields (row_to way nid)))) (blank_fields (row_to way nid))) (8184 < length (spelled (blank_fields (row_to way nid))))) }
{
    let mut fields = Vec::new(alloc);
    push_fields(&mut fields, row_of(way, nid))?;
    push_framed(pairs, way, nid, fields.as_slice())
}

/// Appends the packet of this number. Returns `false` if it is longer than any item.
///
/// # Errors
///
/// If memory runs out.
fn push_packet(
    alloc: Global,
    pairs: &mut Vec<(Var, u64)>,
    way: Way,
    nid: u8,
) -> Result<bool, AllocError>
    ensures { IfOk result (λ yes. MatchBool yes (pairs.new.items ≡ pairs.old.items ++ blank_packet way nid) (8184 < length (spelled (blank_packet way nid)))) }
{
    match way {
        Way::ToTrain => {
            if nid == 0 {
                pairs.push((Var::NID_PACKET, 0))?;
                pairs.push((Var::NID_VBCMK, first_number(Var::NID_VBCMK)))?;
                Ok(true)
            } else {
                push_typed(alloc, pairs, way, nid)
            }
        }
        Way::ToTrack => push_typed(alloc, pairs, way, nid),
    }
}

/// Appends packets of these numbers. Returns `false` if they are longer than any item.
///
/// # Errors
///
/// If memory runs out.
pub(crate) fn push_packets(
    alloc: Global,
    pairs: &mut Vec<(Var, u64)>,
    way: Way,
    nids: &[u8],
) -> Result<bool, AllocError>
    ensures { IfOk result (λ yes. MatchBool yes (pairs.new.items ≡ pairs.old.items ++ blank_packets way nids.now) (8184 < length (spelled (blank_packets way nids.now)))) }
{
    for nid in nids {
        if !push_packet(alloc, pairs, way, *nid)? {
            return Ok(false);
        }
    }
    Ok(true)
}
