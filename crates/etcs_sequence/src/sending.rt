//! The variables of packets that were read, sent in order.

ghost use Rattle.std.specs.Prelude.{◌≡◌, ◌+◌, ◌^◌, ◌≤◌, ◌<◌, ◌∷◌, [], Some, length, OnOk, OnErr};
ghost use Rattle.etcs_vars.specs.declared.var.Var.TheVariants.{NID_PACKET, L_PACKET, OTHER_DATA};
ghost use Rattle.etcs_vars.specs.Reading.{Reading, kept, spelled};
ghost use Rattle.etcs_tables.specs.Frames.{directed};
ghost use Rattle.etcs_tables.specs.Layouts.{Layout, layout};
ghost use Rattle.etcs_tables.specs.Rows.{row_to};
ghost use Rattle.etcs_reader.specs.Rests.{Goes};
ghost use Rattle.etcs_rows.specs.Frames.{way_of};
ghost use Rattle.etcs_rows.specs.Places.{read_of};
ghost use Rattle.etcs_packets.specs.PacketReadings.{in_frame};
ghost use Rattle.etcs_sequence.specs.Contents.{closing};
ghost use Rattle.etcs_sequence.specs.Held.{here_of, packets_so_far};
ghost use Rattle.etcs_sequence.specs.Lefts.{ahead, left_of, Here};

use crate::list::PacketList;
use crate::stage::Stage;
use crate::state::PacketsState;
use etcs_bits::BitSlice;
use etcs_packets::inner::{AnyPacket, room_after, send_all, send_frame};
use etcs_rows::Place;
use etcs_rows::inner::Carrier;
use etcs_tables::{CLOSING, Row, Way, frame_bits, head_bits, row_of};
use etcs_vars::Var;
use etcs_vars::inner::{VarSink, send_bits};
use std::alloc::AllocError;

/// Sends the variables of a row with these numbers, up to the first that the row doesn't admit.
fn send_numbers<S: VarSink>(row: Row, numbers: &[u64], out: &mut S) -> Result<(), AllocError>
    ensures ok { OnOk result (out.new ≡ S.with out.old (read_of (layout row.items.now) numbers.now)) }
    ensures err { OnErr result (S.failed out.old out.new) }
{
    let mut place = Place::start(row);
    for number in numbers {
        let Some(var) = place.var() else {
            return Ok(());
        };
        if !var.admits(*number) {
            return Ok(());
        }
        out.send(&[(var, *number)])?;
        place.pass(*number);
    }
    Ok(())
}

/// Sends the frame of a typed packet of this length, and the variables of its row with these numbers.
fn send_row<S: VarSink>(
    way: Way,
    nid: u8,
    dir: u8,
    length: usize,
    numbers: &[u64],
    out: &mut S,
) -> Result<(), AllocError>
    ensures ok { (row : Layout) → row_to way nid ≡ Some row → OnOk result (out.new ≡ S.with out.old ((NID_PACKET, nid) ∷ directed way dir ((L_PACKET, length) ∷ read_of row numbers.now))) }
    ensures err { OnErr result (S.failed out.old out.new) }
{
    send_frame(way, u64::from(nid), dir, length as u64, out)?;
    match row_of(way, nid) {
        Some(row) => send_numbers(row, numbers, out),
        None => Ok(()),
    }
}

/// Sends the frame of a packet of which these bits are kept and this many are left, and the bits.
fn send_kept<S: VarSink>(
    way: Way,
    nid: u8,
    dir: u8,
    left: usize,
    bits: &BitSlice<'_>,
    out: &mut S,
) -> Result<(), AllocError>
    requires short { length bits.now + left ≤ 8191 }
    ensures ok { OnOk result (out.new ≡ S.with out.old (in_frame way nid dir (length bits.now + left) (kept OTHER_DATA bits.now))) }
    ensures err { OnErr result (S.failed out.old out.new) }
{
    let length = frame_bits(way) + bits.len() + left;
    send_frame(way, u64::from(nid), dir, length as u64, out)?;
    send_bits(Var::OTHER_DATA, bits, out)
}

/// Sends what comes before L_PACKET.
fn send_begun<S: VarSink>(way: Way, nid: u8, dir: u8, out: &mut S) -> Result<(), AllocError>
    ensures ok { OnOk result (out.new ≡ S.with out.old ((NID_PACKET, nid) ∷ directed way dir [])) }
    ensures err { OnErr result (S.failed out.old out.new) }
{
    let number = (Var::NID_PACKET, u64::from(nid));
    match way {
        Way::ToTrain => out.send(&[number, (Var::Q_DIR, u64::from(dir))]),
        Way::ToTrack => out.send(&[number]),
    }
}

/// Sends what closes packets: packet 255 in a telegram.
fn send_closing<S: VarSink>(carrier: Carrier, out: &mut S) -> Result<(), AllocError>
    ensures ok { OnOk result (out.new ≡ S.with out.old (closing carrier)) }
    ensures err { OnErr result (S.failed out.old out.new) }
{
    match carrier {
        Carrier::Telegram => out.send(&[(Var::NID_PACKET, u64::from(CLOSING))]),
        Carrier::Message(_) => out.send(&[]),
    }
}

impl PacketsState {
    /// How many bits of the room are left after the variables that were read. Requires that a word counts them.
    pub fn ahead(&self) -> usize
        requires small { ahead self.now.carrier self.now.room self.now.stage < 2 ^ 64 }
        ensures { result ≡ ahead self.now.carrier self.now.room self.now.stage }
    {
        match &self.stage {
            Stage::Number => self.room,
            Stage::Marker => self.room.saturating_sub(Var::NID_PACKET.width()),
            Stage::Direction(_) => self.room.saturating_sub(Var::NID_PACKET.width()),
            Stage::Length(_, _) => self.room.saturating_sub(head_bits(self.carrier.way())),
            Stage::Row(_, _, row) => row.len + self.room,
            Stage::Kept(_, _, left) => *left + self.room,
            Stage::Closed => self.room,
        }
    }

    /// Sends the variables so far of the packet that is being read, of which these numbers or bits are kept, and which
    /// take this many bits with the packets before it; or what closed the packets.
    fn send_here<P: AnyPacket, S: VarSink>(
        &self,
        taken: usize,
        list: &PacketList<P>,
        out: &mut S,
    ) -> Result<(), AllocError>
        requires way { way_of self.now.carrier ≡ P.WAY }
        requires goes { Goes (left_of self.now.carrier self.now.room self.now.stage) }
        requires here { (h : Reading) × Here self.now.carrier self.now.stage list.now.numbers.items list.now.bits h }
        requires taken { taken ≡ length (spelled (packets_so_far P.form self.now.carrier self.now.stage list.now.packets.items list.now.numbers.items list.now.bits)) }
        ensures ok { OnOk result (out.new ≡ S.with out.old (here_of self.now.carrier self.now.stage list.now.numbers.items list.now.bits)) }
        ensures err { OnErr result (S.failed out.old out.new) }
    {
        let way = self.carrier.way();
        match &self.stage {
            Stage::Number => out.send(&[]),
            Stage::Marker => out.send(&[(Var::NID_PACKET, 0)]),
            Stage::Direction(nid) => out.send(&[(Var::NID_PACKET, u64::from(*nid))]),
            Stage::Length(nid, dir) => send_begun(way, *nid, *dir, out),
            Stage::Row(nid, dir, row) => {
                let Some(here) = room_after(taken, list.packets.as_slice()) else {
                    unreachable!()
                };
                let length = here + row.len;
                send_row(way, *nid, *dir, length, list.numbers.as_slice(), out)
            }
            Stage::Kept(nid, dir, left) => {
                send_kept(way, *nid, *dir, *left, &list.bits.as_slice(), out)
            }
            Stage::Closed => send_closing(self.carrier, out),
        }
    }

    /// Sends the packets that were read, and the variables so far of the one that is being read, or what closed them,
    /// in order.
    ///
    /// Requires that the list's packets go the carrier's way, that something can follow, that the list has the
    /// numbers or bits of the packet that is being read, and that all that is sent takes `taken` bits.
    ///
    /// # Errors
    ///
    /// `AllocError`: the sink failed; its `failed` then holds.
    pub fn send<P: AnyPacket, S: VarSink>(
        &self,
        taken: usize,
        list: &PacketList<P>,
        out: &mut S,
    ) -> Result<(), AllocError>
        requires way { way_of self.now.carrier ≡ P.WAY }
        requires goes { Goes (left_of self.now.carrier self.now.room self.now.stage) }
        requires here { (h : Reading) × Here self.now.carrier self.now.stage list.now.numbers.items list.now.bits h }
        requires taken { taken ≡ length (spelled (packets_so_far P.form self.now.carrier self.now.stage list.now.packets.items list.now.numbers.items list.now.bits)) }
        ensures ok { OnOk result (out.new ≡ S.with out.old (packets_so_far P.form self.now.carrier self.now.stage list.now.packets.items list.now.numbers.items list.now.bits)) }
        ensures err { OnErr result (S.failed out.old out.new) }
    {
        send_all(list.packets.as_slice(), out)?;
        self.send_here(taken, list, out)
    }
}
