//! The variables of messages with their numbers, sent in order (SUBSET-026, 8).

ghost use Rattle.std.specs.Prelude.{◌≡◌, ℕ, ◌+◌, ◌≤◌, ◌++◌, List, Some, length, IfOk, OnErr, OnOk};
ghost use Rattle.etcs_bits.specs.Bits.{num};
ghost use Rattle.etcs_vars.specs.declared.var.Var.{Var};
ghost use Rattle.etcs_vars.specs.declared.var.Var.TheVariants.{PADDING};
ghost use Rattle.etcs_vars.specs.Reading.{Reading, kept, spelled};
ghost use Rattle.etcs_reader.specs.Rests.{Goes};
ghost use Rattle.etcs_sequence.specs.Labels.{labelled};
ghost use Rattle.etcs_packets.specs.PacketReadings.{readings_to};
ghost use Rattle.etcs_messages.specs.Lefts.{front_row, headed, HoldsIn, Left};
ghost use Rattle.etcs_messages.specs.Messages.{values_of};
ghost use Rattle.etcs_messages.specs.Readers.{so_far};
ghost use Rattle.etcs_messages.specs.Readings.{front_reading, own_reading};
ghost use Rattle.etcs_messages.specs.laws.Parts.{closed_message};

use crate::kind::{Head, Own};
use crate::message::{Content, MessageOf};
use crate::phase::{Phase, front_bits, front_var};
use crate::rest::MessageRest;
use etcs_bits::BitSlice;
use etcs_packets::inner::{AnyPacket, room_after, send_all};
use etcs_sequence::ListStore;
use etcs_tables::Way;
use etcs_vars::Var;
use etcs_vars::inner::{PairList, VarSink, Variables, send_bits};
use std::alloc::{AllocError, Global};

impl<H: Head, B: Own<Front = H>> Variables for MessageOf<H, B> {
    ghost use Rattle.etcs_messages.specs.Readings.{message_reading};

    ghost reading_of = { λ m. message_reading H.Packet.WAY H.head B.own H.Packet.form m };

    fn bits(&self) -> usize {
        self.readable();
        self.bit_len()
    }

    #[tactic(auto, using(crate::specs::laws::Parts::typed_by, crate::specs::laws::Parts::kept_by))]
    fn send<S: VarSink>(&self, out: &mut S) -> Result<(), AllocError> {
        send_front(self, out)?;
        match self.kept_bits() {
            Some(bits) => send_bits(Var::OTHER_DATA, &bits, out),
            None => send_closed(self, out),
        }
    }
}

impl<H: Head, B: Own<Front = H>> MessageOf<H, B> {
    ghost use Rattle.etcs_messages.specs.Readings.{front_reading};

    /// The variables before the packets with their numbers, in the order of sending (SUBSET-026, 8): NID_MESSAGE
    /// and L_MESSAGE, and of a typed message the rest of the header and the variables of its own.
    ///
    /// # Errors
    ///
    /// `AllocError` if out of memory.
    pub fn variables(&self, alloc: Global) -> Result<Vec<(Var, u64)>, AllocError>
        ensures { IfOk result (λ pairs. pairs.items ≡ front_reading H.Packet.WAY H.head B.own H.Packet.form self.now) }
    {
        let mut list = PairList::new(alloc);
        send_front(self, &mut list)?;
        Ok(list.into_vec())
    }
}

/// Sends what comes before the packets: NID_MESSAGE and L_MESSAGE, and of a typed message the rest of the header and
/// the variables of its own. If it succeeds, the sink holds what its `with` gives for these variables, in order. Takes
/// no memory of its own.
///
/// # Errors
///
/// That of the sink, of which its `failed` then holds.
fn send_front<H: Head, B: Own<Front = H>, S: VarSink>(
    message: &MessageOf<H, B>,
    out: &mut S,
) -> Result<(), AllocError>
    ensures ok { OnOk result (out.new ≡ S.with out.old (front_reading H.Packet.WAY H.head B.own H.Packet.form message.now)) }
    ensures err { OnErr result (S.failed out.old out.new) }
{
    out.send(&[
        (Var::NID_MESSAGE, u64::from(message.nid())),
        (Var::L_MESSAGE, message.bytes() as u64),
    ])?;
    send_own(message, out)
}

/// Sends what is between L_MESSAGE and the packets.
fn send_own<H: Head, B: Own<Front = H>, S: VarSink>(
    message: &MessageOf<H, B>,
    out: &mut S,
) -> Result<(), AllocError>
    ensures ok { OnOk result (out.new ≡ S.with out.old (own_reading H.head B.own message.now)) }
    ensures err { OnErr result (S.failed out.old out.new) }
{
    match &message.content {
        Content::Typed { head, body, .. } => {
            head.send(out)?;
            body.send(out)
        }
        Content::Kept { .. } => out.send(&[]),
    }
}

/// Sends this many bits of PADDING, which are a number's last.
fn send_padding<S: VarSink>(number: u8, count: usize, out: &mut S) -> Result<(), AllocError>
    requires { count ≤ 7 }
    ensures ok { OnOk result (out.new ≡ S.with out.old (kept PADDING (num count number))) }
    ensures err { OnErr result (S.failed out.old out.new) }
{
    let byte = [number];
    match BitSlice::new(&byte, 8 - count, count) {
        Some(bits) => send_bits(Var::PADDING, &bits, out),
        None => unreachable!(),
    }
}

/// Sends a typed message's packets and PADDING.
fn send_closed<H: Head, B: Own<Front = H>, S: VarSink>(
    message: &MessageOf<H, B>,
    out: &mut S,
) -> Result<(), AllocError>
    ensures ok { OnOk result (out.new ≡ S.with out.old (closed_message H.Packet.WAY B.own H.Packet.form message.now)) }
    ensures err { OnErr result (S.failed out.old out.new) }
{
    send_all(message.packets(), out)?;
    let (count, number) = message.padding();
    send_padding(number, count, out)
}

/// Sends the variables between L_MESSAGE and the packets of a typed message of this number, which have these numbers.
fn send_numbers<S: VarSink>(
    way: Way,
    nid: u8,
    numbers: &[u64],
    out: &mut S,
) -> Result<(), AllocError>
    ensures ok { OnOk result ((vars : List Var) → front_row way nid ≡ Some vars → out.new ≡ S.with out.old (labelled vars numbers.now)) }
    ensures err { OnErr result (S.failed out.old out.new) }
{
    for at in 0..numbers.len() {
        let Some(var) = front_var(way, nid, at) else {
            return Ok(());
        };
        out.send(&[(var, numbers[at])])?;
    }
    Ok(())
}

impl<H: Head, B: Own<Front = H>> MessageRest<H, B, H::Store> {
    /// L_MESSAGE, if it was read, by how many bits the variables take that were read.
    fn bytes_by(&self, bits: usize) -> usize
        requires goes { Goes (Left self.now) }
        requires held { HoldsIn H.Store.holds self.now (so_far H.Packet.form H.Store.list self.now) }
        requires bits { bits ≡ length (spelled (so_far H.Packet.form H.Store.list self.now)) }
        ensures { (len : ℕ) (r : Reading) → so_far H.Packet.form H.Store.list self.now ≡ headed self.now.nid len r → result ≡ len }
    {
        match self.phase {
            Phase::Front(_) => {
                let front = front_bits(H::Packet::WAY, self.nid).unwrap_or(0);
                (front + self.packets.left.ahead()) / 8
            }
            Phase::Packets => (bits + self.packets.left.ahead()) / 8,
            Phase::Padding(left) => (bits + left) / 8,
            Phase::Data(left) => (bits + left) / 8,
            _ => bits / 8,
        }
    }

    /// Sends the packets and the bits of PADDING that were read, which take this many bits.
    fn send_padded<S: VarSink>(&self, bits: usize, out: &mut S) -> Result<(), AllocError>
        requires { (count : ℕ) × (count ≤ 7) × (bits ≡ length (spelled (readings_to H.Packet.WAY (values_of H.Packet.form (H.Store.list self.now.store).packets.items))) + count) }
        ensures ok { OnOk result ((count : ℕ) → bits ≡ length (spelled (readings_to H.Packet.WAY (values_of H.Packet.form (H.Store.list self.now.store).packets.items))) + count → out.new ≡ S.with out.old (readings_to H.Packet.WAY (values_of H.Packet.form (H.Store.list self.now.store).packets.items) ++ kept PADDING (num count self.now.padding))) }
        ensures err { OnErr result (S.failed out.old out.new) }
    {
        let packets = self.packets.store.list().packets.as_slice();
        let Some(count) = room_after(bits, packets) else {
            unreachable!()
        };
        send_all(packets, out)?;
        send_padding(self.padding, count, out)
    }

    /// Sends the variables that were read, which take this many bits.
    ///
    /// # Errors
    ///
    /// That of the sink.
    pub(crate) fn send_read<S: VarSink>(&self, bits: usize, out: &mut S) -> Result<(), AllocError>
        requires goes { Goes (Left self.now) }
        requires held { HoldsIn H.Store.holds self.now (so_far H.Packet.form H.Store.list self.now) }
        requires bits { bits ≡ length (spelled (so_far H.Packet.form H.Store.list self.now)) }
        ensures ok { OnOk result (out.new ≡ S.with out.old (so_far H.Packet.form H.Store.list self.now)) }
        ensures err { OnErr result (S.failed out.old out.new) }
    {
        match self.phase {
            Phase::Number => return out.send(&[]),
            Phase::Length => return out.send(&[(Var::NID_MESSAGE, u64::from(self.nid))]),
            _ => {}
        }
        out.send(&[
            (Var::NID_MESSAGE, u64::from(self.nid)),
            (Var::L_MESSAGE, self.bytes_by(bits) as u64),
        ])?;
        let list = self.packets.store.list();
        let Some(front) = front_bits(H::Packet::WAY, self.nid) else {
            return send_bits(Var::OTHER_DATA, &list.bits.as_slice(), out);
        };
        send_numbers(H::Packet::WAY, self.nid, self.front.as_slice(), out)?;
        match self.phase {
            Phase::Packets => self.packets.left.send(bits - front, list, out),
            Phase::Padding(_) => self.send_padded(bits - front, out),
            Phase::Whole => self.send_padded(bits - front, out),
            _ => out.send(&[]),
        }
    }
}
