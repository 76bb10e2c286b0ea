//! A resumable reader of messages.

ghost use Rattle.std.specs.Prelude.{◌≡◌, ◌≢◌, ◌<◌, List, Bool, [], MatchResult, IfSome, IsNone, Some, ◌*◌, ◌≤◌, length, take, drop};
ghost use Rattle.etcs_bits.specs.Bits.{bits};
ghost use Rattle.etcs_sequence.specs.Holdings.{IsHeld};
ghost use Rattle.etcs_messages.specs.Messages.{MessageValue, MessageLanguage, MessageReads, message_value, IsMessage};
ghost use Rattle.etcs_vars.specs.declared.var.Var.{Var};
ghost use Rattle.etcs_messages.specs.Kinds.{IsHeadNumbers, IsOwnNumbers};
ghost use Rattle.etcs_tables.specs.Headers.{head_row};
ghost use Rattle.etcs_messages.specs.Lefts.{front_row};
ghost use Rattle.etcs_messages.specs.Readings.{bytes_of, content_by};
ghost use Rattle.etcs_messages.specs.Readers.{Members, OwnHeld, so_far, message_by};

use crate::kind::{Head, Own};
use crate::message::{Content, MessageOf, bytes_in};
use crate::phase::front_count;
use crate::rest::MessageRest;
use crate::whole::message_at;
use etcs_bodies::ListOf;
use etcs_packets::inner::AnyPacket;
use etcs_sequence::{Held, ItemReader, ItemRest, ListStore, PacketList};
use etcs_tables::head_row;
use etcs_vars::inner::VarSink;
use etcs_vars::{Fed, ReadFault};
use std::alloc::{AllocError, Global};
use std::marker::Model;

/// The head and the body of a typed message by the numbers before its packets.
#[inline(always)]
pub(crate) fn front_by<H: Head, B: Own<Front = H>>(nid: u8, front: &[u64]) -> (H, B)
    requires there { length (head_row H.Packet.WAY) ≤ length front.now }
    requires head { IsHeadNumbers H.Packet.WAY (take (length (head_row H.Packet.WAY)) front.now) }
    requires own { IsOwnNumbers H.Packet.WAY nid (drop (length (head_row H.Packet.WAY)) front.now) }
    ensures head { result.0 ≡ H.head.made (take (length (head_row H.Packet.WAY)) front.now) }
    ensures own { result.1 ≡ B.own.made nid (drop (length (head_row H.Packet.WAY)) front.now) }
{
    let row = head_row(H::Packet::WAY);
    let (head, own) = front.split_at(row.items.len());
    (H::of_numbers(head), B::of_numbers(nid, own))
}

/// A whole message by what was kept of it.
#[inline(always)]
fn content_of<H: Head, B: Own<Front = H>>(
    nid: u8,
    front: &[u64],
    store: PacketList<H::Packet>,
    padding: u8,
) -> Content<H, B, H::Packet>
    requires { (vars : List Var) → front_row H.Packet.WAY nid ≡ Some vars → (length (head_row H.Packet.WAY) ≤ length front.now) × IsHeadNumbers H.Packet.WAY (take (length (head_row H.Packet.WAY)) front.now) × IsOwnNumbers H.Packet.WAY nid (drop (length (head_row H.Packet.WAY)) front.now) }
    ensures { result ≡ content_by H.Packet.WAY H.head B.own (front_row H.Packet.WAY nid) nid front.now store.packets.items store.bits padding }
{
    match front_count(H::Packet::WAY, nid) {
        Some(_) => {
            let (head, body) = front_by(nid, front);
            Content::Typed {
                head,
                body,
                packets: ListOf::from_vec(store.packets),
                padding,
            }
        }
        None => Content::Kept {
            nid,
            bits: store.bits,
        },
    }
}

impl<H: Head, B: Own<Front = H>> ItemRest for MessageRest<H, B, H::Store> {
    type Size = ();

    type Item = MessageOf<H, B>;

    type Packet = H::Packet;

    ghost Shown = { MessageValue };

    ghost Reads = { λ size. MessageReads H.Packet.WAY };

    ghost value = { message_value H.Packet.WAY H.head B.own H.Packet.form };

    ghost IsValue = { IsMessage H.Packet.WAY H.head B.own H.Packet.form };

    ghost bits = { λ m. 8 * bytes_of H.Packet.WAY B.own H.Packet.form m };

    ghost most = { λ size. 1023 };

    ghost least = { 18 };

    ghost far = { so_far H.Packet.form H.Store.list };

    ghost holds = { λ size. OwnHeld H.Store.holds H.Packet.WAY };

    ghost made = { message_by H.Packet.WAY H.head B.own H.Store.list };

    ghost store = { λ s. H.Store.list s.store };

    ghost Members = { Members H.Packet.WAY H.Packet.form };

    #[inline]
    fn most(_size: ()) -> usize {
        1023
    }

    fn begin(alloc: Global, _size: ()) -> Self {
        MessageRest::new(H::Store::over(PacketList::new(alloc)))
    }

    #[inline(always)]
    fn whole(
        alloc: Global,
        _size: (),
        piece: &[u8],
        part: &mut Option<(Self, usize)>,
    ) -> Option<(MessageOf<H, B>, usize)> {
        message_at(alloc, piece, part)
    }

    #[inline]
    fn store(&self) -> &PacketList<H::Packet> {
        self.packets.store.list()
    }

    fn send<S: VarSink>(&self, taken: usize, out: &mut S) -> Result<(), AllocError> {
        self.send_read(taken, out)
    }

    #[inline(always)]
    fn into_item(self, _size: ()) -> MessageOf<H, B> {
        let (nid, padding) = (self.nid, self.padding);
        let front = self.front;
        let store = self.packets.store.into_list();
        let content = content_of(nid, front.as_slice(), store, padding);
        let bytes = bytes_in(&content);
        MessageOf { content, bytes }
    }
}

/// Reads a message from pieces of any length (SUBSET-026, 8). It keeps none of the bytes: only NID_MESSAGE,
/// the numbers before the packets, the packets that are whole, the numbers or kept bits of the packet that is
/// being read or of a message that is kept whole, PADDING and one unfinished variable; or the message, if the first
/// piece had all of it. No clause promises this of its fields.
#[derive(Drop)]
pub struct ReaderOf<H: Head, B: Own<Front = H>> {
    pub(crate) reader: ItemReader<MessageRest<H, B, H::Store>>,
}

impl<H: Head, B: Own<Front = H>> Model for ReaderOf<H, B> {
    ghost use Rattle.etcs_sequence.specs.Progress.{Progress};
    ghost use Rattle.etcs_messages.specs.declared.message.Content.{Content};

    ghost Value = { Progress (Content H B H.Packet) };

    ghost view = { λ r. r.reader.progress };
}

impl<H: Head, B: Own<Front = H>> ReaderOf<H, B> {
    ghost use Rattle.etcs_sequence.specs.Progress.{Feeds, IsReading, fault_of, seen_of, reading, finished};
    ghost use Rattle.etcs_messages.specs.declared.message.Content.{Content};

    /// A reader of messages that has read no bits. Nothing is allocated before the first packet or kept bit.
    pub fn new(alloc: Global) -> Self
        ensures { result ≡ reading [] }
    {
        ReaderOf {
            reader: ItemReader::new((), MessageRest::begin(alloc, ())),
        }
    }

    /// How many leading bits were accepted, over all pieces: all bits while the message isn't whole; after `Done` 8
    /// times L_MESSAGE; after `Refused` those before the refused bit. After `Memory` it is the number that
    /// [`ReaderOf::feed`] describes.
    pub fn bits_seen(&self) -> usize
        ensures { result ≡ seen_of (λ m. 8 * bytes_of H.Packet.WAY B.own H.Packet.form m) self.now }
    {
        self.reader.bits_seen()
    }

    /// Takes the next piece. Of all bits so far, in whatever pieces they came: `Done` with the count of this piece's
    /// bytes up to the end of a message if the bits up to there spell it; `More` if the bits begin a message and no
    /// front of them is one.
    ///
    /// # Errors
    ///
    /// - `Refused` if no front of the bits is a message and none begins with them: `bit`, counted from 0 over all
    ///   pieces, is the first with which no message continues, and `var` is the variable that holds it in each message
    ///   that begins with the bits before it.
    /// - `Memory` if out of memory for packets or kept bits. [`ReaderOf::bits_seen`] is then at least the number of
    ///   bits of the pieces before, at least the 18 of NID_MESSAGE and L_MESSAGE, and fewer than all; the bits up to
    ///   there with the next one begin a message, and one variable holds that next bit in each message that begins with
    ///   the bits before it. It is neither Q_DIR nor PADDING nor one that is in the front of messages alone, nor
    ///   NID_LRBG in the header. No clause promises that memory did run out, nor that no bit of the piece would be
    ///   refused.
    /// - `Ended` after `Done`.
    ///
    /// After `Refused` or `Memory` each later feed returns the same, after `Done` it returns `Ended`. The reader then
    /// doesn't change.
    pub fn feed(&mut self, piece: &[u8]) -> Result<Fed, ReadFault>
        ensures answer { (seen : List Bool) → self.old ≡ reading seen → Feeds (MessageReads H.Packet.WAY) (message_value H.Packet.WAY H.head B.own H.Packet.form) (IsMessage H.Packet.WAY H.head B.own H.Packet.form) 18 seen (bits piece.now) result self.new }
        ensures after { (IsReading self.old → ⊥) → (self.new ≡ self.old) × (result ≡ Err (fault_of self.old)) }
    {
        self.reader.feed(piece)
    }

    /// What it holds between two pieces: the whole packets, each as its own type admits it, the numbers or kept bits of
    /// the packet that is being read or those of a message that is kept, and the unfinished variable. `None` exactly
    /// after `Done`, `Refused` or `Memory`.
    ///
    /// Packets, numbers and kept bits are those of the whole variables so far. The bits so far are those of these
    /// variables and then `taken` bits, fewer than the next variable is wide, which are the number `part`. Each message
    /// that begins with these bits begins with these variables and continues with that one variable, which holds the
    /// next bit.
    pub fn held(&self) -> Option<Held<'_, H::Packet>>
        ensures some { IfSome result (λ h. IsHeld (MessageLanguage H.Packet.WAY) (Members H.Packet.WAY H.Packet.form h.packets.now h.numbers.now h.kept) self.now h.part h.taken) }
        ensures none { IsNone result → IsReading self.now → ⊥ }
    {
        self.reader.held()
    }

    /// The message. Succeeds exactly if there is a whole one: once `feed` has returned `Done`.
    ///
    /// # Errors
    ///
    /// The reader itself, as it was, if there is no whole message.
    #[inline(always)]
    pub fn take(self) -> Result<MessageOf<H, B>, Self>
        ensures { MatchResult result (λ m. self ≡ finished m) (λ r. (r ≡ self) × ((m : Content H B H.Packet) → self ≢ finished m)) }
    {
        match self.reader.take() {
            Ok(message) => Ok(message),
            Err(reader) => Err(ReaderOf { reader }),
        }
    }

    /// The message, once `feed` has returned `Done`; `None` exactly if there is no whole one, and the reader then stays
    /// as it was. After `Some` the reader has read no bits and reads another message.
    #[inline(always)]
    pub fn take_next(&mut self) -> Option<MessageOf<H, B>>
        ensures some { IfSome result (λ m. (self.old ≡ finished m) × (self.new ≡ reading [])) }
        ensures none { IsNone result → (self.new ≡ self.old) × ((m : Content H B H.Packet) → self.old ≢ finished m) }
    {
        self.reader.take_next()
    }
}
