//! A telegram that lies whole in a piece, in one pass.

ghost use Rattle.std.specs.Prelude.{◌≡◌, ◌*◌, ◌≤◌, ◌<◌, ◌^◌, length, IfSome, IsTrue};
ghost use Rattle.etcs_bits.specs.Bits as bit_lists;
ghost use Rattle.etcs_bits.specs.Bits.{num, bits};
ghost use Rattle.etcs_vars.specs.Reading.{Reading, spelled, IsAdmitted};
ghost use Rattle.etcs_sequence.specs.AtOnce.{RunFirst};
ghost use Rattle.etcs_telegram.specs.Telegrams.{IsTelegram, ReadsAs, TelegramValue, telegram_value, header_reading, user_bits, pad_bits, container_bytes, packet_room};
ghost use Rattle.etcs_telegram.specs.declared.size.Size.TheVariants.{Long, Short};
ghost use Rattle.etcs_telegram.specs.Readers.{store_holds, IsTelegramPart};

use crate::header::Header;
use crate::header_bits::{HEADER_BITS, header_at_front};
use crate::rest::TelegramRest;
use crate::size::Size;
use crate::store::TelegramStore;
use crate::telegram::Telegram;
use etcs_bodies::ListOf;
use etcs_packets::Packet;
use etcs_reader::Rest;
use etcs_rows::inner::Carrier;
use etcs_sequence::inner::{Run, bits_at, number_at, take_run};
use etcs_sequence::{ItemRest, PacketCount, PacketList, PacketStore};
use std::alloc::Global;

/// The telegram of this size that a piece begins with. It may always return `None`, as it does if the piece begins with
/// none, or if out of memory. Then it may put into `part` what is left of the item after the first bits of the piece,
/// and how many these are.
pub(crate) fn telegram_at(
    alloc: Global,
    size: Size,
    piece: &[u8],
    part: &mut Option<(TelegramRest<TelegramStore>, usize)>,
) -> Option<Telegram>
    requires small { length (bits piece.now) < 2 ^ 64 }
    requires part { IfSome part.old (λ t. IsTelegramPart size (bits piece.now) t.0 t.1) }
    ensures within { IfSome result (λ t. container_bytes size ≤ length piece.now) }
    ensures value { IfSome result (λ t. IsTelegram t) }
    ensures reads { IfSome result (λ t. (r : Reading) × ReadsAs size (telegram_value t) r × (spelled r ≡ bit_lists.part 0 (8 * container_bytes size) (bits piece.now))) }
    ensures left { IfSome result (λ t. part.new ≡ part.old) }
    ensures part { IfSome part.new (λ t. IsTelegramPart size (bits piece.now) t.0 t.1) }
{
    let header = front_of(size, piece)?;
    let list = PacketList::new(alloc);
    let mut store = TelegramStore { list };
    let bits = size.packet_room();
    let left = match take_run(&mut store, Carrier::Telegram, bits, piece, HEADER_BITS)? {
        Run::All(left) => left,
        Run::First(left) => {
            resume(alloc, size, piece, store, left, part);
            return None;
        }
    };
    match store.bits(&bits_at(piece, size.user_bits() - left, left)) {
        Ok(()) => {}
        Err(_) => return None,
    }
    Some(Telegram {
        size,
        header,
        packets: ListOf::from_vec(store.list.packets),
        fill: store.list.bits,
    })
}

/// The header that a piece begins with, if the piece has all bytes of a telegram of this size, whose bits of PAD are
/// zeros. `None` if it doesn't, or if one of the header's variables doesn't admit its number.
#[inline(always)]
pub fn front_of(size: Size, piece: &[u8]) -> Option<Header>
    ensures within { IfSome result (λ h. container_bytes size ≤ length piece.now) }
    ensures pad { IfSome result (λ h. bit_lists.part (user_bits size) (pad_bits size) (bits piece.now) ≡ num (pad_bits size) 0) }
    ensures admitted { IfSome result (λ h. IsAdmitted (header_reading h)) }
    ensures bits { IfSome result (λ h. spelled (header_reading h) ≡ bit_lists.part 0 50 (bits piece.now)) }
{
    if piece.len() < size.container_bytes() || pad_at_end(size, piece) > 0 {
        return None;
    }
    header_at_front(piece)
}

/// The bits of PAD of a telegram of this size, as a number.
#[inline(always)]
fn pad_at_end(size: Size, piece: &[u8]) -> u64
    requires { container_bytes size ≤ length piece.now }
    ensures { num (pad_bits size) result ≡ bit_lists.part (user_bits size) (pad_bits size) (bits piece.now) }
{
    match size {
        Size::Short => number_at(piece, 210, 6),
        Size::Long => number_at(piece, 830, 2),
    }
}

/// [`sees`] of a short telegram.
#[inline(never)]
pub(crate) fn sees_short(piece: &[u8]) -> bool
    requires small { length (bits piece.now) < 2 ^ 64 }
    ensures within { IsTrue result → container_bytes Short ≤ length piece.now }
    ensures reads { IsTrue result → (t : TelegramValue) × (r : Reading) × ReadsAs Short t r × (spelled r ≡ bit_lists.part 0 (8 * container_bytes Short) (bits piece.now)) }
{
    sees(Size::Short, piece)
}

/// [`sees`] of a long telegram.
#[inline(never)]
pub(crate) fn sees_long(piece: &[u8]) -> bool
    requires small { length (bits piece.now) < 2 ^ 64 }
    ensures within { IsTrue result → container_bytes Long ≤ length piece.now }
    ensures reads { IsTrue result → (t : TelegramValue) × (r : Reading) × ReadsAs Long t r × (spelled r ≡ bit_lists.part 0 (8 * container_bytes Long) (bits piece.now)) }
{
    sees(Size::Long, piece)
}

/// If true, the piece begins with a telegram of this size. It may always return false. Takes no memory.
#[inline(always)]
fn sees(size: Size, piece: &[u8]) -> bool
    requires small { length (bits piece.now) < 2 ^ 64 }
    ensures within { IsTrue result → container_bytes size ≤ length piece.now }
    ensures reads { IsTrue result → (t : TelegramValue) × (r : Reading) × ReadsAs size t r × (spelled r ≡ bit_lists.part 0 (8 * container_bytes size) (bits piece.now)) }
{
    if front_of(size, piece).is_none() {
        return false;
    }
    let mut store = PacketCount::<Packet>::new();
    matches!(
        take_run(
            &mut store,
            Carrier::Telegram,
            size.packet_room(),
            piece,
            HEADER_BITS
        ),
        Some(Run::All(_))
    )
}

/// Puts into `part` what is left after the header that a piece begins with, and after the packets that a store has taken of
/// the room after it, of which this many bits are left. It may always put nothing there.
#[cold]
#[inline(never)]
fn resume(
    alloc: Global,
    size: Size,
    piece: &[u8],
    store: TelegramStore,
    left: usize,
    part: &mut Option<(TelegramRest<TelegramStore>, usize)>,
)
    requires some { 0 < length (bits piece.now) }
    requires small { length (bits piece.now) < 2 ^ 64 }
    requires run { RunFirst Carrier.Telegram (packet_room size) (store_holds store) (bits piece.now) 50 left }
    requires part { IfSome part.old (λ t. IsTelegramPart size (bits piece.now) t.0 t.1) }
    ensures { IfSome part.new (λ t. IsTelegramPart size (bits piece.now) t.0 t.1) }
{
    let mut rest = TelegramRest::begin(alloc, size);
    let Ok(Some(front)) = rest.leap(piece, 0) else {
        return;
    };
    if front != HEADER_BITS || !rest.is_at_packets() {
        return;
    }
    rest.resume(store, left);
    *part = Some((rest, HEADER_BITS + (size.packet_room() - left)));
}
