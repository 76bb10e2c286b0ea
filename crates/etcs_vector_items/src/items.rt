//! Items in all ways to read them: in one piece, byte by byte, and cut in two at every place; and with each bit turned.

use crate::readers::{Reader, next_kind, read_whole, size_of};
use crate::{messages, telegrams};
use etcs_text::{Entry, Kind, show_lines};
use etcs_vars::{Fed, ReadFault, Var};
use etcs_vector_lines::Case;
use std::alloc::Global;

/// Answers a line about items: whether it is one.
///
/// `short HEX`, `long HEX`, `radio HEX`, `train HEX`: what the bytes are read as. `message HEX`, `train_message HEX`: how
/// many bits and packets a message to the train or to the track has. `turned KIND HEX`: a line for each bit with which,
/// flipped, the bytes are no longer one item, with the answer to them. `alike KIND HEX`: of how many bytes with one bit
/// flipped all ways to read them give the same answer. `pairs KIND`: how many of all pairs of first bytes are refused.
/// `fed KIND PIECE PIECE ..`: what a reader returns for each piece, how many bits it has seen and what it holds.
pub(crate) fn answer(case: &mut Case, asked: &str) -> bool {
    match asked {
        "short" => read(case, Kind::Short),
        "long" => read(case, Kind::Long),
        "radio" => read(case, Kind::Radio),
        "train" => read(case, Kind::Train),
        "message" => measured(case, Kind::Radio),
        "train_message" => measured(case, Kind::Train),
        "turned" | "alike" | "pairs" | "fed" => {
            let kind = next_kind(case);
            of_kind(case, kind, asked);
        }
        _ => return false,
    }
    true
}

/// Answers what the bytes are read as.
fn read(case: &mut Case, kind: Kind) {
    let bytes = case.bytes();
    let (fed, item) = read_whole(case.alloc(), kind, bytes.as_slice());
    check_read(case, kind, bytes.as_slice(), fed, item.as_ref());
    match item.as_ref() {
        Some(item) => say_text(case, item, 1),
        None => say_unread(case, fed),
    }
}

/// `message HEX`, `train_message HEX`: how many bits and packets a message has, and what doesn't hold of it.
fn measured(case: &mut Case, kind: Kind) {
    let bytes = case.bytes();
    let (fed, item) = read_whole(case.alloc(), kind, bytes.as_slice());
    match item.as_ref() {
        Some(Entry::Message(message)) => messages::say_size(case, message),
        Some(Entry::Train(message)) => messages::say_size(case, message),
        _ => case.bad(),
    }
    check_read(case, kind, bytes.as_slice(), fed, item.as_ref());
}

/// The text of an entry with this number.
pub(crate) fn say_text(case: &mut Case, entry: &Entry, number: u64) {
    let mut text = Vec::new(case.alloc());
    case.kept(show_lines(entry, number, &mut text).is_ok());
    case.say_bytes(text.as_slice());
}

/// Checks what must hold of bytes that are answered so, and of their item, if any.
pub(crate) fn check_read(
    case: &mut Case,
    kind: Kind,
    bytes: &[u8],
    fed: Result<Fed, ReadFault>,
    item: Option<&Entry>,
) {
    check_pieces(case, kind, bytes, fed, item);
    match item {
        Some(item) => check_item(case, kind, item, bytes),
        None => case.check(is_no_view(kind, bytes, fed), "not by a view"),
    }
}

/// Checks what must hold of the item of these bytes.
fn check_item(case: &mut Case, kind: Kind, item: &Entry, bytes: &[u8]) {
    for at in 0..bytes.len() {
        let front = bytes.get(..at).unwrap_or(&[]);
        case.check(is_no_view(kind, front, Ok(Fed::More)), "a view of a front");
    }
    check_written(case, item, bytes);
    check_laws(case, item, bytes);
    turn_all(case, kind, bytes, "");
}

/// Checks that an item is written as these bytes, and that a view of them, where there are views, has it.
fn check_written(case: &mut Case, item: &Entry, bytes: &[u8]) {
    match item {
        Entry::Telegram(telegram) => telegrams::check(case, telegram, bytes),
        Entry::Message(message) => messages::check(case, message, bytes),
        Entry::Train(message) => messages::check(case, message, bytes),
    }
}

/// Checks that an item is read from its encoding, and that these bytes are written as what they are read as.
fn check_laws(case: &mut Case, item: &Entry, bytes: &[u8]) {
    match item {
        Entry::Telegram(telegram) => telegrams::check_laws(case, telegram, bytes),
        Entry::Message(message) => messages::check_laws(case, message, bytes),
        Entry::Train(message) => messages::check_laws(case, message, bytes),
    }
}

/// Whether these bytes have no view where a reader answers so, where items of the kind have views.
fn is_no_view(kind: Kind, bytes: &[u8], fed: Result<Fed, ReadFault>) -> bool {
    match size_of(kind) {
        Some(size) => telegrams::is_no_view(size, bytes, fed),
        None => true,
    }
}

/// Answers why bytes are no item.
fn say_unread(case: &mut Case, fed: Result<Fed, ReadFault>) {
    match fed {
        Ok(Fed::More) => case.say("wants more"),
        _ => say_fed(case, fed),
    }
}

/// Why bytes aren't read.
pub(crate) fn say_fault(case: &mut Case, fault: ReadFault) {
    match fault {
        ReadFault::Refused { bit, var } => say_refused(case, bit, var),
        ReadFault::Ended => case.say("ended"),
        ReadFault::Memory => case.kept(false),
    }
}

/// A refused bit and its variable.
pub(crate) fn say_refused(case: &mut Case, bit: usize, var: Var) {
    case.say("refused ");
    case.say_next(bit as u64);
    case.say(var.name());
}

/// Checks that bytes are answered so byte by byte, and in two pieces that are cut at every place.
fn check_pieces(
    case: &mut Case,
    kind: Kind,
    bytes: &[u8],
    fed: Result<Fed, ReadFault>,
    item: Option<&Entry>,
) {
    let alloc = case.alloc();
    let singly = is_alike(alloc, kind, bytes, (0, 1), fed, item);
    case.check(singly, "not byte by byte");
    for at in 0..bytes.len() {
        let in_two = is_alike(alloc, kind, bytes, (at, bytes.len()), fed, item);
        case.check(in_two, "not in two pieces");
    }
}

/// Whether bytes are answered so where the first piece has `at` of them and each further one `step`.
fn is_alike(
    alloc: Global,
    kind: Kind,
    bytes: &[u8],
    (at, step): (usize, usize),
    fed: Result<Fed, ReadFault>,
    item: Option<&Entry>,
) -> bool {
    let Some((front, back)) = bytes.split_at_checked(at) else {
        return false;
    };
    let mut reader = Reader::new(alloc, kind);
    let mut alike = is_fed(&mut reader, front, 0, fed);
    let mut from = front.len();
    for piece in back.chunks(step.max(1)) {
        alike &= is_fed(&mut reader, piece, from, fed);
        from = from.saturating_add(piece.len());
    }
    alike &= is_ended(&mut reader, fed);
    alike & gives(reader, item)
}

/// Whether the piece from a byte on is answered as it must be where all bytes are answered so.
fn is_fed(reader: &mut Reader, piece: &[u8], from: usize, fed: Result<Fed, ReadFault>) -> bool {
    let to = from.saturating_add(piece.len());
    let mut wanted = fed;
    let mut seen = to.saturating_mul(8);
    match fed {
        Ok(Fed::Done { taken }) => {
            wanted = Ok(if to < taken {
                Fed::More
            } else {
                Fed::Done { taken: piece.len() }
            });
        }
        Err(ReadFault::Refused { bit, .. }) => {
            if to <= bit / 8 {
                wanted = Ok(Fed::More);
            }
            seen = seen.min(bit);
        }
        _ => {}
    }
    let answered = reader.feed(piece);
    answered == wanted && reader.bits_seen() == seen
}

/// Whether no bytes are answered as they must be after all were answered so.
fn is_ended(reader: &mut Reader, fed: Result<Fed, ReadFault>) -> bool {
    let again = reader.feed(&[]);
    match fed {
        Ok(Fed::Done { .. }) => again == Err(ReadFault::Ended),
        _ => again == fed,
    }
}

/// Whether the reader has read this item, or none.
fn gives(reader: Reader, item: Option<&Entry>) -> bool {
    let given = reader.take();
    given.as_ref() == item
}

/// The lines of `turned`, `alike`, `pairs` and `fed`.
fn of_kind(case: &mut Case, kind: Kind, asked: &str) {
    match asked {
        "pairs" => say_pairs(case, kind),
        "fed" => say_pieces(case, kind),
        _ => {
            let bytes = case.bytes();
            turn_all(case, kind, bytes.as_slice(), asked);
        }
    }
}

/// Checks that with each bit turned the bytes are answered alike in all ways, and no bit before the turned one is refused;
/// says what `turned` and `alike` say. In items of more than 128 bytes each 17th bit is turned.
fn turn_all(case: &mut Case, kind: Kind, bytes: &[u8], asked: &str) {
    let mut turned = Vec::new(case.alloc());
    case.kept(turned.extend_from_slice(bytes).is_ok());
    let mut count = 0u64;
    let step = if bytes.len() > 128 { 17 } else { 1 };
    for bit in 0..bytes.len().saturating_mul(8) {
        if bit % step == 0 {
            flip(turned.as_mut_slice(), bit);
            let fed = fed_turned(case, kind, turned.as_slice());
            flip(turned.as_mut_slice(), bit);
            check_turned(case, fed, bit);
            if asked == "turned" && fed != Ok(Fed::Done { taken: bytes.len() }) {
                say_turned(case, fed, bit);
            }
            count = count.saturating_add(1);
        }
    }
    if asked == "alike" {
        case.say_number(count);
    }
}

fn flip(bytes: &mut [u8], bit: usize) {
    if let Some(byte) = bytes.get_mut(bit / 8) {
        *byte ^= 0x80u8 >> (bit % 8);
    }
}

/// Checks that no bit before the turned one is refused.
fn check_turned(case: &mut Case, fed: Result<Fed, ReadFault>, turned: usize) {
    if let Err(ReadFault::Refused { bit, .. }) = fed {
        case.check(bit >= turned, "refused before");
    }
}

/// The line of a turned bit.
fn say_turned(case: &mut Case, fed: Result<Fed, ReadFault>, bit: usize) {
    case.say_next(bit as u64);
    say_unread(case, fed);
    case.say("\n");
}

/// What a feed answered.
pub(crate) fn say_fed(case: &mut Case, fed: Result<Fed, ReadFault>) {
    match fed {
        Ok(Fed::More) => case.say("more"),
        Ok(Fed::Done { taken }) => {
            case.say("done ");
            case.say_number(taken as u64);
        }
        Err(fault) => say_fault(case, fault),
    }
}

/// What a reader returns for each piece, how many bits it has seen and what it holds. A piece is hexadecimal parts with `+`
/// between them, each of which `*COUNT` repeats; `-` is the empty one.
fn say_pieces(case: &mut Case, kind: Kind) {
    let mut reader = Reader::new(case.alloc(), kind);
    case.say("new");
    say_state(case, &reader);
    for word in case.rest().split(' ') {
        let piece = piece(case, word);
        case.say("\n");
        say_fed(case, reader.feed(piece.as_slice()));
        say_state(case, &reader);
    }
    let whole = reader.take().is_some();
    case.say_either(whole, "\na ", "\nno ");
    case.say_either(size_of(kind).is_some(), "telegram", "message");
}

/// The bytes of a piece.
fn piece(case: &mut Case, word: &str) -> Vec<u8> {
    let mut all = Vec::new(case.alloc());
    if word != "-" {
        for part in word.split('+') {
            let (digits, count) = part.split_once('*').unwrap_or((part, "1"));
            let bytes = case.bytes_of(digits);
            for _ in 0..case.read(count).min(65535) {
                case.kept(all.extend_from_slice(bytes.as_slice()).is_ok());
            }
        }
    }
    all
}

/// How many bits the reader has seen, and what it holds.
fn say_state(case: &mut Case, reader: &Reader) {
    case.say(", seen ");
    case.say_number(reader.bits_seen() as u64);
    match reader.state() {
        Some(state) => {
            case.say(", held");
            for number in &state {
                case.say(" ");
                case.say_number(*number);
            }
        }
        None => case.say(", nothing held"),
    }
}

/// How many of all pairs of first bytes are refused.
fn say_pairs(case: &mut Case, kind: Kind) {
    let mut refused = 0u64;
    for pair in 0..=u16::MAX {
        let fed = fed_turned(case, kind, &pair.to_be_bytes());
        if fed != Ok(Fed::More) {
            refused = refused.saturating_add(1);
        }
    }
    case.say_number(refused);
}

/// What a reader returns for bytes; checks that it is the same byte by byte and by a view, and that an item is written as
/// the bytes that were taken.
fn fed_turned(case: &mut Case, kind: Kind, bytes: &[u8]) -> Result<Fed, ReadFault> {
    let (fed, item) = read_whole(case.alloc(), kind, bytes);
    let own = match fed {
        Ok(Fed::Done { taken }) => bytes.get(..taken).unwrap_or(&[]),
        _ => bytes,
    };
    let singly = is_alike(case.alloc(), kind, own, (0, 1), fed, item.as_ref());
    case.check(singly, "turned, not byte by byte");
    match item.as_ref() {
        Some(item) => check_written(case, item, own),
        None => case.check(is_no_view(kind, own, fed), "turned, a view"),
    }
    fed
}
