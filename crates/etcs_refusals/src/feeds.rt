//! Readers that are fed piece by piece.

use crate::rooms::{Answer, Call, refuse};
use etcs_text::{Entry, Kind};
use etcs_vars::ReadFault;
use etcs_vector_items::{Reader, item_of, next_kind};
use etcs_vector_lines::Case;
use std::alloc::Global;

/// The bytes of an item, in pieces of this many.
#[derive(Drop)]
struct Feeds<'a> {
    kind: Kind,
    bytes: &'a [u8],
    step: usize,
    item: &'a Entry,
}

impl Feeds<'_> {
    /// Feeds a reader with the pieces, up to one for which memory is refused.
    fn feed(&self, reader: &mut Reader) -> Answer {
        for piece in self.bytes.chunks(self.step.max(1)) {
            let before = reader.bits_seen();
            match reader.feed(piece) {
                Ok(_) => {}
                Err(ReadFault::Memory) => {
                    return Answer::refused(is_refused(reader, before, piece));
                }
                Err(_) => return Answer::Wrong,
            }
        }
        Answer::Right
    }
}

impl Call for Feeds<'_> {
    fn make(&mut self, alloc: Global) -> Answer {
        let mut reader = Reader::new(alloc, self.kind);
        let answer = self.feed(&mut reader);
        let item = reader.take();
        let is_right = match answer {
            Answer::Right => item.as_ref() == Some(self.item),
            _ => item.is_none(),
        };
        drop(item);
        if is_right { answer } else { Answer::Wrong }
    }
}

/// Whether a reader is as it must be that was refused memory in this piece, before which it had seen this many bits.
fn is_refused(reader: &mut Reader, before: usize, piece: &[u8]) -> bool {
    let seen = reader.bits_seen();
    let most = before.saturating_add(piece.len().saturating_mul(8));
    let mut is_right = before <= seen && seen < most;
    is_right &= reader.feed(&[]) == Err(ReadFault::Memory);
    is_right &= reader.feed(piece) == Err(ReadFault::Memory);
    is_right &= reader.bits_seen() == seen;
    is_right & reader.state().is_none()
}

/// `feed STEP KIND HEX`.
pub(crate) fn refuse_feed(case: &mut Case) {
    let step = case.place();
    let kind = next_kind(case);
    let held = case.bytes();
    let bytes = held.as_slice();
    let item = item_of(case, kind, bytes);
    match item.as_ref() {
        Some(item) => {
            let mut feeds = Feeds {
                kind,
                bytes,
                step,
                item,
            };
            refuse(case, &mut feeds);
        }
        None => case.bad(),
    }
}
