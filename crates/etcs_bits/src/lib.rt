//! Bits at any offset of bytes, read and written most significant bit first.
#![tactic(auto)]

mod bits;
mod bytes;
mod copying;
mod digits;
mod few;
pub mod inner;
mod many;
mod poker;
mod slice;
mod slice_equality;
mod slice_iterator;
mod slice_walker;
mod walker;

pub use bits::Bits;
pub use poker::{PokeFault, Poker, poke};
pub use slice::BitSlice;
pub use slice_iterator::BitIterator;
pub use slice_walker::SliceWalker;
pub use walker::{Walker, next_bits, peek};
