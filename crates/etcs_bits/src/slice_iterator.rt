//! The bits of a slice, one after another.

ghost use Rattle.std.specs.Prelude.{◌≡◌, drop};
ghost use Rattle.std.specs.Iterator.{YieldsFirst, item_count};

use super::slice::BitSlice;
use super::slice_walker::SliceWalker;
use std::marker::Model;

/// The bits of a slice that are still to come, in order. Nothing is copied, and no memory is taken.
#[derive(Drop)]
pub struct BitIterator<'a> {
    walker: SliceWalker<'a>,
}

impl<'a> Model for BitIterator<'a> {
    ghost use Rattle.std.specs.Prelude.{Bool, List, drop};

    ghost Value = { List Bool };

    ghost view = { λ i. drop i.walker.place i.walker.bits };
}

impl<'a> BitSlice<'a> {
    /// The bits of the slice, in order.
    pub fn iter(&self) -> BitIterator<'a>
        ensures { result ≡ self.now }
    {
        BitIterator {
            walker: SliceWalker::new(self.all()),
        }
    }
}

/// Each `next` takes off the first of the bits that are left; `None` exactly if none is left.
impl<'a> Iterator for BitIterator<'a> {
    type Item = bool;

    ghost next_gives = { YieldsFirst (λ s. s) };

    ghost remaining = { item_count (λ s. s) };

    fn next(&mut self) -> Option<bool> {
        let number = self.walker.next(1)?;
        Some(number == 1)
    }
}
