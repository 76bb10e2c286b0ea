//! Walks over bits, of a slice or of a piece.

ghost use Rattle.std.specs.Prelude.{◌≡◌, ◌^◌, ◌<◌, length, drop};
ghost use Rattle.etcs_bits.specs.Bits.{bits};

use etcs_bits::SliceWalker;
use etcs_bits::inner::{peek_at_end, peek_word};
use std::marker::Model;

/// Reads numbers from bits, one after another.
pub trait Walk {
    ghost use Rattle.std.specs.Prelude.{◌≡◌, ◌+◌, ◌≤◌, is_some, if◌then◌else◌, length, nat_le};
    ghost use Rattle.etcs_bits.specs.Bits.{number_at};
    ghost use Rattle.etcs_bits.specs.SliceWalker.{SliceWalk};

    /// The bits, and how many of them it has passed.
    ghost walk: { Self → SliceWalk };

    /// The number in the next `width` bits, most significant bit first; the walk goes past them. `None` exactly if these go
    /// past the end; the walk then stays at its place. `width` must be at most 64.
    fn take(&mut self, width: usize) -> Option<u64>
        requires { width ≤ 64 }
        ensures number { result ≡ number_at (walk self.old).place width (walk self.old).bits }
        ensures moved { walk self.new ≡ record (walk self.old) { place = if is_some result then (walk self.old).place + width else (walk self.old).place } };

    /// Whether the walk has passed all bits.
    fn is_done(&self) -> bool
        ensures { result ≡ nat_le (length (walk self.now).bits) (walk self.now).place };
}

impl<'a> Walk for SliceWalker<'a> {
    ghost walk = { λ w. w };

    #[inline(always)]
    fn take(&mut self, width: usize) -> Option<u64> {
        self.next(width)
    }

    #[inline(always)]
    fn is_done(&self) -> bool {
        self.is_at_end()
    }
}

/// Reads numbers from the bits of a piece, one after another, from any bit on.
#[derive(Drop)]
pub struct PieceWalker<'a> {
    piece: &'a [u8],
    place: usize,
}

impl<'a> Model for PieceWalker<'a> {
    ghost use Rattle.std.specs.Prelude.{◌^◌, ◌<◌, length};
    ghost use Rattle.etcs_bits.specs.Bits.{bits};
    ghost use Rattle.etcs_bits.specs.SliceWalker.{SliceWalk};

    ghost Value = { SliceWalk };

    ghost view = { λ w. record { bits = bits w.piece.now; place = w.place } };

    ghost invariant = { λ w. length (bits w.piece.now) < 2 ^ 64 };
}

impl<'a> PieceWalker<'a> {
    /// A walker at this bit of a piece, whose bits a word counts.
    #[inline(always)]
    pub fn new(piece: &'a [u8], place: usize) -> PieceWalker<'a>
        requires { length (bits piece.now) < 2 ^ 64 }
        ensures { result ≡ record { bits = bits piece.now; place = place } }
    {
        PieceWalker { piece, place }
    }

    /// How many bits of the piece are left.
    #[inline(always)]
    pub fn left(&self) -> usize
        ensures { result ≡ length (drop self.now.place self.now.bits) }
    {
        (8 * self.piece.len()).saturating_sub(self.place)
    }
}

impl<'a> Walk for PieceWalker<'a> {
    ghost walk = { λ w. w };

    #[inline(always)]
    fn take(&mut self, width: usize) -> Option<u64> {
        let number = match peek_word(self.piece, self.place, width) {
            Some(number) => number,
            None => peek_at_end(self.piece, self.place, width)?,
        };
        self.place += width;
        Some(number)
    }

    #[inline(always)]
    fn is_done(&self) -> bool {
        self.place >= 8 * self.piece.len()
    }
}
