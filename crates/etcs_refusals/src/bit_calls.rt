//! Bits that are appended, and rows.

use crate::each::{Makes, refuse_each};
use crate::packet_calls::Listed;
use crate::rooms::{Answer, Call, refuse};
use etcs_bits::{BitSlice, Bits};
use etcs_tables::{Way, row_of};
use etcs_vector_lines::Case;
use etcs_vector_rows::append_row;
use std::alloc::{AllocError, Global};

/// Appends all bits of a slice, one by one or eight by eight.
#[derive(Drop)]
struct Pushes<'a> {
    bits: BitSlice<'a>,
    width: usize,
}

/// Whether bits are the first of a slice.
fn is_front(bits: &Bits, slice: &BitSlice<'_>) -> bool {
    let mut same = true;
    for index in 0..bits.len() {
        same &= bits.as_slice().bit(index) == slice.bit(index);
    }
    same
}

/// Appends the number of `width` bits of a slice.
fn push(bits: &mut Bits, slice: &BitSlice<'_>, width: usize) -> Result<(), AllocError> {
    if bits.len() > 10_000 {
        return Ok(());
    }
    if width == 8 {
        let number = slice.number(bits.len(), 8).unwrap_or(0);
        return bits.push_number(8, number % 256);
    }
    bits.push(slice.bit(bits.len()) == Some(true))
}

impl Call for Pushes<'_> {
    fn make(&mut self, alloc: Global) -> Answer {
        let mut bits = Bits::new(alloc);
        for _ in 0..self.bits.len() / self.width.max(1) {
            let before = bits.len();
            if push(&mut bits, &self.bits, self.width).is_err() {
                let same = bits.len() == before && is_front(&bits, &self.bits);
                return Answer::refused(same);
            }
        }
        let is_whole = bits.len() == self.bits.len();
        Answer::made(is_whole && is_front(&bits, &self.bits))
    }
}

/// `push WIDTH HEX`.
pub(crate) fn refuse_push(case: &mut Case) {
    let width = case.place();
    let bytes = case.bytes();
    let len = bytes.len().saturating_mul(8);
    match BitSlice::new(bytes.as_slice(), 0, len) {
        Some(bits) => refuse(case, &mut Pushes { bits, width }),
        None => case.bad(),
    }
}

/// A copy of the bits of some bytes from bit 3 on.
#[derive(Drop)]
struct Copies<'a> {
    bytes: &'a [u8],
}

impl Makes for Copies<'_> {
    type Made = Bits;

    fn make(&self, alloc: Global, _index: usize) -> Result<Bits, bool> {
        let len = self.bytes.len().saturating_mul(8).saturating_sub(3);
        match BitSlice::new(self.bytes, 3, len) {
            Some(slice) => Bits::from_slice(alloc, slice).or(Err(true)),
            None => Err(false),
        }
    }
}

/// `from_slice HEX`.
pub(crate) fn refuse_copy(case: &mut Case) {
    let bytes = case.bytes();
    let bytes = bytes.as_slice();
    refuse_each(case, Copies { bytes });
}

/// The rows of packets, written after three bits.
#[derive(Drop)]
pub(crate) struct Rows<'a> {
    pub(crate) rows: &'a [Listed],
}

/// Three bits and a row after them. Without memory there are three bits, or none where there was none for these.
fn written(alloc: Global, nid: u8, numbers: &[u64]) -> Result<Bits, bool> {
    let mut bits = Bits::new(alloc);
    if bits.push_number(3, 5).is_err() || bits.len() > 64 {
        return Err(bits.is_empty());
    }
    let Some(row) = row_of(Way::ToTrain, nid) else {
        return Err(false);
    };
    match append_row(row, numbers, &mut bits) {
        Ok(true) => Ok(bits),
        Ok(false) => Err(false),
        Err(_) => Err(bits.len() == 3 && bits.as_slice().number(0, 3) == Some(5)),
    }
}

impl Makes for Rows<'_> {
    type Made = Bits;

    fn count(&self) -> usize {
        self.rows.len()
    }

    fn make(&self, alloc: Global, index: usize) -> Result<Bits, bool> {
        match self.rows.get(index) {
            Some(row) => written(alloc, row.nid, row.numbers.as_slice()),
            None => Err(false),
        }
    }
}
