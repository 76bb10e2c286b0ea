//! Memory that is used up, but for a measured rest.

use std::alloc::{AllocError, Global};

/// Takes blocks until there is no memory for another of 16 bytes, and returns them: memory is used up until they are
/// dropped. They reserve addresses and touch almost none of them. Small blocks are taken in each size, since the heap keeps
/// freed blocks for requests of their size.
///
/// # Errors
///
/// If there is no memory for the list of blocks.
pub fn starve(alloc: Global) -> Result<Vec<Vec<u8>>, AllocError> {
    let mut held = Vec::with_capacity(alloc, 400_000)?;
    let mut size = 1usize << 46;
    for _ in 0..399_000u32 {
        if size < 16 {
            break;
        }
        match Vec::with_capacity(alloc, size) {
            Ok(block) => held.push(block)?,
            Err(_) => size = if size > 2048 { size / 2 } else { size - 16 },
        }
    }
    Ok(held)
}

/// As [`starve`], but about `room` bytes, at most 8,192, can still be allocated.
///
/// # Errors
///
/// If there is no memory for the list of blocks, or to set `room` aside.
pub fn starve_to(alloc: Global, room: usize) -> Result<Vec<Vec<u8>>, AllocError> {
    let spare: Vec<u8> = Vec::with_capacity(alloc, 8192)?;
    let mut held = starve(alloc)?;
    drop(spare);
    held.push(Vec::with_capacity(alloc, 8192usize.saturating_sub(room))?)?;
    Ok(held)
}
