//! Calls that are made again and again with more and more memory.

use etcs_fakes::starve;
use etcs_vector_lines::Case;
use std::alloc::{AllocError, Global};

/// What a call answered.
#[derive(Clone, Copy)]
pub(crate) enum Answer {
    /// What it answers with memory.
    Right,
    /// Memory was refused, and all that was lent is as it must be.
    Refused,
    /// Anything else.
    Wrong,
}

impl Answer {
    /// The answer of a call that wasn't refused.
    pub(crate) fn made(is_right: bool) -> Answer {
        if is_right {
            Answer::Right
        } else {
            Answer::Wrong
        }
    }

    /// The answer of a call that was refused.
    pub(crate) fn refused(is_right: bool) -> Answer {
        if is_right {
            Answer::Refused
        } else {
            Answer::Wrong
        }
    }
}

/// A call that takes memory.
pub(crate) trait Call {
    /// Makes it once more, and looks at all that it was lent.
    fn make(&mut self, alloc: Global) -> Answer;
}

/// How large a block is of which a part is given.
const BLOCK: usize = 12_288;

/// How often a part is given at most.
const ROOMS: usize = 700;

/// How often a call must be right, after which it isn't made with more memory.
const ENOUGH: u32 = 12;

/// How often a call was right since it was refused, was refused, and was wrong.
#[derive(Clone, Copy)]
struct Found {
    right: u32,
    refused: u32,
    wrong: u32,
}

impl Found {
    /// Notes an answer.
    fn note(&mut self, answer: Answer) {
        match answer {
            Answer::Right => self.right = self.right.saturating_add(1),
            Answer::Wrong => self.wrong = self.wrong.saturating_add(1),
            Answer::Refused => {
                self.right = 0;
                self.refused = self.refused.saturating_add(1);
            }
        }
    }

    /// Says whether the call was refused and then right.
    fn say(&self, case: &mut Case) {
        case.say_either(self.refused > 0, "refused", "never refused");
        case.say_either(self.right >= ENOUGH, ", then right", ", never right");
        case.check(self.wrong == 0, "wrong");
    }
}

/// Makes a call with no memory, with 16 bytes, and so on, until it isn't refused.
pub(crate) fn refuse<C: Call>(case: &mut Case, call: &mut C) {
    let alloc = case.alloc();
    match each_refused(alloc, call) {
        Ok(found) => found.say(case),
        Err(_) => case.kept(false),
    }
}

/// Blocks that will be given in part, and between each two of them one that stays.
fn blocks(alloc: Global) -> Result<(Vec<Vec<u8>>, Vec<Vec<u8>>), AllocError> {
    let mut given = Vec::with_capacity(alloc, ROOMS)?;
    let mut kept = Vec::with_capacity(alloc, 100_000)?;
    for _ in 0..ROOMS {
        given.push(Vec::with_capacity(alloc, BLOCK)?)?;
        kept.push(Vec::with_capacity(alloc, 1100)?)?;
    }
    Ok((given, kept))
}

/// What a call returns with memory, and then with each room. The addresses are used up once; each time a block of its own
/// is given in part, and what the call leaves of it is taken again. The first call makes the stack as large as it must be.
fn each_refused<C: Call>(alloc: Global, call: &mut C) -> Result<Found, AllocError> {
    let mut found = Found {
        right: 0,
        refused: 0,
        wrong: 0,
    };
    match call.make(alloc) {
        Answer::Right => {}
        _ => found.wrong = 1,
    }
    let (mut given, mut kept) = blocks(alloc)?;
    let held = starve(alloc)?;
    for room in 0..ROOMS {
        if found.right >= ENOUGH {
            break;
        }
        drop(given.pop());
        if let Ok(rest) = Vec::with_capacity(alloc, BLOCK - 16 * room) {
            kept.push(rest)?;
            found.note(call.make(alloc));
        }
        take_all(alloc, 16 * room, &mut kept)?;
    }
    drop(held);
    Ok(found)
}

/// Takes all that is left of this many bytes.
fn take_all(alloc: Global, most: usize, kept: &mut Vec<Vec<u8>>) -> Result<(), AllocError> {
    let mut size = most;
    for _ in 0..2000u32 {
        if size < 16 {
            break;
        }
        match Vec::with_capacity(alloc, size) {
            Ok(block) => kept.push(block)?,
            Err(_) => size -= 16,
        }
    }
    Ok(())
}
