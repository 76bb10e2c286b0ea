//! Calls that make values, all of which are held until the last one is made.

use crate::rooms::{Answer, Call, refuse};
use etcs_vector_lines::Case;
use std::alloc::Global;

/// Values that take memory.
pub(crate) trait Makes: Drop {
    type Made: PartialEq + Drop;

    /// How many there are.
    fn count(&self) -> usize {
        1
    }

    /// Makes one of them. The error is that memory was refused, and says whether all that was lent is as it was.
    fn make(&self, alloc: Global, index: usize) -> Result<Self::Made, bool>;
}

/// The values, those that were made with memory, and those that are made without.
#[derive(Drop)]
struct Each<M: Makes> {
    makes: M,
    whole: Vec<M::Made>,
    held: Vec<M::Made>,
}

impl<M: Makes> Each<M> {
    /// Makes all that can be made.
    fn fill(&mut self, alloc: Global) -> Answer {
        for index in 0..self.makes.count() {
            match self.makes.make(alloc, index) {
                Ok(made) => {
                    if self.held.push(made).is_err() {
                        return Answer::Wrong;
                    }
                }
                Err(is_right) => {
                    let is_front = self.whole.as_slice().starts_with(self.held.as_slice());
                    return Answer::refused(is_right && is_front);
                }
            }
        }
        Answer::made(self.held == self.whole)
    }
}

impl<M: Makes> Call for Each<M> {
    fn make(&mut self, alloc: Global) -> Answer {
        let answer = self.fill(alloc);
        self.held.clear();
        answer
    }
}

/// Refuses each growth of making these values.
pub(crate) fn refuse_each<M: Makes>(case: &mut Case, makes: M) {
    let alloc = case.alloc();
    let mut whole = Vec::new(alloc);
    let mut held = Vec::new(alloc);
    case.kept(held.reserve(makes.count()).is_ok());
    for index in 0..makes.count() {
        match makes.make(alloc, index) {
            Ok(made) => case.kept(whole.push(made).is_ok()),
            Err(_) => case.kept(false),
        }
    }
    refuse(case, &mut Each { makes, whole, held });
}
