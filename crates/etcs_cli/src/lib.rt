//! The program `etcs`, except that its words, streams and files are handed to it ([`run_words`], [`run_with_files`]): the
//! command line, and the statuses.
#![tactic(auto)]

mod asked;
mod blanks;
mod files;
mod front;
mod line;
mod texts;
mod words;

pub use files::Files;
pub use words::{run_with_files, run_words};
