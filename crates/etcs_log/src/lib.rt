//! Reads logs with at most one item per line ([`run_log`]). Each line is read by itself: a bad one is reported and
//! skipped, unlike in `etcs_stream`. A [`LogJob`] has the [`Kinds`] that are asked for and what is written; a
//! [`LogTally`] has the counts.
#![tactic(auto)]

mod byte_count;
mod counts;
mod job;
mod json_lines;
mod kinds;
mod lines;
mod log;
mod members;
mod needs;
mod notes;
mod numbers;
mod others;
mod picks;
mod readers;
mod refusals;
mod reports;
mod runs;
mod seen;
mod strings;

pub use job::{Good, LogJob, LogTally};
pub use kinds::Kinds;
pub use numbers::NumberSet;
pub use runs::run_log;
