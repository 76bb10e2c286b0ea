//! What runs share: [`Source`] and [`Sink`], the pump that runs an `Engine` over a source, the cutter of lines
//! (`Lines` over a `LineHandler`), the bytes of a line's digits ([`line_bytes`], [`Run`]), [`Form`] and [`RunFault`]. Items
//! are for `etcs_stream`, `etcs_explain` and `etcs_log`.
#![tactic(auto)]

mod cutter;
mod digits;
mod ends;
mod engine;
mod fault;
mod form;
mod found;
mod front;
mod hexadecimal;
pub mod inner;
mod lines;
mod pump;
mod run;
mod send;
mod words;

pub use digits::{NoBytes, line_bytes};
pub use ends::{Failed, Input, Output, Sink, Source};
pub use fault::{RunFault, write_fault};
pub use form::Form;
pub use front::line_front;
pub use lines::{MOST_LINE, split_line, without_cr};
pub use run::Run;
