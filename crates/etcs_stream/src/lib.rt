//! [`run`] reads items from any source, as bytes or as lines of hexadecimal digits or JSON, and writes what a
//! [`Command`] asks for to any sink; a [`Job`] has kind, form and command. The first fault ends a run, unlike in
//! `etcs_log`.
//!
//! ```rust
//! let job = Job { kind: Kind::Long, from: Form::Hex, command: Command::Convert(Form::Json) };
//! match run(alloc, job, &mut Input::new(reader), &mut Output::new(writer)) {
//!     Ok(tally) => Some(tally.items),
//!     Err(fault) => {
//!         let _ = write_fault(&fault, faults); // `etcs: item 3 refused at bit 72, L_PACKET`
//!         None
//!     }
//! }
//! ```
#![tactic(auto)]

mod bin;
mod byte_items;
mod digits;
mod group_lines;
mod hex_lines;
mod job;
mod json_lines;
pub mod laws;
mod printer;
mod runs;

pub use etcs_json::{JsonFault, Value, from_value, to_value};
pub use etcs_runs::{Failed, Form, Input, Output, RunFault, Sink, Source, write_fault};
pub use etcs_text::{Entry, Kind, show_lines};
pub use etcs_vars::Var;
pub use job::{Command, Job, Tally};
pub use runs::run;
