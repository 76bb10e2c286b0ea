//! The whole codec in one crate: of this repository, a program or a library names only this one in `crates.txt`.
//!
//! [`prelude`] has what most programs use, for `use etcs_codec::prelude::*`. The rest is here: bits at any offset, rows and
//! walks over them, runs over streams, how an account ends, why a bit is refused. [`crates`] has each crate below with
//! everything in it.
//!
//! ```rust
//! use etcs_codec::prelude::*;
//!
//! match TelegramView::new(bytes, Size::Long) {
//!     Ok(view) => view.packets().count(),
//!     Err(_) => 0,
//! }
//! ```
#![tactic(auto)]

pub mod crates;
pub mod prelude;

pub use etcs_bits::{BitIterator, PokeFault, Poker, SliceWalker, Walker, next_bits, peek, poke};
pub use etcs_json::from_line;
pub use etcs_reasons::{End, Part};
pub use etcs_rows::{
    Carrier, Cause, Here, LengthSet, Place, Refusal, RowWalk, Step, Stopped, admits_fields,
    lengths, reaches, write_row,
};
pub use etcs_stream::{
    Command, Failed, Form, Input, Job, Output, RunFault, Sink, Source, Tally, run, write_fault,
};
pub use etcs_tables::{Guard, Row, RowItem, Test, message_row, row_of};
pub use etcs_text::{check_line, encoded};
pub use etcs_vars::{begins, check};
