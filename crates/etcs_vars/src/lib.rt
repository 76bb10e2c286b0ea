//! The variables of ETCS telegrams and radio messages: names, widths and admitted numbers (SUBSET-026, 7.5), and the
//! faults that name a variable; where variables are sent, kept bits among them, and bits that are put over those of
//! bytes (`WordSink`) or on a page of their own (`BitPage`).
#![tactic(auto)]

mod bit_page;
mod fault;
mod feed;
pub mod inner;
mod joining;
mod kept;
mod pairs;
mod ranges;
mod sink;
mod tables;
mod var;
mod word;
mod word_sink;

pub use bit_page::BitPage;
pub use fault::{BuildFault, check};
pub use feed::{Fed, ReadFault};
pub use pairs::pairs_of;
pub use ranges::begins;
pub use var::Var;
pub use word_sink::WordSink;
