//! Items of any kind ([`Entry`], [`Kind`]): read from pieces by [`EntryReader`], or as bytes that are one item and
//! nothing else by [`SingleReader`]; written as text, JSON, hexadecimal digits or bytes ([`show_lines`],
//! [`json_line`], [`hex_line`], [`encoded`]), without a tree. `etcs_json` reads JSON. Without a value of its type an item is its
//! variables with their numbers, in the order of sending ([`read_pairs`], [`write_pairs`]).
//!
//! ```rust
//! show_lines(&entry, 1, &mut out)?; // as `etcs show` writes it, numbered 1
//! json_line(&entry, &mut out)?; // as `etcs convert --to json` writes it
//! ```
//!
//! A number of a telegram is changed so:
//!
//! ```rust
//! let mut read = read_pairs(alloc, Kind::Long, bytes)?;
//! if read.end == End::Whole {
//!     read.fields[8].1 = nid_bg; // after Q_UPDOWN, M_VERSION, Q_MEDIA, N_PIG, N_TOTAL, M_DUP, M_MCOUNT and NID_C
//!     let is_written = write_pairs(alloc, Kind::Long, read.fields.as_slice(), &mut out)?; // `false`: no telegram has these
//! }
//! ```
#![tactic(auto, using(etcs_packet_text::specs::laws::Fronts::begins_more))]

mod account;
mod encodings;
mod entries;
mod entry;
pub mod inner;
mod item_lines;
mod json_lines;
pub mod laws;
mod messages;
mod pairs;
mod refused;
mod seen;
mod show;
mod verdict;
mod writer;

pub use account::{Account, End, Part};
pub use encodings::{check_line, encoded, hex_line};
pub use entries::EntryReader;
pub use entry::{Entry, Kind};
pub use etcs_radio::Message;
pub use etcs_telegram::Telegram;
pub use etcs_train::TrainMessage;
pub use json_lines::json_line;
pub use pairs::{read_pairs, same_pairs, write_pairs};
pub use show::show_lines;
pub use verdict::{SingleReader, Verdict};
