//! One reader of every language of variables: rows, packets, telegrams and messages.
//!
//! A language gives what is left of it after the variables that were read ([`Rest`]); the reader
//! ([`Feeder`]) takes bits from pieces of any length, finds the first bit with which nothing continues,
//! and names the variable that holds it.
#![tactic(auto)]

mod block;
mod feeder;
mod fields;
pub mod inner;
pub mod laws;
mod nearest;
mod reader;
mod rest;

pub use block::Block;
pub use feeder::{Feeder, Stop};
pub use fields::Fields;
pub use rest::Rest;
