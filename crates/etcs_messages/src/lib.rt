//! Radio messages, to the train and to the track alike, over what their heads and bodies are ([`Head`], [`Own`]):
//! [`MessageOf`] with its constructors and `encode`, and [`ReaderOf`], which reads from pieces. `etcs_radio` and
//! `etcs_train` supply heads and bodies.
#![tactic(auto)]

mod encode;
mod here;
pub mod inner;
mod kind;
pub mod laws;
mod message;
mod phase;
mod reader;
mod refused;
mod rest;
mod variables;
mod whole;

pub use etcs_bits::{BitSlice, Bits};
pub use etcs_sequence::Held;
pub use etcs_vars::{BuildFault, Fed, ReadFault, Var};
pub use kind::{Head, Own};
pub use message::MessageOf;
pub use reader::ReaderOf;
