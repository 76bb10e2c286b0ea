//! For the crates above: what sends variables with their numbers, what takes them, and how many
//! variables there are.

pub use crate::kept::send_bits;
pub use crate::pairs::PairList;
pub use crate::sink::{Nothing, VarSink, Variables, append_numbers, bits_of_all, send_all};
pub use crate::tables::COUNT;
