//! JSON trees: the tree of a line, of which no more is made than the largest item needs; and rows and packets put as bits,
//! read from their trees, or from text, without a tree. `etcs_json::from_line` is the call that reads an item from a line.
#![tactic(auto)]

mod digits;
mod fault;
mod hexadecimal;
pub mod inner;
mod members;
mod number;
mod packet_len;
mod packet_trees;
mod place;
mod read;
mod row_trees;
mod skip;
mod tree;
mod weight;
mod written;

pub use tree::tree_of;
