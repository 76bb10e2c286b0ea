//! The rows of packets and messages as tables.
#![tactic(auto)]

mod frame;
mod item;
mod row;
mod tables;

pub use etcs_vars::Var;
pub use frame::{
    CLOSING, CLOSING_BITS, MARKER_BITS, MOST_LENGTH, ROW_LIMIT, frame_bits, head_bits,
    is_direction, is_framed, is_kept, kept_limit,
};
pub use item::{Guard, RowItem, Test};
pub use row::{Row, Way};
pub use tables::{head_row, header_row, message_bits, message_ranges, message_row, row_of};
