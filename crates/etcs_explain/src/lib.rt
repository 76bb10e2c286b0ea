//! Explains the items of an input one after another ([`explain`]): each variable with its bits, its number and its
//! meaning, as text or as a page; and why JSON is not an item ([`json_reason`]). [`Account`] and [`why`] are from
//! `etcs_reasons`.
#![tactic(auto)]

mod cut;
mod explainer;
mod hints;
mod items;
mod json;
mod kinds;
mod line_reason;
mod no_json;
mod quoted;
mod run;
mod seen;
mod task;
mod titles;

pub use etcs_reasons::{Account, End, Layout, Part, Reason, why};
pub use json::json_reason;
pub use line_reason::JsonReason;
pub use run::explain;
pub use task::Task;
