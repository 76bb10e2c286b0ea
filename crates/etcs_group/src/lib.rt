//! Balise groups: [`Assembly`] takes the telegrams of one group in any order, reports each [`Clash`] and what is
//! missing, and returns the packets of the whole group (`message`, or a [`GroupFault`]). [`Groups`] sorts many
//! telegrams by group and writes a line for each; [`Passages`] writes one for each passage of a group, as they come.
//!
//! ```rust
//! let mut assembly = Assembly::new();
//! for telegram in telegrams {
//!     if let Err((_clash, _telegram)) = assembly.add(telegram) {
//!         return Ok(None);
//!     }
//! }
//! if assembly.is_complete() {
//!     let packets = assembly.message(alloc)?;
//!     return Ok(Some(packets));
//! }
//! ```
#![tactic(auto)]

mod assembly;
mod clash;
mod fault;
mod groups;
mod held;
pub mod inner;
pub mod laws;
mod message;
mod passages;
mod states;

pub use assembly::{Added, Assembly};
pub use clash::Clash;
pub use etcs_packets::Packet;
pub use etcs_telegram::Telegram;
pub use fault::GroupFault;
pub use groups::Groups;
pub use passages::Passages;
