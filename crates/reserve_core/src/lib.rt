//! The state of a download as a log of events: what is filled, reserved and judged, and what may come
//! next.
#![tactic(auto)]

mod choice;
mod core_state;
mod desk;
mod event;
mod fault;
mod hold;
mod holders;
mod holds;
mod laws;
mod offers;
mod opening;
mod part_state;
mod verdict;

pub use core_state::{Core, Written};
pub use desk::{Answer, DeskAsk, FileDesk};
pub use event::{Entry, Event, Opened};
pub use fault::{DeskFault, PacketFault};
pub use laws::no_position_is_held_twice;
pub use verdict::Verdict;

#[cfg(test)]
mod tests;
