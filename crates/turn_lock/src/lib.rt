//! A ticketed lock that carries a log. Passes of the lock take turns with one value; between two
//! turns a pass knows how much of the value's log it has seen, and what its own rows are.
//!
//! The words of the table are the tickets drawn, the ticket whose turn it is, the length of the
//! log, the numbers given to passes, and the bells on which waiting passes sleep. Its one slot has
//! the value, which a pass takes out for its turn and lays back at the end of it.
#![tactic(auto)]

mod booked;
mod known;
mod pass;
mod rule;
mod steps;
mod turn;

pub use booked::Booked;
pub use known::{Known, Stage};
pub use pass::Pass;
pub use turn::Turn;

#[cfg(test)]
mod tests;
