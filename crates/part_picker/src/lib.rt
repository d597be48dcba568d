//! The order in which parts are chosen: by the number of peers that have them, then by number.
#![tactic(auto)]

mod parts;

pub use parts::order;

#[cfg(test)]
mod tests;
