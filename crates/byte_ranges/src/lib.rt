//! Sets of positions below a size, kept as spans.
#![tactic(auto)]

mod ranges;
mod spans;

pub use ranges::Ranges;

#[cfg(test)]
mod tests;
