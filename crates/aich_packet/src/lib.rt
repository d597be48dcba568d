//! Recovery data of a part: the hashes of the part's leaves and of the siblings on the way down to it,
//! checked against the root of the file's AICH tree, and made from a tree.
#![tactic(auto)]

mod checking;
mod fault;
mod folding;
mod judging;
mod layout;
mod making;
mod node;
pub mod numbers;
mod way;

pub use checking::prove;
pub use fault::PacketFault;
pub use making::make_packet;

#[cfg(test)]
mod tests;
