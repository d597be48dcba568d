//! The AICH hash tree of a file (SHA-1 over its blocks), from its bytes as they come.
#![tactic(auto)]

mod folding;
mod fours;
mod hasher;
mod ident;
mod laws;
mod nodes;
mod shape;
mod stream;

pub use folding::join;
pub use hasher::TreeHasher;
pub use ident::ident_range;
pub use laws::{identifiers_name_nodes, trees_hash_their_bytes};
pub use nodes::Tree;
pub use shape::left_bytes;

#[cfg(test)]
mod tests;
