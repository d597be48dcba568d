//! The hashes of a blob's bytes, read once: the file hash, the hash set and the AICH tree.
//!
//! Four whole parts are hashed side by side, and what is left behind them part by part.
#![tactic(auto)]

mod blob;
mod fault;
mod file;
mod four_parts;
mod part;
mod reading;

pub use blob::{hash_blob, hash_sized};
pub use fault::HashFault;
pub use file::Hashed;
pub use reading::fill;

#[cfg(test)]
mod tests;
