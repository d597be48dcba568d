//! SHA-1 of four messages of one length side by side.
#![tactic(auto)]

pub mod compress;
mod digest;
pub mod word;

pub use digest::{digests, finish, start};

#[cfg(test)]
mod tests;
