//! Vaults in memory that crash.
//!
//! A [`MemVault`] keeps the disk model as a real disk would, and answers for every moment since it was made.
#![tactic(auto)]

mod copies;
mod crashing;
mod disk;
mod disk_file;
mod fuse;
mod mem_vault;
mod past;
mod redo;
mod step;

pub use crashing::crash;
pub use fuse::Fuse;
pub use mem_vault::MemVault;

#[cfg(test)]
mod tests;
