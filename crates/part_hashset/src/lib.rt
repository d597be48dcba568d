//! The hashes of a file's parts, and the file's hash over them.
#![tactic(auto)]

mod aim;
mod check;
mod goals;
mod hasher;
mod laws;
mod parts;

pub use aim::{Aim, Hash, Root};
pub use check::{SetFault, check_set};
pub use goals::{fails, is_wanted, passes};
pub use hasher::SetHasher;
pub use laws::sets_give_the_file_hash;

#[cfg(test)]
mod tests;
