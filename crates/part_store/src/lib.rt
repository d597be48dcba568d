//! A download that is kept in a vault: the state of the core, and the body that it speaks of.
#![tactic(auto)]

mod body;
mod fault;
mod part_file;
mod solo;

pub use fault::StoreFault;
pub use part_file::PartFile;
pub use solo::Solo;

#[cfg(test)]
mod tests;
