//! Files that are shared: blobs with their names, their hash sets and their AICH trees.
#![tactic(auto)]

mod adding;
mod fault;
mod file;
mod list;

pub use fault::ShareFault;
pub use file::SharedFile;
pub use list::ShareList;

#[cfg(test)]
mod tests;
