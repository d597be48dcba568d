//! The index of a server: live sessions, the files that they offer, and what a search finds among them.
#![tactic(auto)]

mod asked;
mod counts;
mod file;
mod files;
mod index;
mod merged;
mod offers;
mod postings;
mod search;
mod sessions;
mod sources;
mod words;

pub use file::{File, Found};
pub use index::Index;
pub use postings::Hash;
pub use sessions::IndexFault;
pub use sources::Places;

#[cfg(test)]
mod plain_tests;
#[cfg(test)]
mod tests;
