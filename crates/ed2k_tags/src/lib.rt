//! Tags of the eDonkey2000 network: named values, read from a list in any of their spellings and written
//! in one. The fields that tags and messages are made of are in [`fields`].
#![tactic(auto)]

mod fault;
pub mod fields;
pub mod laws;
mod layout;
mod name;
mod read;
mod tag;
mod tags;
mod write;

pub use fault::TagFault;
pub use name::TagName;
pub use read::{TAG_LIMIT, read_tags, tags_at};
pub use tag::{Tag, Value};
pub use tags::Tags;
pub use write::{append_tags, have_spelling, write_tag};

#[cfg(test)]
mod tests;
