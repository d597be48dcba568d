//! The book of uploads: four slots, who waits for one, and the credit of each user.
#![tactic(auto)]

mod book;
mod bytes;
mod laws;
mod waiting;

pub use book::{Place, SLOTS, UploadBook};
pub use laws::{one_alone_is_the_next, the_next_has_rank_one};
pub use waiting::Hash;

#[cfg(test)]
mod tests;
