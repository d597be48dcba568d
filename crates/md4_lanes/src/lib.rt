//! MD4 of four messages of one length side by side, and MD4 of one message beside SHA-1 of four.
#![tactic(auto)]

mod beside;
mod block;
mod message;

pub use beside::update_beside_sha1;
pub use message::update_four;

#[cfg(test)]
mod tests;
