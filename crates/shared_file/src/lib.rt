//! One part file for many peers, which take turns with it.
//!
//! Each call of a peer is one turn: the part file is taken out of the lock, called once, and laid back.
#![tactic(auto)]

mod common;
mod noted;
mod peer;
mod shared_file;

pub use common::Common;
pub use noted::Noted;
pub use peer::Peer;
pub use shared_file::SharedFile;
