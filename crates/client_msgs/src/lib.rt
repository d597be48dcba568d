//! The messages that two clients of the eDonkey2000 network send each other, read from frames and
//! written as frames.
#![tactic(auto)]

mod fault;
pub mod laws;
mod lists;
mod msg;
mod opcode;
mod own;
mod read;
mod write;

pub use fault::{MsgFault, MsgTooLong};
pub use msg::{Hash, Hello, PeerMsg, Root};
pub use own::own_hello;
pub use read::read_peer;
pub use write::write_peer;

#[cfg(test)]
mod tests;
