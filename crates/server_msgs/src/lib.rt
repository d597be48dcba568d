//! The messages between an index server of the eDonkey2000 network and its clients, read from frames and
//! written as frames.
#![tactic(auto)]

mod fault;
mod frame;
mod id;
pub mod laws;
mod lists;
mod msg;
mod opcode;
mod read;
mod write;

pub use fault::{MsgFault, MsgTooLong};
pub use id::{address_of, id_of, is_high};
pub use lists::FILE_LIMIT;
pub use msg::{ClientMsg, Endpoint, Endpoints, FileItem, Files, Hash, ServerMsg};
pub use read::{read_client, read_server};
pub use write::{write_client, write_server};

#[cfg(test)]
mod tests;
