//! What the program reaches outside itself, as traits with contracts, and a form of each in memory.
//!
//! Each trait has a count of faults, which never falls, and a call answers [`Failed`] only where that count
//! rose in the call. What an object holds is an optional meaning: objects in memory tell it, sockets and
//! files don't.
#![tactic(auto)]

mod addr;
mod blobs;
mod bytes;
mod clock;
mod copies;
mod failed;
mod halves;
mod mem_blobs;
mod mem_net;
mod mem_out;
mod mem_wire;
mod net;
mod no_memory;
mod script;
mod set_clock;
mod vault;

pub use addr::Addr;
pub use blobs::{Blob, Blobs};
pub use bytes::Bytes;
pub use clock::Clock;
pub use copies::copy_from;
pub use failed::Failed;
pub use halves::{Sink, Source, Wire};
pub use mem_blobs::{MemBlob, MemBlobs};
pub use mem_net::MemNet;
pub use mem_out::MemOut;
pub use mem_wire::MemWire;
pub use net::Net;
pub use no_memory::NoMemory;
pub use set_clock::SetClock;
pub use vault::{Vault, Which};

#[cfg(test)]
mod tests;
