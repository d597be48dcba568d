//! Frames over a connection: bytes are sent whole, and frames are read from what comes in, within a budget.
#![tactic(auto)]

pub mod laws;
mod reader;
mod send;
mod stop;

pub use reader::WireReader;
pub use send::send_all;
pub use stop::Stop;

#[cfg(test)]
mod tests;
