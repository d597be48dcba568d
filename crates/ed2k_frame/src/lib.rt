//! Frames of the eDonkey2000 network: a protocol byte, a length, an opcode and a payload, read from a
//! stream in whatever pieces it comes, and written.
#![tactic(auto)]

mod fault;
mod frame;
mod front;
pub mod laws;
mod reader;
mod stream;

pub use fault::FrameFault;
pub use frame::{
    EDONKEY, EMULE, FRAME_LIMIT, Frame, HEAD, PACKED, append_frame, frame_head, write_frame,
    write_head,
};
pub use reader::FrameReader;
pub use stream::read_frames;

#[cfg(test)]
mod tests;
