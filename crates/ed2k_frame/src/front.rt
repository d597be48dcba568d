//! What stands at the front of a stream: less than a frame, a frame or a fault.
ghost use Rattle.std.specs.Prelude.{◌∷◌, ◌+◌, drop, IfOk};
ghost use Rattle.ed2k_frame.specs.Frame.{IsProtocol};
ghost use Rattle.ed2k_frame.specs.Front.{IsFrameAt};
ghost use Rattle.ed2k_frame.specs.Whole.{IsFront, IsWhole};

use crate::fault::FrameFault;
use crate::frame::{EDONKEY, EMULE, FRAME_LIMIT, Frame, HEAD, PACKED, UNCOUNTED};
use byteorder::{ByteOrder, LittleEndian};
use ed2k_outside::Bytes;
use std::alloc::{AllocError, Global};

/// What stands at the front of a stream's bytes.
#[derive(Clone, Copy)]
pub(crate) enum Front {
    /// Less than a whole frame.
    Partial,
    /// A whole frame, which this length field begins.
    Whole(u32),
    /// A fault in a frame's place.
    Faulty(FrameFault),
}

/// What stands at the front of these bytes.
pub(crate) fn front_of(bytes: &[u8]) -> Front
    ensures { IsFront result bytes.now }
{
    match bytes.split_first() {
        None => Front::Partial,
        Some((protocol, after)) => front_after(*protocol, after),
    }
}

/// What stands at the front of a protocol byte and the bytes after it.
fn front_after(protocol: u8, after: &[u8]) -> Front
    ensures { IsFront result (protocol ∷ after.now) }
{
    match protocol {
        EDONKEY | EMULE => front_at_length(protocol, after),
        PACKED => Front::Faulty(FrameFault::Packed),
        other => Front::Faulty(FrameFault::BadProtocol(other)),
    }
}

/// The same, behind a right protocol byte.
fn front_at_length(protocol: u8, after: &[u8]) -> Front
    requires { IsProtocol protocol }
    ensures { IsFront result (protocol ∷ after.now) }
{
    if after.len() < 4 {
        return Front::Partial;
    }
    let len = LittleEndian::read_u32(after);
    if len == 0 || len > FRAME_LIMIT {
        Front::Faulty(FrameFault::BadLength(len))
    } else if after.len() - 4 < len as usize {
        Front::Partial
    } else {
        Front::Whole(len)
    }
}

/// The whole frame at the front of these bytes, whose length field is given. Its payload is copied.
pub(crate) fn frame_at(alloc: Global, bytes: &[u8], len: u32) -> Result<Frame, AllocError>
    requires { IsWhole len bytes.now }
    ensures { IfOk result (λ frame. IsFrameAt frame bytes.now (drop (len + UNCOUNTED) bytes.now)) }
{
    let payload = Vec::from_slice(alloc, &bytes[HEAD..len as usize + UNCOUNTED])?;
    Ok(Frame {
        protocol: bytes[0],
        opcode: bytes[UNCOUNTED],
        payload: Bytes::new(payload),
    })
}
