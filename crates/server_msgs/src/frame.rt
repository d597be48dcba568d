//! A payload, and the head that its frame begins with, in one buffer.
ghost use Rattle.std.specs.Prelude.{◌≡◌, ◌≤◌, length, drop, IfOk, IfErr};
ghost use Rattle.server_msgs.specs.Spelling.{framed, HasRoom, IsTooLong};

use crate::fault::MsgTooLong;
use ed2k_frame::{FRAME_LIMIT, HEAD, frame_head, write_head};
use ed2k_outside::Bytes;

/// The frame of a payload that stands behind room for a head, unless a frame has no room for it or a length
/// in it didn't fit its field.
pub(crate) fn frame_of(
    out: Vec<u8>,
    protocol: u8,
    opcode: u8,
    fits: bool,
) -> Result<Bytes, MsgTooLong>
    requires { HEAD ≤ length out.items }
    ensures written { IfOk result (λ bytes. bytes ≡ framed protocol opcode (drop HEAD out.items)) }
    ensures room { IfOk result (λ bytes. HasRoom (drop HEAD out.items) fits) }
    ensures long { IfErr result (λ fault. IsTooLong fault (drop HEAD out.items) fits) }
{
    let mut out = out;
    let len = out.len() - HEAD;
    if len >= FRAME_LIMIT as usize || !fits {
        return Err(MsgTooLong::Long(len as u64));
    }
    let head = frame_head(protocol, opcode, len as u32);
    write_head(&mut out, &head);
    Ok(Bytes::new(out))
}
