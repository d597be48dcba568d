//! A frame, and how it is spelled.
ghost use Rattle.std.specs.Prelude.{◌≡◌, ◌<◌, ◌≤◌, ◌++◌, length, drop, IfOk, OnOk, OnErr};
ghost use Rattle.ed2k_frame.specs.Frame.{IsProtocol, head, spell};

use byteorder::{ByteOrder, LittleEndian};
use ed2k_outside::{Bytes, NoMemory};
use std::alloc::Global;

/// The protocol byte of an eDonkey frame.
pub const EDONKEY: u8 = 0xE3;

/// The protocol byte of a frame of the eMule extension.
pub const EMULE: u8 = 0xC5;

/// The protocol byte of a packed frame, which is neither read nor written.
pub const PACKED: u8 = 0xD4;

/// The greatest length of a frame: its opcode and its payload, in bytes. It is a limit of this program.
pub const FRAME_LIMIT: u32 = 2_000_000;

/// The number of bytes before a payload: the protocol, four bytes of length and the opcode.
pub const HEAD: usize = 6;

/// The bytes of a head that its length doesn't count: the protocol and the length itself.
pub(crate) const UNCOUNTED: usize = 5;

/// One message on a stream, as its head and its bytes.
#[derive(Debug, Drop)]
pub struct Frame {
    /// `EDONKEY` or `EMULE`.
    pub protocol: u8,
    /// Which message it is. The length counts it with the payload.
    pub opcode: u8,
    /// What the message says.
    pub payload: Bytes,
}

/// The spelling of a frame: its protocol, the length of opcode and payload in four bytes with the
/// lowest first, its opcode and its payload (The eMule Protocol Specification, Kulbak and Bickson
/// 2005, on message headers).
pub fn write_frame(alloc: Global, frame: &Frame) -> Result<Bytes, NoMemory>
    requires protocol { IsProtocol frame.now.protocol }
    requires payload { length frame.now.payload < FRAME_LIMIT }
    ensures { IfOk result (λ bytes. bytes ≡ spell frame.now) }
{
    let mut out = Vec::new(alloc);
    append_frame(&mut out, frame)?;
    Ok(Bytes::new(out))
}

/// Adds the spelling of a frame at the end of a buffer. An `Err` leaves the buffer as it was.
pub fn append_frame(out: &mut Vec<u8>, frame: &Frame) -> Result<(), NoMemory>
    requires protocol { IsProtocol frame.now.protocol }
    requires payload { length frame.now.payload < FRAME_LIMIT }
    ensures ok { OnOk result (out.new.items ≡ out.old.items ++ spell frame.now) }
    ensures err { OnErr result (out.new.items ≡ out.old.items) }
{
    let payload = frame.payload.as_slice();
    out.reserve(HEAD + payload.len())?;
    let head = frame_head(frame.protocol, frame.opcode, payload.len() as u32);
    out.extend_from_slice(&head).unwrap();
    out.extend_from_slice(payload).unwrap();
    Ok(())
}

/// What comes before a payload of this many bytes, for a caller that writes the payload itself.
pub fn frame_head(protocol: u8, opcode: u8, payload_len: u32) -> [u8; HEAD]
    requires { payload_len < FRAME_LIMIT }
    ensures { result ≡ head protocol opcode payload_len }
{
    let mut head = [protocol, 0, 0, 0, 0, opcode];
    LittleEndian::write_u32(&mut head[1..5], payload_len + 1);
    head
}

/// Writes a head over the bytes in front, for a caller that left room for it before the payload.
pub fn write_head(out: &mut [u8], head: &[u8; HEAD])
    requires { HEAD ≤ length out.old }
    ensures { out.new ≡ head.now ++ drop HEAD out.old }
{
    out[..HEAD].copy_from_slice(head);
}
