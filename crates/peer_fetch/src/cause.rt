//! Why a session ended.

use client_msgs::MsgFault;
use ed2k_frame::FrameFault;
use part_hashset::SetFault;

/// Why a session ended.
#[derive(Clone, Copy, Debug, PartialEq, Eq)]
pub enum Cause {
    /// No byte of the parts that the peer has is left to reserve. The session goes on in a later call.
    NoBlock,
    /// The peer's bytes ended, at a frame's border or within one. The budget allowed the read that found it.
    Ended,
    /// A write of the wire failed in this call, or a read that the budget allowed.
    WireFault,
    /// This fault stands in a frame's place, within the bytes that were taken.
    BadFrame(FrameFault),
    /// A frame within the bytes that the budget lets be read isn't read as a message.
    BadMsg(MsgFault),
    /// The peer doesn't share the file.
    NoFile,
    /// The peer's status counts this number of parts, which is neither 0 nor the file's.
    BadStatus(u16),
    /// The peer's hash set isn't valid.
    BadSet(SetFault),
    /// The peer filled a block that recovery opened again. No desk of this program recovers a part yet.
    Cheat,
    /// This part failed eight times.
    Worn(u16),
    /// The store failed, in this call or before it.
    StoreFault,
    /// As many bytes as the budget were taken of the wire, and those that are unread are less than a frame.
    Spent,
    /// There was no connection. No session answers it.
    NoLink,
    /// Memory was wanted and refused.
    NoMemory,
}
