//! How a session ended, and what it had come to.

use crate::cause::Cause;
use part_sizes::Bits;

/// What became of a peer.
#[derive(Drop)]
pub struct PeerEnd {
    /// The number under which the peer's entries stand in the log; none where there was no connection.
    pub number: Option<u64>,
    /// Why the session ended.
    pub cause: Cause,
    /// The parts for which the peer was asked for recovery data, in order. So far it is asked for none.
    pub asked: Vec<u16>,
    /// For each part that holds bytes whether the peer offered it; empty where it offered nothing.
    pub offered: Bits,
    /// Whether a later call may go on: the session ended because nothing was left to reserve.
    pub alive: bool,
}
