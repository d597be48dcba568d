//! The states of a session, and what it knows of its peer.

use part_hashset::Aim;
use part_sizes::Bits;

/// What a session waits for.
#[derive(Clone, Copy, Debug, PartialEq, Eq)]
pub enum Place {
    /// The answer to the hello.
    Hello,
    /// Which parts the peer has.
    Status,
    /// The hash set.
    Set,
    /// An upload slot.
    Slot,
    /// Pieces of the ranges that were asked for.
    Pieces,
}

/// How far a session has come.
#[derive(Drop)]
pub struct Session {
    /// The file that is wanted.
    pub aim: Aim,
    /// What is waited for.
    pub place: Place,
    /// For each part that holds bytes whether the peer offered it; empty before it did.
    pub offered: Bits,
}
