//! The ranges of a peer, as they are kept.

use part_sizes::Span;

/// A span that is reserved for a peer, and the place that the peer has reached in it.
#[derive(Clone, Copy, Debug)]
pub struct Hold {
    pub peer: u64,
    /// The span that was reserved.
    pub whole: Span,
    /// The position that the peer has reached.
    pub from: u64,
}

/// A peer that reserved once, and the ranges that it holds now, oldest first.
#[derive(Debug, Drop)]
pub struct Holder {
    pub peer: u64,
    pub ranges: Vec<Hold>,
}
