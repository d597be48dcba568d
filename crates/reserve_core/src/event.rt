//! What happens to a download.

use part_hashset::Hash;
use part_sizes::{Bits, Hashes, Pairs, Span, Spans};

/// The state that a log begins with.
#[derive(Debug, Drop)]
pub struct Opened {
    /// The kept hash set, empty where none is kept.
    pub set: Hashes,
    /// The filled positions.
    pub filled: Spans,
    /// The parts that have a verdict, each with the digest that was found.
    pub verdicts: Pairs,
}

/// What happened to a download.
#[derive(Debug, Drop)]
pub enum Event {
    /// The download was opened in this state.
    Opened(Opened),
    /// A valid hash set is kept from now on.
    Hashes(Hashes),
    /// A peer, and for each part that holds bytes whether the peer has it.
    Offer(u64, Bits),
    /// A peer, and the spans that are reserved for it.
    Reserve(u64, Spans),
    /// A peer, and the span that it filled.
    Write(u64, Span),
    /// A peer that holds nothing from now on.
    Release(u64),
    /// All that was written is durable.
    Commit,
    /// A part, and the digest of its bytes.
    Verdict(u16, Hash),
    /// A part, and for each of its blocks whether it was kept.
    Recovered(u16, Bits),
    /// A part of which nothing was kept.
    Dropped(u16),
}

/// An event of the log.
#[derive(Debug, Drop)]
pub struct Entry {
    /// The device calls that the vault had made when the entry was added.
    pub calls: u64,
    /// What happened.
    pub event: Event,
}
