//! What a run is handed, and what it hands back.

use peer_fetch::PeerEnd;
use reserve_core::Entry;

/// What the program reaches outside itself.
#[derive(Drop)]
pub struct Hands<N, V, B, O, C> {
    /// The peers.
    pub net: N,
    /// The files that a download is kept in.
    pub vault: V,
    /// The files that are read by name.
    pub blobs: B,
    /// What is printed.
    pub out: O,
    /// The time. Nothing reads it yet.
    pub clock: C,
}

/// How a run ended, with what it was handed.
#[derive(Drop)]
pub struct Ended<N, V, B, O, C> {
    /// 0 done, 1 usage, 2 link, 3 incomplete, 4 vault, 5 no memory, 6 output, 9 net, 10 bad part,
    /// 11 blob, 13 no hash set.
    pub status: u8,
    /// What the program was handed, back.
    pub hands: Hands<N, V, B, O, C>,
    /// What was done to the file that was downloaded, oldest entry first; empty where no store was
    /// made.
    pub log: Vec<Entry>,
    /// What became of each peer, in the order of the words; empty where no store was made.
    pub peers: Vec<PeerEnd>,
}
