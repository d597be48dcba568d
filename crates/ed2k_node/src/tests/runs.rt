//! Runs words over an outside in memory, and tells what a run left as plain data.

use crate::tests::streams::letters;
use crate::{Ended, Hands, run_one};
use ed2k_outside::{Addr, MemBlobs, MemNet, MemOut, MemWire, SetClock, Vault, Which};
use peer_fetch::{Cause, PeerEnd};
use std::alloc::{AllocError, Global};
use std::test::Fail;
use vault_sim::MemVault;

pub(crate) type MemHands = Hands<MemNet<MemWire>, MemVault, MemBlobs, MemOut, SetClock>;

pub(crate) type MemEnded = Ended<MemNet<MemWire>, MemVault, MemBlobs, MemOut, SetClock>;

/// Where the peer is.
const PEER: Addr = Addr {
    ip: [127, 0, 0, 1],
    port: 4662,
};

/// The word that names it.
pub(crate) const FROM: &str = "--from=127.0.0.1:4662";

/// What is printed for wrong words.
pub(crate) const USAGE: &str =
    "usage: ed2k_node get|check|hash|link|sources|look|serve|share|rehearse\n";

/// The number of the call that fails of each; 0 where none does.
#[derive(Clone, Copy)]
pub(crate) struct Fails {
    pub(crate) vault: u64,
    pub(crate) net: u64,
    pub(crate) out: u64,
}

/// Nothing fails.
pub(crate) const SMOOTH: Fails = Fails {
    vault: 0,
    net: 0,
    out: 0,
};

/// What a run left, as plain data.
#[derive(Drop)]
pub(crate) struct Seen {
    pub(crate) status: u8,
    pub(crate) printed: Vec<u8>,
    /// The body in the vault.
    pub(crate) body: Vec<u8>,
    /// How often the vault was called.
    pub(crate) calls: u64,
    /// The log, with a letter for each entry.
    pub(crate) letters: Vec<u8>,
    /// How many peers are told of.
    pub(crate) peers: usize,
    /// Why the session with the first of them ended.
    pub(crate) cause: Option<Cause>,
    /// What was sent to the peer, where its wire was given back.
    pub(crate) sent: Option<Vec<u8>>,
}

pub(crate) fn words(alloc: Global, texts: &[&str]) -> Result<Vec<String>, AllocError> {
    texts
        .iter()
        .map(|text| String::from_str(alloc, text))
        .try_collect(alloc)
}

/// One peer that says these bytes, in pieces of at most the listed lengths, with ample memory.
pub(crate) fn hands(
    alloc: Global,
    stream: Vec<u8>,
    cuts: Vec<usize>,
    fails: Fails,
) -> Result<MemHands, Fail> {
    let wire = MemWire::new(alloc, stream, cuts, Vec::new(alloc), Vec::new(alloc))?;
    let net_fails = vec![in alloc; fails.net]?;
    Ok(Hands {
        net: MemNet::new(alloc, vec![in alloc; (wire, PEER)]?, net_fails)?,
        vault: MemVault::failing(alloc, vec![in alloc; fails.vault]?),
        blobs: MemBlobs::new(Vec::new(alloc)),
        out: MemOut::new(alloc, vec![in alloc; fails.out]?),
        clock: SetClock::new(Vec::new(alloc)),
    })
}

/// Runs the words of a `get`.
fn run_get(alloc: Global, texts: &[&str], hands: MemHands) -> Result<MemEnded, Fail> {
    let words = words(alloc, texts)?;
    Ok(run_one(alloc, &words, hands))
}

/// Runs the words of a `get` with a peer that says these bytes. Nothing fails.
pub(crate) fn seen_of_get(alloc: Global, texts: &[&str], stream: Vec<u8>) -> Result<Seen, Fail> {
    let hands = hands(alloc, stream, Vec::new(alloc), SMOOTH)?;
    let ended = run_get(alloc, texts, hands)?;
    in_short(alloc, &ended)
}

/// What was sent to the peer, where its wire was given back.
fn sent(alloc: Global, net: &MemNet<MemWire>) -> Result<Option<Vec<u8>>, AllocError> {
    match net.closed(0) {
        Some(wire) => Ok(Some(wire.sent().to_vec(alloc)?)),
        None => Ok(None),
    }
}

/// Why the session with the first peer ended.
fn first_cause(peers: &[PeerEnd]) -> Option<Cause> {
    match peers.first() {
        Some(end) => Some(end.cause),
        None => None,
    }
}

/// What a run left.
pub(crate) fn in_short(alloc: Global, ended: &MemEnded) -> Result<Seen, Fail> {
    let printed = ended.hands.out.sent().to_vec(alloc)?;
    let body = ended.hands.vault.file(Which::Body).to_vec(alloc)?;
    let letters = letters(alloc, &ended.log)?;
    let sent = sent(alloc, &ended.hands.net)?;
    Ok(Seen {
        status: ended.status,
        printed,
        body,
        calls: ended.hands.vault.calls(),
        letters,
        peers: ended.peers.len(),
        cause: first_cause(&ended.peers),
        sent,
    })
}
