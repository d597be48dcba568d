//! Runs sessions over a wire in memory, with a part file in memory as the desk, and tells what they
//! left.

use crate::tests::streams::{ABC, Say, letters, opcodes, talk_then};
use client_msgs::Hash;
use ed2k_outside::{MemWire, Vault, Which};
use part_hashset::Aim;
use part_sizes::SIZE_LIMIT;
use part_store::{PartFile, Solo};
use peer_fetch::{Cause, PeerEnd, PeerLink, fetch};
use reserve_core::Entry;
use std::alloc::Global;
use std::test::Fail;
use vault_sim::MemVault;

/// How the outside behaves in a session.
#[derive(Clone, Copy)]
pub(crate) struct Outside {
    /// The most bytes that a read takes; 0 where it takes all that it has room for.
    pub(crate) piece: usize,
    /// The number of the wire's call that fails; 0 where none does.
    pub(crate) wire_fails: u64,
    /// The number of the vault's call that fails; 0 where none does.
    pub(crate) vault_fails: u64,
    /// The most bytes that are taken of the wire.
    pub(crate) budget: u64,
}

/// Nothing fails, and the budget is more than any stream has.
pub(crate) const SMOOTH: Outside = Outside {
    piece: 0,
    wire_fails: 0,
    vault_fails: 0,
    budget: 1_000_000_000,
};

/// What a session left.
#[derive(Drop)]
struct Left {
    end: PeerEnd,
    wire: MemWire,
    vault: MemVault,
    log: Vec<Entry>,
    complete: bool,
}

/// The same as plain data.
#[derive(Drop)]
pub(crate) struct Seen {
    pub(crate) cause: Cause,
    pub(crate) alive: bool,
    /// Whether each part is verified.
    pub(crate) complete: bool,
    /// Which parts the peer offered.
    pub(crate) offered: Vec<bool>,
    pub(crate) sent: Vec<u8>,
    /// The opcodes of what was sent.
    pub(crate) opcodes: Vec<u8>,
    /// The log, with a letter for each entry.
    pub(crate) letters: Vec<u8>,
    /// The log as it is printed.
    pub(crate) log: String,
    /// The body in the vault.
    pub(crate) body: Vec<u8>,
    /// The log in the vault.
    pub(crate) kept: Vec<u8>,
    /// How often the vault was called.
    pub(crate) calls: u64,
}

/// A whole session for the file of a size and hash, with a peer that says these bytes.
fn run_session(
    alloc: Global,
    size: u64,
    hash: Hash,
    stream: Vec<u8>,
    outside: Outside,
) -> Result<Left, Fail> {
    if size == 0 || size > SIZE_LIMIT {
        return Err("no size of a file".into());
    }
    let aim = Aim {
        size,
        hash,
        root: None,
    };
    let reads = stream.len().checked_div(outside.piece).unwrap_or(0);
    let cuts = vec![in alloc; outside.piece; reads]?;
    let fails = vec![in alloc; outside.wire_fails]?;
    let wire = MemWire::new(alloc, stream, cuts, fails, Vec::new(alloc))?;
    let vault = MemVault::failing(alloc, vec![in alloc; outside.vault_fails]?);
    let Ok(file) = PartFile::create(alloc, vault, aim) else {
        return Err("no part file".into());
    };
    let mut link = PeerLink::new(alloc, wire, aim);
    let mut desk = Solo { file };
    let end = fetch(&mut link, &mut desk, outside.budget);
    let complete = desk.file.complete();
    let (vault, log) = desk.file.into_parts();
    Ok(Left {
        end,
        wire: link.into_wire(),
        vault,
        log,
        complete,
    })
}

fn in_short(alloc: Global, left: &Left) -> Result<Seen, Fail> {
    let offered = left.end.offered.as_slice().to_vec(alloc)?;
    let sent = left.wire.sent().to_vec(alloc)?;
    let opcodes = opcodes(alloc, &sent)?;
    let letters = letters(alloc, &left.log)?;
    let log = format!(in alloc; "{:?}", left.log)?;
    let body = left.vault.file(Which::Body).to_vec(alloc)?;
    let kept = left.vault.file(Which::Log).to_vec(alloc)?;
    Ok(Seen {
        cause: left.end.cause,
        alive: left.end.alive,
        complete: left.complete,
        offered,
        sent,
        opcodes,
        letters,
        log,
        body,
        kept,
        calls: left.vault.calls(),
    })
}

/// What a session for the file of a size and hash leaves, with a peer that says these bytes.
pub(crate) fn session(
    alloc: Global,
    size: u64,
    hash: Hash,
    stream: Vec<u8>,
    outside: Outside,
) -> Result<Seen, Fail> {
    let left = run_session(alloc, size, hash, stream, outside)?;
    in_short(alloc, &left)
}

/// The session for `abc` with a peer that says the first so many messages of the smallest download,
/// and then these.
pub(crate) fn small_session(
    alloc: Global,
    count: usize,
    says: &[Say],
    outside: Outside,
) -> Result<Seen, Fail> {
    let stream = talk_then(alloc, count, says)?;
    session(alloc, 3, ABC, stream, outside)
}
