//! A download from one peer, whose bytes lie ready in memory.
ghost use Rattle.std.specs.Prelude.{◌<◌, IfOk, length};
ghost use Rattle.part_sizes.specs.Part.{IsSize};
ghost use Rattle.client_msgs.specs.Spelling.{HasForm};

use crate::hashes::generated;
use client_msgs::{Hash, PeerMsg, own_hello, write_peer};
use ed2k_outside::{Bytes, MemWire, NoMemory};
use part_hashset::{Aim, SetHasher};
use part_sizes::{Bits, Hashes, PART, SIZE_LIMIT};
use part_store::{PartFile, Solo};
use peer_fetch::{PeerLink, fetch};
use std::alloc::Global;
use std::io;
use vault_sim::MemVault;

/// The number of bytes of a file in a message.
const PIECE: usize = 10_240;

/// The most bytes that are taken of the wire, which is more than any stream has.
const BUDGET: u64 = 1_099_511_627_776;

/// The file hash and the hash set of so many bytes, the piece again and again.
fn hash_set(alloc: Global, piece: &[u8], size: u32) -> Result<(Hash, Hashes), NoMemory>
    requires { 0 < length piece.now }
{
    let mut hasher = SetHasher::new(alloc);
    let mut left = size as usize;
    'pieces: while left > 0 {
        let n = left.min(piece.len());
        hasher.feed(&piece[..n])?;
        left -= n;
    }
    match hasher.finish() {
        Ok(found) => Ok(found),
        Err((_, refused)) => Err(refused),
    }
}

/// Adds a message at the end of a stream.
fn append(alloc: Global, stream: &mut Vec<u8>, msg: &PeerMsg) -> anyhow::Result<()>
    requires { HasForm msg.now }
{
    stream.extend_from_slice(write_peer(alloc, msg)?.as_slice())?;
    Ok(())
}

/// Adds what a peer says before it sends bytes of the file.
fn append_talk(
    alloc: Global,
    stream: &mut Vec<u8>,
    hash: Hash,
    set: Option<Hashes>,
) -> anyhow::Result<()> {
    append(alloc, stream, &PeerMsg::HelloAnswer(own_hello(alloc)?))?;
    let name = Bytes::new(Vec::from_slice(alloc, b"generated")?);
    append(alloc, stream, &PeerMsg::NameAnswer { hash, name })?;
    let status = PeerMsg::FileStatus {
        hash,
        count: 0,
        bits: Bits::new(Vec::new(alloc)),
    };
    append(alloc, stream, &status)?;
    if let Some(set) = set {
        append(alloc, stream, &PeerMsg::SetAnswer { hash, set })?;
    }
    append(alloc, stream, &PeerMsg::Accept)
}

/// Adds the bytes of the file, the piece again and again.
fn append_file(
    alloc: Global,
    stream: &mut Vec<u8>,
    hash: Hash,
    piece: &[u8],
    size: u32,
) -> anyhow::Result<()>
    requires { 0 < length piece.now }
{
    let mut start = 0;
    'pieces: while start < size {
        let n = piece.len().min((size - start) as usize);
        let end = start + n as u32;
        let msg = PeerMsg::SendingPart {
            hash,
            start,
            end,
            piece: Bytes::new(Vec::from_slice(alloc, &piece[..n])?),
        };
        append(alloc, stream, &msg)?;
        start = end;
    }
    Ok(())
}

/// A generated file of this size, and what a peer that shares it sends.
fn peer_of(alloc: Global, size: u64) -> anyhow::Result<(Aim, Vec<u8>)>
    ensures { IfOk result (λ made. IsSize made.0.size) }
{
    if size == 0 || size > SIZE_LIMIT {
        return Err(io::Error::from(io::ErrorKind::InvalidInput).into());
    }
    let piece = generated(alloc, PIECE)?;
    if piece.is_empty() {
        return Err(NoMemory.into());
    }
    let (hash, set) = hash_set(alloc, &piece, size as u32)?;
    let asked = if size < PART { None } else { Some(set) };
    let mut stream = Vec::new(alloc);
    append_talk(alloc, &mut stream, hash, asked)?;
    append_file(alloc, &mut stream, hash, &piece, size as u32)?;
    let aim = Aim {
        size,
        hash,
        root: None,
    };
    Ok((aim, stream))
}

/// Makes a peer's stream and the store of the file, and downloads it where that is wanted. Answers how many
/// bytes the stream has, and whether the file is complete.
pub(crate) fn run_session(
    alloc: Global,
    size: u64,
    downloads: bool,
) -> anyhow::Result<(u64, bool)> {
    let (aim, stream) = peer_of(alloc, size)?;
    let len = stream.len() as u64;
    let wire = MemWire::new(
        alloc,
        stream,
        Vec::new(alloc),
        Vec::new(alloc),
        Vec::new(alloc),
    )?;
    let vault = MemVault::new(alloc);
    let Ok(file) = PartFile::create(alloc, vault, aim) else {
        return Err(NoMemory.into());
    };
    let mut link = PeerLink::new(alloc, wire, aim);
    let mut desk = Solo { file };
    if downloads {
        fetch(&mut link, &mut desk, BUDGET);
    }
    Ok((len, desk.file.complete()))
}
