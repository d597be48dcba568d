//! Bytes that are hashed piece by piece.
use aich_tree::TreeHasher;
use ed2k_outside::NoMemory;
use md4_hash::Md4;
use part_hashset::SetHasher;
use part_sizes::SIZE_LIMIT;
use sha1::Sha1;
use std::alloc::{AllocError, Global};
use std::io;

/// The most bytes that are handed on at a time.
pub(crate) const PIECE: usize = 65_536;

/// Bytes that differ from place to place.
pub(crate) fn generated(alloc: Global, len: usize) -> Result<Vec<u8>, AllocError> {
    let mut bytes = Vec::with_capacity(alloc, len)?;
    let mut state = 1u32;
    for _ in 0..len {
        state = state.wrapping_mul(1_664_525).wrapping_add(1_013_904_223);
        bytes.push((state >> 24) as u8)?;
    }
    Ok(bytes)
}

/// Hands on as many bytes, a piece at a time, and none where the piece is empty.
fn hand_on<F: FnMut(&[u8])>(piece: &[u8], size: u64, mut take: F)
    requires { F.IsAlwaysCallable take }
{
    let mut left = size;
    'pieces: while left > 0 && !piece.is_empty() {
        let n = left.min(piece.len() as u64);
        take(&piece[..n as usize]);
        left -= n;
    }
}

pub(crate) fn hash_md4(alloc: Global, size: u64) -> Result<String, AllocError> {
    let piece = generated(alloc, PIECE)?;
    let mut hasher = Md4::new();
    hand_on(&piece, size, |bytes| hasher.update(bytes));
    hex::encode(alloc, hasher.finalize().as_slice())
}

pub(crate) fn hash_sha1(alloc: Global, size: u64) -> Result<String, AllocError> {
    let piece = generated(alloc, PIECE)?;
    let mut hasher = Sha1::new();
    hand_on(&piece, size, |bytes| hasher.update(bytes));
    hex::encode(alloc, hasher.finalize().as_slice())
}

/// The file hash of the bytes, and the root of their AICH tree.
pub(crate) fn hash_file(alloc: Global, size: u64) -> anyhow::Result<(String, String)> {
    if size == 0 || size > SIZE_LIMIT {
        return Err(io::Error::from(io::ErrorKind::InvalidInput).into());
    }
    let piece = generated(alloc, PIECE)?;
    if piece.is_empty() {
        return Err(NoMemory.into());
    }
    let mut set = SetHasher::new(alloc);
    let mut tree = TreeHasher::new(alloc, size);
    let mut left = size;
    'pieces: while left > 0 {
        let n = left.min(piece.len() as u64);
        let bytes = &piece[..n as usize];
        set.feed(bytes)?;
        tree.feed(bytes)?;
        left -= n;
    }
    let Ok(found) = set.finish() else {
        return Err(NoMemory.into());
    };
    let Ok(tree) = tree.finish() else {
        return Err(NoMemory.into());
    };
    let hash = hex::encode(alloc, found.0.as_slice())?;
    let root = hex::encode(alloc, tree.root().as_slice())?;
    Ok((hash, root))
}
