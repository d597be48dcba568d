//! A part that is hashed on its own.
ghost use Rattle.std.specs.Prelude.{◌≡◌, ◌≢◌, ◌+◌, ◌*◌, ◌%◌, ◌≤◌, min, [], length, Err, IfOk, OnOk};
ghost use Rattle.part_sizes.specs.declared.part.TheConstants.{PART, SIZE_LIMIT};
ghost use Rattle.part_sizes.specs.declared.block.TheConstants.{BLOCK};
ghost use Rattle.blob_hasher.specs.Hashes.{HasBlobCause};
ghost use Rattle.blob_hasher.specs.Parts.{IsPart, Takes};

use crate::fault::HashFault;
use crate::reading::fill;
use aich_tree::TreeHasher;
use ed2k_outside::{Blob, NoMemory};
use md4_hash::Md4;
use std::alloc::Global;

/// The bytes of a block, as a length.
pub(crate) const BLOCK_LEN: usize = part_sizes::BLOCK as usize;

/// The bytes of four blocks.
pub(crate) const FOUR_LEN: usize = 4 * BLOCK_LEN;

/// The bytes of a part, as a length.
pub(crate) const PART_LEN: usize = part_sizes::PART as usize;

/// Both hashers of one part's bytes.
#[derive(Drop)]
pub(crate) struct PartHasher {
    pub(crate) md4: Md4,
    pub(crate) tree: TreeHasher,
}

impl PartHasher {
    /// Hashers of no bytes.
    pub(crate) fn new(alloc: Global) -> Self
        ensures md4 { result.md4 ≡ [] }
        ensures size { result.tree.size ≡ PART }
        ensures tree { result.tree.fed ≡ [] }
    {
        PartHasher {
            md4: Md4::new(),
            tree: TreeHasher::new(alloc, part_sizes::PART),
        }
    }

    /// Takes in bytes behind those so far.
    pub(crate) fn take(&mut self, bytes: &[u8]) -> Result<(), NoMemory>
        requires { length self.old.tree.fed + length bytes.now ≤ self.old.tree.size }
        ensures { OnOk result (Takes self.old self.new bytes.now) }
    {
        self.md4.update(bytes);
        self.tree.feed(bytes)
    }

    /// Takes in four whole blocks behind whole blocks. Their hashes are found side by side, and the part's
    /// beside them.
    pub(crate) fn take_blocks(&mut self, blocks: &[u8]) -> Result<(), NoMemory>
        requires same { self.old.md4 ≡ self.old.tree.fed }
        requires size { self.old.tree.size ≡ PART }
        requires begins { length self.old.md4 % BLOCK ≡ 0 }
        requires whole { length blocks.now ≡ 4 * BLOCK }
        requires fits { length self.old.md4 + 4 * BLOCK ≤ PART }
        ensures { OnOk result (Takes self.old self.new blocks.now) }
    {
        let (b0, others) = blocks.split_at(BLOCK_LEN);
        let (b1, others) = others.split_at(BLOCK_LEN);
        let (b2, b3) = others.split_at(BLOCK_LEN);
        let [d0, d1, d2, d3] = md4_lanes::update_beside_sha1(&mut self.md4, blocks, b0, b1, b2, b3);
        self.tree.feed_hashed(b0, d0)?;
        self.tree.feed_hashed(b1, d1)?;
        self.tree.feed_hashed(b2, d2)?;
        self.tree.feed_hashed(b3, d3)
    }
}

/// Reads and hashes the `len` bytes of the part that begins at `start`, four blocks at a time.
pub(crate) fn hash_part<B: Blob>(
    alloc: Global,
    blob: &mut B,
    start: u64,
    len: usize,
    buffer: &mut [u8],
) -> Result<PartHasher, HashFault>
    requires one { len ≤ PART }
    requires within { start + len ≤ SIZE_LIMIT }
    requires room { min len (4 * BLOCK) ≤ length buffer.old }
    ensures part { IfOk result (IsPart (B.bytes blob.old) start len) }
    ensures fits { result ≢ Err HashFault.BadSize }
    ensures bytes { B.bytes blob.new ≡ B.bytes blob.old }
    ensures cause { HasBlobCause (B.blob_faults blob.old) (B.blob_faults blob.new) result }
{
    let mut part = PartHasher::new(alloc);
    let mut place = 0;
    'fours: while len - place >= FOUR_LEN {
        let blocks = &mut buffer[..FOUR_LEN];
        fill(blob, start + place as u64, blocks)?;
        part.take_blocks(blocks)?;
        place += FOUR_LEN;
    }
    let rest = &mut buffer[..len - place];
    fill(blob, start + place as u64, rest)?;
    part.take(rest)?;
    Ok(part)
}
