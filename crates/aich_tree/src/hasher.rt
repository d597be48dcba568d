//! The hasher of a tree: it is fed a file's bytes and gives the tree.
ghost use Rattle.std.specs.Prelude.{◌≡◌, ◌+◌, ◌%◌, ◌≤◌, [], ◌++◌, length, IfErr, IfOk, is_ok, if◌then◌else◌};
ghost use Rattle.aich_tree.specs.Leaves.{room_behind};
ghost use Rattle.part_sizes.specs.Part.{IsSize};
ghost use Rattle.part_sizes.specs.declared.part.TheConstants.{PART};
ghost use Rattle.part_sizes.specs.declared.block.TheConstants.{BLOCK};
ghost use Rattle.sha1.specs.Sha1.{sha1};

use crate::nodes::Tree;
use crate::{fours, shape, stream};
use ed2k_outside::NoMemory;
use noted_bytes::Noted;
use part_sizes::{BLOCK, PART};
use sha1::Sha1;
use std::alloc::Global;
use std::marker::Model;

/// The tree of a file whose bytes come piece by piece: `new`, a `feed` for each piece, and `finish`.
/// It takes memory for the leaves, and at its end for the parts and the nodes above them.
///
/// A clause sees it as the file's size and the bytes fed so far.
#[derive(Drop)]
pub struct TreeHasher {
    size: u64,
    // The number of bytes fed.
    at: u64,
    leaves: Vec<[u8; 20]>,
    block: Sha1,
    fed: Noted,
}

impl Model for TreeHasher {
    ghost use Rattle.aich_tree.specs.Hashing.{Hashing, IsHashing};

    ghost Value = { Hashing };

    ghost view = { λ h. record { size = h.size; fed = h.fed.bytes } };

    ghost invariant = { λ h. IsHashing h.size h.at h.leaves.items h.block h.fed.bytes };
}

impl TreeHasher {
    /// A hasher of no bytes yet, for a file of this size. It takes no memory.
    pub fn new(alloc: Global, size: u64) -> Self
        requires { IsSize size }
        ensures { result ≡ record { size = size; fed = [] } }
    {
        TreeHasher {
            size,
            at: 0,
            leaves: Vec::new(alloc),
            block: Sha1::new(),
            fed: Noted::new(),
        }
    }

    /// Adds a piece behind the bytes fed so far. All of them together are at most the file's size. Where
    /// memory is refused, nothing of the piece was fed.
    pub fn feed(&mut self, piece: &[u8]) -> Result<(), NoMemory>
        requires { length self.old.fed + length piece.now ≤ self.old.size }
        ensures size { self.new.size ≡ self.old.size }
        ensures fed { self.new.fed ≡ (if is_ok result then self.old.fed ++ piece.now else self.old.fed) }
    {
        let ended = shape::ended_count(self.at + piece.len() as u64);
        self.leaves.reserve(ended - self.leaves.len())?;
        let rest = fours::take_fours(&mut self.leaves, &self.block, self.at, &mut self.fed, piece);
        self.at = stream::absorb(
            &mut self.leaves,
            &mut self.block,
            self.at + (piece.len() - rest.len()) as u64,
            &mut self.fed,
            rest,
        );
        Ok(())
    }

    /// Adds a block whose hash was found already, where no block is open: for a caller that hashes several
    /// side by side. The block is whole, or the last of a whole part. Where memory is refused, nothing of it
    /// was fed.
    pub fn feed_hashed(&mut self, block: &[u8], hash: [u8; 20]) -> Result<(), NoMemory>
        requires room { length self.old.fed + length block.now ≤ self.old.size }
        requires begins { length self.old.fed % PART % BLOCK ≡ 0 }
        requires whole { length block.now ≡ room_behind (length self.old.fed) }
        requires hashed { hash ≡ sha1 block.now }
        ensures size { self.new.size ≡ self.old.size }
        ensures fed { self.new.fed ≡ (if is_ok result then self.old.fed ++ block.now else self.old.fed) }
    {
        self.leaves.push(hash)?;
        self.at += block.len() as u64;
        self.fed.note(block);
        Ok(())
    }

    /// Adds the bytes that another hasher was fed, behind whole parts: for a caller that hashes parts each on
    /// its own. Where memory is refused, nothing of them was fed.
    pub fn append(&mut self, other: TreeHasher) -> Result<(), NoMemory>
        requires room { length self.old.fed + length other.fed ≤ self.old.size }
        requires begins { length self.old.fed % PART ≡ 0 }
        ensures size { self.new.size ≡ self.old.size }
        ensures fed { self.new.fed ≡ (if is_ok result then self.old.fed ++ other.fed else self.old.fed) }
    {
        let TreeHasher {
            size: _,
            at,
            leaves,
            block,
            fed,
        } = other;
        self.leaves.extend_from_slice(&leaves)?;
        self.at += at;
        self.block = block;
        self.fed.append(&fed);
        Ok(())
    }

    /// The tree over all bytes fed, which are the file's, however they were cut into pieces. Where
    /// memory is refused, the hasher comes back as it was.
    pub fn finish(mut self) -> Result<Tree, (TreeHasher, NoMemory)>
        requires { length self.fed ≡ self.size }
        ensures tree { IfOk result (λ tree. tree ≡ self.fed) }
        ensures refused { IfErr result (λ kept. kept.0 ≡ self) }
    {
        if self.leaves.reserve(1).is_err() {
            return Err((self, NoMemory));
        }
        let room = shape::kept_count(self.size);
        let Ok(kept) = Vec::with_capacity(*self.leaves.allocator(), room) else {
            return Err((self, NoMemory));
        };
        let TreeHasher {
            size,
            at: _,
            mut leaves,
            block,
            fed,
        } = self;
        if size % PART % BLOCK > 0 {
            leaves.push_reserved(block.finalize());
        }
        Ok(Tree::new(size, leaves, kept, fed))
    }
}
