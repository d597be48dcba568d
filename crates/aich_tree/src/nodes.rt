//! A tree as it is kept: its leaves, its parts and the nodes above them, and the hash of any node by its
//! identifier.
ghost use Rattle.std.specs.Prelude.{◌≡◌, ◌<◌, ◌≤◌, [], true, length, IfOk, vec_capacity};
ghost use Rattle.aich_tree.specs.Ident.{node};
ghost use Rattle.aich_tree.specs.Kept.{kept_count};
ghost use Rattle.aich_tree.specs.Leaves.{leaves_of, part_leaves};
ghost use Rattle.aich_tree.specs.Tree.{tree};
ghost use Rattle.part_sizes.specs.Part.{IsSize, data_parts};

use crate::shape::{self, PART_BLOCKS};
use crate::{folding, ident};
use ed2k_outside::NoMemory;
use noted_bytes::Noted;
use part_sizes::{Roots, block_count};
use std::alloc::Global;
use std::marker::Model;

/// The AICH hash tree of a file.
///
/// A clause sees it as the file's bytes, of which it keeps the hashes of the leaves, of the parts and of the
/// nodes above them. So a node's hash is found in the time of its way from the root, and of the blocks below
/// it where it stands within a part.
#[derive(Drop)]
pub struct Tree {
    size: u64,
    leaves: Vec<[u8; 20]>,
    // The parts and the nodes above them, a node behind its children.
    kept: Vec<[u8; 20]>,
    root: [u8; 20],
    fed: Noted,
}

impl Model for Tree {
    ghost use Rattle.std.specs.Prelude.{List, ℕ};
    ghost use Rattle.aich_tree.specs.Nodes.{IsTreeOf};

    ghost Value = { List ℕ };

    ghost view = { λ t. t.fed.bytes };

    ghost invariant = { λ t. IsTreeOf t.size t.leaves.items t.kept.items t.root t.fed.bytes };
}

impl Tree {
    /// The tree with these leaves. The empty vector has room for the parts and the nodes above them.
    pub(crate) fn new(size: u64, leaves: Vec<[u8; 20]>, mut kept: Vec<[u8; 20]>, fed: Noted) -> Self
        requires size { IsSize size }
        requires counted { size ≡ length fed.bytes }
        requires leaves { leaves.items ≡ leaves_of fed.bytes }
        requires empty { kept.items ≡ [] }
        requires room { kept_count size ≤ vec_capacity kept }
        ensures { result ≡ fed.bytes }
    {
        let root = folding::append_kept(&mut kept, &leaves, size, true);
        Tree {
            size,
            leaves,
            kept,
            root,
            fed,
        }
    }

    /// The number of bytes of the file.
    pub fn size(&self) -> u64
        ensures value { result ≡ length self.now }
        ensures limits { IsSize result }
    {
        self.size
    }

    /// The hash of the whole file.
    pub fn root(&self) -> [u8; 20]
        ensures { result ≡ tree self.now true }
    {
        self.root
    }

    /// The hash of the node with this identifier; `None` exactly where the tree has no such node.
    pub fn node(&self, ident: u32) -> Option<[u8; 20]>
        ensures { result ≡ node self.now ident }
    {
        let place = ident::find(self.size, ident)?;
        let n = place.span.len();
        if let Some(first) = place.kept {
            return Some(self.kept[first + shape::kept_count(n) - 1]);
        }
        let leaves = &self.leaves[place.leaf..place.leaf + shape::leaf_count(n)];
        Some(folding::fold(leaves, n, ident::is_left(ident)))
    }

    /// The hashes of a part's blocks, in order.
    pub fn leaves(&self, alloc: Global, part: u16) -> Result<Roots, NoMemory>
        requires { part < data_parts (length self.now) }
        ensures { IfOk result (λ leaves. leaves ≡ part_leaves self.now part) }
    {
        let first = usize::from(part) * PART_BLOCKS as usize;
        let count = usize::from(block_count(self.size, part));
        let leaves = &self.leaves[first..first + count];
        Ok(Roots::new(Vec::from_slice(alloc, leaves)?))
    }
}
