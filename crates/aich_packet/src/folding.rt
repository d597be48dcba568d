//! The root that a part's hashes give.
ghost use Rattle.std.specs.Prelude.{◌≡◌, ◌+◌, ◌*◌, ◌<◌, ◌≤◌, ◌^◌, map, IfOk};
ghost use Rattle.part_sizes.specs.Part.{IsSize, data_parts};
ghost use Rattle.part_sizes.specs.declared.part.TheConstants.{SIZE_LIMIT};
ghost use Rattle.aich_packet.specs.Folding.{fold_leaves, fold_way, folds};
ghost use Rattle.aich_packet.specs.Packet.{hash_of};

use crate::layout::Pair;
use crate::node::Node;
use crate::way::{BLOCK_LEVELS, PART_LEVELS};
use aich_tree::join;
use part_sizes::{BLOCK, PART};
use std::alloc::{AllocError, Global};

/// The hash that the pairs give to a node, and zeros where it isn't there.
pub fn hash_of(pairs: &[Pair], ident: u32) -> [u8; 20]
    ensures { result ≡ hash_of pairs.now ident }
{
    for pair in pairs {
        if pair.ident == ident {
            return pair.hash;
        }
    }
    [0; 20]
}

/// The hash of a node of a part.
fn fold_leaves(pairs: &[Pair], levels: u32, node: Node) -> [u8; 20]
    requires room { (node.ident + 1) * 2 ^ levels ≤ 2 ^ 16 }
    requires within { node.span.e ≤ SIZE_LIMIT }
    ensures { result ≡ fold_leaves levels (hash_of pairs.now) node }
{
    if levels == 0 || node.span.len() <= BLOCK {
        return hash_of(pairs, node.ident);
    }
    let (left, right) = node.children();
    let first = fold_leaves(pairs, levels - 1, left);
    let second = fold_leaves(pairs, levels - 1, right);
    join(&first, &second)
}

/// The hash of a node on the way to the part that has a position.
fn fold_way(pairs: &[Pair], levels: u32, node: Node, at: u64) -> [u8; 20]
    requires room { (node.ident + 1) * 2 ^ levels ≤ 2 ^ 10 }
    requires within { node.span.e ≤ SIZE_LIMIT }
    ensures { result ≡ fold_way levels (hash_of pairs.now) node at }
{
    if levels == 0 || node.span.len() <= PART {
        return fold_leaves(pairs, BLOCK_LEVELS, node);
    }
    let (left, right) = node.children();
    if at < left.span.e {
        let first = fold_way(pairs, levels - 1, left, at);
        join(&first, &hash_of(pairs, right.ident))
    } else {
        let second = fold_way(pairs, levels - 1, right, at);
        join(&hash_of(pairs, left.ident), &second)
    }
}

/// The root that the pairs give, on a part's path.
pub fn fold(pairs: &[Pair], size: u64, part: u16) -> [u8; 20]
    requires size { IsSize size }
    requires exists { part < data_parts size }
    ensures { result ≡ folds size part (hash_of pairs.now) }
{
    let at = u64::from(part) * PART;
    fold_way(pairs, PART_LEVELS, Node::root(size), at)
}

/// The hashes that the pairs give to nodes, in order.
pub fn hashes_of(alloc: Global, pairs: &[Pair], idents: &[u32]) -> Result<Vec<[u8; 20]>, AllocError>
    ensures { IfOk result (λ hashes. hashes.items ≡ map (hash_of pairs.now) idents.now) }
{
    let mut hashes = Vec::with_capacity(alloc, idents.len())?;
    for ident in idents {
        hashes.push(hash_of(pairs, *ident))?;
    }
    Ok(hashes)
}
