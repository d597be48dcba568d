//! The way from the root of a tree down to a part, by identifiers.
ghost use Rattle.std.specs.Prelude.{◌≡◌, ◌+◌, ◌*◌, ◌<◌, ◌≤◌, ◌^◌, ◌++◌, OnOk, IfOk};
ghost use Rattle.part_sizes.specs.Part.{IsSize, data_parts};
ghost use Rattle.part_sizes.specs.declared.part.TheConstants.{SIZE_LIMIT};
ghost use Rattle.aich_packet.specs.Way.{leaf_idents, siblings, part_node, path};

use crate::node::Node;
use part_sizes::{BLOCK, PART};
use std::alloc::{AllocError, Global};

/// The greatest number of levels of nodes that have several parts: a file has at most 441 parts.
pub const PART_LEVELS: u32 = 9;
/// The greatest number of levels of nodes that have several blocks of a part, which has at most 53.
pub const BLOCK_LEVELS: u32 = 6;

/// Writes the leaves below a node at the end, from left to right.
fn append_leaves(out: &mut Vec<u32>, levels: u32, node: Node) -> Result<(), AllocError>
    requires room { (node.ident + 1) * 2 ^ levels ≤ 2 ^ 16 }
    requires within { node.span.e ≤ SIZE_LIMIT }
    ensures { OnOk result (out.new.items ≡ out.old.items ++ leaf_idents levels node) }
{
    if levels == 0 || node.span.len() <= BLOCK {
        out.push(node.ident)?;
        return Ok(());
    }
    let (left, right) = node.children();
    append_leaves(out, levels - 1, left)?;
    append_leaves(out, levels - 1, right)
}

/// Writes the siblings on the way from a node down to a position at the end, and answers the node of
/// the part that has the position.
fn append_siblings(out: &mut Vec<u32>, levels: u32, node: Node, at: u64) -> Result<Node, AllocError>
    requires room { (node.ident + 1) * 2 ^ levels ≤ 2 ^ 10 }
    requires within { node.span.e ≤ SIZE_LIMIT }
    ensures items { OnOk result (out.new.items ≡ out.old.items ++ siblings levels node at) }
    ensures node { IfOk result (λ found. found ≡ part_node levels node at) }
    ensures room { IfOk result (λ found. found.ident < 2 ^ 10) }
    ensures within { IfOk result (λ found. found.span.e ≤ SIZE_LIMIT) }
{
    if levels == 0 || node.span.len() <= PART {
        return Ok(node);
    }
    let (left, right) = node.children();
    if at < left.span.e {
        out.push(right.ident)?;
        append_siblings(out, levels - 1, left, at)
    } else {
        out.push(left.ident)?;
        append_siblings(out, levels - 1, right, at)
    }
}

/// The identifiers on a part's path: the siblings on the way down to it, and then its leaves from left
/// to right. They are at most 62.
pub fn path(alloc: Global, size: u64, part: u16) -> Result<Vec<u32>, AllocError>
    requires size { IsSize size }
    requires exists { part < data_parts size }
    ensures { IfOk result (λ idents. idents.items ≡ path size part) }
{
    let mut idents = Vec::new(alloc);
    let root = Node::root(size);
    let node = append_siblings(&mut idents, PART_LEVELS, root, u64::from(part) * PART)?;
    append_leaves(&mut idents, BLOCK_LEVELS, node)?;
    Ok(idents)
}
