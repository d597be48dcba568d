//! Recovery data of a part, made from a tree.
ghost use Rattle.std.specs.Prelude.{◌≡◌, ◌<◌, ◌++◌, true, length, IfOk};
ghost use Rattle.byteorder.specs.Endian.{little_bytes};
ghost use Rattle.aich_tree.specs.Leaves.{part_leaves};
ghost use Rattle.aich_tree.specs.Tree.{tree as node_hash};
ghost use Rattle.part_sizes.specs.Part.{data_parts};
ghost use Rattle.aich_packet.specs.Layout.{spell};
ghost use Rattle.aich_packet.specs.Packet.{Packet, path_pairs};

use crate::layout::{Pair, append_number, append_pair, data_len};
use crate::way;
use aich_tree::Tree;
use ed2k_outside::{Bytes, NoMemory};
use std::alloc::Global;

/// Recovery data of a part: a u16 count, the pairs of the siblings on the way from the root down to the
/// part and then of its leaves from left to right, and a u16 0.
pub fn make_packet(alloc: Global, tree: &Tree, part: u16) -> Result<Bytes, NoMemory>
    requires { part < data_parts (length tree.now) }
    // It gives the tree's root and the part's leaves.
    ensures packet { IfOk result (λ bytes. Packet (length tree.now) (node_hash tree.now true) part bytes (part_leaves tree.now part)) }
    ensures order { IfOk result (λ bytes. bytes ≡ spell (path_pairs tree.now part) ++ little_bytes 2 0) }
{
    let path = way::path(alloc, tree.size(), part)?;
    let count = path.len() as u32;
    let mut out = Vec::with_capacity(alloc, data_len(count))?;
    append_number(&mut out, count)?;
    for ident in &path {
        let hash = tree.node(*ident).unwrap();
        append_pair(
            &mut out,
            Pair {
                ident: *ident,
                hash,
            },
        )?;
    }
    append_number(&mut out, 0)?;
    Ok(Bytes::new(out))
}
