//! The leaves of a stream, as its pieces come.
ghost use Rattle.std.specs.Prelude.{◌≡◌, ◌+◌, ◌<◌, ◌≤◌, ◌++◌, length, vec_len, vec_capacity};
ghost use Rattle.aich_tree.specs.Hashing.{HoldsLeaves};
ghost use Rattle.aich_tree.specs.Leaves.{ended_count};
ghost use Rattle.part_sizes.specs.declared.part.TheConstants.{SIZE_LIMIT};

use crate::shape;
use noted_bytes::Noted;
use sha1::Sha1;
use std::mem;

/// Takes in a piece behind the `at` bytes fed so far, and tells how many they are then. The leaves
/// have room for each block that ends in it.
pub fn absorb(
    leaves: &mut Vec<[u8; 20]>,
    block: &mut Sha1,
    at: u64,
    fed: &mut Noted,
    piece: &[u8],
) -> u64
    requires counted { at ≡ length fed.old.bytes }
    requires below { at + length piece.now ≤ SIZE_LIMIT }
    requires room { ended_count (at + length piece.now) ≤ vec_capacity leaves.old }
    requires holds { HoldsLeaves leaves.old.items block.old fed.old.bytes }
    ensures counted { result ≡ at + length piece.now }
    ensures fed { fed.new.bytes ≡ fed.old.bytes ++ piece.now }
    ensures holds { HoldsLeaves leaves.new.items block.new (fed.old.bytes ++ piece.now) }
{
    let mut rest = piece;
    let mut place = at;
    let mut room = shape::room_behind(place) as usize;
    'ends: while rest.len() >= room {
        let (front, behind) = rest.split_at(room);
        block.update(front);
        fed.note(front);
        let full = mem::replace(block, Sha1::new());
        leaves.push_reserved(full.finalize());
        rest = behind;
        place += room as u64;
        room = shape::room_behind(place) as usize;
    }
    block.update(rest);
    fed.note(rest);
    at + piece.len() as u64
}
