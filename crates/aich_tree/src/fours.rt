//! Four blocks at a time, whose leaves are found side by side.
ghost use Rattle.std.specs.Prelude.{◌≡◌, ◌+◌, ◌*◌, ◌%◌, ◌≤◌, ◌++◌, length, vec_len, vec_capacity};
ghost use Rattle.aich_tree.specs.Hashing.{HoldsLeaves};
ghost use Rattle.aich_tree.specs.Leaves.{ended_count};
ghost use Rattle.part_sizes.specs.declared.part.TheConstants.{PART, SIZE_LIMIT};
ghost use Rattle.part_sizes.specs.declared.block.TheConstants.{BLOCK};

use noted_bytes::Noted;
use sha1::Sha1;

/// The bytes of a block, as a length.
const BLOCK_LEN: usize = part_sizes::BLOCK as usize;

/// Takes in four whole blocks of one part, where no block is open. The leaves have room for them.
pub fn take_four(leaves: &mut Vec<[u8; 20]>, _block: &Sha1, fed: &mut Noted, blocks: &[u8])
    requires whole { length blocks.now ≡ 4 * BLOCK }
    requires begins { length fed.old.bytes % PART % BLOCK ≡ 0 }
    requires in_part { length fed.old.bytes % PART + 4 * BLOCK ≤ PART }
    requires room { vec_len leaves.old + 4 ≤ vec_capacity leaves.old }
    requires holds { HoldsLeaves leaves.old.items _block.now fed.old.bytes }
    ensures fed { fed.new.bytes ≡ fed.old.bytes ++ blocks.now }
    ensures holds { HoldsLeaves leaves.new.items _block.now fed.new.bytes }
    ensures capacity { vec_capacity leaves.new ≡ vec_capacity leaves.old }
{
    let (b0, others) = blocks.split_at(BLOCK_LEN);
    let (b1, others) = others.split_at(BLOCK_LEN);
    let (b2, b3) = others.split_at(BLOCK_LEN);
    let [d0, d1, d2, d3] = sha1_lanes::digests(b0, b1, b2, b3);
    leaves.push_reserved(d0);
    leaves.push_reserved(d1);
    leaves.push_reserved(d2);
    leaves.push_reserved(d3);
    fed.note(blocks);
}

/// Takes in four blocks at a time from the front of a piece, behind the `at` bytes fed so far, while none is
/// open and a part has four more. It gives back what is left of the piece.
pub fn take_fours<'a>(
    leaves: &mut Vec<[u8; 20]>,
    block: &Sha1,
    at: u64,
    fed: &mut Noted,
    piece: &'a [u8],
) -> &'a [u8]
    requires counted { at ≡ length fed.old.bytes }
    requires below { at + length piece.now ≤ SIZE_LIMIT }
    requires room { ended_count (at + length piece.now) ≤ vec_capacity leaves.old }
    requires holds { HoldsLeaves leaves.old.items block.now fed.old.bytes }
    ensures whole { fed.new.bytes ++ result.now ≡ fed.old.bytes ++ piece.now }
    ensures counted { length fed.new.bytes + length result.now ≡ at + length piece.now }
    ensures left { length result.now ≤ length piece.now }
    ensures holds { HoldsLeaves leaves.new.items block.now fed.new.bytes }
    ensures room { ended_count (at + length piece.now) ≤ vec_capacity leaves.new }
{
    let mut rest = piece;
    let mut place = at;
    'turns: while rest.len() >= 4 * BLOCK_LEN
        && place % part_sizes::PART % part_sizes::BLOCK == 0
        && place % part_sizes::PART + 4 * part_sizes::BLOCK <= part_sizes::PART
    {
        let (front, behind) = rest.split_at(4 * BLOCK_LEN);
        take_four(leaves, block, fed, front);
        rest = behind;
        place += 4 * part_sizes::BLOCK;
    }
    rest
}
