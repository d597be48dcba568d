//! How a tree divides a number of bytes.
ghost use Rattle.std.specs.Prelude.{◌≡◌, ◌<◌, ◌≤◌};
ghost use Rattle.aich_tree.specs.Kept.{kept_count};
ghost use Rattle.aich_tree.specs.Leaves.{ended_count, leaf_count, room_behind};
ghost use Rattle.aich_tree.specs.Tree.{left_bytes};
ghost use Rattle.part_sizes.specs.declared.part.TheConstants.{SIZE_LIMIT};

use part_sizes::{BLOCK, PART};

/// The blocks of a whole part.
pub const PART_BLOCKS: u64 = 53;

/// The bytes of the left child of a node over `n` bytes, which are more than a block. `left` tells whether
/// the node is a left branch, as the root is.
pub fn left_bytes(n: u64, left: bool) -> u64
    requires above { BLOCK < n }
    requires below { n ≤ SIZE_LIMIT }
    ensures value { result ≡ left_bytes n left }
    ensures some { 0 < result }
    ensures proper { result < n }
{
    let unit = if n > PART { PART } else { BLOCK };
    let units = n.div_ceil(unit);
    let half = if left { units.div_ceil(2) } else { units / 2 };
    half * unit
}

/// The leaves of so many bytes.
pub fn leaf_count(n: u64) -> usize
    requires { n ≤ SIZE_LIMIT }
    ensures { result ≡ leaf_count n }
{
    (n / PART * PART_BLOCKS + (n % PART).div_ceil(BLOCK)) as usize
}

/// The nodes over so many bytes that are parts or above parts, which a tree keeps.
pub fn kept_count(n: u64) -> usize
    requires { n ≤ SIZE_LIMIT }
    ensures { result ≡ kept_count n }
{
    (2 * n.div_ceil(PART)).saturating_sub(1) as usize
}

/// The blocks that have ended after so many bytes.
pub fn ended_count(n: u64) -> usize
    requires { n ≤ SIZE_LIMIT }
    ensures { result ≡ ended_count n }
{
    (n / PART * PART_BLOCKS + n % PART / BLOCK) as usize
}

/// The bytes that are missing up to the end of the block that is open.
pub fn room_behind(n: u64) -> u64
    ensures value { result ≡ room_behind n }
    ensures some { 0 < result }
{
    (BLOCK - n % PART % BLOCK).min(PART - n % PART)
}
