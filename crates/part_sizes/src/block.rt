//! The blocks of a part.
ghost use Rattle.std.specs.Prelude.{◌≡◌, ℕ, ◌<◌, IsTrue};
ghost use Rattle.part_sizes.specs.Block.{block_count, block_range, block_of};
ghost use Rattle.part_sizes.specs.Part.{IsSize, data_parts, part_range, part_of};
ghost use Rattle.part_sizes.specs.Span.{has};
ghost use Rattle.part_sizes.specs.Tiles.{Tiles};

use crate::part::{PART, part_range};
use crate::span::Span;

/// The bytes of a whole block.
pub const BLOCK: u64 = 184_320;

/// The number of blocks of a part. They follow one another and make up the part.
pub fn block_count(size: u64, part: u16) -> u16
    requires size { IsSize size }
    requires exists { part < data_parts size }
    ensures value { result ≡ block_count size part }
    ensures blocks { Tiles (part_range size part) (block_count size part) (block_range size part) }
{
    part_range(size, part).len().div_ceil(BLOCK) as u16
}

/// The positions of a block of a part. All blocks of a part but its last are whole.
pub fn block_range(size: u64, part: u16, block: u16) -> Span
    requires size { IsSize size }
    requires part { part < data_parts size }
    requires block { block < block_count size part }
    ensures { result ≡ block_range size part block }
{
    let range = part_range(size, part);
    let start = range.s + u64::from(block) * BLOCK;
    Span {
        s: start,
        e: range.e.min(start + BLOCK),
    }
}

/// The one block that has a position, among the blocks of the position's part.
pub fn block_of(size: u64, position: u64) -> u16
    requires size { IsSize size }
    requires within { position < size }
    ensures value { result ≡ block_of position }
    ensures exists { result < block_count size (part_of position) }
    ensures here { IsTrue (has (block_range size (part_of position) result) position) }
    ensures alone { (k : ℕ)
        → IsTrue (has (block_range size (part_of position) k) position) → k ≡ result }
{
    (position % PART / BLOCK) as u16
}
