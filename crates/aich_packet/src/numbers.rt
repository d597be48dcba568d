//! The numbers that the definitions take from the constants, and why they are right. The functions are there for their
//! clauses alone.

ghost use Rattle.std.specs.Prelude.{◌≡◌};
ghost use Rattle.aich_packet.specs.declared.way.TheConstants.{PART_LEVELS, BLOCK_LEVELS};
ghost use Rattle.aich_packet.specs.WayLaws.{LeavesAreBlocks, PathsAreShort, WaysReachParts};

/// A file has at most 441 parts, so the way from its root to a part has at most 9 steps; a part has at
/// most 53 blocks, so the way from it to a leaf has at most 6.
pub fn ways_are_short()
    ensures parts { PART_LEVELS ≡ 9 }
    ensures blocks { BLOCK_LEVELS ≡ 6 }
{}

/// What makes these numbers right: the way to a part ends at the node over the part, and the leaves on its path are the
/// nodes over its blocks, in order. So a path has at most 62 identifiers.
pub fn ways_reach_parts_and_blocks()
    ensures parts { WaysReachParts }
    ensures leaves { LeavesAreBlocks }
    ensures short { PathsAreShort }
{}
