//! The numbers that the definitions take from the constants. The function is there for its clauses alone.

ghost use Rattle.std.specs.Prelude.{◌≡◌};
ghost use Rattle.part_sizes.specs.declared.block.TheConstants.{BLOCK};
ghost use Rattle.part_sizes.specs.declared.part.TheConstants.{PART, SIZE_LIMIT};

/// A whole part has 9,728,000 bytes and a whole block 184,320; no file has more than 4,290,048,000.
pub fn sizes_are_the_networks()
    ensures part { PART ≡ 9728000 }
    ensures block { BLOCK ≡ 184320 }
    ensures limit { SIZE_LIMIT ≡ 4290048000 }
{}
