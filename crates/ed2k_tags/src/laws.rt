//! What holds of each list of tags, for the proofs of callers. Each function is there for its clause alone.

ghost use Rattle.std.specs.Prelude.{◌≡◌};
ghost use Rattle.ed2k_tags.specs.declared.read.TheConstants.{TAG_LIMIT};
ghost use Rattle.ed2k_tags.specs.Laws.{WrittenIsSpelled};

/// What is written of tags is one of their spellings, so [`crate::read_tags`] reads the same tags again.
pub fn written_is_spelled()
    ensures { WrittenIsSpelled }
{}

/// A list has at most 1,024 tags: the number that the definitions take from the constant.
pub fn lists_are_limited()
    ensures { TAG_LIMIT ≡ 1024 }
{}
