//! What a log file is of.

use part_hashset::Aim;
use part_sizes::{Hash, Root};

/// The greatest size of a file that this layout of the log keeps, in bytes.
pub const SIZE_LIMIT: u64 = 4_290_048_000;

/// What a log file is of.
#[derive(Clone, Copy, Debug, PartialEq, Eq)]
pub struct Header {
    /// The number of bytes of the file, from 1 to [`SIZE_LIMIT`].
    pub size: u64,
    /// The file's hash.
    pub hash: Hash,
    /// The root of the file's AICH tree, where it is kept.
    pub root: Option<Root>,
}

impl Header {
    ghost use Rattle.std.specs.Prelude.{◌≡◌};
    ghost use Rattle.journal_core.specs.LogFile.{aim_of};

    /// The file that is wanted, as the header has it.
    pub fn aim(&self) -> Aim
        ensures { result ≡ aim_of self.now }
    {
        Aim {
            size: self.size,
            hash: self.hash,
            root: self.root,
        }
    }
}
